ghost use Rattle.std.specs.Prelude.{◌≡◌, ℕ, ◌+◌, ◌<◌, ◌≤◌, ◌^◌, ◌||◌, All, IfOk, length, max, min};
ghost use Rattle.std.specs.List.{AllZip};
ghost use Rattle.std.specs.List.Sorted.{IsStrictlyIncreasing};
ghost use Rattle.edge_text.specs.Edges.{HasEdge, HaveIds};
ghost use Rattle.graph_store.specs.Bands.{StepsTo};
ghost use Rattle.graph_store.specs.Rows.{AreRowsAlong, row_of};
ghost use Rattle.graph_store.specs.Vertices.{vertex_count};

use crate::bands::band;
use crate::rows::Rows;
use crate::vertices::count_vertices;
use edge_text::EdgeList;
use rayon::current_num_threads;
use rayon::prelude::*;
use std::alloc::{AllocError, Global};
use std::marker::Model;
use std::thread::Threads;

/// For each vertex the vertices that an edge leads to from it, rising, each once. An edge takes 4 bytes, and so does a vertex.
#[derive(Drop)]
pub struct Graph {
    vertices: u32,
    // how many vertices a band has; the last may have fewer
    width: u32,
    bands: Vec<Rows>,
}

// Clauses see the list of the rows.
impl Model for Graph {
    ghost use Rattle.std.specs.Prelude.{ℕ, List};
    ghost use Rattle.graph_store.specs.Bands.{AreBands, joined};

    ghost Value = { List (List ℕ) };

    ghost view = { λ graph. joined graph.bands.items };

    ghost invariant = { λ graph. AreBands graph.width graph.vertices graph.bands.items };
}

impl Graph {
    /// How many vertices there are: one more than the greatest of all ids and sources.
    pub fn vertices(&self) -> u32
        ensures { result ≡ length self.now }
    {
        self.vertices
    }

    /// The vertices that an edge leads to from this one, each below the next.
    pub fn row(&self, vertex: u32) -> &[u32]
        requires { vertex < length self.now }
        ensures row { result.now ≡ row_of self.now vertex }
        ensures rising { IsStrictlyIncreasing result.now }
    {
        let band = &self.bands[(vertex / self.width) as usize];
        band.row((vertex % self.width) as usize)
    }
}

// How many vertices a band has, for a band for each thread.
fn band_width(vertices: u32, threads: usize) -> u32
    requires { 1 ≤ threads }
    ensures some { 0 < result }
    ensures few { result ≤ max 1 vertices }
{
    (vertices as usize).div_ceil(threads).max(1) as u32
}

// Where each band begins.
fn band_starts(alloc: Global, width: u32, vertices: u32) -> Result<Vec<u32>, AllocError>
    requires some { 0 < width }
    requires few { width + vertices < 2 ^ 32 }
    ensures steps { IfOk result (λ starts. (end : ℕ) × StepsTo width 0 starts.items end × (vertices ≤ end)) }
    ensures within { IfOk result (λ starts. All (λ start. start < vertices) starts.items) }
{
    let mut starts = Vec::new(alloc);
    let mut first = 0;
    while first < vertices {
        starts.push(first)?;
        first += width;
    }
    Ok(starts)
}

// The rows of all bands, each made in a thread.
fn make_bands(
    rt: &(impl Threads + Sync),
    alloc: Global,
    list: &EdgeList,
    both: bool,
    starts: &[u32],
    width: u32,
    vertices: u32,
) -> Result<Vec<Rows>, AllocError>
    requires ids { HaveIds list.now.edges.items }
    requires few { width + vertices < 2 ^ 32 }
    requires starts { All (λ start. start < vertices) starts.now }
    ensures { IfOk result (λ bands. AllZip (λ start rows. AreRowsAlong (HasEdge (record { edges = list.now.edges.items; both = both })) start (min (start + width) vertices) rows) starts.now bands.items) }
{
    starts
        .par_iter()
        .with_min_len(1)
        .map(
            |start: &u32| -> Result<Rows, AllocError>
                requires { HaveIds list.now.edges.items × (start.now < vertices) × (width + vertices < 2 ^ 32) }
                ensures { IfOk result (AreRowsAlong (HasEdge (record { edges = list.entry.now.edges.items; both = both })) start.now (min (start.now + width) vertices)) }
            { band(alloc, list, both, *start, (*start + width).min(vertices)) },
        )
        .collect::<Result<Vec<Rows>, AllocError>>(rt, alloc)?
}

/// The graph of the edges, whose vertices are numbered up to the greatest of all ids and sources. Where `both` is true, or the
/// list says so, each edge leads both ways. The rows are sorted and cut in bands, on all processors. An error is want of memory, of
/// which it takes 8 bytes for each pair while it sorts.
pub fn build(
    rt: &(impl Threads + Sync),
    alloc: Global,
    edges: &EdgeList,
    sources: &[u32],
    both: bool,
) -> Result<Graph, AllocError>
    requires ids { HaveIds edges.now.edges.items }
    requires sources { All (λ source. source < 2 ^ 24) sources.now }
    ensures rows { IfOk result (AreRowsAlong (HasEdge (record { edges = edges.now.edges.items; both = both || edges.now.both })) 0 (vertex_count edges.now.edges.items sources.now)) }
    ensures sources { IfOk result (λ graph. All (λ source. source < length graph) sources.now) }
{
    let vertices = count_vertices(&edges.edges, sources);
    let width = band_width(vertices, current_num_threads(rt));
    let starts = band_starts(alloc, width, vertices)?;
    let both = both | edges.both;
    let bands = make_bands(rt, alloc, edges, both, &starts, width, vertices)?;
    Ok(Graph {
        vertices,
        width,
        bands,
    })
}
