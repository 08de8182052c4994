//! Levels of a graph, from a list that the code makes and from a text.
ghost use Rattle.std.specs.Prelude.{◌≡◌, ℕ, List, [], ◌∷◌, Some, IfOk, MatchOption, slice_get};
ghost use Rattle.edge_text.specs.Edges.{HasEdge, PlainEdges};
ghost use Rattle.edge_text.specs.EdgeText.{IsEdgeText};
ghost use Rattle.levels_engine.specs.Levels.{HasNoLevel, IsLevelNumber};

use anyhow::Result;
use edge_text::{Edge, EdgeList, read_edges};
use levels_engine::plain;
use shared_io::Source;
use std::alloc::{AllocError, Global};

/// The level of each vertex of a road from 0 by 1 to 2, seen from 0.
pub fn levels_of_road(alloc: Global) -> Result<Vec<u32>, AllocError> {
    let mut list = EdgeList {
        edges: Vec::new(alloc),
        both: false,
    };
    list.edges.push(Edge {
        from: 0,
        to: 1,
        weight: 1,
    })?;
    list.edges.push(Edge {
        from: 1,
        to: 2,
        weight: 1,
    })?;
    plain(alloc, &list, &[0])
}

/// The level of each vertex of the list that the source gives, seen from 0.
pub fn levels_of_text<S: Source>(alloc: Global, source: &mut S) -> Result<Vec<u32>>
    ensures { (input : List ℕ) (list : PlainEdges) → S.left source.old ≡ Some input → IsEdgeText input list
        → IfOk result (λ levels. (vertex : ℕ) → MatchOption (slice_get levels.items vertex)
        (HasNoLevel (HasEdge list) (0 ∷ []) vertex) (IsLevelNumber (HasEdge list) (0 ∷ []) vertex)) }
{
    let list = read_edges(alloc, source)?;
    Ok(plain(alloc, &list, &[0])?)
}
