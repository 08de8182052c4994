//! A graph, whose rows are made on all processors.
ghost use Rattle.std.specs.Prelude.{◌^◌, ◌<◌, IfOk};
ghost use Rattle.std.specs.List.Sorted.{IsStrictlyIncreasing};
ghost use Rattle.edge_text.specs.Edges.{HaveIds};

use edge_text::EdgeList;
use graph_store::build;
use std::alloc::{AllocError, Global};
use std::thread::Threads;

/// The vertices next to a vertex, rising, whichever way the edges lead. As a source the vertex is one of the graph's, with or
/// without edges.
pub fn neighbours<R: Threads + Sync>(
    rt: &R,
    alloc: Global,
    list: &EdgeList,
    vertex: u32,
) -> Result<Vec<u32>, AllocError>
    requires ids { HaveIds list.now.edges.items }
    requires vertex { vertex < 2 ^ 24 }
    ensures { IfOk result (λ next. IsStrictlyIncreasing next.items) }
{
    let graph = build(rt, alloc, list, &[vertex], true)?;
    graph.row(vertex).to_vec(alloc)
}
