//! The rows of some of a graph's vertices, made in one thread.
ghost use Rattle.std.specs.Prelude.{◌≡◌, ◌≤◌, IfOk};
ghost use Rattle.edge_text.specs.Edges.{HasEdge, HaveIds};
ghost use Rattle.graph_store.specs.Pairs.{rank};
ghost use Rattle.graph_store.specs.Rows.{AreRowsAlong};

use crate::pairs::{Pair, pairs_between};
use crate::rows::{Rows, cut_rows};
use edge_text::EdgeList;
use std::alloc::{AllocError, Global};

// The place of a pair in the order of pairs: by the vertex that it leaves, then by the one that it leads to.
// One comparison of it takes less time than two of ids.
fn rank_of(pair: &Pair) -> u64
    ensures { result ≡ rank pair.now }
{
    u64::from(pair.from) * (1 << 32) + u64::from(pair.to)
}

/// The rows of the vertices from `first` on and before `end`.
pub fn band(
    alloc: Global,
    list: &EdgeList,
    both: bool,
    first: u32,
    end: u32,
) -> Result<Rows, AllocError>
    requires ids { HaveIds list.now.edges.items }
    requires ordered { first ≤ end }
    ensures { IfOk result (AreRowsAlong (HasEdge (record { edges = list.now.edges.items; both = both })) first end) }
{
    let mut pairs = pairs_between(alloc, list, both, first, end)?;
    pairs.sort_unstable_by_key(|pair| rank_of(pair));
    cut_rows(alloc, &pairs, first, end)
}
