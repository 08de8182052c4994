ghost use Rattle.std.specs.Prelude.{◌≡◌, [], ◌∷◌, ◌++◌, IfOk, OnOk};
ghost use Rattle.std.specs.List.{filter};
ghost use Rattle.graph_store.specs.Pairs.{leaves_between, pairs_of};

use edge_text::{Edge, EdgeList};
use std::alloc::{AllocError, Global};

/// Two vertices, of which the one leads to the other.
#[derive(Clone, Copy, Debug, PartialEq, Eq, PartialOrd, Ord)]
pub struct Pair {
    pub from: u32,
    pub to: u32,
}

/// Puts the pairs of edges in their order, also those that repeat, in place of those that are there. Where `both` is true
/// each edge makes two, the second reversed. A pair takes 8 bytes. An error is want of memory.
pub(crate) fn take_pairs(
    pairs: &mut Vec<Pair>,
    edges: &[Edge],
    both: bool,
) -> Result<(), AllocError>
    ensures { OnOk result (pairs.new.items ≡ pairs_of both edges.now) }
{
    pairs.clear();
    for edge in edges {
        pairs.push(Pair {
            from: edge.from,
            to: edge.to,
        })?;
        if both {
            pairs.push(Pair {
                from: edge.to,
                to: edge.from,
            })?;
        }
    }
    Ok(())
}

/// The pairs of an edge list, in the order of its edges, that leave a vertex from `first` on and before `end`.
pub(crate) fn pairs_between(
    alloc: Global,
    list: &EdgeList,
    both: bool,
    first: u32,
    end: u32,
) -> Result<Vec<Pair>, AllocError>
    ensures { IfOk result (λ pairs. pairs.items ≡ filter (leaves_between first end) (pairs_of both list.now.edges.items)) }
{
    let mut pairs = Vec::new(alloc);
    for edge in &list.edges {
        push_between(&mut pairs, edge.from, edge.to, first, end)?;
        if both {
            push_between(&mut pairs, edge.to, edge.from, first, end)?;
        }
    }
    Ok(pairs)
}

// Adds the pair if it leaves a vertex between the two.
fn push_between(
    pairs: &mut Vec<Pair>,
    from: u32,
    to: u32,
    first: u32,
    end: u32,
) -> Result<(), AllocError>
    ensures { OnOk result (pairs.new.items ≡ pairs.old.items ++ filter (leaves_between first end) (record { from = from; to = to } ∷ [])) }
{
    if first <= from && from < end {
        pairs.push(Pair { from, to })?;
    }
    Ok(())
}
