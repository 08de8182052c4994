ghost use Rattle.std.specs.Prelude.{◌≡◌, ◌+◌, ◌<◌, ◌≤◌, ◌++◌, IfOk, OnOk, length};
ghost use Rattle.std.specs.List.Sorted.{IsNonDecreasingBy};
ghost use Rattle.graph_store.specs.Pairs.{AreFrom, HasPair, rank};
ghost use Rattle.graph_store.specs.Rows.{AreRowsAlong, BeginsRow, distinct_targets, row_of};

use crate::pairs::Pair;
use std::alloc::{AllocError, Global};
use std::marker::Model;

/// Rows of numbers, one behind the other: 4 bytes for a number and 4 for a row.
#[derive(Drop)]
pub struct Rows {
    pub(crate) targets: Vec<u32>,
    // where each row begins in the targets, and then where the last one ends
    pub(crate) starts: Vec<u32>,
}

// Clauses see the list of the rows.
impl Model for Rows {
    ghost use Rattle.std.specs.Prelude.{ℕ, List};
    ghost use Rattle.std.specs.Prelude.{length};
    ghost use Rattle.graph_store.specs.Rows.{AreStarts, rows_of};

    ghost Value = { List (List ℕ) };

    ghost view = { λ rows. rows_of rows.targets.items rows.starts.items };

    ghost invariant = { λ rows. AreStarts rows.starts.items (length rows.targets.items) };
}

impl Rows {
    /// How many rows there are.
    pub fn count(&self) -> usize
        ensures { result ≡ length self.now }
    {
        self.starts.len() - 1
    }

    /// The row at the place.
    pub fn row(&self, place: usize) -> &[u32]
        requires { place < length self.now }
        ensures { result.now ≡ row_of self.now place }
    {
        let begin = self.starts[place];
        let end = self.starts[place + 1];
        &self.targets[begin as usize..end as usize]
    }
}

// Where the row of the vertex ends, if it begins at the start.
fn row_end(pairs: &[Pair], start: usize, vertex: u32) -> usize
    requires sorted { IsNonDecreasingBy (λ pair. pair.from) pairs.now }
    requires start { BeginsRow pairs.now vertex start }
    ensures { BeginsRow pairs.now (vertex + 1) result }
{
    let mut end = start;
    while end < pairs.len() && pairs[end].from <= vertex {
        end += 1;
    }
    end
}

// Adds the targets of a row, of which equal ones stand side by side, each once.
fn push_targets(targets: &mut Vec<u32>, row: &[Pair]) -> Result<(), AllocError>
    ensures { OnOk result (targets.new.items ≡ targets.old.items ++ distinct_targets row.now) }
{
    let Some((first, rest)) = row.split_first() else {
        return Ok(());
    };
    let mut last = first.to;
    for pair in rest {
        if pair.to != last {
            targets.push(last)?;
            last = pair.to;
        }
    }
    targets.push(last)?;
    Ok(())
}

/// The rows of the vertices from `first` on and before `end`: for each the vertices to which a pair leads from it, each once.
/// The pairs stand in their order. From 2^32 targets on it answers that there is no memory.
pub fn cut_rows(alloc: Global, pairs: &[Pair], first: u32, end: u32) -> Result<Rows, AllocError>
    requires sorted { IsNonDecreasingBy rank pairs.now }
    requires from { AreFrom first pairs.now }
    requires ordered { first ≤ end }
    ensures { IfOk result (λ rows. AreRowsAlong (HasPair pairs.now) first end rows) }
{
    let mut targets = Vec::with_capacity(alloc, pairs.len())?;
    let mut starts = Vec::with_capacity(alloc, (end - first) as usize + 1)?;
    starts.push(0)?;
    let mut place = 0;
    for vertex in first..end {
        let next = row_end(pairs, place, vertex);
        push_targets(&mut targets, &pairs[place..next])?;
        let Ok(start) = u32::try_from(targets.len()) else {
            return Err(AllocError);
        };
        starts.push(start)?;
        place = next;
    }
    Ok(Rows { targets, starts })
}
