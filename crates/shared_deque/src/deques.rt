//! A deque as its callers share it.
ghost use Rattle.std.specs.Prelude.{◌≡◌, ◌+◌, ◌*◌, ◌<◌, ◌≤◌};
ghost use Rattle.pass_table.specs.Passes.{table_of, plan_of};

use crate::clients::{DequeClient, Plan, Stage};
use crate::layout::Word;
use pass_table::{CallerSeat, Note, Pass, PassTable};
use seq_objects::{DequeCall, DequeReply, Keeps};
use std::alloc::Global;

/// One caller's pass to a deque. A pass that is dropped is given up: its entries stand in the history.
pub type DequePass<K> = Pass<(), DequeCall, DequeReply, Plan<K>, Stage, Word>;

/// A copy of what a caller of a deque has seen, which another may take in.
pub type DequeNote<K> = Note<(), DequeCall, DequeReply, Plan<K>, Stage, Word>;

/// A caller's seat, in the middle of a call.
pub(crate) type DequeSeat<K> = CallerSeat<(), DequeCall, DequeReply, Plan<K>, Stage, Word>;

/// A deque of a capacity, which many callers use at once. Each has a pass of its own.
#[derive(Drop)]
pub struct Deque<K: Keeps> {
    pub(crate) table: PassTable<DequeClient<K>>,
    pub(crate) capacity: u32,
    pub(crate) alloc: Global,
    ghost planned: { (plan_of table).capacity ≡ capacity },
    ghost wide: { (table_of table).words ≡ 2 * capacity + 1 },
    ghost no_slot: { (table_of table).slots ≡ 0 },
    ghost some_caller: { 0 < (plan_of table).callers },
    ghost some_cell: { 0 < capacity },
    ghost most_cells: { capacity ≤ 16777216 },
}
