//! A bag as its callers share it.
ghost use Rattle.std.specs.Prelude.{◌≡◌, ◌<◌};
ghost use Rattle.pass_table.specs.Passes.{table_of, plan_of};
ghost use Rattle.shared_bag.specs.Layout.{words_of, slots_in};
ghost use Rattle.shared_bag.specs.Shapes.{all_segments, IsShape};

use crate::clients::{BagClient, Hand, Plan};
use crate::layout::Word;
use crate::shapes::Shape;
use pass_table::{CallerSeat, Note, Pass, PassTable};
use segment_store::Segment;
use seq_objects::{BagCall, BagReply, Keeps};
use std::alloc::Global;

/// One caller's pass to a bag. A pass that is dropped is given up: its entries stand in the history.
pub type BagPass<K> = Pass<Option<Segment>, BagCall, BagReply, Plan<K>, Hand, Word>;

/// A copy of what a caller of a bag has seen, which another may take in.
pub type BagNote<K> = Note<Option<Segment>, BagCall, BagReply, Plan<K>, Hand, Word>;

/// A caller's seat, in the middle of a call.
pub(crate) type BagSeat<K> = CallerSeat<Option<Segment>, BagCall, BagReply, Plan<K>, Hand, Word>;

/// A bag of a shape, which many callers use at once. Each has a pass of its own.
#[derive(Drop)]
pub struct Bag<K: Keeps> {
    pub(crate) table: PassTable<BagClient<K>>,
    pub(crate) shape: Shape,
    pub(crate) alloc: Global,
    ghost planned: { (plan_of table).shape ≡ shape },
    ghost wide: { (table_of table).words ≡ words_of (all_segments shape) },
    ghost shelf: { (table_of table).slots ≡ slots_in (all_segments shape) },
    ghost shaped: { IsShape shape },
}
