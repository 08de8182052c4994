//! How a bag is closed.
ghost use Rattle.std.specs.Prelude.{◌≡◌, ℕ, ◌+◌, ◌≤◌, ◌++◌, [], length, All, IfOk, IfErr, IsPermutation, vec_len, vec_capacity};
ghost use Rattle.std.specs.Slots.{slots_items, slots_len, IsFull};
ghost use Rattle.pass_table.specs.Looks.{HaveLooked};
ghost use Rattle.pass_table.specs.Passes.{plan_of};
ghost use Rattle.shared_bag.specs.Layout.{slots_in};
ghost use Rattle.shared_bag.specs.Counted.{items_of};
ghost use Rattle.shared_bag.specs.Rule.{bag_terms};
ghost use Rattle.shared_bag.specs.Bags.{callers_of, keeper_of};
ghost use Rattle.shared_bag.specs.Opened.{AreOfOpening};
ghost use Rattle.shared_bag.specs.Closed.{ClosesWith, of_slot, stored};

use crate::bags::{Bag, BagPass};
use crate::layout::{SLOTS, slots_for};
use atomic_table::Closed;
use segment_store::Segment;
use seq_objects::Keeps;
use std::alloc::Global;

/// What a bag held when it was closed, in no stated order.
#[derive(Drop)]
pub struct ClosedBag {
    pub items: Vec<u64>,
}

/// There was no memory for the items. The bag comes back untouched, and so do the passes, but that each has
/// looked at the count once.
#[derive(Drop)]
pub struct BagBack<K: Keeps> {
    pub bag: Bag<K>,
    pub passes: Vec<BagPass<K>>,
}

// Moves the items of a segment behind the others, the newest first.
fn pour(mut moved: Segment, items: &mut Vec<u64>)
    requires room { vec_len items.old + length moved.items ≤ vec_capacity items.old }
    ensures items { IsPermutation (items.old.items ++ moved.items) items.new.items }
    ensures count { (vec_len items.new ≡ vec_len items.old + length moved.items) × (vec_capacity items.new ≡ vec_capacity items.old) }
{
    while let Some(item) = moved.pop() {
        items.push_reserved(item);
    }
}

// What stood in a slot, unless it is one of the spare slots between two segments'.
fn of_segment(slot: usize, taken: Option<Segment>) -> Option<Segment>
    ensures { result ≡ of_slot slot taken }
{
    if slot % SLOTS == 0 { taken } else { None }
}

// The items of all segments.
fn read_segments(
    mut closed: Closed<Option<Segment>, Global>,
    segments: u32,
    mut items: Vec<u64>,
) -> Vec<u64>
    requires slots { IsFull closed.slots × (slots_len closed.slots ≡ slots_in segments) }
    requires room { (items.items ≡ []) × (vec_len items ≡ 0) × (length (items_of (stored (slots_items closed.slots)) segments) ≤ vec_capacity items) }
    ensures { IsPermutation (items_of (stored (slots_items closed.slots)) segments) result.items }
{
    for slot in 0..slots_for(segments) {
        if let Some(moved) = of_segment(slot, closed.take(slot)) {
            pour(moved, &mut items);
        }
    }
    closed.free();
    items
}

impl<K: Keeps> Bag<K> {
    /// Closes the bag, with as many passes of its opening as it has callers, and gives what it holds. It first looks at the
    /// count with each pass, and takes memory for as many items as there are. Where there is none, the bag
    /// and the passes come back.
    pub fn close(self, mut passes: Vec<BagPass<K>>) -> Result<ClosedBag, BagBack<K>>
        requires opening { AreOfOpening self passes.items }
        requires count { length passes.items ≡ callers_of self }
        ensures ok { IfOk result (λ closed. ClosesWith self passes.items (K.keeps (keeper_of self)) closed.items.items) }
        ensures kept { IfOk result (λ closed. All (K.keeps (keeper_of self)) closed.items.items) }
        ensures err { IfErr result (λ back. (back.bag ≡ self) × ((most : ℕ) × HaveLooked (bag_terms K.keeps) (plan_of self.table) most passes.items back.passes.items)) }
        ensures again { IfErr result (λ back. AreOfOpening back.bag back.passes.items × (length back.passes.items ≡ callers_of back.bag)) }
    {
        let segments = self.shape.all_segments();
        let most = self.table.most_items(passes.as_mut_slice());
        let Ok(items) = Vec::with_capacity(self.alloc, most as usize) else {
            return Err(BagBack { bag: self, passes });
        };
        let Bag {
            table,
            shape: _,
            alloc: _,
        } = self;
        let closed = table.close(passes);
        let items = read_segments(closed, segments, items);
        Ok(ClosedBag { items })
    }
}
