//! What a call does at one segment: it claims the turn, and adds or takes an item where it can.
ghost use Rattle.std.specs.Prelude.{◌≡◌, ◌<◌, ℕ, List, false, ◌∷◌, None, IfSome, IfNone};
ghost use Rattle.pass_table.specs.Passes.{IsSeatOf, IsResting, plan_of, view_of, me_of};
ghost use Rattle.shared_bag.specs.declared.clients.Holding.{Holding};
ghost use Rattle.shared_bag.specs.Layout.{slot_place};
ghost use Rattle.shared_bag.specs.Shapes.{all_segments, IsOwn};
ghost use Rattle.shared_bag.specs.Rule.{IsAway};
ghost use Rattle.shared_bag.specs.Kinds.{Slots, holding};
ghost use Rattle.shared_bag.specs.Turns.{IsHolding, Gets, Misses, LeavesFound, LeavesChanged, AddsAt};
ghost use Rattle.shared_bag.specs.Bags.{shape_of, keeper_of};

use crate::bags::{Bag, BagSeat};
use segment_store::Segment;
use seq_objects::Keeps;
use std::alloc::AllocError;

/// What came of an add at one segment.
#[derive(Drop)]
pub(crate) enum AddVisit {
    Done,
    Held,
    Full,
    NoMemory,
}

/// What came of a removal at one segment.
#[derive(Drop)]
pub(crate) enum TakeVisit {
    Found { item: u64 },
    Held,
    Empty,
}

/// A segment of the caller's locale that a removal found empty, and whose turn it keeps.
#[derive(Drop)]
pub(crate) struct Kept {
    pub(crate) segment: u32,
    pub(crate) moved: Segment,
}

impl<K: Keeps> Bag<K> {
    /// Claims a segment and moves it out of its slot, unless it is another's.
    pub(crate) fn get(&self, seat: &mut BagSeat<K>, segment: u32) -> Option<Segment>
        requires seat { IsSeatOf self.now.table seat.old }
        requires segment { segment < all_segments (shape_of self.now) }
        requires away { (view_of seat.old).rests ≡ false → IsAway segment (view_of seat.old).part.held }
        ensures seat { IsSeatOf self.now.table seat.new }
        ensures some { IfSome result (λ moved. Gets K.keeps (plan_of self.now.table) segment moved (me_of seat.old) (me_of seat.new)) }
        ensures none { IfNone result (Misses K.keeps (plan_of self.now.table) segment (me_of seat.old) (me_of seat.new)) }
    {
        if self.claim(seat, segment) != 0 {
            return None;
        }
        Some(self.move_out(seat, segment))
    }

    /// Puts a segment back as it was found, and leaves it.
    pub(crate) fn give_back(&self, seat: &mut BagSeat<K>, segment: u32, moved: Segment)
        requires seat { IsSeatOf self.now.table seat.old }
        requires segment { segment < all_segments (shape_of self.now) }
        requires holds { (held : List Holding) × (slots : Slots) × IsHolding (me_of seat.old) (holding segment moved.items ∷ held) ((slot_place segment, None) ∷ slots) }
        ensures seat { IsSeatOf self.now.table seat.new }
        ensures leaves { LeavesFound K.keeps (plan_of self.now.table) segment moved.items (me_of seat.old) (me_of seat.new) }
    {
        self.move_back(seat, segment, moved);
        self.leave_found(seat, segment);
    }

    /// Puts a segment back after a step on the count, and leaves it.
    pub(crate) fn hand_back(&self, seat: &mut BagSeat<K>, segment: u32, moved: Segment)
        requires seat { IsSeatOf self.now.table seat.old }
        requires segment { segment < all_segments (shape_of self.now) }
        requires holds { (held : List Holding) × (slots : Slots) × IsHolding (me_of seat.old) (holding segment moved.items ∷ held) ((slot_place segment, None) ∷ slots) }
        ensures seat { IsSeatOf self.now.table seat.new }
        ensures leaves { LeavesChanged K.keeps (plan_of self.now.table) segment moved.items (me_of seat.old) (me_of seat.new) }
    {
        self.move_back(seat, segment, moved);
        self.leave_changed(seat, segment);
    }

    /// Adds the item to a segment, unless that is another's or full. The memory is taken before the
    /// step on the count.
    pub(crate) fn add_at(&self, seat: &mut BagSeat<K>, segment: u32, item: u64) -> AddVisit
        requires seat { IsSeatOf self.now.table seat.old }
        requires rests { IsResting seat.old }
        requires segment { segment < all_segments (shape_of self.now) }
        requires own { IsOwn (shape_of self.now) (view_of seat.old).number segment }
        requires kept { K.keeps (keeper_of self.now) item }
        ensures seat { IsSeatOf self.now.table seat.new }
        ensures rests { IsResting seat.new }
        ensures adds { AddsAt K.keeps (plan_of self.now.table) item segment (view_of seat.old) (view_of seat.new) result }
    {
        let Some(mut moved) = self.get(seat, segment) else {
            return AddVisit::Held;
        };
        if moved.len() == self.shape.room {
            self.give_back(seat, segment, moved);
            return AddVisit::Full;
        }
        match moved.reserve() {
            Ok(()) => {}
            Err(AllocError) => {
                self.give_back(seat, segment, moved);
                return AddVisit::NoMemory;
            }
        }
        moved.push(item);
        self.count_put(seat, item);
        self.hand_back(seat, segment, moved);
        AddVisit::Done
    }
}
