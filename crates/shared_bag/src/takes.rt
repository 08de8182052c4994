//! What a removal does at one segment, and how it keeps an empty segment of its own locale and steals into it.
ghost use Rattle.std.specs.Prelude.{◌≡◌, ◌≢◌, ◌<◌, ℕ, List, [], ◌∷◌, None, Some, IfSome, IfNone};
ghost use Rattle.pass_table.specs.Passes.{IsSeatOf, IsResting, plan_of, view_of, me_of};
ghost use Rattle.shared_bag.specs.declared.clients.Holding.{Holding};
ghost use Rattle.shared_bag.specs.Shapes.{all_segments, IsOwn};
ghost use Rattle.shared_bag.specs.Kinds.{Slots, holding};
ghost use Rattle.shared_bag.specs.Turns.{IsHolding, HoldsKept, IsKeeping, KeepsAfter, KeepsSwept, IsEmptyOwn, held_of, kept_segment, TakesHere, TakesAt, Sweeps, LeavesKeptFound, LeavesKeptChanged};
ghost use Rattle.shared_bag.specs.Bags.{shape_of};

use crate::bags::{Bag, BagSeat};
use crate::visits::{Kept, TakeVisit};
use segment_store::Segment;
use seq_objects::Keeps;
use std::marker::Brand;

impl<K: Keeps> Bag<K> {
    // Takes the newest item of the segment that was claimed last, and counts it.
    fn take_newest(&self, seat: &mut BagSeat<K>, moved: &mut Segment) -> Option<u64>
        requires seat { IsSeatOf self.now.table seat.old }
        requires holds { (segment : ℕ) × (held : List Holding) × (slots : Slots) × IsHolding (me_of seat.old) (holding segment moved.old.items ∷ held) slots }
        ensures seat { IsSeatOf self.now.table seat.new }
        ensures none { IfNone result ((seat.new ≡ seat.old) × (moved.new ≡ moved.old) × (moved.old.items ≡ [])) }
        ensures some { IfSome result (λ item. (held : List Holding) → TakesHere K.keeps (plan_of self.now.table) item moved.old.items moved.new.items held held (me_of seat.old) (me_of seat.new)) }
    {
        let item = moved.pop()?;
        self.count_taken(seat);
        Some(item)
    }

    // Steals half of the segment that was claimed last into the one that is kept, and counts the item that it takes.
    fn steal(&self, seat: &mut BagSeat<K>, moved: &mut Segment, own: &mut Kept) -> Option<u64>
        requires seat { IsSeatOf self.now.table seat.old }
        requires holds { (segment : ℕ) × (slots : Slots) × IsHolding (me_of seat.old) (holding segment moved.old.items ∷ held_of (Some own.old)) slots }
        requires empty { own.old.moved.items ≡ [] }
        requires own_locale { IsOwn (shape_of self.now) (view_of seat.old).number own.old.segment }
        ensures seat { IsSeatOf self.now.table seat.new }
        ensures same { own.new.segment ≡ own.old.segment }
        ensures none { IfNone result ((seat.new ≡ seat.old) × (moved.new ≡ moved.old) × (own.new ≡ own.old) × (moved.old.items ≡ [])) }
        ensures some { IfSome result (λ item. TakesHere K.keeps (plan_of self.now.table) item moved.old.items moved.new.items (held_of (Some own.old)) (held_of (Some own.new)) (me_of seat.old) (me_of seat.new)) }
    {
        let item = Segment::steal_half(&mut own.moved, moved)?;
        self.count_stolen::<Brand>(seat, &own.moved, moved, item);
        Some(item)
    }

    // Takes an item of the segment that was claimed last, by stealing where one is kept, and counts it.
    fn take_or_steal(
        &self,
        seat: &mut BagSeat<K>,
        moved: &mut Segment,
        kept: &mut Option<Kept>,
    ) -> Option<u64>
        requires seat { IsSeatOf self.now.table seat.old }
        requires holds { (segment : ℕ) × (slots : Slots) × IsHolding (me_of seat.old) (holding segment moved.old.items ∷ held_of kept.old) slots }
        requires empty { IsEmptyOwn (shape_of self.now) (view_of seat.old).number kept.old }
        ensures seat { IsSeatOf self.now.table seat.new }
        ensures same { kept_segment kept.new ≡ kept_segment kept.old }
        ensures none { IfNone result ((seat.new ≡ seat.old) × (moved.new ≡ moved.old) × (kept.new ≡ kept.old) × (moved.old.items ≡ [])) }
        ensures some { IfSome result (λ item. TakesHere K.keeps (plan_of self.now.table) item moved.old.items moved.new.items (held_of kept.old) (held_of kept.new) (me_of seat.old) (me_of seat.new)) }
    {
        match kept {
            None => self.take_newest(seat, moved),
            Some(own) => self.steal(seat, moved, own),
        }
    }

    // Takes the newest item of a segment of the caller's locale, unless that is another's or empty. The first
    // that is empty is kept.
    fn take_own(&self, seat: &mut BagSeat<K>, segment: u32, kept: &mut Option<Kept>) -> TakeVisit
        requires seat { IsSeatOf self.now.table seat.old }
        requires keeping { IsKeeping (shape_of self.now) kept.old (me_of seat.old) }
        requires segment { segment < all_segments (shape_of self.now) }
        requires away { kept_segment kept.old ≢ Some segment }
        requires own { IsOwn (shape_of self.now) (view_of seat.old).number segment }
        ensures seat { IsSeatOf self.now.table seat.new }
        ensures keeps { KeepsAfter (shape_of self.now) kept.new (me_of seat.new) result }
        ensures takes { TakesAt K.keeps (plan_of self.now.table) segment kept.old kept.new (view_of seat.old) (view_of seat.new) result }
    {
        let Some(mut moved) = self.get(seat, segment) else {
            return TakeVisit::Held;
        };
        if let Some(item) = self.take_newest(seat, &mut moved) {
            self.hand_back(seat, segment, moved);
            return TakeVisit::Found { item };
        }
        if kept.is_some() {
            self.give_back(seat, segment, moved);
        } else {
            *kept = Some(Kept { segment, moved });
        }
        TakeVisit::Empty
    }

    // Takes an item of a segment of another locale, unless that is another's or empty.
    fn take_other(&self, seat: &mut BagSeat<K>, segment: u32, kept: &mut Option<Kept>) -> TakeVisit
        requires seat { IsSeatOf self.now.table seat.old }
        requires keeping { IsKeeping (shape_of self.now) kept.old (me_of seat.old) }
        requires segment { segment < all_segments (shape_of self.now) }
        requires away { kept_segment kept.old ≢ Some segment }
        ensures seat { IsSeatOf self.now.table seat.new }
        ensures keeps { KeepsAfter (shape_of self.now) kept.new (me_of seat.new) result }
        ensures takes { TakesAt K.keeps (plan_of self.now.table) segment kept.old kept.new (view_of seat.old) (view_of seat.new) result }
    {
        let Some(mut moved) = self.get(seat, segment) else {
            return TakeVisit::Held;
        };
        let Some(item) = self.take_or_steal(seat, &mut moved, kept) else {
            self.give_back(seat, segment, moved);
            return TakeVisit::Empty;
        };
        self.hand_back(seat, segment, moved);
        TakeVisit::Found { item }
    }

    // One visit of a removal, after so many others.
    fn take_at(
        &self,
        seat: &mut BagSeat<K>,
        place: u32,
        segment: u32,
        kept: &mut Option<Kept>,
    ) -> TakeVisit
        requires seat { IsSeatOf self.now.table seat.old }
        requires keeping { IsKeeping (shape_of self.now) kept.old (me_of seat.old) }
        requires segment { segment < all_segments (shape_of self.now) }
        requires away { kept_segment kept.old ≢ Some segment }
        requires own { place < (shape_of self.now).segments → IsOwn (shape_of self.now) (view_of seat.old).number segment }
        ensures seat { IsSeatOf self.now.table seat.new }
        ensures keeps { KeepsAfter (shape_of self.now) kept.new (me_of seat.new) result }
        ensures takes { TakesAt K.keeps (plan_of self.now.table) segment kept.old kept.new (view_of seat.old) (view_of seat.new) result }
    {
        if place < self.shape.segments {
            self.take_own(seat, segment, kept)
        } else {
            self.take_other(seat, segment, kept)
        }
    }

    /// Visits all segments, until it has an item.
    pub(crate) fn sweep(&self, seat: &mut BagSeat<K>, kept: &mut Option<Kept>) -> Option<u64>
        requires seat { IsSeatOf self.now.table seat.old }
        requires rests { IsResting seat.old }
        requires none { kept.old ≡ None }
        ensures seat { IsSeatOf self.now.table seat.new }
        ensures keeps { KeepsSwept (shape_of self.now) kept.new (me_of seat.new) result }
        ensures sweeps { Sweeps K.keeps (plan_of self.now.table) kept.new (view_of seat.old) (view_of seat.new) result }
    {
        let caller = seat.caller();
        for place in 0..self.shape.all_segments() {
            let segment = self.shape.tried(caller, place);
            match self.take_at(seat, place, segment, kept) {
                TakeVisit::Found { item } => return Some(item),
                TakeVisit::Held => {}
                TakeVisit::Empty => {}
            }
        }
        None
    }

    /// Puts the segment that is kept back as it was found, and leaves it.
    pub(crate) fn give_kept_back(&self, seat: &mut BagSeat<K>, kept: Option<Kept>)
        requires seat { IsSeatOf self.now.table seat.old }
        requires holds { HoldsKept (shape_of self.now) kept (me_of seat.old) }
        ensures seat { IsSeatOf self.now.table seat.new }
        ensures rests { IsResting seat.new }
        ensures leaves { LeavesKeptFound K.keeps (plan_of self.now.table) kept (me_of seat.old) (me_of seat.new) }
    {
        if let Some(Kept { segment, moved }) = kept {
            self.give_back(seat, segment, moved);
        }
    }

    /// Puts it back after a step on the count, and leaves it.
    pub(crate) fn hand_kept_back(&self, seat: &mut BagSeat<K>, kept: Option<Kept>)
        requires seat { IsSeatOf self.now.table seat.old }
        requires holds { HoldsKept (shape_of self.now) kept (me_of seat.old) }
        ensures seat { IsSeatOf self.now.table seat.new }
        ensures rests { IsResting seat.new }
        ensures leaves { LeavesKeptChanged K.keeps (plan_of self.now.table) kept (me_of seat.old) (me_of seat.new) }
    {
        if let Some(Kept { segment, moved }) = kept {
            self.hand_back(seat, segment, moved);
        }
    }
}
