//! The kinds of step of a bag's calls, each on one word, and how a segment is moved out of its slot and back while
//! its turn is held.
ghost use Rattle.std.specs.Prelude.{◌≡◌, ◌≢◌, ◌==◌, ℕ, List, ◌+◌, ◌-◌, ◌%◌, ◌^◌, ◌<◌, [], ◌∷◌, None, Some, false, length};
ghost use prog.Atomic.{either};
ghost use Rattle.atomic_table.specs.Table.{rest};
ghost use Rattle.segment_store.specs.Contents.{Contents};
ghost use Rattle.segment_store.specs.Steals.{Steals};
ghost use Rattle.pass_table.specs.Passes.{IsSeatOf, IsResting, table_of, plan_of, view_of, carried_of, me_of};
ghost use Rattle.shared_bag.specs.declared.clients.Holding.{Holding};
ghost use Rattle.shared_bag.specs.Layout.{slot_place};
ghost use Rattle.shared_bag.specs.Shapes.{all_segments, IsOwn};
ghost use Rattle.shared_bag.specs.Rule.{IsAway, holds_none};
ghost use Rattle.shared_bag.specs.Kinds.{Does, DoesSteal, MayDo, IsBack, last_items, steal_kind};
ghost use Rattle.shared_bag.specs.Bags.{shape_of, keeper_of};

use crate::bags::{Bag, BagSeat};
use crate::clients::{Choice, Chosen, Kind};
use crate::layout::{COUNT, slot_at, turn_at};
use segment_store::Segment;
use seq_objects::Keeps;
use std::marker::Brand;

impl<K: Keeps> Bag<K> {
    // A load of the count as a step of this kind. The kind tells the proof which it is.
    #[inline]
    fn load<W: Choice>(&self, seat: &mut BagSeat<K>, word: usize, kind: Kind) -> u64
        requires seat { IsSeatOf self.now.table seat.old }
        requires kind { W.kind ≡ kind }
        requires word { word < (table_of self.now.table).words }
        requires may { MayDo K.keeps (plan_of self.now.table) (table_of self.now.table).slots kind (me_of seat.old) word (λ n. n) (λ n. n) }
        ensures seat { IsSeatOf self.now.table seat.new }
        ensures rested { (view_of seat.old).rests ≡ holds_none (view_of seat.old).part.held }
        ensures does { Does K.keeps (plan_of self.now.table) kind (me_of seat.old) result (me_of seat.new) }
    {
        self.table.load::<Chosen<W>>(seat, word)
    }

    // A store, in the same way.
    #[inline]
    fn store<W: Choice>(&self, seat: &mut BagSeat<K>, word: usize, new: u64, kind: Kind)
        requires seat { IsSeatOf self.now.table seat.old }
        requires kind { W.kind ≡ kind }
        requires word { word < (table_of self.now.table).words }
        requires may { MayDo K.keeps (plan_of self.now.table) (table_of self.now.table).slots kind (me_of seat.old) word (λ _. new) (λ _. new) }
        ensures seat { IsSeatOf self.now.table seat.new }
        ensures does { Does K.keeps (plan_of self.now.table) kind (me_of seat.old) new (me_of seat.new) }
    {
        self.table.store::<Chosen<W>>(seat, word, new);
    }

    // An exchange of nobody's turn for the caller's, in the same way.
    #[inline]
    fn exchange<W: Choice>(&self, seat: &mut BagSeat<K>, word: usize, new: u64, kind: Kind) -> u64
        requires seat { IsSeatOf self.now.table seat.old }
        requires kind { W.kind ≡ kind }
        requires word { word < (table_of self.now.table).words }
        requires may { MayDo K.keeps (plan_of self.now.table) (table_of self.now.table).slots kind (me_of seat.old) word (λ n. either (n == 0) new n) (λ n. n) }
        ensures seat { IsSeatOf self.now.table seat.new }
        ensures rested { (view_of seat.old).rests ≡ holds_none (view_of seat.old).part.held }
        ensures does { Does K.keeps (plan_of self.now.table) kind (me_of seat.old) result (me_of seat.new) }
    {
        self.table.compare_exchange::<Chosen<W>>(seat, word, 0, new)
    }

    // A step of the count by one up, in the same way.
    #[inline]
    fn count_up<W: Choice>(&self, seat: &mut BagSeat<K>, kind: Kind) -> u64
        requires seat { IsSeatOf self.now.table seat.old }
        requires kind { W.kind ≡ kind }
        requires may { MayDo K.keeps (plan_of self.now.table) (table_of self.now.table).slots kind (me_of seat.old) 0 (λ n. (n + 1) % 2 ^ 64) (λ n. n) }
        ensures seat { IsSeatOf self.now.table seat.new }
        ensures does { Does K.keeps (plan_of self.now.table) kind (me_of seat.old) result (me_of seat.new) }
    {
        self.table.fetch_add::<Chosen<W>>(seat, COUNT, 1)
    }

    // A step of the count by one down, of the chosen kind.
    #[inline]
    fn count_down<W: Choice>(&self, seat: &mut BagSeat<K>) -> u64
        requires seat { IsSeatOf self.now.table seat.old }
        requires may { MayDo K.keeps (plan_of self.now.table) (table_of self.now.table).slots W.kind (me_of seat.old) 0 (λ n. (n + (2 ^ 64 - 1)) % 2 ^ 64) (λ n. n) }
        ensures seat { IsSeatOf self.now.table seat.new }
        ensures does { Does K.keeps (plan_of self.now.table) W.kind (me_of seat.old) result (me_of seat.new) }
    {
        self.table.fetch_sub::<Chosen<W>>(seat, COUNT, 1)
    }

    /// Loads the count. A removal that finds it 0 has its entry here.
    pub(crate) fn look_at_count(&self, seat: &mut BagSeat<K>) -> u64
        requires seat { IsSeatOf self.now.table seat.old }
        requires rests { IsResting seat.old }
        ensures seat { IsSeatOf self.now.table seat.new }
        ensures rested { (view_of seat.old).rests ≡ holds_none (view_of seat.old).part.held }
        ensures does { Does K.keeps (plan_of self.now.table) Kind.CountLook (me_of seat.old) result (me_of seat.new) }
    {
        self.load::<Brand>(seat, COUNT, Kind::CountLook)
    }

    /// Exchanges a segment's turn from nobody's to the caller's.
    pub(crate) fn claim(&self, seat: &mut BagSeat<K>, segment: u32) -> u64
        requires seat { IsSeatOf self.now.table seat.old }
        requires segment { segment < all_segments (shape_of self.now) }
        requires away { (view_of seat.old).rests ≡ false → IsAway segment (view_of seat.old).part.held }
        ensures seat { IsSeatOf self.now.table seat.new }
        ensures rested { (view_of seat.old).rests ≡ holds_none (view_of seat.old).part.held }
        ensures does { Does K.keeps (plan_of self.now.table) (Kind.Claim segment) (me_of seat.old) result (me_of seat.new) }
    {
        let mine = u64::from(seat.caller()) + 1;
        self.exchange::<Brand>(seat, turn_at(segment), mine, Kind::Claim { segment })
    }

    /// Counts an item that is put into the segment that was claimed last. The add has its entry here.
    pub(crate) fn count_put(&self, seat: &mut BagSeat<K>, item: u64)
        requires seat { IsSeatOf self.now.table seat.old }
        requires held { (h : Holding) × (others : List Holding) × ((view_of seat.old).part.held ≡ h ∷ others)
            × (length h.items < (shape_of self.now).room) × IsOwn (shape_of self.now) (view_of seat.old).number h.segment }
        requires kept { K.keeps (keeper_of self.now) item }
        ensures seat { IsSeatOf self.now.table seat.new }
        ensures does { (found : ℕ) × Does K.keeps (plan_of self.now.table) (Kind.Put item) (me_of seat.old) found (me_of seat.new) }
    {
        self.count_up::<Brand>(seat, Kind::Put { item });
    }

    /// Counts the last item of the segment that was claimed last as taken. The removal has its entry here.
    pub(crate) fn count_taken(&self, seat: &mut BagSeat<K>)
        requires seat { IsSeatOf self.now.table seat.old }
        requires held { (h : Holding) × (others : List Holding) × ((view_of seat.old).part.held ≡ h ∷ others) × (0 < length h.items) }
        ensures seat { IsSeatOf self.now.table seat.new }
        ensures does { (found : ℕ) × Does K.keeps (plan_of self.now.table) Kind.Take (me_of seat.old) found (me_of seat.new) }
    {
        self.count_down::<Brand>(seat);
    }

    /// Counts an item as taken of the segment that was claimed last, of which these items are left. Those that were
    /// stolen with it go to the segment that was claimed before, which is empty. The removal has its entry here.
    pub(crate) fn count_stolen<W: Choice>(
        &self,
        seat: &mut BagSeat<K>,
        own: &Segment,
        left: &Segment,
        item: u64,
    )
        requires seat { IsSeatOf self.now.table seat.old }
        requires kind { W.kind ≡ steal_kind (last_items (view_of seat.old).part.held) own.now.items left.now.items item }
        requires held { (h o : Holding) × (others : List Holding) × ((view_of seat.old).part.held ≡ h ∷ o ∷ others)
            × Steals h.items own.now.items left.now.items item × (o.items ≡ []) × IsOwn (shape_of self.now) (view_of seat.old).number o.segment }
        ensures seat { IsSeatOf self.now.table seat.new }
        ensures does { DoesSteal K.keeps (plan_of self.now.table) own.now.items left.now.items item (me_of seat.old) (me_of seat.new) }
    {
        self.count_down::<W>(seat);
    }

    /// Makes the turn of the segment that was claimed last nobody's, where nothing was added or taken.
    pub(crate) fn leave_found(&self, seat: &mut BagSeat<K>, segment: u32)
        requires seat { IsSeatOf self.now.table seat.old }
        requires segment { segment < all_segments (shape_of self.now) }
        requires back { IsBack (me_of seat.old) segment }
        ensures seat { IsSeatOf self.now.table seat.new }
        ensures does { Does K.keeps (plan_of self.now.table) Kind.LeaveFound (me_of seat.old) 0 (me_of seat.new) }
    {
        self.store::<Brand>(seat, turn_at(segment), 0, Kind::LeaveFound);
    }

    /// Makes it nobody's after a step on the count.
    pub(crate) fn leave_changed(&self, seat: &mut BagSeat<K>, segment: u32)
        requires seat { IsSeatOf self.now.table seat.old }
        requires segment { segment < all_segments (shape_of self.now) }
        requires back { IsBack (me_of seat.old) segment }
        ensures seat { IsSeatOf self.now.table seat.new }
        ensures does { Does K.keeps (plan_of self.now.table) Kind.LeaveChanged (me_of seat.old) 0 (me_of seat.new) }
    {
        self.store::<Brand>(seat, turn_at(segment), 0, Kind::LeaveChanged);
    }

    /// Moves the segment that was claimed last out of its slot.
    pub(crate) fn move_out(&self, seat: &mut BagSeat<K>, segment: u32) -> Segment
        requires seat { IsSeatOf self.now.table seat.old }
        requires claimed { (contents : Contents) × (carried_of seat.old ≡ (slot_place segment, Some contents) ∷ rest (carried_of seat.old)) }
        ensures seat { IsSeatOf self.now.table seat.new }
        ensures segment { carried_of seat.old ≡ (slot_place segment, Some result) ∷ rest (carried_of seat.old) }
        ensures left { me_of seat.new ≡ (view_of seat.old, (slot_place segment, None) ∷ rest (carried_of seat.old)) }
    {
        let Some(moved) = self.table.exchange(seat, slot_at(segment), None) else {
            unreachable!()
        };
        moved
    }

    /// Moves it back into its slot.
    pub(crate) fn move_back(&self, seat: &mut BagSeat<K>, segment: u32, moved: Segment)
        requires seat { IsSeatOf self.now.table seat.old }
        requires left { carried_of seat.old ≡ (slot_place segment, None) ∷ rest (carried_of seat.old) }
        ensures seat { IsSeatOf self.now.table seat.new }
        ensures back { me_of seat.new ≡ (view_of seat.old, (slot_place segment, Some moved) ∷ rest (carried_of seat.old)) }
    {
        self.table.exchange(seat, slot_at(segment), Some(moved));
    }
}
