//! The six kinds of step of a deque's calls, each on one word.
ghost use Rattle.std.specs.Prelude.{◌≡◌, ◌+◌, ◌<◌, ◌==◌};
ghost use prog.Atomic.{either};
ghost use Rattle.pass_table.specs.Passes.{IsSeatOf, IsResting, IsAt, table_of, plan_of, view_of, me_of};
ghost use Rattle.shared_deque.specs.Aims.{Asks, call_of, cell_of, ends_after};
ghost use Rattle.shared_deque.specs.Kinds.{Does, MayDo, ready, stage_before};
ghost use Rattle.shared_deque.specs.declared.clients.Stage.TheVariants.{Looked, Claimed, Storing, Leaving};

use crate::clients::{Choice, Chosen, Kind};
use crate::deques::{Deque, DequeSeat};
use crate::layout::{ENDS, owner_at, value_at};
use crate::sides::Aim;
use seq_objects::Keeps;
use std::marker::Brand;

impl<K: Keeps> Deque<K> {
    // A load as a step of this kind. The kind tells the proof which it is.
    #[inline]
    fn load<W: Choice>(&self, seat: &mut DequeSeat<K>, word: usize, kind: Kind) -> u64
        requires seat { IsSeatOf self.now.table seat.old }
        requires kind { W.kind ≡ kind }
        requires word { word < (table_of self.now.table).words }
        requires may { MayDo K.keeps (plan_of self.now.table) (table_of self.now.table).slots kind (me_of seat.old) word (λ n. n) (λ n. n) }
        ensures seat { IsSeatOf self.now.table seat.new }
        ensures does { Does K.keeps (plan_of self.now.table) kind (me_of seat.old) result (me_of seat.new) }
    {
        self.table.load::<Chosen<W>>(seat, word)
    }

    // A store, in the same way.
    #[inline]
    fn store<W: Choice>(&self, seat: &mut DequeSeat<K>, word: usize, new: u64, kind: Kind)
        requires seat { IsSeatOf self.now.table seat.old }
        requires kind { W.kind ≡ kind }
        requires word { word < (table_of self.now.table).words }
        requires may { MayDo K.keeps (plan_of self.now.table) (table_of self.now.table).slots kind (me_of seat.old) word (λ _. new) (λ _. new) }
        ensures seat { IsSeatOf self.now.table seat.new }
        ensures does { Does K.keeps (plan_of self.now.table) kind (me_of seat.old) new (me_of seat.new) }
    {
        self.table.store::<Chosen<W>>(seat, word, new);
    }

    // An exchange where the word is this number, in the same way.
    #[inline]
    fn exchange<W: Choice>(
        &self,
        seat: &mut DequeSeat<K>,
        word: usize,
        old: u64,
        new: u64,
        kind: Kind,
    ) -> u64
        requires seat { IsSeatOf self.now.table seat.old }
        requires kind { W.kind ≡ kind }
        requires word { word < (table_of self.now.table).words }
        requires may { MayDo K.keeps (plan_of self.now.table) (table_of self.now.table).slots kind (me_of seat.old) word (λ n. either (n == old) new n) (λ n. n) }
        ensures seat { IsSeatOf self.now.table seat.new }
        ensures does { Does K.keeps (plan_of self.now.table) kind (me_of seat.old) result (me_of seat.new) }
    {
        self.table
            .compare_exchange::<Chosen<W>>(seat, word, old, new)
    }

    /// Loads the ends. A call that they turn away has its entry here.
    pub(crate) fn look_at_ends(&self, seat: &mut DequeSeat<K>, aim: Aim) -> u64
        requires seat { IsSeatOf self.now.table seat.old }
        requires row { IsResting seat.old }
        requires kept { Asks (K.keeps (plan_of self.now.table).keeper) aim }
        ensures seat { IsSeatOf self.now.table seat.new }
        ensures does { Does K.keeps (plan_of self.now.table) (Kind.EndsLook aim) (me_of seat.old) result (me_of seat.new) }
    {
        self.load::<Brand>(seat, ENDS, Kind::EndsLook { aim })
    }

    /// Exchanges a cell's turn from nobody's to the caller's.
    pub(crate) fn claim(&self, seat: &mut DequeSeat<K>, aim: Aim, ends: u64, cell: u32) -> u64
        requires seat { IsSeatOf self.now.table seat.old }
        requires row { IsAt seat.old (Looked aim ends) }
        requires cell { (cell_of (plan_of self.now.table).capacity ends (call_of aim) ≡ cell) × (cell < (plan_of self.now.table).capacity) }
        ensures seat { IsSeatOf self.now.table seat.new }
        ensures does { Does K.keeps (plan_of self.now.table) (Kind.Claim aim ends) (me_of seat.old) result (me_of seat.new) }
    {
        let mine = u64::from(seat.caller()) + 1;
        self.exchange::<Brand>(seat, owner_at(cell), 0, mine, Kind::Claim { aim, ends })
    }

    /// Loads the value of the claimed cell.
    pub(crate) fn look_at_cell(
        &self,
        seat: &mut DequeSeat<K>,
        aim: Aim,
        ends: u64,
        cell: u32,
    ) -> u64
        requires seat { IsSeatOf self.now.table seat.old }
        requires row { IsAt seat.old (Claimed aim ends) }
        requires cell { (cell_of (plan_of self.now.table).capacity ends (call_of aim) ≡ cell) × (cell < (plan_of self.now.table).capacity) }
        ensures seat { IsSeatOf self.now.table seat.new }
        ensures does { Does K.keeps (plan_of self.now.table) (Kind.CellLook aim ends) (me_of seat.old) result (me_of seat.new) }
    {
        self.load::<Brand>(seat, value_at(cell), Kind::CellLook { aim, ends })
    }

    /// Exchanges the ends from those that the call loaded to those after it. Where that goes, the call has its
    /// entry here. A pop has read its value.
    pub(crate) fn exchange_ends(
        &self,
        seat: &mut DequeSeat<K>,
        aim: Aim,
        ends: u64,
        value: u64,
        next: u64,
    ) -> u64
        requires seat { IsSeatOf self.now.table seat.old }
        requires row { IsAt seat.old (ready aim ends value) }
        requires next { next ≡ ends_after (plan_of self.now.table).capacity ends aim }
        requires kept { Asks (K.keeps (plan_of self.now.table).keeper) aim }
        ensures seat { IsSeatOf self.now.table seat.new }
        ensures does { Does K.keeps (plan_of self.now.table) (Kind.EndsExchange aim ends value) (me_of seat.old) result (me_of seat.new) }
    {
        self.exchange::<Brand>(
            seat,
            ENDS,
            ends,
            next,
            Kind::EndsExchange { aim, ends, value },
        )
    }

    /// Stores the item of a push that has won the ends.
    pub(crate) fn store_in_cell(&self, seat: &mut DequeSeat<K>, cell: u32, item: u64)
        requires seat { IsSeatOf self.now.table seat.old }
        requires row { IsAt seat.old (Storing cell item) }
        requires cell { cell < (plan_of self.now.table).capacity }
        ensures seat { IsSeatOf self.now.table seat.new }
        ensures does { Does K.keeps (plan_of self.now.table) (Kind.CellStore cell item) (me_of seat.old) item (me_of seat.new) }
    {
        self.store::<Brand>(seat, value_at(cell), item, Kind::CellStore { cell, item });
    }

    /// Makes the claimed cell nobody's.
    pub(crate) fn leave(&self, seat: &mut DequeSeat<K>, cell: u32)
        requires seat { IsSeatOf self.now.table seat.old }
        requires row { IsAt seat.old (Leaving cell) }
        requires cell { cell < (plan_of self.now.table).capacity }
        ensures seat { IsSeatOf self.now.table seat.new }
        ensures does { Does K.keeps (plan_of self.now.table) (Kind.Leave cell) (me_of seat.old) 0 (me_of seat.new) }
    {
        self.store::<Brand>(seat, owner_at(cell), 0, Kind::Leave { cell });
    }
}
