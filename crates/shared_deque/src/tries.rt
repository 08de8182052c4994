//! One try of each call: it makes each of its steps once and waits for nobody.
ghost use Rattle.std.specs.Prelude.{◌≡◌, ◌<◌, IfOk, IfSome};
ghost use mathlib.Core.List.{IsPrefix};
ghost use Rattle.pass_book.specs.Histories.{IsOfCallers};
ghost use Rattle.pass_table.specs.Passes.{IsSeatOf, IsResting, IsAt, IsSamePass, change, page, pass_opening, view_of, plan_of, me_of};
ghost use Rattle.shared_deque.specs.Aims.{call_of};
ghost use Rattle.shared_deque.specs.Kinds.{Fills};
ghost use Rattle.shared_deque.specs.declared.clients.Stage.TheVariants.{Storing};
ghost use Rattle.shared_deque.specs.Tries.{TriesPush, TriesPop};
ghost use Rattle.shared_deque.specs.Deques.{opening_of, capacity_of, callers_of, keeper_of};
ghost use Rattle.shared_deque.specs.Answers.{PushEnters, PopEnters, PushIsCaused, PopIsCaused, PushesAlone, PopsAlone};

use crate::deques::{Deque, DequePass, DequeSeat};
use crate::faults::{BusyAt, PushFault};
use crate::layout::{claimed_cell, next_ends, turns_away};
use crate::sides::{Aim, Side};
use seq_objects::{DequeCall, Keeps};

impl<K: Keeps> Deque<K> {
    // Stores the item of a push that has won the ends, and leaves the cell.
    fn fill(&self, seat: &mut DequeSeat<K>, cell: u32, item: u64)
        requires seat { IsSeatOf self.now.table seat.old }
        requires row { IsAt seat.old (Storing cell item) }
        requires cell { cell < (plan_of self.now.table).capacity }
        ensures seat { IsSeatOf self.now.table seat.new }
        ensures fills { Fills K.keeps (plan_of self.now.table) cell item (me_of seat.old) (me_of seat.new) }
    {
        self.store_in_cell(seat, cell, item);
        self.leave(seat, cell);
    }

    pub(crate) fn push_once(
        &self,
        seat: &mut DequeSeat<K>,
        side: Side,
        item: u64,
    ) -> Result<(), PushFault>
        requires seat { IsSeatOf self.now.table seat.old }
        requires rests { IsResting seat.old }
        requires kept { K.keeps (keeper_of self.now) item }
        ensures seat { IsSeatOf self.now.table seat.new }
        ensures rests { IsResting seat.new }
        ensures tries { TriesPush K.keeps (plan_of self.now.table) (call_of (Aim.Push side item)) (view_of seat.old) (view_of seat.new) result }
    {
        let aim = Aim::Push { side, item };
        let ends = self.look_at_ends(seat, aim);
        let away = turns_away(self.capacity, ends, aim);
        if away {
            return Err(PushFault::Full);
        }
        let cell = claimed_cell(self.capacity, ends, aim);
        let turn = self.claim(seat, aim, ends, cell);
        let held = turn != 0;
        if held {
            return Err(PushFault::Busy { seen: turn });
        }
        let next = next_ends(self.capacity, ends, aim);
        let found = self.exchange_ends(seat, aim, ends, 0, next);
        let lost = found != ends;
        if lost {
            self.leave(seat, cell);
            return Err(PushFault::Busy { seen: found });
        }
        self.fill(seat, cell, item);
        Ok(())
    }

    pub(crate) fn pop_once(
        &self,
        seat: &mut DequeSeat<K>,
        side: Side,
    ) -> Result<Option<u64>, BusyAt>
        requires seat { IsSeatOf self.now.table seat.old }
        requires rests { IsResting seat.old }
        ensures seat { IsSeatOf self.now.table seat.new }
        ensures rests { IsResting seat.new }
        ensures tries { TriesPop K.keeps (plan_of self.now.table) (call_of (Aim.Pop side)) (view_of seat.old) (view_of seat.new) result }
    {
        let aim = Aim::Pop { side };
        let ends = self.look_at_ends(seat, aim);
        let away = turns_away(self.capacity, ends, aim);
        if away {
            return Ok(None);
        }
        let cell = claimed_cell(self.capacity, ends, aim);
        let turn = self.claim(seat, aim, ends, cell);
        let held = turn != 0;
        if held {
            return Err(BusyAt { seen: turn });
        }
        let value = self.look_at_cell(seat, aim, ends, cell);
        let next = next_ends(self.capacity, ends, aim);
        let found = self.exchange_ends(seat, aim, ends, value, next);
        self.leave(seat, cell);
        let lost = found != ends;
        if lost {
            return Err(BusyAt { seen: found });
        }
        Ok(Some(value))
    }

    // One try of a push at this end, with a pass.
    fn try_push(&self, pass: &mut DequePass<K>, side: Side, item: u64) -> Result<(), PushFault>
        requires opening { pass_opening pass.old ≡ opening_of self.now }
        requires kept { K.keeps (keeper_of self.now) item }
        ensures pass { IsSamePass pass.old pass.new }
        ensures history { PushEnters (capacity_of self.now) (change pass.old pass.new) (call_of (Aim.Push side item)) result }
        ensures grows { IsPrefix (page pass.old).seen (page pass.new).seen }
        ensures cause { PushIsCaused (capacity_of self.now) (callers_of self.now) (change pass.old pass.new) (call_of (Aim.Push side item)) result }
        ensures callers { IsOfCallers (callers_of self.now) (page pass.new).seen }
        ensures alone { PushesAlone (callers_of self.now) (page pass.new) result }
    {
        self.push_once(&mut pass.seat, side, item)
    }

    // The same of a pop.
    fn try_pop(&self, pass: &mut DequePass<K>, side: Side) -> Result<Option<u64>, BusyAt>
        requires opening { pass_opening pass.old ≡ opening_of self.now }
        ensures pass { IsSamePass pass.old pass.new }
        ensures history { PopEnters (capacity_of self.now) (change pass.old pass.new) (call_of (Aim.Pop side)) result }
        ensures grows { IsPrefix (page pass.old).seen (page pass.new).seen }
        ensures cause { PopIsCaused (capacity_of self.now) (callers_of self.now) (change pass.old pass.new) (call_of (Aim.Pop side)) result }
        ensures kept { IfOk result (λ taken. IfSome taken (λ item. K.keeps (keeper_of self.now) item)) }
        ensures callers { IsOfCallers (callers_of self.now) (page pass.new).seen }
        ensures alone { PopsAlone (callers_of self.now) (page pass.new) result }
    {
        self.pop_once(&mut pass.seat, side)
    }

    /// Tries to add an item at the back. It has an entry in the history unless it is busy: another
    /// caller had the cell, or the ends changed between its look and its exchange. Then nothing was done.
    pub fn try_push_back(&self, pass: &mut DequePass<K>, item: u64) -> Result<(), PushFault>
        requires opening { pass_opening pass.old ≡ opening_of self.now }
        requires kept { K.keeps (keeper_of self.now) item }
        ensures pass { IsSamePass pass.old pass.new }
        ensures history { PushEnters (capacity_of self.now) (change pass.old pass.new) (DequeCall.PushBack item) result }
        ensures grows { IsPrefix (page pass.old).seen (page pass.new).seen }
        ensures cause { PushIsCaused (capacity_of self.now) (callers_of self.now) (change pass.old pass.new) (DequeCall.PushBack item) result }
        ensures callers { IsOfCallers (callers_of self.now) (page pass.new).seen }
        ensures alone { PushesAlone (callers_of self.now) (page pass.new) result }
    {
        self.try_push(pass, Side::Back, item)
    }

    /// Tries to add an item at the front. It has an entry in the history unless it is busy: another
    /// caller had the cell, or the ends changed between its look and its exchange. Then nothing was done.
    pub fn try_push_front(&self, pass: &mut DequePass<K>, item: u64) -> Result<(), PushFault>
        requires opening { pass_opening pass.old ≡ opening_of self.now }
        requires kept { K.keeps (keeper_of self.now) item }
        ensures pass { IsSamePass pass.old pass.new }
        ensures history { PushEnters (capacity_of self.now) (change pass.old pass.new) (DequeCall.PushFront item) result }
        ensures grows { IsPrefix (page pass.old).seen (page pass.new).seen }
        ensures cause { PushIsCaused (capacity_of self.now) (callers_of self.now) (change pass.old pass.new) (DequeCall.PushFront item) result }
        ensures callers { IsOfCallers (callers_of self.now) (page pass.new).seen }
        ensures alone { PushesAlone (callers_of self.now) (page pass.new) result }
    {
        self.try_push(pass, Side::Front, item)
    }

    /// Tries to take the item at the back. `None` is the reply of an empty deque. It has an entry in
    /// the history unless it is busy: another caller had the cell, or the ends changed between its look
    /// and its exchange. Then nothing was done.
    pub fn try_pop_back(&self, pass: &mut DequePass<K>) -> Result<Option<u64>, BusyAt>
        requires opening { pass_opening pass.old ≡ opening_of self.now }
        ensures pass { IsSamePass pass.old pass.new }
        ensures history { PopEnters (capacity_of self.now) (change pass.old pass.new) DequeCall.PopBack result }
        ensures grows { IsPrefix (page pass.old).seen (page pass.new).seen }
        ensures cause { PopIsCaused (capacity_of self.now) (callers_of self.now) (change pass.old pass.new) DequeCall.PopBack result }
        ensures kept { IfOk result (λ taken. IfSome taken (λ item. K.keeps (keeper_of self.now) item)) }
        ensures callers { IsOfCallers (callers_of self.now) (page pass.new).seen }
        ensures alone { PopsAlone (callers_of self.now) (page pass.new) result }
    {
        self.try_pop(pass, Side::Back)
    }

    /// Tries to take the item at the front. `None` is the reply of an empty deque. It has an entry in
    /// the history unless it is busy: another caller had the cell, or the ends changed between its look
    /// and its exchange. Then nothing was done.
    pub fn try_pop_front(&self, pass: &mut DequePass<K>) -> Result<Option<u64>, BusyAt>
        requires opening { pass_opening pass.old ≡ opening_of self.now }
        ensures pass { IsSamePass pass.old pass.new }
        ensures history { PopEnters (capacity_of self.now) (change pass.old pass.new) DequeCall.PopFront result }
        ensures grows { IsPrefix (page pass.old).seen (page pass.new).seen }
        ensures cause { PopIsCaused (capacity_of self.now) (callers_of self.now) (change pass.old pass.new) DequeCall.PopFront result }
        ensures kept { IfOk result (λ taken. IfSome taken (λ item. K.keeps (keeper_of self.now) item)) }
        ensures callers { IsOfCallers (callers_of self.now) (page pass.new).seen }
        ensures alone { PopsAlone (callers_of self.now) (page pass.new) result }
    {
        self.try_pop(pass, Side::Front)
    }
}
