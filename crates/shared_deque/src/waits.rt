//! The calls that wait: they repeat a try while it is busy.
ghost use Rattle.std.specs.Prelude.{◌≡◌, IfSome};
ghost use mathlib.Core.List.{IsPrefix};
ghost use Rattle.pass_book.specs.Histories.{IsOfCallers};
ghost use Rattle.pass_table.specs.Passes.{IsSeatOf, IsResting, IsSamePass, change, page, pass_opening, view_of, plan_of};
ghost use Rattle.shared_deque.specs.Aims.{call_of};
ghost use Rattle.shared_deque.specs.Tries.{WaitsPush, WaitsPop};
ghost use Rattle.shared_deque.specs.Deques.{opening_of, capacity_of, callers_of, keeper_of};
ghost use Rattle.shared_deque.specs.Answers.{PushEnters, PopEnters, PushWaitIsCaused, PopWaitIsCaused, SeesOwnAlone, last_push, last_pop};

use crate::deques::{Deque, DequePass, DequeSeat};
use crate::faults::{Full, PushFault};
use crate::sides::{Aim, Side};
use pass_table::pause;
use seq_objects::{DequeCall, Keeps};
use std::sync::Wait;

impl<K: Keeps> Deque<K> {
    fn push_until_done<R: Wait>(
        &self,
        rt: &R,
        seat: &mut DequeSeat<K>,
        side: Side,
        item: u64,
    ) -> Result<(), Full>
        requires seat { IsSeatOf self.now.table seat.old }
        requires rests { IsResting seat.old }
        requires kept { K.keeps (keeper_of self.now) item }
        ensures seat { IsSeatOf self.now.table seat.new }
        ensures rests { IsResting seat.new }
        ensures waits { WaitsPush K.keeps (plan_of self.now.table) (call_of (Aim.Push side item)) (view_of seat.old) (view_of seat.new) result }
    {
        let mut yields = 1;
        for _ in rt.forever() {
            match self.push_once(seat, side, item) {
                Ok(()) => return Ok(()),
                Err(PushFault::Full) => return Err(Full {}),
                Err(PushFault::Busy { .. }) => yields = pause(yields),
            }
        }
        unreachable!()
    }

    fn pop_until_done<R: Wait>(&self, rt: &R, seat: &mut DequeSeat<K>, side: Side) -> Option<u64>
        requires seat { IsSeatOf self.now.table seat.old }
        requires rests { IsResting seat.old }
        ensures seat { IsSeatOf self.now.table seat.new }
        ensures rests { IsResting seat.new }
        ensures waits { WaitsPop K.keeps (plan_of self.now.table) (call_of (Aim.Pop side)) (view_of seat.old) (view_of seat.new) result }
    {
        let mut yields = 1;
        for _ in rt.forever() {
            match self.pop_once(seat, side) {
                Ok(taken) => return taken,
                Err(_) => yields = pause(yields),
            }
        }
        unreachable!()
    }

    // A push at this end, with a pass.
    fn push_waiting<R: Wait>(
        &self,
        rt: &R,
        pass: &mut DequePass<K>,
        side: Side,
        item: u64,
    ) -> Result<(), Full>
        requires opening { pass_opening pass.old ≡ opening_of self.now }
        requires kept { K.keeps (keeper_of self.now) item }
        ensures pass { IsSamePass pass.old pass.new }
        ensures history { PushEnters (capacity_of self.now) (change pass.old pass.new) (call_of (Aim.Push side item)) (last_push result) }
        ensures grows { IsPrefix (page pass.old).seen (page pass.new).seen }
        ensures cause { PushWaitIsCaused (capacity_of self.now) (callers_of self.now) (change pass.old pass.new) (call_of (Aim.Push side item)) result }
        ensures callers { IsOfCallers (callers_of self.now) (page pass.new).seen }
        ensures alone { SeesOwnAlone (callers_of self.now) (page pass.new) }
    {
        self.push_until_done(rt, &mut pass.seat, side, item)
    }

    // The same of a pop.
    fn pop_waiting<R: Wait>(&self, rt: &R, pass: &mut DequePass<K>, side: Side) -> Option<u64>
        requires opening { pass_opening pass.old ≡ opening_of self.now }
        ensures pass { IsSamePass pass.old pass.new }
        ensures history { PopEnters (capacity_of self.now) (change pass.old pass.new) (call_of (Aim.Pop side)) (last_pop result) }
        ensures grows { IsPrefix (page pass.old).seen (page pass.new).seen }
        ensures cause { PopWaitIsCaused (capacity_of self.now) (callers_of self.now) (change pass.old pass.new) (call_of (Aim.Pop side)) result }
        ensures kept { IfSome result (λ item. K.keeps (keeper_of self.now) item) }
        ensures callers { IsOfCallers (callers_of self.now) (page pass.new).seen }
        ensures alone { SeesOwnAlone (callers_of self.now) (page pass.new) }
    {
        self.pop_until_done(rt, &mut pass.seat, side)
    }

    /// Adds an item at the back, or replies that the deque was full in its turn. It repeats
    /// `try_push_back` while that is busy.
    pub fn push_back<R: Wait>(&self, rt: &R, pass: &mut DequePass<K>, item: u64) -> Result<(), Full>
        requires opening { pass_opening pass.old ≡ opening_of self.now }
        requires kept { K.keeps (keeper_of self.now) item }
        ensures pass { IsSamePass pass.old pass.new }
        ensures history { PushEnters (capacity_of self.now) (change pass.old pass.new) (DequeCall.PushBack item) (last_push result) }
        ensures grows { IsPrefix (page pass.old).seen (page pass.new).seen }
        ensures cause { PushWaitIsCaused (capacity_of self.now) (callers_of self.now) (change pass.old pass.new) (DequeCall.PushBack item) result }
        ensures callers { IsOfCallers (callers_of self.now) (page pass.new).seen }
        ensures alone { SeesOwnAlone (callers_of self.now) (page pass.new) }
    {
        self.push_waiting(rt, pass, Side::Back, item)
    }

    /// Adds an item at the front, or replies that the deque was full in its turn. It repeats
    /// `try_push_front` while that is busy.
    pub fn push_front<R: Wait>(
        &self,
        rt: &R,
        pass: &mut DequePass<K>,
        item: u64,
    ) -> Result<(), Full>
        requires opening { pass_opening pass.old ≡ opening_of self.now }
        requires kept { K.keeps (keeper_of self.now) item }
        ensures pass { IsSamePass pass.old pass.new }
        ensures history { PushEnters (capacity_of self.now) (change pass.old pass.new) (DequeCall.PushFront item) (last_push result) }
        ensures grows { IsPrefix (page pass.old).seen (page pass.new).seen }
        ensures cause { PushWaitIsCaused (capacity_of self.now) (callers_of self.now) (change pass.old pass.new) (DequeCall.PushFront item) result }
        ensures callers { IsOfCallers (callers_of self.now) (page pass.new).seen }
        ensures alone { SeesOwnAlone (callers_of self.now) (page pass.new) }
    {
        self.push_waiting(rt, pass, Side::Front, item)
    }

    /// Takes the item at the back, or replies `None` where the deque was empty in its turn. It repeats
    /// `try_pop_back` while that is busy.
    pub fn pop_back<R: Wait>(&self, rt: &R, pass: &mut DequePass<K>) -> Option<u64>
        requires opening { pass_opening pass.old ≡ opening_of self.now }
        ensures pass { IsSamePass pass.old pass.new }
        ensures history { PopEnters (capacity_of self.now) (change pass.old pass.new) DequeCall.PopBack (last_pop result) }
        ensures grows { IsPrefix (page pass.old).seen (page pass.new).seen }
        ensures cause { PopWaitIsCaused (capacity_of self.now) (callers_of self.now) (change pass.old pass.new) DequeCall.PopBack result }
        ensures kept { IfSome result (λ item. K.keeps (keeper_of self.now) item) }
        ensures callers { IsOfCallers (callers_of self.now) (page pass.new).seen }
        ensures alone { SeesOwnAlone (callers_of self.now) (page pass.new) }
    {
        self.pop_waiting(rt, pass, Side::Back)
    }

    /// Takes the item at the front, or replies `None` where the deque was empty in its turn. It repeats
    /// `try_pop_front` while that is busy.
    pub fn pop_front<R: Wait>(&self, rt: &R, pass: &mut DequePass<K>) -> Option<u64>
        requires opening { pass_opening pass.old ≡ opening_of self.now }
        ensures pass { IsSamePass pass.old pass.new }
        ensures history { PopEnters (capacity_of self.now) (change pass.old pass.new) DequeCall.PopFront (last_pop result) }
        ensures grows { IsPrefix (page pass.old).seen (page pass.new).seen }
        ensures cause { PopWaitIsCaused (capacity_of self.now) (callers_of self.now) (change pass.old pass.new) DequeCall.PopFront result }
        ensures kept { IfSome result (λ item. K.keeps (keeper_of self.now) item) }
        ensures callers { IsOfCallers (callers_of self.now) (page pass.new).seen }
        ensures alone { SeesOwnAlone (callers_of self.now) (page pass.new) }
    {
        self.pop_waiting(rt, pass, Side::Front)
    }
}
