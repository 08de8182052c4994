//! The calls that wait: they repeat a try while it is busy.
ghost use Rattle.std.specs.Prelude.{◌≡◌, IfSome, Ok};
ghost use mathlib.Core.List.{IsPrefix};
ghost use Rattle.pass_book.specs.Histories.{IsOfCallers};
ghost use Rattle.pass_table.specs.Passes.{IsSeatOf, IsResting, IsSamePass, change, page, pass_opening, view_of, plan_of};
ghost use Rattle.shared_bag.specs.Bags.{opening_of, shape_of, callers_of, keeper_of};
ghost use Rattle.shared_bag.specs.Tries.{WaitsAdd, WaitsRemove};
ghost use Rattle.shared_bag.specs.Answers.{AddEnters, RemoveEnters, AddWaitIsCaused, RemoveWaitIsCaused, AnswersBusyAdd, SeesOwnAlone, FullAlone, HadNoRoom};

use crate::bags::{Bag, BagPass, BagSeat};
use crate::faults::AddFault;
use pass_table::pause;
use seq_objects::Keeps;
use std::sync::Wait;

impl<K: Keeps> Bag<K> {
    fn add_until_done<R: Wait>(
        &self,
        rt: &R,
        seat: &mut BagSeat<K>,
        item: u64,
    ) -> Result<(), AddFault>
        requires seat { IsSeatOf self.now.table seat.old }
        requires rests { IsResting seat.old }
        requires kept { K.keeps (keeper_of self.now) item }
        ensures seat { IsSeatOf self.now.table seat.new }
        ensures rests { IsResting seat.new }
        ensures waits { WaitsAdd K.keeps (plan_of self.now.table) item (view_of seat.old) (view_of seat.new) result }
    {
        let mut yields = 1;
        for _ in rt.forever() {
            match self.add_once(seat, item) {
                Ok(()) => return Ok(()),
                Err(AddFault::Full) => return Err(AddFault::Full),
                Err(AddFault::OutOfMemory) => return Err(AddFault::OutOfMemory),
                Err(AddFault::Busy) => yields = pause(yields),
            }
        }
        unreachable!()
    }

    fn remove_until_done<R: Wait>(&self, rt: &R, seat: &mut BagSeat<K>) -> Option<u64>
        requires seat { IsSeatOf self.now.table seat.old }
        requires rests { IsResting seat.old }
        ensures seat { IsSeatOf self.now.table seat.new }
        ensures rests { IsResting seat.new }
        ensures waits { WaitsRemove K.keeps (plan_of self.now.table) (view_of seat.old) (view_of seat.new) result }
    {
        let mut yields = 1;
        for _ in rt.forever() {
            match self.remove_once(seat) {
                Ok(taken) => return taken,
                Err(_) => yields = pause(yields),
            }
        }
        unreachable!()
    }

    /// Adds an item to a segment of the caller's locale. It repeats `try_add` while that is busy, and is
    /// refused where the segments are full or there is no memory.
    pub fn add<R: Wait>(&self, rt: &R, pass: &mut BagPass<K>, item: u64) -> Result<(), AddFault>
        requires opening { pass_opening pass.old ≡ opening_of self.now }
        requires kept { K.keeps (keeper_of self.now) item }
        ensures pass { IsSamePass pass.old pass.new }
        ensures never_busy { ¬ AnswersBusyAdd result }
        ensures history { AddEnters (change pass.old pass.new) item result }
        ensures grows { IsPrefix (page pass.old).seen (page pass.new).seen }
        ensures cause { AddWaitIsCaused (shape_of self.now) (change pass.old pass.new) result }
        ensures callers { IsOfCallers (callers_of self.now) (page pass.new).seen }
        ensures alone { SeesOwnAlone (callers_of self.now) (page pass.new) }
        ensures full_alone { FullAlone (change pass.old pass.new) (shape_of self.now) result }
        ensures room { HadNoRoom (change pass.old pass.new) (shape_of self.now).room result }
    {
        self.add_until_done(rt, &mut pass.seat, item)
    }

    /// Takes an item, or replies `None` where the bag was empty in its turn. It repeats `try_remove` while
    /// that is busy.
    pub fn remove<R: Wait>(&self, rt: &R, pass: &mut BagPass<K>) -> Option<u64>
        requires opening { pass_opening pass.old ≡ opening_of self.now }
        ensures pass { IsSamePass pass.old pass.new }
        ensures history { RemoveEnters (change pass.old pass.new) (Ok result) }
        ensures grows { IsPrefix (page pass.old).seen (page pass.new).seen }
        ensures cause { RemoveWaitIsCaused (shape_of self.now) (change pass.old pass.new) result }
        ensures kept { IfSome result (λ item. K.keeps (keeper_of self.now) item) }
        ensures callers { IsOfCallers (callers_of self.now) (page pass.new).seen }
        ensures alone { SeesOwnAlone (callers_of self.now) (page pass.new) }
    {
        self.remove_until_done(rt, &mut pass.seat)
    }
}
