//! One try of each call: it makes each of its steps once and waits for nobody.
ghost use Rattle.std.specs.Prelude.{◌≡◌, IfOk, IfSome};
ghost use mathlib.Core.List.{IsPrefix};
ghost use Rattle.pass_book.specs.Histories.{IsOfCallers};
ghost use Rattle.pass_table.specs.Passes.{IsSeatOf, IsResting, IsSamePass, change, page, pass_opening, view_of, plan_of};
ghost use Rattle.shared_bag.specs.Tries.{TriesAdd, TriesRemove};
ghost use Rattle.shared_bag.specs.Bags.{opening_of, shape_of, callers_of, keeper_of};
ghost use Rattle.shared_bag.specs.Answers.{AddEnters, RemoveEnters, AddIsCaused, RemoveIsCaused, AddsAlone, RemovesAlone, FullAlone, HadNoRoom};

use crate::bags::{Bag, BagPass, BagSeat};
use crate::faults::{AddFault, Busy};
use crate::visits::{AddVisit, Kept};
use seq_objects::Keeps;

impl<K: Keeps> Bag<K> {
    // Visits the segments of the caller's locale.
    pub(crate) fn add_once(&self, seat: &mut BagSeat<K>, item: u64) -> Result<(), AddFault>
        requires seat { IsSeatOf self.now.table seat.old }
        requires rests { IsResting seat.old }
        requires kept { K.keeps (keeper_of self.now) item }
        ensures seat { IsSeatOf self.now.table seat.new }
        ensures rests { IsResting seat.new }
        ensures tries { TriesAdd K.keeps (plan_of self.now.table) item (view_of seat.old) (view_of seat.new) result }
    {
        let caller = seat.caller();
        let mut some_held = false;
        for place in 0..self.shape.segments {
            let segment = self.shape.tried(caller, place);
            match self.add_at(seat, segment, item) {
                AddVisit::Done => return Ok(()),
                AddVisit::NoMemory => return Err(AddFault::OutOfMemory),
                AddVisit::Held => some_held = true,
                AddVisit::Full => {}
            }
        }
        if some_held {
            return Err(AddFault::Busy);
        }
        Err(AddFault::Full)
    }

    // Visits all segments between two looks at the count.
    pub(crate) fn remove_once(&self, seat: &mut BagSeat<K>) -> Result<Option<u64>, Busy>
        requires seat { IsSeatOf self.now.table seat.old }
        requires rests { IsResting seat.old }
        ensures seat { IsSeatOf self.now.table seat.new }
        ensures rests { IsResting seat.new }
        ensures tries { TriesRemove K.keeps (plan_of self.now.table) (view_of seat.old) (view_of seat.new) result }
    {
        if self.look_at_count(seat) == 0 {
            return Ok(None);
        }
        let mut kept = None;
        if let Some(item) = self.sweep(seat, &mut kept) {
            self.hand_kept_back(seat, kept);
            return Ok(Some(item));
        }
        self.give_kept_back(seat, kept);
        if self.look_at_count(seat) == 0 {
            return Ok(None);
        }
        Err(Busy {})
    }

    /// Tries to add an item to a segment of the caller's locale. It has an entry in the history unless it
    /// is refused. It is busy where no segment had room and another caller had one of them, and full where
    /// each had as many items as there is room for.
    pub fn try_add(&self, pass: &mut BagPass<K>, item: u64) -> Result<(), AddFault>
        requires opening { pass_opening pass.old ≡ opening_of self.now }
        requires kept { K.keeps (keeper_of self.now) item }
        ensures pass { IsSamePass pass.old pass.new }
        ensures history { AddEnters (change pass.old pass.new) item result }
        ensures grows { IsPrefix (page pass.old).seen (page pass.new).seen }
        ensures cause { AddIsCaused (shape_of self.now) (change pass.old pass.new) result }
        ensures callers { IsOfCallers (callers_of self.now) (page pass.new).seen }
        ensures alone { AddsAlone (callers_of self.now) (page pass.new) result }
        ensures room { HadNoRoom (change pass.old pass.new) (shape_of self.now).room result }
        ensures full_alone { FullAlone (change pass.old pass.new) (shape_of self.now) result }
    {
        self.add_once(&mut pass.seat, item)
    }

    /// Tries to take an item. It tries the segments of its own locale, and takes the newest item of the first that
    /// it gets and that has one. Then it tries those of the other locales, and moves half of the items of
    /// the first that has one to a segment of its own that it found empty, where it has got one. `None` is the
    /// reply of an empty bag. It has an entry in the history unless it is busy: the bag was not empty, but each
    /// segment was another caller's or empty. Where there is no memory to move items, it takes one alone.
    pub fn try_remove(&self, pass: &mut BagPass<K>) -> Result<Option<u64>, Busy>
        requires opening { pass_opening pass.old ≡ opening_of self.now }
        ensures pass { IsSamePass pass.old pass.new }
        ensures history { RemoveEnters (change pass.old pass.new) result }
        ensures grows { IsPrefix (page pass.old).seen (page pass.new).seen }
        ensures cause { RemoveIsCaused (shape_of self.now) (change pass.old pass.new) result }
        ensures kept { IfOk result (λ taken. IfSome taken (λ item. K.keeps (keeper_of self.now) item)) }
        ensures callers { IsOfCallers (callers_of self.now) (page pass.new).seen }
        ensures alone { RemovesAlone (callers_of self.now) (page pass.new) result }
    {
        self.remove_once(&mut pass.seat)
    }
}
