//! How an object that was never shown is given back.
ghost use Rattle.std.specs.Prelude.{◌≡◌, ◌<◌, Contains};
ghost use mathlib.Core.List.{IsPrefix};
ghost use Rattle.epoch_laws.specs.declared.events.EpochEvent.TheVariants.{Returned};
ghost use Rattle.epoch_laws.specs.Needs.{event};
ghost use Rattle.epoch_table.specs.Clients.{Returns};
ghost use Rattle.pass_table.specs.Passes.{IsSeatOf, view_of, me_of};
ghost use Rattle.epoch_manager.specs.Managers.{plan_of, shape_of, callers_of, opening_of, pass_opening, phase_of, caller_of, page, owned_by, held_by, knows, others, IsSamePass, change, ListsItems, ReadsWords};
ghost use Rattle.epoch_manager.specs.Gathering.{HasChain, SendsHome};
ghost use Rattle.epoch_manager.specs.Returning.{HasAlone, GoesAlone, MayReturn, ReturnsSeat, ReturnCause};

use crate::homes::PENDING;
use crate::managers::{Manager, Pass};
use epoch_table::{Client, TableSeat};
use pgas_base::Ptr;

impl<C: Client> Manager<C> {
    // Hands a chain of the hand home, whose tail has no link yet.
    #[inline]
    pub(crate) fn chain_home(&self, seat: &mut TableSeat<C>, top: Ptr, tail: Ptr)
        requires seat { IsSeatOf self.now.words.table seat.old }
        requires below { (view_of seat.old).number < callers_of self.now }
        requires chain { HasChain (shape_of self.now) (view_of seat.old).part top tail }
        ensures seat { IsSeatOf self.now.words.table seat.new }
        ensures sends { SendsHome C.terms C.Object.opens C.Object.step (plan_of self.now) top tail (me_of seat.old) (me_of seat.new) }
    {
        let old = self.words.home_swap(seat, top, tail);
        self.words.home_link(seat, tail.locale(), tail.index(), old);
    }

    // Hands the object that is alone in the hand home, as a chain of one.
    #[inline]
    pub(crate) fn go_home(&self, seat: &mut TableSeat<C>, ptr: Ptr)
        requires seat { IsSeatOf self.now.words.table seat.old }
        requires below { (view_of seat.old).number < callers_of self.now }
        requires alone { HasAlone (shape_of self.now) (view_of seat.old).part ptr }
        ensures seat { IsSeatOf self.now.words.table seat.new }
        ensures goes { GoesAlone C.terms C.Object.opens C.Object.step (plan_of self.now) ptr (me_of seat.old) (me_of seat.new) }
    {
        self.words.hand_link(seat, ptr, PENDING);
        self.chain_home(seat, ptr, ptr);
    }

    // The four steps of a give-back: the object is free, and goes home as a chain of one.
    #[inline]
    fn return_seat(&self, seat: &mut TableSeat<C>, ptr: Ptr)
        requires seat { IsSeatOf self.now.words.table seat.old }
        requires may { MayReturn C.terms (plan_of self.now) ptr (view_of seat.old).number (view_of seat.old).part }
        ensures seat { IsSeatOf self.now.words.table seat.new }
        ensures returns { ReturnsSeat C.terms C.Object.opens C.Object.step (plan_of self.now) ptr (me_of seat.old) (me_of seat.new) }
    {
        self.words.give_back(seat, ptr);
        self.go_home(seat, ptr);
    }

    /// Gives back an object that the caller owns and has not shown. The object is free again, with the same count, and
    /// goes home to its locale, where a later take finds it.
    pub fn give_back(&self, pass: &mut Pass<C>, ptr: Ptr)
        requires opening { pass_opening pass.old ≡ opening_of self.now }
        requires owned { Contains (owned_by pass.old) ptr }
        requires allowed { C.terms.gives_back }
        ensures pass { IsSamePass pass.old pass.new }
        ensures phase { phase_of pass.new ≡ phase_of pass.old }
        ensures owned { owned_by pass.new ≡ others ptr (owned_by pass.old) }
        ensures held { held_by pass.new ≡ held_by pass.old }
        ensures knows { knows pass.new ≡ C.terms.after (knows pass.old) (Returns ptr) 0 }
        ensures history { ListsItems C.terms C.Object.opens C.Object.step (plan_of self.now) (change pass.old pass.new) (event (caller_of pass.old) (Returned ptr)) }
        ensures grows { IsPrefix (page pass.old).seen (page pass.new).seen }
        ensures read { ReadsWords C.terms C.Object.opens C.Object.step (plan_of self.now) (change pass.old pass.new) (ReturnCause ptr.locale) }
    {
        self.return_seat(&mut pass.pass.seat, ptr);
    }
}
