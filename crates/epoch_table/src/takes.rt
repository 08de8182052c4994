//! The steps by which an object is taken, shown and given back.
ghost use Rattle.std.specs.Prelude.{◌≡◌, ◌<◌};
ghost use Rattle.pool_core.specs.Headers.{header_word};
ghost use Rattle.epoch_laws.specs.Places.{place_of};
ghost use Rattle.epoch_laws.specs.StackSteps.{looked_top};
ghost use Rattle.epoch_laws.specs.States.{IsPlace};
ghost use Rattle.epoch_laws.specs.TakeSteps.{look_count};
ghost use Rattle.pass_table.specs.Passes.{IsSeatOf, plan_of, view_of, me_of};
ghost use Rattle.epoch_table.specs.Kinds.{MayMake, Makes};

use crate::clients::Client;
use crate::layout::stack_at;
use crate::words::{TableSeat, Words};
use epoch_laws::Kind;
use pgas_base::Ptr;
use pool_core::{State, header};
use std::marker::Brand;

impl<C: Client> Words<C> {
    /// Loads the header of an object.
    #[inline]
    pub fn take_look(&self, seat: &mut TableSeat<C>, locale: u8, index: u32) -> u64
        requires seat { IsSeatOf self.now.table seat.old }
        requires place { IsPlace self.now.shape record { locale = locale; index = index } }
        requires may { MayMake C.terms (plan_of self.now.table) (view_of seat.old).number (Kind.TakeLook locale index) (view_of seat.old).part }
        ensures seat { IsSeatOf self.now.table seat.new }
        ensures makes { Makes C.terms C.Object.opens C.Object.step (plan_of self.now.table) (Kind.TakeLook locale index) (me_of seat.old) result (me_of seat.new) }
    {
        let at = self.shape.header_at(locale, index);
        self.load::<Brand>(seat, at, Kind::TakeLook { locale, index })
    }

    /// Loads the head of a locale's stack of free objects.
    #[inline]
    pub fn stack_look(&self, seat: &mut TableSeat<C>, locale: u8) -> u64
        requires seat { IsSeatOf self.now.table seat.old }
        requires locale { locale < self.now.shape.locales }
        requires may { MayMake C.terms (plan_of self.now.table) (view_of seat.old).number (Kind.StackLook locale) (view_of seat.old).part }
        ensures seat { IsSeatOf self.now.table seat.new }
        ensures makes { Makes C.terms C.Object.opens C.Object.step (plan_of self.now.table) (Kind.StackLook locale) (me_of seat.old) result (me_of seat.new) }
    {
        self.load::<Brand>(seat, stack_at(locale), Kind::StackLook { locale })
    }

    /// Loads the next word of the object that was read on top of the stack.
    #[inline]
    pub fn stack_next(&self, seat: &mut TableSeat<C>, locale: u8, index: u32) -> u64
        requires seat { IsSeatOf self.now.table seat.old }
        requires place { IsPlace self.now.shape record { locale = locale; index = index } }
        requires top { looked_top (view_of seat.old).part.seat.stack ≡ record { locale = locale; index = index } }
        requires may { MayMake C.terms (plan_of self.now.table) (view_of seat.old).number Kind.StackNext (view_of seat.old).part }
        ensures seat { IsSeatOf self.now.table seat.new }
        ensures makes { Makes C.terms C.Object.opens C.Object.step (plan_of self.now.table) Kind.StackNext (me_of seat.old) result (me_of seat.new) }
    {
        self.load::<Brand>(seat, self.shape.next_at(locale, index), Kind::StackNext)
    }

    /// Compares and exchanges the header of an object of the hand, from free with the count that was read, to owned. It
    /// can't lose.
    #[inline]
    pub fn take_try(&self, seat: &mut TableSeat<C>, locale: u8, index: u32, count: u32) -> u64
        requires seat { IsSeatOf self.now.table seat.old }
        requires place { IsPlace self.now.shape record { locale = locale; index = index } }
        requires count { count ≡ look_count (view_of seat.old).part.seat.free_look }
        requires may { MayMake C.terms (plan_of self.now.table) (view_of seat.old).number (Kind.TakeTry locale index) (view_of seat.old).part }
        ensures seat { IsSeatOf self.now.table seat.new }
        ensures makes { Makes C.terms C.Object.opens C.Object.step (plan_of self.now.table) (Kind.TakeTry locale index) (me_of seat.old) result (me_of seat.new) }
    {
        let at = self.shape.header_at(locale, index);
        let free = header(count, State::Free);
        let own = header(count, State::Own);
        self.exchange::<Brand>(seat, at, free, own, Kind::TakeTry { locale, index })
    }

    /// Stores the header of an object that the pass owns, shown.
    #[inline]
    pub fn show(&self, seat: &mut TableSeat<C>, ptr: Ptr)
        requires seat { IsSeatOf self.now.table seat.old }
        requires place { IsPlace self.now.shape (place_of ptr) }
        requires may { MayMake C.terms (plan_of self.now.table) (view_of seat.old).number (Kind.Show ptr) (view_of seat.old).part }
        ensures seat { IsSeatOf self.now.table seat.new }
        ensures makes { Makes C.terms C.Object.opens C.Object.step (plan_of self.now.table) (Kind.Show ptr) (me_of seat.old) (header_word ptr.count State.Shown) (me_of seat.new) }
    {
        let at = self.shape.header_at(ptr.locale(), ptr.index());
        let shown = header(ptr.count(), State::Shown);
        self.store::<Brand>(seat, at, shown, Kind::Show { ptr });
    }

    /// Stores the header of an object that the pass owns, free with the same count. The object goes into the hand.
    #[inline]
    pub fn give_back(&self, seat: &mut TableSeat<C>, ptr: Ptr)
        requires seat { IsSeatOf self.now.table seat.old }
        requires place { IsPlace self.now.shape (place_of ptr) }
        requires may { MayMake C.terms (plan_of self.now.table) (view_of seat.old).number (Kind.Return ptr) (view_of seat.old).part }
        ensures seat { IsSeatOf self.now.table seat.new }
        ensures makes { Makes C.terms C.Object.opens C.Object.step (plan_of self.now.table) (Kind.Return ptr) (me_of seat.old) (header_word ptr.count State.Free) (me_of seat.new) }
    {
        let at = self.shape.header_at(ptr.locale(), ptr.index());
        let free = header(ptr.count(), State::Free);
        self.store::<Brand>(seat, at, free, Kind::Return { ptr });
    }
}
