//! The steps by which free objects go home, and are taken from there.
ghost use Rattle.std.specs.Prelude.{◌≡◌, ◌<◌, Some};
ghost use Rattle.epoch_laws.specs.Places.{place_of, place_in};
ghost use Rattle.epoch_laws.specs.States.{IsPlace};
ghost use Rattle.pass_table.specs.Passes.{IsSeatOf, plan_of, view_of, me_of};
ghost use Rattle.epoch_table.specs.Kinds.{MayMake, Makes};

use crate::clients::Client;
use crate::layout::home_at;
use crate::words::{TableSeat, Words};
use epoch_laws::Kind;
use pgas_base::Ptr;
use std::marker::Brand;

impl<C: Client> Words<C> {
    /// Stores the next word of an object of the hand.
    #[inline]
    pub fn hand_link(&self, seat: &mut TableSeat<C>, ptr: Ptr, next: u64)
        requires seat { IsSeatOf self.now.table seat.old }
        requires place { IsPlace self.now.shape (place_of ptr) }
        requires may { MayMake C.terms (plan_of self.now.table) (view_of seat.old).number (Kind.HandLink ptr next) (view_of seat.old).part }
        ensures seat { IsSeatOf self.now.table seat.new }
        ensures makes { Makes C.terms C.Object.opens C.Object.step (plan_of self.now.table) (Kind.HandLink ptr next) (me_of seat.old) next (me_of seat.new) }
    {
        let at = self.shape.next_at(ptr.locale(), ptr.index());
        self.store::<Brand>(seat, at, next, Kind::HandLink { ptr, next });
    }

    /// Exchanges a chain of the hand into the home head of its locale.
    #[inline]
    pub fn home_swap(&self, seat: &mut TableSeat<C>, top: Ptr, tail: Ptr) -> u64
        requires seat { IsSeatOf self.now.table seat.old }
        requires locale { top.locale < self.now.shape.locales }
        requires may { MayMake C.terms (plan_of self.now.table) (view_of seat.old).number (Kind.HomeSwap top tail) (view_of seat.old).part }
        ensures seat { IsSeatOf self.now.table seat.new }
        ensures makes { Makes C.terms C.Object.opens C.Object.step (plan_of self.now.table) (Kind.HomeSwap top tail) (me_of seat.old) result (me_of seat.new) }
    {
        let kind = Kind::HomeSwap { top, tail };
        self.swap::<Brand>(seat, home_at(top.locale()), top.word(), kind)
    }

    /// Stores the old home head as the next word of the tail that waits for it.
    #[inline]
    pub fn home_link(&self, seat: &mut TableSeat<C>, locale: u8, index: u32, old: u64)
        requires seat { IsSeatOf self.now.table seat.old }
        requires place { IsPlace self.now.shape record { locale = locale; index = index } }
        requires tail { (view_of seat.old).part.seat.homing.tail ≡ Some record { locale = locale; index = index } }
        requires old { old ≡ (view_of seat.old).part.seat.homing.old }
        requires may { MayMake C.terms (plan_of self.now.table) (view_of seat.old).number Kind.HomeLink (view_of seat.old).part }
        ensures seat { IsSeatOf self.now.table seat.new }
        ensures makes { Makes C.terms C.Object.opens C.Object.step (plan_of self.now.table) Kind.HomeLink (me_of seat.old) old (me_of seat.new) }
    {
        let at = self.shape.next_at(locale, index);
        self.store::<Brand>(seat, at, old, Kind::HomeLink);
    }

    /// Exchanges a locale's home head to none.
    #[inline]
    pub fn home_take(&self, seat: &mut TableSeat<C>, locale: u8) -> u64
        requires seat { IsSeatOf self.now.table seat.old }
        requires locale { locale < self.now.shape.locales }
        requires may { MayMake C.terms (plan_of self.now.table) (view_of seat.old).number (Kind.HomeTake locale) (view_of seat.old).part }
        ensures seat { IsSeatOf self.now.table seat.new }
        ensures makes { Makes C.terms C.Object.opens C.Object.step (plan_of self.now.table) (Kind.HomeTake locale) (me_of seat.old) result (me_of seat.new) }
    {
        self.swap::<Brand>(seat, home_at(locale), 0, Kind::HomeTake { locale })
    }

    /// Loads the next word of the current object of the taken chain.
    #[inline]
    pub fn home_walk(&self, seat: &mut TableSeat<C>, locale: u8, index: u32) -> u64
        requires seat { IsSeatOf self.now.table seat.old }
        requires place { IsPlace self.now.shape record { locale = locale; index = index } }
        requires current { place_in (view_of seat.old).part.seat.homing.chain ≡ record { locale = locale; index = index } }
        requires may { MayMake C.terms (plan_of self.now.table) (view_of seat.old).number Kind.HomeWalk (view_of seat.old).part }
        ensures seat { IsSeatOf self.now.table seat.new }
        ensures makes { Makes C.terms C.Object.opens C.Object.step (plan_of self.now.table) Kind.HomeWalk (me_of seat.old) result (me_of seat.new) }
    {
        self.load::<Brand>(seat, self.shape.next_at(locale, index), Kind::HomeWalk)
    }
}
