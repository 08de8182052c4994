//! The steps by which an object is deferred and goes into its list.
ghost use Rattle.std.specs.Prelude.{◌≡◌, ◌<◌};
ghost use Rattle.epoch_laws.specs.Places.{place_of};
ghost use Rattle.epoch_laws.specs.States.{IsPlace};
ghost use Rattle.pass_table.specs.Passes.{IsSeatOf, plan_of, view_of, me_of};
ghost use Rattle.epoch_table.specs.Kinds.{MayMake, Makes};

use crate::clients::Client;
use crate::layout::{epoch_at, list_at};
use crate::words::{TableSeat, Words};
use epoch_laws::Kind;
use pgas_base::Ptr;
use std::marker::Brand;

impl<C: Client> Words<C> {
    /// Loads the epoch of the seat's locale, which is the tag of the deferral. The object is deferred from then on.
    #[inline]
    pub fn defer_look(&self, seat: &mut TableSeat<C>, locale: u8, ptr: Ptr) -> u64
        requires seat { IsSeatOf self.now.table seat.old }
        requires locale { (locale ≡ (view_of seat.old).part.seat.token.locale) × (locale < self.now.shape.locales) }
        requires may { MayMake C.terms (plan_of self.now.table) (view_of seat.old).number (Kind.DeferLook ptr) (view_of seat.old).part }
        ensures seat { IsSeatOf self.now.table seat.new }
        ensures makes { Makes C.terms C.Object.opens C.Object.step (plan_of self.now.table) (Kind.DeferLook ptr) (me_of seat.old) result (me_of seat.new) }
    {
        self.load::<Brand>(seat, epoch_at(locale), Kind::DeferLook { ptr })
    }

    /// Exchanges the object into the list of the seat's locale that the tag names.
    #[inline]
    pub fn defer_swap(&self, seat: &mut TableSeat<C>, locale: u8, tag: u64, ptr: Ptr) -> u64
        requires seat { IsSeatOf self.now.table seat.old }
        requires locale { (locale ≡ (view_of seat.old).part.seat.token.locale) × (locale < self.now.shape.locales) }
        requires tag { tag ≡ (view_of seat.old).part.seat.deferral.tag }
        requires pointer { ptr ≡ (view_of seat.old).part.seat.deferral.pointer }
        requires may { MayMake C.terms (plan_of self.now.table) (view_of seat.old).number Kind.DeferSwap (view_of seat.old).part }
        ensures seat { IsSeatOf self.now.table seat.new }
        ensures makes { Makes C.terms C.Object.opens C.Object.step (plan_of self.now.table) Kind.DeferSwap (me_of seat.old) result (me_of seat.new) }
    {
        self.swap::<Brand>(seat, list_at(locale, tag % 4), ptr.word(), Kind::DeferSwap)
    }

    /// Stores the old head of the list as the object's next word.
    #[inline]
    pub fn defer_link(&self, seat: &mut TableSeat<C>, ptr: Ptr, old: u64)
        requires seat { IsSeatOf self.now.table seat.old }
        requires pointer { (ptr ≡ (view_of seat.old).part.seat.deferral.pointer) × IsPlace self.now.shape (place_of ptr) }
        requires old { old ≡ (view_of seat.old).part.seat.deferral.old }
        requires may { MayMake C.terms (plan_of self.now.table) (view_of seat.old).number Kind.DeferLink (view_of seat.old).part }
        ensures seat { IsSeatOf self.now.table seat.new }
        ensures makes { Makes C.terms C.Object.opens C.Object.step (plan_of self.now.table) Kind.DeferLink (me_of seat.old) old (me_of seat.new) }
    {
        let at = self.shape.next_at(ptr.locale(), ptr.index());
        self.store::<Brand>(seat, at, old, Kind::DeferLink);
    }
}
