//! The steps by which a reclaim collects the lists whose objects may be released, walks over what it collected, and
//! releases that.
ghost use Rattle.std.specs.Prelude.{◌≡◌, ◌<◌};
ghost use Rattle.pool_core.specs.Headers.{released_word};
ghost use Rattle.epoch_laws.specs.Places.{place_in, place_of};
ghost use Rattle.epoch_laws.specs.ReclaimSteps.{last_epoch};
ghost use Rattle.epoch_laws.specs.States.{IsPlace};
ghost use Rattle.pass_table.specs.Passes.{IsSeatOf, plan_of, view_of, me_of};
ghost use Rattle.epoch_table.specs.Kinds.{MayMake, Makes};

use crate::clients::Client;
use crate::layout::list_at;
use crate::words::{TableSeat, Words};
use epoch_laws::Kind;
use pgas_base::Ptr;
use pool_core::{Header, State, released};
use std::marker::Brand;

impl<C: Client> Words<C> {
    /// Exchanges the next locale's list whose objects may be released to empty.
    #[inline]
    pub fn collect(&self, seat: &mut TableSeat<C>, locale: u8, epoch: u64) -> u64
        requires seat { IsSeatOf self.now.table seat.old }
        requires epoch { (epoch ≡ (view_of seat.old).part.seat.reclaim.epoch) × (epoch < last_epoch) }
        requires locale { (locale ≡ (view_of seat.old).part.seat.reclaim.collected) × (locale < self.now.shape.locales) }
        requires may { MayMake C.terms (plan_of self.now.table) (view_of seat.old).number Kind.Collect (view_of seat.old).part }
        ensures seat { IsSeatOf self.now.table seat.new }
        ensures makes { Makes C.terms C.Object.opens C.Object.step (plan_of self.now.table) Kind.Collect (me_of seat.old) result (me_of seat.new) }
    {
        self.swap::<Brand>(seat, list_at(locale, (epoch + 2) % 4), 0, Kind::Collect)
    }

    /// Loads the next word of the current object of the collected chain.
    #[inline]
    pub fn walk(&self, seat: &mut TableSeat<C>, locale: u8, index: u32) -> u64
        requires seat { IsSeatOf self.now.table seat.old }
        requires place { IsPlace self.now.shape record { locale = locale; index = index } }
        requires current { place_in (view_of seat.old).part.seat.reclaim.chain ≡ record { locale = locale; index = index } }
        requires may { MayMake C.terms (plan_of self.now.table) (view_of seat.old).number Kind.Walk (view_of seat.old).part }
        ensures seat { IsSeatOf self.now.table seat.new }
        ensures makes { Makes C.terms C.Object.opens C.Object.step (plan_of self.now.table) Kind.Walk (me_of seat.old) result (me_of seat.new) }
    {
        self.load::<Brand>(seat, self.shape.next_at(locale, index), Kind::Walk)
    }

    /// Stores the header of an object that was walked over, one count higher and free, or worn with the last count. A
    /// free one goes into the hand.
    #[inline]
    pub fn release(&self, seat: &mut TableSeat<C>, ptr: Ptr)
        requires seat { IsSeatOf self.now.table seat.old }
        requires place { IsPlace self.now.shape (place_of ptr) }
        requires may { MayMake C.terms (plan_of self.now.table) (view_of seat.old).number (Kind.Release ptr) (view_of seat.old).part }
        ensures seat { IsSeatOf self.now.table seat.new }
        ensures makes { Makes C.terms C.Object.opens C.Object.step (plan_of self.now.table) (Kind.Release ptr) (me_of seat.old) (released_word ptr.count) (me_of seat.new) }
    {
        let at = self.shape.header_at(ptr.locale(), ptr.index());
        let word = released(Header {
            count: ptr.count(),
            state: State::Shown,
        });
        self.store::<Brand>(seat, at, word, Kind::Release { ptr });
    }
}
