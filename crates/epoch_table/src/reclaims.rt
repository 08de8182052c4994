//! The steps of a reclaim: elections, the scan, and the advance.
ghost use Rattle.std.specs.Prelude.{◌≡◌, ◌+◌, ◌<◌, true, false};
ghost use Rattle.epoch_laws.specs.ReclaimSteps.{has_global, last_epoch};
ghost use Rattle.epoch_laws.specs.Timing.{IsToken};
ghost use Rattle.pass_table.specs.Passes.{IsSeatOf, plan_of, view_of, me_of};
ghost use Rattle.epoch_table.specs.Kinds.{MayMake, Makes};

use crate::clients::Client;
use crate::layout::{ELECTION, EPOCH, election_at, epoch_at};
use crate::words::{TableSeat, Words};
use epoch_laws::{Kind, Token};
use std::marker::Brand;

impl<C: Client> Words<C> {
    /// Compares and exchanges the election of the seat's locale, 0 to 1.
    #[inline]
    pub fn elect_local(&self, seat: &mut TableSeat<C>, locale: u8) -> u64
        requires seat { IsSeatOf self.now.table seat.old }
        requires locale { (locale ≡ (view_of seat.old).part.seat.token.locale) × (locale < self.now.shape.locales) }
        requires may { MayMake C.terms (plan_of self.now.table) (view_of seat.old).number Kind.ElectLocal (view_of seat.old).part }
        ensures seat { IsSeatOf self.now.table seat.new }
        ensures makes { Makes C.terms C.Object.opens C.Object.step (plan_of self.now.table) Kind.ElectLocal (me_of seat.old) result (me_of seat.new) }
    {
        self.exchange::<Brand>(seat, election_at(locale), 0, 1, Kind::ElectLocal)
    }

    /// Compares and exchanges the global election, 0 to 1.
    #[inline]
    pub fn elect_global(&self, seat: &mut TableSeat<C>) -> u64
        requires seat { IsSeatOf self.now.table seat.old }
        requires may { MayMake C.terms (plan_of self.now.table) (view_of seat.old).number Kind.ElectGlobal (view_of seat.old).part }
        ensures seat { IsSeatOf self.now.table seat.new }
        ensures makes { Makes C.terms C.Object.opens C.Object.step (plan_of self.now.table) Kind.ElectGlobal (me_of seat.old) result (me_of seat.new) }
    {
        self.exchange::<Brand>(seat, ELECTION, 0, 1, Kind::ElectGlobal)
    }

    /// Loads the global epoch.
    #[inline]
    pub fn epoch_look(&self, seat: &mut TableSeat<C>) -> u64
        requires seat { IsSeatOf self.now.table seat.old }
        requires may { MayMake C.terms (plan_of self.now.table) (view_of seat.old).number Kind.EpochLook (view_of seat.old).part }
        ensures seat { IsSeatOf self.now.table seat.new }
        ensures makes { Makes C.terms C.Object.opens C.Object.step (plan_of self.now.table) Kind.EpochLook (me_of seat.old) result (me_of seat.new) }
    {
        self.load::<Brand>(seat, EPOCH, Kind::EpochLook)
    }

    /// Loads the word of the next token.
    #[inline]
    pub fn scan_token(&self, seat: &mut TableSeat<C>, token: Token) -> u64
        requires seat { IsSeatOf self.now.table seat.old }
        requires token { (token ≡ (view_of seat.old).part.seat.reclaim.scan) × IsToken self.now.shape.locales self.now.shape.tokens token }
        requires may { MayMake C.terms (plan_of self.now.table) (view_of seat.old).number Kind.ScanToken (view_of seat.old).part }
        ensures seat { IsSeatOf self.now.table seat.new }
        ensures makes { Makes C.terms C.Object.opens C.Object.step (plan_of self.now.table) Kind.ScanToken (me_of seat.old) result (me_of seat.new) }
    {
        self.load::<Brand>(seat, self.shape.token_at(token), Kind::ScanToken)
    }

    /// Stores one more than the epoch that was read as the global epoch.
    #[inline]
    pub fn advance(&self, seat: &mut TableSeat<C>, epoch: u64)
        requires seat { IsSeatOf self.now.table seat.old }
        requires epoch { (epoch ≡ (view_of seat.old).part.seat.reclaim.epoch) × (epoch < last_epoch) }
        requires may { MayMake C.terms (plan_of self.now.table) (view_of seat.old).number Kind.Advance (view_of seat.old).part }
        ensures seat { IsSeatOf self.now.table seat.new }
        ensures makes { Makes C.terms C.Object.opens C.Object.step (plan_of self.now.table) Kind.Advance (me_of seat.old) (epoch + 1) (me_of seat.new) }
    {
        self.store::<Brand>(seat, EPOCH, epoch + 1, Kind::Advance);
    }

    /// Stores the new epoch as that of the next locale.
    #[inline]
    pub fn spread(&self, seat: &mut TableSeat<C>, locale: u8, epoch: u64)
        requires seat { IsSeatOf self.now.table seat.old }
        requires epoch { (epoch ≡ (view_of seat.old).part.seat.reclaim.epoch) × (epoch < last_epoch) }
        requires locale { (locale ≡ (view_of seat.old).part.seat.reclaim.spread) × (locale < self.now.shape.locales) }
        requires may { MayMake C.terms (plan_of self.now.table) (view_of seat.old).number Kind.Spread (view_of seat.old).part }
        ensures seat { IsSeatOf self.now.table seat.new }
        ensures makes { Makes C.terms C.Object.opens C.Object.step (plan_of self.now.table) Kind.Spread (me_of seat.old) (epoch + 1) (me_of seat.new) }
    {
        self.store::<Brand>(seat, epoch_at(locale), epoch + 1, Kind::Spread);
    }

    /// Stores 0 in the global election, which the seat has won.
    #[inline]
    pub fn leave_global(&self, seat: &mut TableSeat<C>)
        requires seat { IsSeatOf self.now.table seat.old }
        requires won { has_global (view_of seat.old).part.seat.phase ≡ true }
        requires may { MayMake C.terms (plan_of self.now.table) (view_of seat.old).number Kind.Leave (view_of seat.old).part }
        ensures seat { IsSeatOf self.now.table seat.new }
        ensures makes { Makes C.terms C.Object.opens C.Object.step (plan_of self.now.table) Kind.Leave (me_of seat.old) 0 (me_of seat.new) }
    {
        self.store::<Brand>(seat, ELECTION, 0, Kind::Leave);
    }

    /// Stores 0 in the election of its locale, which the seat has won.
    #[inline]
    pub fn leave_local(&self, seat: &mut TableSeat<C>, locale: u8)
        requires seat { IsSeatOf self.now.table seat.old }
        requires locale { (locale ≡ (view_of seat.old).part.seat.token.locale) × (locale < self.now.shape.locales) }
        requires won { has_global (view_of seat.old).part.seat.phase ≡ false }
        requires may { MayMake C.terms (plan_of self.now.table) (view_of seat.old).number Kind.Leave (view_of seat.old).part }
        ensures seat { IsSeatOf self.now.table seat.new }
        ensures makes { Makes C.terms C.Object.opens C.Object.step (plan_of self.now.table) Kind.Leave (me_of seat.old) 0 (me_of seat.new) }
    {
        self.store::<Brand>(seat, election_at(locale), 0, Kind::Leave);
    }
}
