//! The steps on a spot: a word of the client's own, or one in the row of an object that the pass holds. What each
//! finds, enters and leaves its seat is the client's to say.
ghost use Rattle.std.specs.Prelude.{◌≡◌};
ghost use Rattle.pass_table.specs.Passes.{IsSeatOf, plan_of, view_of, me_of};
ghost use Rattle.epoch_table.specs.Clients.{Looks, Puts, Switches, Trades, Raises};
ghost use Rattle.epoch_table.specs.Spots.{MayStep, StepsAt};

use crate::clients::Client;
use crate::kinds::{SpotChoice, Stepped};
use crate::words::{TableSeat, Words};
use pgas_base::Spot;
use std::marker::Brand;

impl<C: Client> Words<C> {
    /// Loads the word.
    #[inline]
    pub fn look(&self, seat: &mut TableSeat<C>, spot: Spot) -> u64
        requires seat { IsSeatOf self.now.table seat.old }
        requires may { MayStep C.terms (plan_of self.now.table) (view_of seat.old).number spot Looks (view_of seat.old).part }
        ensures seat { IsSeatOf self.now.table seat.new }
        ensures steps { StepsAt C.terms C.Object.opens C.Object.step (plan_of self.now.table) spot Looks (me_of seat.old) result (me_of seat.new) }
    {
        self.load_at::<Brand>(seat, spot)
    }

    /// Stores the value in the word.
    #[inline]
    pub fn put(&self, seat: &mut TableSeat<C>, spot: Spot, value: u64)
        requires seat { IsSeatOf self.now.table seat.old }
        requires may { MayStep C.terms (plan_of self.now.table) (view_of seat.old).number spot (Puts value) (view_of seat.old).part }
        ensures seat { IsSeatOf self.now.table seat.new }
        ensures steps { StepsAt C.terms C.Object.opens C.Object.step (plan_of self.now.table) spot (Puts value) (me_of seat.old) value (me_of seat.new) }
    {
        self.store_at::<Brand>(seat, spot, value);
    }

    /// Exchanges the word for the value, and answers what stood there.
    #[inline]
    pub fn switch(&self, seat: &mut TableSeat<C>, spot: Spot, value: u64) -> u64
        requires seat { IsSeatOf self.now.table seat.old }
        requires may { MayStep C.terms (plan_of self.now.table) (view_of seat.old).number spot (Switches value) (view_of seat.old).part }
        ensures seat { IsSeatOf self.now.table seat.new }
        ensures steps { StepsAt C.terms C.Object.opens C.Object.step (plan_of self.now.table) spot (Switches value) (me_of seat.old) result (me_of seat.new) }
    {
        self.swap_at::<Brand>(seat, spot, value)
    }

    /// Exchanges the word from the old number to the new one, where it is the old one, and answers what stood there.
    #[inline]
    pub fn trade(&self, seat: &mut TableSeat<C>, spot: Spot, old: u64, new: u64) -> u64
        requires seat { IsSeatOf self.now.table seat.old }
        requires may { MayStep C.terms (plan_of self.now.table) (view_of seat.old).number spot (Trades old new) (view_of seat.old).part }
        ensures seat { IsSeatOf self.now.table seat.new }
        ensures steps { StepsAt C.terms C.Object.opens C.Object.step (plan_of self.now.table) spot (Trades old new) (me_of seat.old) result (me_of seat.new) }
    {
        self.compare_exchange_at::<Brand>(seat, spot, old, new)
    }

    /// Adds to the word, round 2^64, and answers what stood there.
    #[inline]
    pub fn raise(&self, seat: &mut TableSeat<C>, spot: Spot, by: u64) -> u64
        requires seat { IsSeatOf self.now.table seat.old }
        requires may { MayStep C.terms (plan_of self.now.table) (view_of seat.old).number spot (Raises by) (view_of seat.old).part }
        ensures seat { IsSeatOf self.now.table seat.new }
        ensures steps { StepsAt C.terms C.Object.opens C.Object.step (plan_of self.now.table) spot (Raises by) (me_of seat.old) result (me_of seat.new) }
    {
        self.fetch_add_at::<Brand>(seat, spot, by)
    }

    #[inline]
    fn load_at<W: SpotChoice>(&self, seat: &mut TableSeat<C>, spot: Spot) -> u64
        requires choice { (W.spot ≡ spot) × (W.change ≡ Looks) }
        requires seat { IsSeatOf self.now.table seat.old }
        requires may { MayStep C.terms (plan_of self.now.table) (view_of seat.old).number spot Looks (view_of seat.old).part }
        ensures seat { IsSeatOf self.now.table seat.new }
        ensures steps { StepsAt C.terms C.Object.opens C.Object.step (plan_of self.now.table) spot Looks (me_of seat.old) result (me_of seat.new) }
    {
        let at = self.shape.spot_at(spot);
        self.table.load::<Stepped<W>>(seat, at)
    }

    #[inline]
    fn store_at<W: SpotChoice>(&self, seat: &mut TableSeat<C>, spot: Spot, value: u64)
        requires choice { (W.spot ≡ spot) × (W.change ≡ Puts value) }
        requires seat { IsSeatOf self.now.table seat.old }
        requires may { MayStep C.terms (plan_of self.now.table) (view_of seat.old).number spot (Puts value) (view_of seat.old).part }
        ensures seat { IsSeatOf self.now.table seat.new }
        ensures steps { StepsAt C.terms C.Object.opens C.Object.step (plan_of self.now.table) spot (Puts value) (me_of seat.old) value (me_of seat.new) }
    {
        let at = self.shape.spot_at(spot);
        self.table.store::<Stepped<W>>(seat, at, value);
    }

    #[inline]
    fn swap_at<W: SpotChoice>(&self, seat: &mut TableSeat<C>, spot: Spot, value: u64) -> u64
        requires choice { (W.spot ≡ spot) × (W.change ≡ Switches value) }
        requires seat { IsSeatOf self.now.table seat.old }
        requires may { MayStep C.terms (plan_of self.now.table) (view_of seat.old).number spot (Switches value) (view_of seat.old).part }
        ensures seat { IsSeatOf self.now.table seat.new }
        ensures steps { StepsAt C.terms C.Object.opens C.Object.step (plan_of self.now.table) spot (Switches value) (me_of seat.old) result (me_of seat.new) }
    {
        let at = self.shape.spot_at(spot);
        self.table.swap::<Stepped<W>>(seat, at, value)
    }

    #[inline]
    fn compare_exchange_at<W: SpotChoice>(
        &self,
        seat: &mut TableSeat<C>,
        spot: Spot,
        old: u64,
        new: u64,
    ) -> u64
        requires choice { (W.spot ≡ spot) × (W.change ≡ Trades old new) }
        requires seat { IsSeatOf self.now.table seat.old }
        requires may { MayStep C.terms (plan_of self.now.table) (view_of seat.old).number spot (Trades old new) (view_of seat.old).part }
        ensures seat { IsSeatOf self.now.table seat.new }
        ensures steps { StepsAt C.terms C.Object.opens C.Object.step (plan_of self.now.table) spot (Trades old new) (me_of seat.old) result (me_of seat.new) }
    {
        let at = self.shape.spot_at(spot);
        self.table
            .compare_exchange::<Stepped<W>>(seat, at, old, new)
    }

    #[inline]
    fn fetch_add_at<W: SpotChoice>(&self, seat: &mut TableSeat<C>, spot: Spot, by: u64) -> u64
        requires choice { (W.spot ≡ spot) × (W.change ≡ Raises by) }
        requires seat { IsSeatOf self.now.table seat.old }
        requires may { MayStep C.terms (plan_of self.now.table) (view_of seat.old).number spot (Raises by) (view_of seat.old).part }
        ensures seat { IsSeatOf self.now.table seat.new }
        ensures steps { StepsAt C.terms C.Object.opens C.Object.step (plan_of self.now.table) spot (Raises by) (me_of seat.old) result (me_of seat.new) }
    {
        let at = self.shape.spot_at(spot);
        self.table.fetch_add::<Stepped<W>>(seat, at, by)
    }
}
