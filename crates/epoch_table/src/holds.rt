//! The hold of a link: one load, by which a pass holds what the link names.
ghost use Rattle.std.specs.Prelude.{◌≡◌};
ghost use Rattle.pass_table.specs.Passes.{IsSeatOf, plan_of, view_of, me_of};
ghost use Rattle.epoch_table.specs.Holds.{MayHold, HoldsAt};

use crate::clients::Client;
use crate::kinds::{Held, SpotChoice};
use crate::words::{TableSeat, Words};
use pgas_base::Spot;
use std::marker::Brand;

impl<C: Client> Words<C> {
    /// Loads the link. Where it isn't 0, the pass then holds the object that it names, until it unpins.
    #[inline]
    pub fn hold(&self, seat: &mut TableSeat<C>, spot: Spot) -> u64
        requires seat { IsSeatOf self.now.table seat.old }
        requires may { MayHold C.terms (plan_of self.now.table) (view_of seat.old).number spot (view_of seat.old).part }
        ensures seat { IsSeatOf self.now.table seat.new }
        ensures holds { HoldsAt C.terms C.Object.opens C.Object.step (plan_of self.now.table) spot (me_of seat.old) result (me_of seat.new) }
    {
        self.hold_at::<Brand>(seat, spot)
    }

    #[inline]
    fn hold_at<W: SpotChoice>(&self, seat: &mut TableSeat<C>, spot: Spot) -> u64
        requires choice { W.spot ≡ spot }
        requires seat { IsSeatOf self.now.table seat.old }
        requires may { MayHold C.terms (plan_of self.now.table) (view_of seat.old).number spot (view_of seat.old).part }
        ensures seat { IsSeatOf self.now.table seat.new }
        ensures holds { HoldsAt C.terms C.Object.opens C.Object.step (plan_of self.now.table) spot (me_of seat.old) result (me_of seat.new) }
    {
        let at = self.shape.spot_at(spot);
        self.table.load::<Held<W>>(seat, at)
    }
}
