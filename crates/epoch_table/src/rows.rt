//! Reads of the rows of objects that a pass owns or holds, and fills of the rows of its own. Neither enters anything.
ghost use Rattle.std.specs.Prelude.{◌≡◌};
ghost use Rattle.pass_table.specs.Passes.{IsSeatOf, plan_of, view_of, me_of};
ghost use Rattle.epoch_table.specs.RowSteps.{MayRead, MayFill, Reads, FillsRow};

use crate::clients::Client;
use crate::kinds::{Filled, Read, RowChoice};
use crate::words::{TableSeat, Words};
use pgas_base::Ptr;
use std::marker::Brand;

impl<C: Client> Words<C> {
    /// Loads a word in the row of an object that the pass owns or holds.
    #[inline]
    pub fn read(&self, seat: &mut TableSeat<C>, ptr: Ptr, at: u32) -> u64
        requires seat { IsSeatOf self.now.table seat.old }
        requires may { MayRead (plan_of self.now.table) (view_of seat.old).number ptr at (view_of seat.old).part }
        ensures seat { IsSeatOf self.now.table seat.new }
        ensures reads { Reads C.terms C.Object.opens C.Object.step (plan_of self.now.table) ptr at (me_of seat.old) result (me_of seat.new) }
    {
        self.read_row::<Brand>(seat, ptr, at)
    }

    /// Stores the value in a word of the row of an object that the pass owns.
    #[inline]
    pub fn fill(&self, seat: &mut TableSeat<C>, ptr: Ptr, at: u32, value: u64)
        requires seat { IsSeatOf self.now.table seat.old }
        requires may { MayFill C.terms (plan_of self.now.table) (view_of seat.old).number ptr at value (view_of seat.old).part }
        ensures seat { IsSeatOf self.now.table seat.new }
        ensures fills { FillsRow C.terms C.Object.opens C.Object.step (plan_of self.now.table) ptr at value (me_of seat.old) (me_of seat.new) }
    {
        self.fill_row::<Brand>(seat, ptr, at, value);
    }

    #[inline]
    fn read_row<W: RowChoice>(&self, seat: &mut TableSeat<C>, ptr: Ptr, at: u32) -> u64
        requires choice { (W.pointer ≡ ptr) × (W.at ≡ at) }
        requires seat { IsSeatOf self.now.table seat.old }
        requires may { MayRead (plan_of self.now.table) (view_of seat.old).number ptr at (view_of seat.old).part }
        ensures seat { IsSeatOf self.now.table seat.new }
        ensures reads { Reads C.terms C.Object.opens C.Object.step (plan_of self.now.table) ptr at (me_of seat.old) result (me_of seat.new) }
    {
        let word = self.shape.row_at(ptr, at);
        self.table.load::<Read<W>>(seat, word)
    }

    #[inline]
    fn fill_row<W: RowChoice>(&self, seat: &mut TableSeat<C>, ptr: Ptr, at: u32, value: u64)
        requires choice { (W.pointer ≡ ptr) × (W.at ≡ at) × (W.value ≡ value) }
        requires seat { IsSeatOf self.now.table seat.old }
        requires may { MayFill C.terms (plan_of self.now.table) (view_of seat.old).number ptr at value (view_of seat.old).part }
        ensures seat { IsSeatOf self.now.table seat.new }
        ensures fills { FillsRow C.terms C.Object.opens C.Object.step (plan_of self.now.table) ptr at value (me_of seat.old) (me_of seat.new) }
    {
        let word = self.shape.row_at(ptr, at);
        self.table.store::<Filled<W>>(seat, word, value);
    }
}
