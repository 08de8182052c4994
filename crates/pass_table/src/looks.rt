//! Looks at word 0, before an object is closed.
ghost use Rattle.std.specs.Prelude.{◌≡◌};
ghost use Rattle.pass_table.specs.Steps.{FirstShows};
ghost use Rattle.pass_table.specs.Passes.{opening_of, pass_opening, plan_of};
ghost use Rattle.pass_table.specs.Openings.{AreOfOpening};
ghost use Rattle.pass_table.specs.Looks.{HasLooked, HaveLooked};

use crate::clients::{Client, PassOf};
use crate::tables::PassTable;

impl<C: Client> PassTable<C> {
    // Loads word 0 with one pass, and gives how many items there were.
    fn size_with(&self, pass: &mut PassOf<C>) -> u64
        requires pass { pass_opening pass.old ≡ opening_of self.now }
        requires first { FirstShows C.terms (plan_of self.now) }
        ensures { HasLooked C.terms (plan_of self.now) result pass.old pass.new }
    {
        C::items_in(self.look(pass))
    }

    /// Loads word 0 with each pass, and gives the most items that there were. Where these are the passes of all
    /// callers, the caller of the last entry of all has read of as many as the object has.
    pub fn most_items(&self, passes: &mut [PassOf<C>]) -> u64
        requires opening { AreOfOpening C.terms self.now passes.old }
        requires first { FirstShows C.terms (plan_of self.now) }
        ensures { HaveLooked C.terms (plan_of self.now) result passes.old passes.new }
    {
        let mut most = 0;
        for pass in passes.iter_mut() {
            most = most.max(self.size_with(pass));
        }
        most
    }
}
