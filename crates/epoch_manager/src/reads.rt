//! Reads of the rows of objects that the caller holds or owns.
ghost use Rattle.std.specs.Prelude.{◌≡◌, ◌⊎◌, ◌<◌, Contains, None};
ghost use Rattle.epoch_manager.specs.Managers.{plan_of, opening_of, shape_of, pass_opening, owned_by, held_by, knows, IsSamePass, change};
ghost use Rattle.epoch_manager.specs.SpotCalls.{StaysAsItWas, EntersWhat, FoundIn};

use crate::managers::{Manager, Pass};
use epoch_table::Client;
use pgas_base::Ptr;

impl<C: Client> Manager<C> {
    /// Loads a word in the row of an object that the caller holds, or owns. It is never refused. What stands in a word of an
    /// object of the caller's own that it has not filled is left open.
    pub fn read(&self, pass: &mut Pass<C>, ptr: Ptr, at: u32) -> u64
        requires opening { pass_opening pass.old ≡ opening_of self.now }
        requires has { Contains (held_by pass.old) ptr ⊎ Contains (owned_by pass.old) ptr }
        requires at { at < (shape_of self.now).width }
        ensures pass { IsSamePass pass.old pass.new }
        ensures stays { StaysAsItWas pass.old pass.new }
        ensures knows { knows pass.new ≡ knows pass.old }
        ensures enters { EntersWhat C.terms C.Object.opens C.Object.step (plan_of self.now) (change pass.old pass.new) None }
        ensures found { FoundIn C.terms (plan_of self.now) pass.old pass.new ptr at result }
    {
        self.words.read(&mut pass.pass.seat, ptr, at)
    }
}
