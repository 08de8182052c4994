//! What a pass does with an object of its own: it fills the row, and then shows the object.
ghost use Rattle.std.specs.Prelude.{◌≡◌, ◌<◌, [], Contains};
ghost use mathlib.Core.List.{IsPrefix};
ghost use Rattle.epoch_laws.specs.declared.events.EpochEvent.TheVariants.{Shown};
ghost use Rattle.epoch_laws.specs.Needs.{event};
ghost use Rattle.epoch_table.specs.Clients.{Fills, Shows};
ghost use Rattle.epoch_manager.specs.Managers.{plan_of, opening_of, shape_of, pass_opening, phase_of, caller_of, page, looked, owned_by, held_by, knows, others, IsSamePass, change, ListsItems};

use crate::managers::{Manager, Pass};
use epoch_table::Client;
use pgas_base::Ptr;

impl<C: Client> Manager<C> {
    /// Stores the value in a word of the row of an object that the caller owns. What stands in a row of which nothing
    /// was filled yet is left open.
    pub fn fill(&self, pass: &mut Pass<C>, ptr: Ptr, at: u32, value: u64)
        requires opening { pass_opening pass.old ≡ opening_of self.now }
        requires owned { Contains (owned_by pass.old) ptr }
        requires at { at < (shape_of self.now).width }
        requires allowed { C.terms.may (knows pass.old) (Fills ptr at value) }
        ensures pass { IsSamePass pass.old pass.new }
        ensures phase { phase_of pass.new ≡ phase_of pass.old }
        ensures owned { owned_by pass.new ≡ owned_by pass.old }
        ensures held { held_by pass.new ≡ held_by pass.old }
        ensures knows { knows pass.new ≡ C.terms.after (knows pass.old) (Fills ptr at value) 0 }
        ensures history { ListsItems C.terms C.Object.opens C.Object.step (plan_of self.now) (change pass.old pass.new) [] }
        ensures grows { IsPrefix (page pass.old).seen (page pass.new).seen }
        ensures looked { looked pass.new ≡ looked pass.old }
    {
        self.words.fill(&mut pass.pass.seat, ptr, at, value);
    }

    /// Shows an object that the caller owns. From then on others can reach it, by the words that the client's rule
    /// allows, and the caller doesn't own it any more.
    pub fn show(&self, pass: &mut Pass<C>, ptr: Ptr)
        requires opening { pass_opening pass.old ≡ opening_of self.now }
        requires owned { Contains (owned_by pass.old) ptr }
        requires allowed { C.terms.may (knows pass.old) (Shows ptr) }
        ensures pass { IsSamePass pass.old pass.new }
        ensures phase { phase_of pass.new ≡ phase_of pass.old }
        ensures owned { owned_by pass.new ≡ others ptr (owned_by pass.old) }
        ensures held { held_by pass.new ≡ held_by pass.old }
        ensures knows { knows pass.new ≡ C.terms.after (knows pass.old) (Shows ptr) 0 }
        ensures history { ListsItems C.terms C.Object.opens C.Object.step (plan_of self.now) (change pass.old pass.new) (event (caller_of pass.old) (Shown ptr)) }
        ensures grows { IsPrefix (page pass.old).seen (page pass.new).seen }
        ensures looked { looked pass.new ≡ looked pass.old }
    {
        self.words.show(&mut pass.pass.seat, ptr);
    }
}
