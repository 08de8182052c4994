//! Steps on a word of the client, or in the row of an object that the caller holds, where the client's rule allows them. Each
//! is one step on shared memory. The client's rule says what the number found tells, and which entry the step makes.
ghost use Rattle.std.specs.Prelude.{◌≡◌};
ghost use Rattle.epoch_table.specs.Clients.{Steps, Looks, Puts, Switches, Trades, Raises};
ghost use Rattle.epoch_manager.specs.Managers.{plan_of, opening_of, pass_opening, held_by, knows, IsSamePass, change};
ghost use Rattle.epoch_manager.specs.SpotCalls.{IsReached, StaysAsItWas, EntersWhat, FoundAt};

use crate::managers::{Manager, Pass};
use epoch_table::Client;
use pgas_base::Spot;

impl<C: Client> Manager<C> {
    /// Loads the word.
    pub fn look(&self, pass: &mut Pass<C>, spot: Spot) -> u64
        requires opening { pass_opening pass.old ≡ opening_of self.now }
        requires reached { IsReached (plan_of self.now) (held_by pass.old) spot }
        requires allowed { C.terms.may (knows pass.old) (Steps spot Looks) }
        ensures pass { IsSamePass pass.old pass.new }
        ensures stays { StaysAsItWas pass.old pass.new }
        ensures knows { knows pass.new ≡ C.terms.after (knows pass.old) (Steps spot Looks) result }
        ensures enters { EntersWhat C.terms C.Object.opens C.Object.step (plan_of self.now) (change pass.old pass.new) (C.terms.enters (knows pass.old) (Steps spot Looks) result) }
        ensures found { FoundAt C.terms (plan_of self.now) pass.old pass.new spot Looks result (C.terms.enters (knows pass.old) (Steps spot Looks) result) }
    {
        self.words.look(&mut pass.pass.seat, spot)
    }

    /// Stores the value in the word.
    pub fn put(&self, pass: &mut Pass<C>, spot: Spot, value: u64)
        requires opening { pass_opening pass.old ≡ opening_of self.now }
        requires reached { IsReached (plan_of self.now) (held_by pass.old) spot }
        requires allowed { C.terms.may (knows pass.old) (Steps spot (Puts value)) }
        ensures pass { IsSamePass pass.old pass.new }
        ensures stays { StaysAsItWas pass.old pass.new }
        ensures knows { knows pass.new ≡ C.terms.after (knows pass.old) (Steps spot (Puts value)) value }
        ensures enters { EntersWhat C.terms C.Object.opens C.Object.step (plan_of self.now) (change pass.old pass.new) (C.terms.enters (knows pass.old) (Steps spot (Puts value)) value) }
        ensures found { FoundAt C.terms (plan_of self.now) pass.old pass.new spot (Puts value) value (C.terms.enters (knows pass.old) (Steps spot (Puts value)) value) }
    {
        self.words.put(&mut pass.pass.seat, spot, value);
    }

    /// Exchanges the word for the value, and answers what stood there.
    pub fn switch(&self, pass: &mut Pass<C>, spot: Spot, value: u64) -> u64
        requires opening { pass_opening pass.old ≡ opening_of self.now }
        requires reached { IsReached (plan_of self.now) (held_by pass.old) spot }
        requires allowed { C.terms.may (knows pass.old) (Steps spot (Switches value)) }
        ensures pass { IsSamePass pass.old pass.new }
        ensures stays { StaysAsItWas pass.old pass.new }
        ensures knows { knows pass.new ≡ C.terms.after (knows pass.old) (Steps spot (Switches value)) result }
        ensures enters { EntersWhat C.terms C.Object.opens C.Object.step (plan_of self.now) (change pass.old pass.new) (C.terms.enters (knows pass.old) (Steps spot (Switches value)) result) }
        ensures found { FoundAt C.terms (plan_of self.now) pass.old pass.new spot (Switches value) result (C.terms.enters (knows pass.old) (Steps spot (Switches value)) result) }
    {
        self.words.switch(&mut pass.pass.seat, spot, value)
    }

    /// Exchanges the word from the old number to the new one, where it is the old one, and answers what stood there.
    pub fn trade(&self, pass: &mut Pass<C>, spot: Spot, old: u64, new: u64) -> u64
        requires opening { pass_opening pass.old ≡ opening_of self.now }
        requires reached { IsReached (plan_of self.now) (held_by pass.old) spot }
        requires allowed { C.terms.may (knows pass.old) (Steps spot (Trades old new)) }
        ensures pass { IsSamePass pass.old pass.new }
        ensures stays { StaysAsItWas pass.old pass.new }
        ensures knows { knows pass.new ≡ C.terms.after (knows pass.old) (Steps spot (Trades old new)) result }
        ensures enters { EntersWhat C.terms C.Object.opens C.Object.step (plan_of self.now) (change pass.old pass.new) (C.terms.enters (knows pass.old) (Steps spot (Trades old new)) result) }
        ensures found { FoundAt C.terms (plan_of self.now) pass.old pass.new spot (Trades old new) result (C.terms.enters (knows pass.old) (Steps spot (Trades old new)) result) }
    {
        self.words.trade(&mut pass.pass.seat, spot, old, new)
    }

    /// Adds to the word, round 2^64, and answers what stood there.
    pub fn raise(&self, pass: &mut Pass<C>, spot: Spot, by: u64) -> u64
        requires opening { pass_opening pass.old ≡ opening_of self.now }
        requires reached { IsReached (plan_of self.now) (held_by pass.old) spot }
        requires allowed { C.terms.may (knows pass.old) (Steps spot (Raises by)) }
        ensures pass { IsSamePass pass.old pass.new }
        ensures stays { StaysAsItWas pass.old pass.new }
        ensures knows { knows pass.new ≡ C.terms.after (knows pass.old) (Steps spot (Raises by)) result }
        ensures enters { EntersWhat C.terms C.Object.opens C.Object.step (plan_of self.now) (change pass.old pass.new) (C.terms.enters (knows pass.old) (Steps spot (Raises by)) result) }
        ensures found { FoundAt C.terms (plan_of self.now) pass.old pass.new spot (Raises by) result (C.terms.enters (knows pass.old) (Steps spot (Raises by)) result) }
    {
        self.words.raise(&mut pass.pass.seat, spot, by)
    }
}
