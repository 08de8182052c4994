//! What callers tell one another: a note is a split of a pass's seat, and who learns it joins that seat to its own.
ghost use Rattle.std.specs.Prelude.{◌≡◌, ℕ, [], ◌∷◌, ◌++◌};
ghost use Rattle.epoch_laws.specs.Words.{global_epoch};
ghost use Rattle.pass_book.specs.Histories.{IsOfCallers, IsLegal};
ghost use Rattle.pass_book.specs.Pages.{IsNoted, Learns, IsPage};
ghost use Rattle.pass_table.specs.Steps.{MeetsFirst};
ghost use Rattle.pass_table.specs.Passes.{opening_of, plan_of, pass_opening, note_opening, pass_view, page, looked, seen_by, caller_of, IsSamePass};
ghost use Rattle.epoch_table.specs.Events.{PastOpens, PastSteps};
ghost use Rattle.epoch_table.specs.Rule.{manager_terms};

use crate::clients::Client;
use crate::words::{TableNote, TablePass, Words};

impl<C: Client> Words<C> {
    /// A note of what the caller has seen, by one load of word 0. The pass stays as it was.
    pub fn split(&self, pass: &mut TablePass<C>) -> TableNote<C>
        requires { pass_opening pass.old ≡ opening_of self.now.table }
        ensures opening { note_opening result ≡ opening_of self.now.table }
        ensures noted { IsNoted (page pass.old) (page pass.new) (seen_by result) }
        ensures pass { IsSamePass pass.old pass.new × (looked pass.new ≡ looked pass.old) × ((pass_view pass.new).part ≡ (pass_view pass.old).part) }
    {
        self.table.note(pass)
    }

    /// Takes in a note by one load of word 0, and loads it once more, which tells that both have seen beginnings of one
    /// history. What the caller has then seen is the longer of the two.
    pub fn join(&self, pass: &mut TablePass<C>, note: TableNote<C>)
        requires pass { pass_opening pass.old ≡ opening_of self.now.table }
        requires note { note_opening note ≡ opening_of self.now.table }
        ensures pass { IsSamePass pass.old pass.new × ((pass_view pass.new).part ≡ (pass_view pass.old).part) }
        ensures learns { Learns (page pass.old) (seen_by note) (page pass.new) }
        ensures own { IsPage (caller_of pass.new) (page pass.new) }
        ensures legal { IsLegal (PastOpens C.Object.opens) (PastSteps C.Object.step) ((manager_terms C.terms).start (plan_of self.now.table)) (page pass.new).seen }
        ensures callers { IsOfCallers (plan_of self.now.table).callers (page pass.new).seen }
        ensures looked { (found : ℕ) × (looked pass.new ≡ looked pass.old ++ record { name = global_epoch; word = found } ∷ [])
            × MeetsFirst (manager_terms C.terms) (PastOpens C.Object.opens) (PastSteps C.Object.step) (plan_of self.now.table) (caller_of pass.new) (page pass.new) found }
    {
        self.table.learn(pass, note);
    }
}
