//! What callers tell one another: a note of what one has seen, which another takes in.
ghost use Rattle.std.specs.Prelude.{◌≡◌, ℕ, [], ◌∷◌, ◌++◌};
ghost use Rattle.epoch_laws.specs.Words.{global_epoch};
ghost use Rattle.pass_book.specs.Histories.{IsOfCallers, IsLegal};
ghost use Rattle.pass_book.specs.Pages.{IsNoted, IsPage, Learns};
ghost use Rattle.pass_table.specs.Passes.{note_opening, seen_by};
ghost use Rattle.pass_table.specs.Steps.{MeetsFirst};
ghost use Rattle.epoch_table.specs.Events.{PastOpens, PastSteps};
ghost use Rattle.epoch_table.specs.Rule.{manager_terms};
ghost use Rattle.epoch_manager.specs.Managers.{plan_of, opening_of, callers_of, pass_opening, phase_of, caller_of, page, looked, IsSamePass, HasTheSame};

use crate::managers::{Manager, Note, Pass};
use epoch_table::Client;

impl<C: Client> Manager<C> {
    /// A note of what the caller has seen. The pass stays as it was.
    pub fn note(&self, pass: &mut Pass<C>) -> Note<C>
        requires { pass_opening pass.old ≡ opening_of self.now }
        ensures opening { note_opening result ≡ opening_of self.now }
        ensures noted { IsNoted (page pass.old) (page pass.new) (seen_by result) }
        ensures pass { IsSamePass pass.old pass.new }
        ensures same { HasTheSame pass.old pass.new }
        ensures phase { phase_of pass.new ≡ phase_of pass.old }
        ensures looked { looked pass.new ≡ looked pass.old }
    {
        self.words.split(&mut pass.pass)
    }

    /// Takes in a note. What the caller has then seen is the longer of what it had seen and the note, and it has
    /// looked at the global epoch once more, which tells that both begin one legal history.
    pub fn learn(&self, pass: &mut Pass<C>, note: Note<C>)
        requires pass { pass_opening pass.old ≡ opening_of self.now }
        requires note { note_opening note ≡ opening_of self.now }
        ensures pass { IsSamePass pass.old pass.new }
        ensures same { HasTheSame pass.old pass.new }
        ensures phase { phase_of pass.new ≡ phase_of pass.old }
        ensures learns { Learns (page pass.old) (seen_by note) (page pass.new) }
        ensures own { IsPage (caller_of pass.new) (page pass.new) }
        ensures legal { IsLegal (PastOpens C.Object.opens) (PastSteps C.Object.step) ((manager_terms C.terms).start (plan_of self.now)) (page pass.new).seen }
        ensures callers { IsOfCallers (callers_of self.now) (page pass.new).seen }
        ensures looked { (epoch : ℕ) × (looked pass.new ≡ looked pass.old ++ record { name = global_epoch; word = epoch } ∷ [])
            × MeetsFirst (manager_terms C.terms) (PastOpens C.Object.opens) (PastSteps C.Object.step) (plan_of self.now) (caller_of pass.new) (page pass.new) epoch }
    {
        self.words.join(&mut pass.pass, note);
    }
}
