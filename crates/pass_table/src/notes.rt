//! What callers tell one another: a note of what one has seen, which another takes in.
ghost use Rattle.std.specs.Prelude.{◌≡◌, ℕ, [], ◌∷◌, ◌++◌};
ghost use Rattle.pass_book.specs.Histories.{IsOfCallers, IsLegal};
ghost use Rattle.pass_book.specs.Pages.{IsNoted, Learns, IsPage};
ghost use Rattle.pass_table.specs.Steps.{MeetsFirst, FirstShows, Steps, SeesFirst};
ghost use Rattle.pass_table.specs.Passes.{opening_of, plan_of, pass_opening, note_opening, pass_view, page, looked, seen_by, caller_of, IsSamePass, me_of, carried_of};

use crate::clients::{Client, NoteOf, PassOf};
use crate::passes::Note;
use crate::plays::{Learn, LookAtFirst, MakeNote, TakeNote};
use crate::tables::PassTable;

impl<C: Client> PassTable<C> {
    /// A note of what the caller has seen. The pass stays as it was.
    pub fn note(&self, pass: &mut PassOf<C>) -> NoteOf<C>
        requires { pass_opening pass.old ≡ opening_of self.now }
        ensures opening { note_opening result ≡ opening_of self.now }
        ensures noted { IsNoted (page pass.old) (page pass.new) (seen_by result) }
        ensures pass { IsSamePass pass.old pass.new × (looked pass.new ≡ looked pass.old) × ((pass_view pass.new).part ≡ (pass_view pass.old).part) }
    {
        let seat = self
            .table
            .shared
            .split_seat::<MakeNote>(&mut pass.seat.seat);
        Note { seat }
    }

    /// Takes in a note. What the caller has then seen is the longer of what it had seen and the note. One load of
    /// word 0 tells that both begin one history.
    pub fn learn(&self, pass: &mut PassOf<C>, note: NoteOf<C>)
        requires pass { pass_opening pass.old ≡ opening_of self.now }
        requires note { note_opening note ≡ opening_of self.now }
        requires first { FirstShows C.terms (plan_of self.now) }
        ensures pass { IsSamePass pass.old pass.new × ((pass_view pass.new).part ≡ (pass_view pass.old).part) }
        ensures learns { Learns (page pass.old) (seen_by note) (page pass.new) }
        ensures own { IsPage (caller_of pass.new) (page pass.new) }
        ensures legal { IsLegal C.Object.opens C.Object.step (C.terms.start (plan_of self.now)) (page pass.new).seen }
        ensures callers { IsOfCallers (C.terms.callers (plan_of self.now)) (page pass.new).seen }
        ensures looked { (found : ℕ) × (looked pass.new ≡ looked pass.old ++ record { name = C.terms.first_word; word = found } ∷ [])
            × MeetsFirst C.terms C.Object.opens C.Object.step (plan_of self.now) (caller_of pass.new) (page pass.new) found }
    {
        let Note { seat } = note;
        self.table
            .shared
            .join_seat::<TakeNote<C>>(&mut pass.seat.seat, seat);
        self.table.shared.load::<Learn<C>>(&mut pass.seat.seat, 0);
    }

    /// Loads word 0. What stood in the history then is seen.
    pub fn look(&self, pass: &mut PassOf<C>) -> u64
        requires pass { pass_opening pass.old ≡ opening_of self.now }
        requires first { FirstShows C.terms (plan_of self.now) }
        ensures pass { IsSamePass pass.old pass.new × ((pass_view pass.new).part ≡ (pass_view pass.old).part) }
        ensures looks { let plan = plan_of self.now in
            Steps C.terms C.Object.opens C.Object.step plan (SeesFirst C.terms (pass_view pass.old).part (carried_of pass.old.seat)) (me_of pass.old.seat) result (me_of pass.new.seat) }
    {
        self.load::<LookAtFirst<C>>(&mut pass.seat, 0)
    }
}
