//! What callers tell one another: a note of what one has seen, which another takes in.
ghost use Rattle.std.specs.Prelude.{◌≡◌, ℕ, [], ◌∷◌, ◌++◌};
ghost use Rattle.pass_book.specs.Histories.{IsOfCallers};
ghost use Rattle.pass_book.specs.Pages.{IsNoted, IsPage, Learns};
ghost use Rattle.pass_table.specs.Passes.{IsSamePass, caller_of, looked, note_opening, page, pass_opening, seen_by};
ghost use Rattle.shared_bag.specs.Bags.{opening_of, callers_of};
ghost use Rattle.shared_bag.specs.Kinds.{count_read};
ghost use Rattle.shared_bag.specs.Notes.{MeetsCount};

use crate::bags::{Bag, BagNote, BagPass};
use seq_objects::Keeps;

impl<K: Keeps> Bag<K> {
    /// A note of what the caller has seen. The pass stays as it was.
    pub fn note(&self, pass: &mut BagPass<K>) -> BagNote<K>
        requires { pass_opening pass.old ≡ opening_of self.now }
        ensures opening { note_opening result ≡ opening_of self.now }
        ensures noted { IsNoted (page pass.old) (page pass.new) (seen_by result) }
        ensures pass { IsSamePass pass.old pass.new × (looked pass.new ≡ looked pass.old) }
    {
        self.table.note(pass)
    }

    /// Takes in a note. What the caller has then seen is the longer of what it had seen and the note, and it has
    /// looked at the count once more.
    pub fn learn(&self, pass: &mut BagPass<K>, note: BagNote<K>)
        requires pass { pass_opening pass.old ≡ opening_of self.now }
        requires note { note_opening note ≡ opening_of self.now }
        ensures pass { IsSamePass pass.old pass.new }
        ensures learns { Learns (page pass.old) (seen_by note) (page pass.new) }
        ensures own { IsPage (caller_of pass.new) (page pass.new) }
        ensures callers { IsOfCallers (callers_of self.now) (page pass.new).seen }
        ensures looked { (count : ℕ) × (looked pass.new ≡ looked pass.old ++ count_read count ∷ [])
            × MeetsCount (callers_of self.now) (caller_of pass.new) (page pass.new) count }
    {
        self.table.learn(pass, note);
    }
}
