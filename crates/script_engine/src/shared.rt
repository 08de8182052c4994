//! Objects that many callers share, asked as a script asks.
ghost use Rattle.std.specs.Prelude.{◌≡◌, ℕ, ◌+◌, ◌<◌, ◌^◌, List, length, IfOk, OnErr, All};
ghost use Rattle.pass_book.specs.declared.entries.Entry.{Entry};
ghost use Rattle.pass_book.specs.Histories.{IsOfCallers};
ghost use Rattle.pass_book.specs.Pages.{Page, IsPageOf};
ghost use Rattle.script_engine.specs.Rounds.{Makes, Widens, Informs};
ghost use Rattle.script_engine.specs.Numbers.{AreInOrder};
ghost use Rattle.script_text.specs.declared.replies.Reply.{Reply};
ghost use Rattle.script_text.specs.declared.scripts.Call.{Call};

use script_text::{Call, Reply};
use std::alloc::{AllocError, Global};
use std::sync::Wait;

/// An object that callers share, which answers the calls of a script.
pub(crate) trait Shared: Sync + Drop {
    type Asked;

    type Told;

    type Pass: Send + Drop;

    /// The pass comes from the object's opening.
    ghost fits: { Self → Self.Pass → Type 0 };

    /// The pass's caller.
    ghost caller: { Self.Pass → ℕ };

    /// What the pass's caller knows of the history.
    ghost page: { Self.Pass → Page Self.Asked Self.Told };

    /// The calls that the object answers.
    ghost asks: { Self → Call → Type 0 };

    /// How a call stands in the history with its reply.
    ghost says: { Self → ℕ → Call → Reply → List (Entry Self.Asked Self.Told) → List (Entry Self.Asked Self.Told) → Type 0 };

    /// What others did just before a call may be counted to it.
    ghost widens: { (object : Self) → Widens (says object) };

    /// What the object's own clauses say of a call and its reply.
    ghost gives: { Self → Self.Pass → Call → Reply → Self.Pass → Type 0 };

    /// What they say of a call that is refused for want of memory.
    ghost refuses: { Self → Self.Pass → Call → Self.Pass → Type 0 };

    /// How many callers the object has.
    ghost callers: { Self → ℕ };

    /// The history leaves these items, in the order in which they are shown.
    ghost leaves: { Self → List (Entry Self.Asked Self.Told) → List ℕ → Type 0 };

    /// The number of the pass's caller.
    fn number(pass: &Self::Pass) -> u32
        ensures { result ≡ caller pass.now };

    /// Makes a call.
    fn make<R: Wait>(&self, rt: &R, pass: &mut Self::Pass, call: Call) -> Result<Reply, AllocError>
        requires pass { fits self.now pass.old }
        requires call { asks self.now call }
        ensures pass { fits self.now pass.new × (caller pass.new ≡ caller pass.old) }
        ensures gives { IfOk result (λ reply. gives self.now pass.old call reply pass.new) }
        ensures made { IfOk result (λ reply. Makes (says self.now) (caller pass.old) (page pass.old) call reply (page pass.new)) }
        ensures err { OnErr result (refuses self.now pass.old call pass.new) };

    /// Tells the taker what the giver has seen, by a note.
    fn inform(&self, giver: &mut Self::Pass, taker: &mut Self::Pass)
        requires giver { fits self.now giver.old }
        requires taker { fits self.now taker.old }
        ensures giver { fits self.now giver.new × (caller giver.new ≡ caller giver.old) × (page giver.new ≡ page giver.old) }
        ensures taker { fits self.now taker.new × (caller taker.new ≡ caller taker.old) }
        ensures told { Informs (caller taker.old) (page giver.old) (page taker.old) (page taker.new) };

    /// Closes the object, and answers what it holds.
    fn finish(self, passes: Vec<Self::Pass>) -> Result<Vec<u64>, AllocError>
        requires passes { All (fits self) passes.items }
        requires count { length passes.items ≡ callers self }
        requires numbers { AreInOrder caller passes.items }
        ensures { IfOk result (λ items. (history : List (Entry Self.Asked Self.Told)) × leaves self history items.items
            × IsOfCallers (callers self) history × All (λ pass. IsPageOf (caller pass) history (page pass)) passes.items) };
}
