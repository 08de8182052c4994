//! What an object brings.
ghost use Rattle.std.specs.Prelude.{◌≡◌, ℕ, List};

use crate::passes::{CallerSeat, Note, Pass};
use crate::views::View;
use pass_book::Object;

/// The call of a client's plain object.
pub type CallOf<C> = <<C as Client>::Object as Object>::Call;

/// The reply of a client's plain object.
pub type ReplyOf<C> = <<C as Client>::Object as Object>::Reply;

/// What a client's seats know.
pub type ViewOf<C> = View<
    CallOf<C>,
    ReplyOf<C>,
    <C as Client>::Plan,
    <C as Client>::Part,
    <C as Client>::Name,
>;

/// A seat of a client's caller.
pub type SeatOf<C> = CallerSeat<
    <C as Client>::Slot,
    CallOf<C>,
    ReplyOf<C>,
    <C as Client>::Plan,
    <C as Client>::Part,
    <C as Client>::Name,
>;

/// A pass to a client's object.
pub type PassOf<C> = Pass<
    <C as Client>::Slot,
    CallOf<C>,
    ReplyOf<C>,
    <C as Client>::Plan,
    <C as Client>::Part,
    <C as Client>::Name,
>;

/// A note of a client's caller.
pub type NoteOf<C> = Note<
    <C as Client>::Slot,
    CallOf<C>,
    ReplyOf<C>,
    <C as Client>::Plan,
    <C as Client>::Part,
    <C as Client>::Name,
>;

/// An object that is shared by passes.
pub trait Client {
    ghost use Rattle.pass_table.specs.Terms.{Terms};

    /// The object of one thread whose steps the history has.
    type Object: Object;

    /// What a slot of the table holds.
    type Slot: Drop;

    /// What the object is opened with.
    type Plan;

    /// What a caller knows in the middle of a call, beside what every caller knows.
    type Part;

    /// The name of a word.
    type Name;

    /// The rule, and what it is about.
    ghost terms: { Terms Self.Slot Self.Object.Call Self.Object.Reply Self.Object.State Self.Plan Self.Part Self.Name };

    /// How many items there are, as word 0 says.
    fn items_in(first: u64) -> u64
        ensures { result ≡ (terms).size first };
}

/// One kind of step of a client.
pub trait Kind<C: Client> {
    ghost use Rattle.pass_table.specs.Terms.{Effect};

    /// What the step tells: of the plan, the caller's number, what it knew and held, the number found, and the
    /// step's effect.
    ghost tells: { C.Plan → ℕ → C.Part → List (ℕ × C.Slot) → ℕ → Effect C.Slot C.Object.Call C.Object.Reply C.Part C.Name → Type 0 };
}
