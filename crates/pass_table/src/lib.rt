//! What every object that several callers share has in common: seats, passes, notes, an opening and a close.
//!
//! A shared object stands in one table of words and slots. Its opening makes a pass for each caller, and whoever
//! has a pass makes calls, step by step. Each call with an entry takes its place in the one history of all callers.
//! A pass knows its caller's own entries and the beginning of the history that it has seen; a note carries what
//! one caller has seen to another, and a close joins all passes and shows the history whole.
//!
//! An object brings a `Client`: the plain object whose steps its history has, what a caller knows in the middle
//! of a call, and its rule on words, slots, history and what the callers know. For each kind of step it shows that
//! the step keeps that rule (`Permits`). All else, seats, pages, notes and numbers of callers, is shown here once.
#![tactic(auto)]

mod clients;
mod closing;
mod looks;
mod notes;
mod opening;
mod passes;
mod pauses;
mod plays;
mod slots;
mod steps;
mod tables;
mod views;

pub use clients::{CallOf, Client, Kind, NoteOf, PassOf, ReplyOf, SeatOf, ViewOf};
pub use passes::{CallerSeat, Note, Pass};
pub use pauses::pause;
pub use tables::PassTable;
pub use views::{Law, Merged, Role, View};
