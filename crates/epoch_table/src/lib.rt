//! The machine of epoch-based reclamation on shared words, for any client whose parts are objects of a manager.
//!
//! `epoch_laws` defines the machine and proves what holds of every run. Here each step is one atomic step on one
//! word of a table that callers share, and the table's rule says that there is a run whose last state the words
//! show. So what holds of every run holds of the words at every moment, whatever order the steps are made in.
//!
//! Each function makes one step of its kind, where the kind's row is met by what the caller's seat knows; it answers
//! the number that it read, and its clause says what the step left the seat and listed. There are functions for all
//! kinds, for the steps on the client's own words and on rows of objects that a pass holds or owns; an opening, notes
//! and a close. What a pass knows of the objects that it has, as far as its own steps told it,
//! no other's step changes. A `Client` brings words of its own, an object whose entries stand in the same history, and a
//! rule; its laws say that the rule is kept where an object is taken, shown, given back, deferred or freed.
#![tactic(auto)]

mod clients;
mod closed_words;
mod closing;
mod deferrals;
mod events;
mod holds;
mod homes;
mod kinds;
mod layout;
mod notes;
mod opening;
mod opening_words;
mod parts;
mod reclaims;
mod releases;
mod rows;
mod spots;
mod stacks;
mod steps;
mod tables;
mod takes;
mod tokens;
mod words;

pub use clients::Client;
pub use closed_words::{client_word, row_word};
pub use events::{Happens, History, Past};
pub use kinds::{Choice, Chosen};
pub use parts::{Known, Name, Part, Plan, Seated};
pub use tables::Manages;
pub use words::{CallOf, ReplyOf, TableNote, TablePass, TableSeat, Words};
