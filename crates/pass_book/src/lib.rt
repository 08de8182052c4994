//! What callers of a shared object know of its one history.
//!
//! A shared object is opened for a number of callers, and each call that takes its place among the
//! others has one entry: who called, the call and its reply. The entries of all callers are one
//! history, which is legal where each reply is the one that the object of a single thread gives at
//! that place. Each caller has the list of its own entries, and a beginning of the history that it
//! has seen. All of this is known to contracts alone and takes no memory.
//!
//! This crate has the words for it, of any object, and the laws by which a history grows and a note
//! is taken in. A history of calls in one order is Herlihy and Wing's (1990).
#![tactic(auto)]

mod entries;
mod laws;
mod objects;

pub use entries::{Entry, Look};
pub use laws::{entries_added, entry_added, list_is_sublist, note_taken, shorter_begins_longer};
pub use objects::Object;
