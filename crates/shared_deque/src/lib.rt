//! A deque that several callers share.
//!
//! The items stand in a ring of cells. A call loads one word, the ends, which says where the ring begins
//! and how many items it has, claims the one cell that it needs by the cell's turn, and exchanges the
//! ends. That exchange is the call's place in the one history of all callers, or the load is, where the
//! ends show that the deque is full or empty. A push stores its item after it has won the ends and
//! before it leaves the cell, so that whoever claims the cell next finds it.
//!
//! Each caller has a pass. Its page has the caller's own entries and the beginning of the history that
//! it has seen, and each call says what it does to them: the history is legal, so each reply is the one
//! that the deque of a single thread gives at that place. The try forms wait for nobody and name the
//! word that was in their way. No call but `open` and `close` takes memory. A caller that stops between
//! its claim and its leave keeps its cell: calls that need that cell are busy from then on.
#![tactic(auto)]

mod clients;
mod closing;
mod deques;
mod faults;
mod layout;
mod notes;
mod opening;
mod sides;
mod steps;
mod tries;
mod waits;

pub use closing::{ClosedDeque, DequeBack};
pub use deques::{Deque, DequeNote, DequePass};
pub use faults::{BusyAt, DequeFault, Full, PushFault};
pub use layout::Word;
