//! The machine of epoch-based reclamation on plain data: its kinds of step, its runs, and what holds of
//! every run.
//!
//! Callers, each with a seat, take objects from pools, show them, hold them while a token of theirs is
//! pinned, and defer their release. An object that is deferred is released only once every token that was
//! pinned at its deferral has been unpinned (Fraser 2004 has the idea of three epochs; here a deferral
//! loads the epoch of its own locale, as Chapel's EpochManager does, and there are four).
#![tactic(auto)]

mod events;
mod laws;
mod steps;
mod tokens;

pub use events::{EpochEvent, Item};
pub use laws::{
    events_are_legal, objects_are_apart, release_is_exact, states_are_sound, steps_leave_others,
};
pub use steps::{Illegal, Kind, Seen, Step};
pub use tokens::Token;
