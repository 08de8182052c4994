//! The machine of epoch-based reclamation, running: each step is checked against its row and made, or
//! refused with the first need that isn't met.
//!
//! `epoch_laws` defines the machine as lists and functions, and proves what holds of every run.
//! `Machine` shows a state of it in tables, so that a step takes no memory and costs no more than the part
//! of the state that its row speaks of: an object is marked with the seat that owns it, has it in its hand
//! or walked over it, and seats count these in place of lists.
#![tactic(auto)]

mod checks;
mod deferrals;
mod holds;
mod homes;
mod items;
mod machine;
mod marks;
mod objects;
mod reclaims;
mod releases;
mod seats;
mod stacks;
mod takes;
mod tokens;
mod ways;
mod words;

pub use epoch_laws::{EpochEvent, Illegal, Item, Kind, Seen, Step, Token};
pub use items::Listed;
pub use machine::Machine;
