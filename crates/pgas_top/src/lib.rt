//! The program as a function: words and bytes in, bytes and a status out.
//!
//! `run` carries out any command, and `run_plain` those that need one thread alone. What both promise
//! stands in one place, the relation `Outcome` of specs/Outcome.antt: which status comes when, what
//! was read, what was written, and which line stands on the sink for faults.
#![tactic(auto)]

mod commands;
mod forms;
mod laws;
mod levels_text;
mod made_lists;
mod made_texts;
mod options;
mod program;
mod statuses;

pub use laws::made_lists_read_back;
pub use program::{run, run_plain};
pub use statuses::{Status, report};
