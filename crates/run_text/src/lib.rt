//! The text of a run of the epoch machine: its reader, its checker and its writer.
//!
//! A text has the shape of the machine, the numbers that it opens with, how many seats there are, and a
//! line for each step. It is read by `line_text` with the grammar that stands in `forms`. `check_run` makes
//! the steps on a `Machine` and answers what they list, and whether they are a run; what holds of every run
//! holds of what it lists.
#![tactic(auto)]

mod checking;
mod drafts;
mod forms;
mod laws;
mod listing;
mod reader;
mod runs;
mod verbs;
mod writer;

pub use checking::{Checked, RunEnd, check_run};
pub use epoch_core::{EpochEvent, Illegal, Item, Kind, Seen, Step, Token};
pub use laws::{inputs_mean_one, written_runs_read_back};
pub use line_text::TextFault as RunFault;
pub use listing::write_checked;
pub use reader::read_run;
pub use runs::{RunText, StepLine};
pub use writer::write_run;
