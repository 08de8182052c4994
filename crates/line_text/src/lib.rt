//! Texts of lines, for any grammar of a line.
#![tactic(auto)]

mod bytes;
mod drafts;
mod faults;
mod forms;
mod numbers;
mod reader;
mod scans;
mod states;

pub use drafts::Draft;
pub use faults::TextFault;
pub use forms::{Bounds, Form, Reject};
pub use numbers::push_number;
pub use reader::read_text;
pub use states::{State, Step};
