//! The text of a script, its reader and its writer, and the text of its replies.
//!
//! A script is an object and, in rounds, the calls that each caller makes of it. Which words and numbers
//! a line has stands in `rows`, where it may stand in `lines`, and `forms` makes a grammar of both, by
//! which `line_text` reads: so the reader answers the script, or the first byte with which no line goes
//! on, as soon as that is known. What is written reads back as the same script.
#![tactic(auto)]

mod drafts;
mod forms;
mod laws;
mod lines;
mod reader;
mod replies;
mod rows;
mod scripts;
mod writer;

pub use laws::inputs_mean_one;
pub use line_text::TextFault as ScriptFault;
pub use reader::read_script;
pub use replies::{Left, Replies, Reply};
pub use scripts::{Call, ObjectLine, Round, Script};
pub use writer::{write_replies, write_script};
