//! The text of an edge list, its reader and its writers.
//!
//! A text is lines, each blank, a comment or an edge; its first line may say that edges have weights
//! and that they lead both ways. The grammar stands in `forms`, and `line_text` reads by it: so the
//! reader answers the edges in order, or the first byte with which no line goes on.
#![tactic(auto)]

mod drafts;
mod edges;
mod forms;
mod laws;
mod reader;
mod writer;

pub use edges::{Edge, EdgeList, GREATEST_ID};
pub use laws::{inputs_mean_one, weighted_lists_read_back, written_edges_read_back};
pub use line_text::TextFault as EdgeFault;
pub use reader::read_edges;
pub use writer::{write_edge, write_weighted};
