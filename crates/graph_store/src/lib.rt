//! The graph of an edge list: for each vertex the vertices that an edge leads to from it.
#![tactic(auto)]

mod bands;
mod counted;
mod graph;
mod pairs;
mod rows;
mod vertices;

pub use counted::counted_rows;
pub use graph::{Graph, build};
pub use rows::Rows;
