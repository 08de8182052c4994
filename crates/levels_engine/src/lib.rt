//! Breadth-first levels of a graph.
//!
//! The level of a vertex is the length of a shortest walk to it from the source. `plain` finds the
//! levels of an edge list in one thread, and `make_edges` draws lists to try them on.
#![tactic(auto)]

mod made_edges;
mod marks;
mod plain_levels;
mod search;

pub use made_edges::{EdgeDraws, make_edges};
pub use plain_levels::{NOT_REACHED, plain};
