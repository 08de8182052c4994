//! Tests of graphs and levels, of the program from words and bytes to bytes and a status, of scripts from their text to
//! that of their replies, and of the uses of the library that the crate `examples` has.
//!
//! They stand in a crate of their own: a crate that has tests is proved once without and once with them, and these crates
//! are large.
#![tactic(auto)]

#[cfg(test)]
mod graphs;
#[cfg(test)]
mod levels;
#[cfg(test)]
mod program;
#[cfg(test)]
mod scripts;
#[cfg(test)]
mod uses;
