//! Tests of reclamation by epochs: of the words of pools and of chains, of its laws, of the machine as data, of the table,
//! and of the manager.
//!
//! They stand in a crate of their own: a crate that has tests is proved once without and once with them, and these crates
//! are large.
#![tactic(auto)]

#[cfg(test)]
mod chains;
#[cfg(test)]
mod laws;
#[cfg(test)]
mod machines;
#[cfg(test)]
mod managers;
#[cfg(test)]
mod pools;
#[cfg(test)]
mod tables;
