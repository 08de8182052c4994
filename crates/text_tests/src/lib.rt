//! Tests of edge lists, of runs of the epoch machine and of scripts, as texts, and of what these stand on: devices and
//! shapes.
//!
//! They stand in a crate of their own: a crate that has tests is proved once without and once with them, and these crates
//! are large.
#![tactic(auto)]

#[cfg(test)]
mod devices;
#[cfg(test)]
mod edges;
#[cfg(test)]
mod runs;
#[cfg(test)]
mod scripts;
#[cfg(test)]
mod shapes;
