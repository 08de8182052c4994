//! Tests of the laws of histories, of the plain objects, of segments, and of the deque and the bag that threads share.
//!
//! They stand in a crate of their own: a crate that has tests is proved once without and once with them, and these crates
//! are large.
#![tactic(auto)]

#[cfg(test)]
mod bags;
#[cfg(test)]
mod deques;
#[cfg(test)]
mod histories;
#[cfg(test)]
mod plain_objects;
#[cfg(test)]
mod segments;
