//! A list of u64 that grows and shrinks at its end and can be cut in halves, for a bag that many
//! threads share.
//!
//! The items lie in blocks of 32. Memory is taken by `reserve` alone, so that the `push` after it
//! can't fail, and a block that was emptied stays for the next push. `split_half` moves whole blocks,
//! and copies only the one at the cut.
#![tactic(auto)]

mod blocks;
mod segments;

pub use segments::Segment;
