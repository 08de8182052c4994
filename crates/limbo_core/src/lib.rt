//! Chains of places whose links may be pending, as a list is that is pushed by one exchange of its head
//! and linked by a store after it.
//!
//! `Chains` is plain data. `swap_in` puts a place at a head and answers what stood there, and `link`
//! stores that as the link of the place. Between the two the link is pending, and nobody may follow it.
//! `swap_out` takes the whole chain of a head. A chain without pending links leads to the places that were
//! pushed, the last first.
#![tactic(auto)]

mod chains;

pub use chains::Chains;
