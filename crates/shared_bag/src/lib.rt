//! A bag that several callers share.
//!
//! The items stand in the segments of locales, each a stack under a turn of its own, and one word counts them all. An
//! add goes to the first segment of its caller's locale that is free and has room. A removal goes round the segments
//! from its caller's own locale on: it takes the newest item of the first free segment that has any, and where that is
//! another locale's, it brings half of the segment home to an empty segment of its own. The step on the count, under the
//! turns, is the call's place in the one history of all callers, or a load of the count is, where it is 0.
//!
//! Each caller has a pass. Its page has the caller's own entries and the beginning of the history that
//! it has seen, and each call says what it does to them: the history is legal, so each reply is one that
//! the bag of a single thread may give at that place. The try forms wait for nobody. A caller that stops
//! between its claim and its leave keeps its segments: calls pass them by as held from then on.
#![tactic(auto)]

mod bags;
mod clients;
mod closing;
mod faults;
mod layout;
mod notes;
mod opening;
mod shapes;
mod steps;
mod takes;
mod tries;
mod visits;
mod waits;

pub use bags::{Bag, BagNote, BagPass};
pub use closing::{BagBack, ClosedBag};
pub use faults::{AddFault, BagFault, Busy};
pub use layout::Word;
pub use shapes::Shape;
