//! A list, a bag and a deque for one caller, and what their calls mean.
//!
//! The steps of each object are defined in `specs/` on plain data: the list and the deque have
//! functions of the state and the call, the bag a relation, since a removal may take any item. Objects
//! that several callers share are measured against these same steps. What an item of such an object may
//! be is for its opener to say, by `Keeps`.
#![tactic(auto)]

mod bags;
mod deques;
mod double_ended_vec;
mod histories;
mod kept_items;
mod limits;
mod lists;

pub use bags::{BagCall, BagReply, PlainBag};
pub use deques::{DequeCall, DequeReply, PlainDeque};
pub use kept_items::{AnyItem, Keeps};
pub use limits::{MOST_CALLERS, MOST_CAPACITY, MOST_LOCALES, MOST_ROOM, MOST_SEGMENTS};
pub use lists::{ListCall, ListReply, PlainList};
