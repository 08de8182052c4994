//! Runs scripts of calls.
//!
//! What the replies to a script may be is defined in specs/Answers.antt: there is one legal history of
//! the object that has the calls of each caller in order, each with its reply, and all calls of a round
//! before all of a later round. A script of one caller runs on the plain objects.
#![tactic(auto)]

mod alone;
mod bag_calls;
mod calls;
mod deque_calls;
mod laws;
mod many;
mod notes;
mod objects;
mod rounds;
mod scripts;
mod shared;

pub use alone::run_alone;
pub use bag_calls::call_bag;
pub use deque_calls::call_deque;
pub use laws::answers_once;
pub use scripts::run_script;
