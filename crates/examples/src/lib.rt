//! Uses of the library by example, each proved. README shows them.
#![tactic(auto)]

mod bags;
mod cells;
mod deques;
mod graphs;
mod histories;
mod keepers;
mod levels;
mod machines;
mod notes;
mod plain_objects;
mod relays;
mod runs;
mod scripts;
mod threads;

pub use bags::add_numbers;
pub use cells::read_while_replaced;
pub use deques::push_numbers;
pub use graphs::neighbours;
pub use histories::has_pushed;
pub use keepers::{Even, half_of_first, push_even};
pub use levels::{levels_of_road, levels_of_text};
pub use machines::unpin_and_register;
pub use notes::hand_on;
pub use plain_objects::pop_last;
pub use relays::relay;
pub use runs::check_text;
pub use scripts::replies_to;
pub use threads::hand_over;
