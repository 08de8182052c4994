//! What every part that shares objects over locales speaks of: how the objects are laid out, counted
//! pointers to them, the words that may hold such a pointer, and the numbers that an opening begins with.
//!
//! A `Shape` says how much each locale has, and `Shape::check` names the first limit that it breaks. A
//! `Ptr` names one use of one object, and is one to one with its word.
#![tactic(auto)]

mod pointers;
mod shapes;
mod spots;
mod starts;

pub use pointers::Ptr;
pub use shapes::{
    LEAST_WIDTH, MOST_LOCALES, MOST_OBJECTS, MOST_TOKENS, MOST_WIDTH, MOST_WORDS, Shape, ShapeFault,
};
pub use spots::Spot;
pub use starts::Start;
