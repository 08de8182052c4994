//! The words that say how an object of a pool stands, and the moves between them.
//!
//! A header word has the reuse count of an object and its state: free, owned by one caller, shown to all,
//! or worn out. A free word is the head of a stack of free objects, counted so that a head that was read
//! long ago is told from the head of now (Treiber 1986). Each move is one named function from a header to
//! the word that is stored next.
#![tactic(auto)]

mod free_words;
mod headers;
mod moves;

pub use free_words::{FreeWord, free_word, of_free_word};
pub use headers::{Header, State};
pub use moves::{header, of_header, released, returned, shown, taken};
