use crate::pointers::Ptr;

/// A word that may be stepped on: one of the client's own words, or one in the row of an object.
#[derive(Clone, Copy, Debug, PartialEq, Eq)]
pub enum Spot {
    /// The client's word with this number, from 0 on.
    Own { word: u32 },
    /// The word with the number `at`, from 0 on, in the row of the object that `ptr` names.
    Row { ptr: Ptr, at: u32 },
}
