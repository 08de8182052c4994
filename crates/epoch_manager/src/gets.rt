//! What the parts of a take come to.

use pgas_base::Ptr;

/// What comes of getting an object of one locale into the hand.
#[derive(Clone, Copy, Debug)]
pub(crate) enum Get {
    /// This one is in the hand.
    Got { index: u32 },
    /// The stack was empty, and no object was on its way home.
    Empty,
    /// The stack's head has had its last count.
    Spent,
}

/// What comes of trying locales.
#[derive(Clone, Copy, Debug)]
pub(crate) enum Tried {
    /// This object belongs to the pass.
    Taken { ptr: Ptr },
    /// None was got. Whether the head of a stack has had its last count, and whether a header said free.
    Missed { spent: bool, free: bool },
}
