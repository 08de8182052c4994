//! What a call is about to do, at either end.

use seq_objects::DequeCall;

/// An end of a deque.
#[derive(Clone, Copy)]
pub enum Side {
    Front,
    Back,
}

/// A push or a pop at one end.
#[derive(Clone, Copy)]
pub enum Aim {
    Push { side: Side, item: u64 },
    Pop { side: Side },
}
