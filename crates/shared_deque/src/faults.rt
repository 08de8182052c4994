//! What a deque refuses.

use thiserror::Error;

/// Why a deque was not opened.
#[derive(Debug, Drop, Clone, Copy, PartialEq, Eq, Error)]
pub enum DequeFault {
    #[error("the number of locales is not 1 to 16")]
    Locales,
    #[error("the capacity is not 1 to 2^24")]
    Capacity,
    #[error("the number of callers is not 1 to 1024")]
    Callers,
    #[error("out of memory")]
    OutOfMemory,
}

/// Why one try of a push did not add its item.
#[derive(Debug, Drop, Clone, Copy, PartialEq, Eq, Error)]
pub enum PushFault {
    /// The deque had as many items as its capacity, and replied so in its turn.
    #[error("the deque is full")]
    Full,
    /// Another caller was in the way, and nothing was done. `seen` is the word that shows it: the
    /// other's turn of the cell, or the ends as they had become.
    #[error("another caller was in the way")]
    Busy { seen: u64 },
}

/// Another caller was in the way of one try of a pop, and nothing was done. `seen` is the word that
/// shows it: the other's turn of the cell, or the ends as they had become.
#[derive(Debug, Drop, Clone, Copy, PartialEq, Eq, Error)]
#[error("another caller was in the way")]
pub struct BusyAt {
    pub seen: u64,
}

/// The deque had as many items as its capacity.
#[derive(Debug, Drop, Clone, Copy, PartialEq, Eq, Error)]
#[error("the deque is full")]
pub struct Full {}
