//! What a manager refuses.

use pgas_base::ShapeFault;
use thiserror::Error;

/// Why a manager was not opened.
#[derive(Debug, Drop, Clone, Copy, PartialEq, Eq, Error)]
pub enum OpenFault {
    #[error("the shape breaks a limit: {fault}")]
    BadShape { fault: ShapeFault },
    #[error("the first epoch is not 1 to 2^62, or the first count of the stacks is 2^40 or more")]
    BadStart,
    #[error("the number of callers is not 1 to 1024")]
    Callers,
    #[error("out of memory")]
    OutOfMemory,
}

/// Each token of the locale was another caller's when this call tried it.
#[derive(Debug, Drop, Clone, Copy, PartialEq, Eq, Error)]
#[error("each token of the locale is registered")]
pub struct TokensFull {}

/// Why a reclaim did nothing.
#[derive(Debug, Drop, Clone, Copy, PartialEq, Eq, Error)]
pub enum NotNow {
    #[error("another caller reclaims at this locale")]
    LocalBusy,
    #[error("another caller reclaims")]
    GlobalBusy,
    #[error("the epoch is the last")]
    EpochsSpent,
    /// This token of this locale is pinned with an older epoch, as its word says.
    #[error("token {token} of locale {locale} has the word {word}")]
    Held { locale: u8, token: u32, word: u64 },
}

/// Why no object was taken.
#[derive(Debug, Drop, Clone, Copy, PartialEq, Eq, Error)]
pub enum TakeFault {
    /// No object of any locale was free when this call looked last at its header. The locale is the one asked for.
    #[error("no object is free; locale {locale} was asked for")]
    NoRoom { locale: u8 },
    /// The head of a stack of free objects has had its last count, and no object was given.
    #[error("a stack of free objects has had its last count {count}")]
    Spent { count: u64 },
}
