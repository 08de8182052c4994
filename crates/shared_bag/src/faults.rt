//! What a bag refuses.

use thiserror::Error;

/// Why a bag was not opened.
#[derive(Debug, Drop, Clone, Copy, PartialEq, Eq, Error)]
pub enum BagFault {
    #[error("the number of locales is not 1 to 16")]
    Locales,
    #[error("the number of segments of a locale is not 1 to 64")]
    Segments,
    #[error("the room of a segment is not 1 to 2^24 items")]
    Room,
    #[error("the number of callers is not 1 to 1024")]
    Callers,
    #[error("out of memory")]
    OutOfMemory,
}

/// Why an item was not added. The bag is as it was.
#[derive(Debug, Drop, Clone, Copy, PartialEq, Eq, Error)]
pub enum AddFault {
    /// No segment of the caller's locale had room, and another caller had one of them.
    #[error("another caller was in the way")]
    Busy,
    /// Each segment of the caller's locale had as many items as it has room for.
    #[error("the segments of the locale are full")]
    Full,
    #[error("out of memory")]
    OutOfMemory,
}

/// Other callers were in the way of a removal: the bag had items, but each segment was another caller's
/// or empty when it was tried. Nothing was done.
#[derive(Debug, Drop, Clone, Copy, PartialEq, Eq, Error)]
#[error("other callers were in the way")]
pub struct Busy {}
