//! The calls of a script on a row of cells, and their replies.

/// A call of one caller. A cell, a place in a row and a locale are numbers from 0.
#[derive(Clone, Copy, Debug, PartialEq, Eq)]
pub(crate) enum Call {
    Register(u8),
    Unregister,
    Pin,
    Unpin,
    /// At this locale. Both words of the row are then filled with 0.
    Take(u8),
    /// This place of the row of the object in the hand, with this value.
    Fill(u32, u64),
    /// Gives the object in the hand back.
    Back,
    /// Shows the object in the hand, and switches it into this cell. What stood there is the caller's cut.
    Put(u32),
    /// Switches this cell to empty. What stood there is the caller's cut.
    Clear(u32),
    Hold(u32),
    /// This place of the row of the object that was held last.
    Read(u32),
    /// Defers the caller's cut.
    Defer,
    Reclaim,
}

/// What a call replies. An object is told by its locale, its index and its count.
#[derive(Clone, Copy, Debug, PartialEq, Eq)]
pub(crate) enum Reply {
    Registered,
    TokensFull,
    Unregistered,
    Pinned,
    Unpinned,
    Took(u8, u32, u32),
    NoRoom(u8),
    Spent,
    Filled,
    Returned,
    Was(u8, u32, u32),
    WasNone,
    Held(u8, u32, u32),
    HeldNone,
    Value(u64),
    Deferred,
    /// The epoch, and how many objects were freed.
    Advanced(u64, u32),
    LocalBusy,
    GlobalBusy,
    /// The locale and the number of the token that stops it, and its word.
    Blocked(u8, u32, u64),
    EpochsSpent,
    /// The caller doesn't stand where the call can be made. Nothing was done.
    Skip,
}

/// Which caller makes which call, and what that has to reply.
pub(crate) type Turn = (usize, Call, Reply);
