//! The limits of shared objects.

/// The most locales of an object.
pub const MOST_LOCALES: u8 = 16;

/// The most callers of an object.
pub const MOST_CALLERS: u32 = 1024;

/// The most items of a deque, 2^24.
pub const MOST_CAPACITY: u32 = 0x100_0000;

/// The most segments of a bag, for each locale.
pub const MOST_SEGMENTS: u32 = 64;

/// The most items of a bag's segment, 2^24.
pub const MOST_ROOM: u32 = 0x100_0000;
