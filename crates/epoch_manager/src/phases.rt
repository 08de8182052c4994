//! Where callers stand between two calls.

use epoch_laws::Token;

/// Where a caller stands between two calls.
#[derive(Clone, Copy, Debug, PartialEq, Eq)]
pub enum Phase {
    /// It has no token.
    Idle,
    /// It has this token, and has not pinned it.
    Registered { token: Token },
    /// It has pinned its token, and may hold objects.
    Pinned { token: Token },
}
