/// The limit that an input exceeds.
#[derive(Clone, Copy, Debug, PartialEq, Eq)]
pub enum TooKind {
    /// A vertex id is greater than 2^24 - 1.
    Id,
    /// There are more edges than 2^25.
    Edges,
    /// There are more bytes than 2^30.
    Bytes,
    /// An edge's weight is greater than 2^32 - 1.
    Weight,
    /// There are more calls and `round` lines than 2^20.
    Calls,
    /// There are more step lines than 2^20.
    Steps,
}
