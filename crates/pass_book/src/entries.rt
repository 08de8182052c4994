//! What histories and lists of words read are made of.

/// One call in a history. Only contracts have values of it.
pub struct Entry<C, R> {
    /// The caller's number.
    pub caller: u32,
    pub call: C,
    pub reply: R,
}

/// A word that a step of a call read: which word of the object it is, and what stood there.
pub struct Look<W> {
    pub name: W,
    pub word: u64,
}
