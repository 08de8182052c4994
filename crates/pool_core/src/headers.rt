/// How an object stands.
#[derive(Clone, Copy, Debug, PartialEq, Eq)]
pub enum State {
    /// It may be taken.
    Free,
    /// One caller has it, and nobody else knows of it.
    Own,
    /// Anyone may read it.
    Shown,
    /// It was released with its last count, and is never given again.
    Worn,
}

/// What a header word says.
#[derive(Clone, Copy, Debug, PartialEq, Eq)]
pub struct Header {
    /// How often the object was released after it had been shown.
    pub count: u32,
    pub state: State,
}
