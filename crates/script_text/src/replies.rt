/// What a call answers.
#[derive(Clone, Copy, Debug, PartialEq, Eq)]
pub enum Reply {
    Value { value: u64 },
    Wrote,
    /// The element before the call.
    Was { value: u64 },
    /// The place is not in the list, which has this length.
    Range { len: u64 },
    /// The length after the call.
    Len { len: u64 },
    /// The list can't be made so long.
    TooLong,
    /// The locale has no free object.
    NoRoom { locale: u8 },
    Added,
    Full,
    Took { item: u64 },
    Empty,
    Pushed,
}

/// What is left in the object.
#[derive(Debug, Drop)]
pub enum Left {
    /// Its items, in the order in which they are to be printed.
    Items { items: Vec<u64> },
}

/// For each caller the replies to its calls over all rounds, in order, and what is left in the object.
#[derive(Debug, Drop)]
pub struct Replies {
    pub callers: Vec<Vec<Reply>>,
    pub left: Left,
}
