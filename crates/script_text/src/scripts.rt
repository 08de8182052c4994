use seq_objects::{BagCall, DequeCall, ListCall};

/// The object of a script, with its sizes.
#[derive(Clone, Copy, Debug, PartialEq, Eq)]
pub enum ObjectLine {
    /// The locales, objects and width are a shape with 64 tokens, and there are at least 2 objects
    /// per locale.
    List {
        locales: u8,
        objects: u32,
        width: u32,
    },
    /// 1 to 16 locales, of which each has 1 to 64 segments, each with room for 1 to 2^24 items.
    Bag {
        locales: u8,
        segments: u32,
        room: u32,
    },
    /// 1 to 16 locales, and a capacity of 1 to 2^24 items.
    Deque {
        locales: u8,
        capacity: u32,
    },
}

/// A call of the script's object. With `once` it is tried once.
#[derive(Clone, Copy, Debug, PartialEq, Eq)]
pub enum Call {
    List { call: ListCall },
    Bag { call: BagCall, once: bool },
    Deque { call: DequeCall, once: bool },
}

/// For each caller the calls that it makes in a round, in order.
#[derive(Debug, Drop)]
pub struct Round {
    pub calls: Vec<Vec<Call>>,
}

/// An object, and what its callers ask of it, round after round.
#[derive(Debug, Drop)]
pub struct Script {
    pub object: ObjectLine,
    pub callers: u32,
    pub rounds: Vec<Round>,
}
