/// The greatest vertex id, 2^24 - 1.
pub const GREATEST_ID: u32 = 0xff_ffff;

/// An edge from one vertex to another, with a weight. Ids are numbers up to `GREATEST_ID`.
#[derive(Clone, Copy, Debug, PartialEq, Eq, PartialOrd, Ord, Hash)]
pub struct Edge {
    pub from: u32,
    pub to: u32,
    pub weight: u32,
}

/// Edges in the order of their text, and whether each leads both ways. Repeats and loops are allowed.
#[derive(Debug, Drop)]
pub struct EdgeList {
    pub edges: Vec<Edge>,
    pub both: bool,
}
