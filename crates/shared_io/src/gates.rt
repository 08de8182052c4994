use std::sync::Wait;

/// Where a worker stands. In a script the calls of each caller are counted from 0.
#[derive(Clone, Copy, Debug, PartialEq, Eq)]
pub enum Point {
    /// It has taken the vertex from the frontier.
    Removed { vertex: u32 },
    /// It has done all that the vertex asks for.
    Worked { vertex: u32 },
    /// It is about to make the call.
    Before { call: u32 },
    /// It has made the call.
    After { call: u32 },
}

/// Points that workers pass. A gate may hold a worker, and changes nothing that a caller relies on,
/// so it has no contract.
pub trait Gate: Sync {
    /// Lets the worker pass the point.
    fn pass<R: Wait>(&self, rt: &R, worker: u32, point: Point);
}

/// A gate that holds nobody.
#[derive(Clone, Copy, Debug, Default, PartialEq, Eq)]
pub struct OpenGate;

impl Gate for OpenGate {
    fn pass<R: Wait>(&self, _rt: &R, _worker: u32, _point: Point) {}
}
