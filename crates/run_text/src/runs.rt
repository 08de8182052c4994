use epoch_core::Step;
use pgas_base::{Shape, Start};

/// A step, and the line of the text that it stands in, counted from 1.
#[derive(Clone, Copy, Debug, PartialEq, Eq)]
pub struct StepLine {
    pub line: u64,
    pub step: Step,
}

/// The machine that a text opens, with so many seats, and the steps that it lists.
#[derive(Debug, Drop)]
pub struct RunText {
    pub shape: Shape,
    pub start: Start,
    /// 1 to 1,024 where the text was read.
    pub seats: u32,
    pub steps: Vec<StepLine>,
}
