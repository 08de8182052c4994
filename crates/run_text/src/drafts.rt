ghost use Rattle.std.specs.Prelude.{◌≡◌, ◌+◌, ◌∷◌, ◌++◌, [], Some, None, IfOk, OnOk, true, false};
ghost use Rattle.run_text.specs.Drawn.{Drawn};
ghost use Rattle.run_text.specs.Forms.{IsSpot, run_grammar};
ghost use Rattle.run_text.specs.RunText.{ends_run, is_step, opening, plain_drawn, run_rules};
ghost use Rattle.run_text.specs.Runs.{IsOpening, plain_run};
ghost use Rattle.line_text.specs.Lines.{IsSaid};

use crate::forms::{RunLine, Spot};
use crate::runs::{RunText, StepLine};
use line_text::Draft;
use pgas_base::{Shape, Start};
use shared_io::TooKind;
use std::alloc::{AllocError, Global};
use std::marker::Model;

/// The most step lines of a text.
const MOST_STEPS: u64 = 1 << 20;

/// Which line of a text comes next, but for blank lines and comments.
#[derive(Clone, Copy, Debug, PartialEq, Eq)]
pub enum Stage {
    Version,
    Shape,
    Start,
    Seats,
    Steps,
}

/// What the lines so far have made of a run. Before its line the shape is the least one, the start the usual
/// one, and there is one seat.
#[derive(Debug, Drop)]
pub struct RunDraft {
    /// How many lines have ended.
    lines: u64,
    stage: Stage,
    shape: Shape,
    start: Start,
    seats: u32,
    steps: Vec<StepLine>,
}

impl Model for RunDraft {
    ghost use Rattle.run_text.specs.Drawn.{Drawn};
    ghost use Rattle.run_text.specs.Runs.{IsOpening};

    ghost Value = { Drawn };

    ghost view = { λ d. record { lines = d.lines; stage = d.stage; shape = d.shape; start = d.start; seats = d.seats; steps = d.steps.items } };

    ghost invariant = { λ d. IsOpening d.shape d.start d.seats };
}

impl RunDraft {
    pub fn new(alloc: Global) -> Self
        ensures { result ≡ opening }
    {
        RunDraft {
            lines: 0,
            stage: Stage::Version,
            shape: Shape {
                locales: 1,
                tokens: 1,
                objects: 1,
                width: 2,
            },
            start: Start::usual(),
            seats: 1,
            steps: Vec::new(alloc),
        }
    }

    /// The run that the lines have made.
    pub fn finish(self) -> RunText
        ensures run { plain_run result ≡ plain_drawn self }
        ensures opens { IsOpening result.shape result.start result.seats }
    {
        let RunDraft {
            shape,
            start,
            seats,
            steps,
            ..
        } = self;
        RunText {
            shape,
            start,
            seats,
            steps,
        }
    }
}

impl Draft<RunLine, Spot> for RunDraft {
    type Progress = RunDraft;

    ghost rules = { run_rules };

    ghost progress = { λ d. d };

    #[inline(always)]
    fn start(&self) -> Spot {
        match self.stage {
            Stage::Version => Spot::First,
            Stage::Shape => Spot::ShapeWord,
            Stage::Start => Spot::StartWord,
            Stage::Seats => Spot::SeatsWord,
            Stage::Steps => Spot::Seat,
        }
    }

    #[inline(always)]
    fn counts(&self, said: Option<RunLine>) -> bool
        ensures { result ≡ is_step said }
    {
        matches!(said, Some(RunLine::Step(_)))
    }

    fn most(&self) -> u64 {
        MOST_STEPS
    }

    fn kind(&self) -> TooKind {
        TooKind::Steps
    }

    #[inline(always)]
    fn ends(&self, said: Option<RunLine>) -> bool
        ensures { result ≡ ends_run said }
    {
        matches!(said, Some(RunLine::End))
    }

    fn may_be_last(&self, _said: Option<RunLine>) -> bool
        ensures { result ≡ false }
    {
        false
    }

    #[inline(always)]
    fn take(&mut self, said: Option<RunLine>) -> Result<(), AllocError>
        requires { IsSaid run_grammar IsSpot said }
        ensures { OnOk result (self.new ≡ run_rules.after self.old said) }
    {
        let line = next_line(self.lines)?;
        match said {
            Some(RunLine::Version) => self.stage = Stage::Shape,
            Some(RunLine::Shape(shape)) => {
                self.shape = shape;
                self.stage = Stage::Start;
            }
            Some(RunLine::Start(start)) => {
                self.start = start;
                self.stage = Stage::Seats;
            }
            Some(RunLine::Seats(seats)) => {
                self.seats = seats;
                self.stage = Stage::Steps;
            }
            Some(RunLine::Step(step)) => self.steps.push(StepLine { line, step })?,
            Some(RunLine::End) | None => {}
        }
        self.lines = line;
        Ok(())
    }
}

/// The number of the line behind so many. No text has so many lines that there is none.
#[inline(always)]
fn next_line(lines: u64) -> Result<u64, AllocError>
    ensures { IfOk result (λ line. line ≡ lines + 1) }
{
    match lines.checked_add(1) {
        Some(line) => Ok(line),
        None => Err(AllocError),
    }
}
