ghost use Rattle.std.specs.Prelude.{◌≡◌, ◌++◌, ℕ, List, [], IfOk, OnOk};
ghost use Rattle.epoch_core.specs.Listed.{listed};
ghost use Rattle.epoch_core.specs.Runs.{IsAfter};
ghost use Rattle.epoch_laws.specs.declared.steps.Step.{Step};
ghost use Rattle.pgas_base.specs.declared.shapes.Shape.{Shape};
ghost use Rattle.pgas_base.specs.declared.starts.Start.{Start};
ghost use Rattle.run_text.specs.Checks.{HasChecked, HasMade, IsExactIn, IsLegalIn, IsVerdict};
ghost use Rattle.run_text.specs.Runs.{IsOpening, PlainRun, plain_run};

use crate::runs::{RunText, StepLine};
use epoch_core::{Illegal, Item, Machine, Step};
use epoch_laws::{events_are_legal, release_is_exact};
use std::alloc::{AllocError, Global};

/// How a list of steps ends.
#[derive(Clone, Copy, Debug, PartialEq, Eq)]
pub enum RunEnd {
    /// Each step is allowed.
    Run,
    /// The step of this line is the first that isn't: the first need that isn't met, and its word.
    NotRun { line: u64, need: u8, word: u64 },
}

/// What the steps before the first that isn't allowed list, and whether there is such a step.
#[derive(Debug, Drop)]
pub struct Checked {
    pub items: Vec<Item>,
    pub end: RunEnd,
}

/// Makes the steps of the text, up to the first that isn't allowed.
pub fn check_run(alloc: Global, run: &RunText) -> Result<Checked, AllocError>
    requires { IsOpening run.now.shape run.now.start run.now.seats }
    // The items are those of the steps before the first that isn't allowed, which is named.
    ensures checked { IfOk result (λ checked. HasChecked (plain_run run.now) checked.items.items checked.end) }
    // It is a run exactly where it is said to be one.
    ensures verdict { IfOk result (λ checked. IsVerdict (plain_run run.now) checked.end) }
    // The events are a legal history: no object is freed while a token is pinned that was pinned at its deferral.
    ensures legal { IfOk result (λ checked. IsLegalIn (plain_run run.now) checked.items.items) }
    // Advances, elections, tags and releases are exact.
    ensures exact { IfOk result (λ checked. IsExactIn (plain_run run.now) checked.items.items) }
{
    let mut machine = Machine::open(alloc, run.shape, run.start, run.seats)?;
    let mut items = Vec::new(alloc);
    let steps = run.steps.as_slice();
    let end = make_steps(&mut machine, &mut items, steps)?;
    events_are_legal();
    release_is_exact();
    Ok(Checked { items, end })
}

/// Makes the steps on a machine in which nothing was done, and adds what they list.
fn make_steps(
    machine: &mut Machine,
    items: &mut Vec<Item>,
    steps: &[StepLine],
) -> Result<RunEnd, AllocError>
    ensures { (run : PlainRun) → run.steps ≡ steps.now → IsAfter machine.old run.shape run.start run.seats [] → items.old.items ≡ []
        → IfOk result (HasChecked run items.new.items) }
{
    for line in steps {
        if let Some(illegal) = make_step(machine, items, &line.step)? {
            return Ok(RunEnd::NotRun {
                line: line.line,
                need: illegal.need,
                word: illegal.word,
            });
        }
    }
    Ok(RunEnd::Run)
}

/// Makes a step and adds what it lists, or answers why it isn't allowed.
fn make_step(
    machine: &mut Machine,
    items: &mut Vec<Item>,
    step: &Step,
) -> Result<Option<Illegal>, AllocError>
    ensures { (shape : Shape) (start : Start) (seats : ℕ) (steps : List Step) → IsAfter machine.old shape start seats steps
        → IfOk result (HasMade shape start seats steps step.now machine.new items.old.items items.new.items) }
{
    match machine.step_listed(step) {
        Ok(listed) => {
            push_listed(items, listed.item)?;
            Ok(None)
        }
        Err(illegal) => Ok(Some(illegal)),
    }
}

fn push_listed(items: &mut Vec<Item>, item: Option<Item>) -> Result<(), AllocError>
    ensures { OnOk result (items.new.items ≡ items.old.items ++ listed item) }
{
    match item {
        Some(Item::Event { seat, event, tag }) => items.push(Item::Event { seat, event, tag })?,
        Some(Item::Advance { seat, epoch }) => items.push(Item::Advance { seat, epoch })?,
        Some(Item::Claim { seat, global }) => items.push(Item::Claim { seat, global })?,
        Some(Item::Leave { seat, global }) => items.push(Item::Leave { seat, global })?,
        None => {}
    }
    Ok(())
}
