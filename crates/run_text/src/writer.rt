ghost use Rattle.std.specs.Prelude.{◌≡◌, ◌++◌, ◌∷◌, [], ◌≤◌, ◌^◌, IfOk, OnOk, length, string_bytes, decimal};
ghost use Rattle.run_text.specs.Listing.{pointer_word};
ghost use Rattle.run_text.specs.Runs.{IsOpening, plain_run};
ghost use Rattle.run_text.specs.Written.{head_text, kind_text, run_lines, shape_words, start_words, step_line, steps_text};

use crate::listing::push_pointer;
use crate::runs::{RunText, StepLine};
use epoch_core::{Kind, Step};
use line_text::push_number;
use pgas_base::{Ptr, Shape, Start};
use std::alloc::{AllocError, Global};

/// The text of a run: its lines in their order, with single spaces and without leading zeros. The lines of
/// the steps are not looked at: the k-th step stands in line k + 4.
pub fn write_run(alloc: Global, run: &RunText) -> Result<String, AllocError>
    requires opens { IsOpening run.now.shape run.now.start run.now.seats }
    requires few { length run.now.steps.items ≤ 2 ^ 20 }
    ensures { IfOk result (λ text. string_bytes text ≡ run_lines (plain_run run.now)) }
{
    let mut text = String::new(alloc);
    push_head(&mut text, run)?;
    push_steps(&mut text, run.steps.as_slice())?;
    text.push_str("end\n")?;
    Ok(text)
}

/// Adds the lines before the steps.
fn push_head(text: &mut String, run: &RunText) -> Result<(), AllocError>
    ensures { OnOk result (string_bytes text.new ≡ string_bytes text.old ++ head_text (plain_run run.now)) }
{
    text.push_str("pgas-run 1\n")?;
    push_shape(text, run.shape)?;
    push_start(text, run.start)?;
    push_one(text, "seats ", u64::from(run.seats))?;
    text.push_str("\n")
}

fn push_shape(text: &mut String, shape: Shape) -> Result<(), AllocError>
    ensures { OnOk result (string_bytes text.new ≡ string_bytes text.old ++ (shape_words shape ++ 10 ∷ [])) }
{
    push_two(
        text,
        "shape ",
        u64::from(shape.locales),
        u64::from(shape.tokens),
    )?;
    push_two(text, " ", u64::from(shape.objects), u64::from(shape.width))?;
    text.push_str("\n")
}

fn push_start(text: &mut String, start: Start) -> Result<(), AllocError>
    ensures { OnOk result (string_bytes text.new ≡ string_bytes text.old ++ (start_words start ++ 10 ∷ [])) }
{
    push_two(text, "start ", start.epoch, u64::from(start.count))?;
    push_one(text, " ", start.stack)?;
    text.push_str("\n")
}

fn push_steps(text: &mut String, steps: &[StepLine]) -> Result<(), AllocError>
    ensures { OnOk result (string_bytes text.new ≡ string_bytes text.old ++ steps_text steps.now) }
{
    for line in steps {
        push_step(text, &line.step)?;
    }
    Ok(())
}

fn push_step(text: &mut String, step: &Step) -> Result<(), AllocError>
    ensures { OnOk result (string_bytes text.new ≡ string_bytes text.old ++ step_line step.now) }
{
    push_number(text, u64::from(step.seat))?;
    push_kind(text, &step.kind)?;
    text.push_str("\n")
}

fn push_kind(text: &mut String, kind: &Kind) -> Result<(), AllocError>
    ensures { OnOk result (string_bytes text.new ≡ string_bytes text.old ++ kind_text kind.now) }
{
    match kind {
        Kind::Register { locale, token } => push_two(
            text,
            " register ",
            u64::from(*locale),
            u64::from(*token),
        ),
        Kind::Unregister => text.push_str(" unregister"),
        Kind::PinLook => text.push_str(" pin_look"),
        Kind::PinSet => text.push_str(" pin_set"),
        Kind::Unpin => text.push_str(" unpin"),
        Kind::TakeLook { locale, index } => push_two(
            text,
            " take_look ",
            u64::from(*locale),
            u64::from(*index),
        ),
        Kind::TakeTry { locale, index } => push_two(
            text,
            " take_try ",
            u64::from(*locale),
            u64::from(*index),
        ),
        Kind::Show { ptr } => push_pointer(text, " show ", *ptr),
        Kind::Hold { ptr } => push_pointer(text, " hold ", *ptr),
        Kind::Touch { ptr } => push_pointer(text, " touch ", *ptr),
        Kind::Return { ptr } => push_pointer(text, " return ", *ptr),
        Kind::DeferLook { ptr } => push_pointer(text, " defer_look ", *ptr),
        Kind::DeferSwap => text.push_str(" defer_swap"),
        Kind::DeferLink => text.push_str(" defer_link"),
        Kind::ElectLocal => text.push_str(" elect_local"),
        Kind::ElectGlobal => text.push_str(" elect_global"),
        Kind::EpochLook => text.push_str(" epoch_look"),
        Kind::ScanToken => text.push_str(" scan_token"),
        Kind::Advance => text.push_str(" advance"),
        Kind::Spread => text.push_str(" spread"),
        Kind::Collect => text.push_str(" collect"),
        Kind::Walk => text.push_str(" walk"),
        Kind::Release { ptr } => push_pointer(text, " release ", *ptr),
        Kind::Leave => text.push_str(" leave"),
        Kind::StackLook { locale } => push_one(text, " stack_look ", u64::from(*locale)),
        Kind::StackNext => text.push_str(" stack_next"),
        Kind::StackPop => text.push_str(" stack_pop"),
        Kind::StackPut { top, tail } => push_chain(text, " stack_put ", *top, *tail),
        Kind::HandLink { ptr, next } => push_link(text, " hand_link ", *ptr, *next),
        Kind::HomeSwap { top, tail } => push_chain(text, " home_swap ", *top, *tail),
        Kind::HomeLink => text.push_str(" home_link"),
        Kind::HomeTake { locale } => push_one(text, " home_take ", u64::from(*locale)),
        Kind::HomeWalk => text.push_str(" home_walk"),
    }
}

/// Adds a word and a number.
fn push_one(text: &mut String, word: &str, number: u64) -> Result<(), AllocError>
    ensures { OnOk result (string_bytes text.new ≡ string_bytes text.old ++ (word.now ++ decimal number)) }
{
    text.push_str(word)?;
    push_number(text, number)
}

fn push_two(text: &mut String, word: &str, number: u64, other: u64) -> Result<(), AllocError>
    ensures { OnOk result (string_bytes text.new ≡ string_bytes text.old ++ (word.now ++ decimal number ++ 32 ∷ decimal other)) }
{
    push_one(text, word, number)?;
    push_one(text, " ", other)
}

fn push_chain(text: &mut String, word: &str, top: Ptr, tail: Ptr) -> Result<(), AllocError>
    ensures { OnOk result (string_bytes text.new ≡ string_bytes text.old ++ (word.now ++ pointer_word top ++ 32 ∷ pointer_word tail)) }
{
    push_pointer(text, word, top)?;
    push_pointer(text, " ", tail)
}

fn push_link(text: &mut String, word: &str, ptr: Ptr, next: u64) -> Result<(), AllocError>
    ensures { OnOk result (string_bytes text.new ≡ string_bytes text.old ++ (word.now ++ pointer_word ptr ++ 32 ∷ decimal next)) }
{
    push_pointer(text, word, ptr)?;
    push_one(text, " ", next)
}
