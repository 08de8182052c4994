ghost use Rattle.std.specs.Prelude.{◌≡◌, ◌++◌, ◌∷◌, [], IfOk, OnOk, string_bytes, decimal};
ghost use Rattle.run_text.specs.Listing.{checked_text, end_line, end_words, event_words, item_line, item_words, items_text, pointer_word, token_word};

use crate::checking::{Checked, RunEnd};
use epoch_core::{EpochEvent, Item, Token};
use line_text::push_number;
use pgas_base::Ptr;
use std::alloc::{AllocError, Global};

/// The text of a check of so many steps: a line for each item, and how it ends. A line is the number of the
/// seat and the item; the last begins with a number sign.
pub fn write_checked(alloc: Global, checked: &Checked, steps: usize) -> Result<String, AllocError>
    ensures { IfOk result (λ text. string_bytes text ≡ checked_text checked.now.items.items checked.now.end steps) }
{
    let mut text = String::new(alloc);
    push_items(&mut text, checked.items.as_slice())?;
    push_end(&mut text, checked.end, steps)?;
    Ok(text)
}

fn push_items(text: &mut String, items: &[Item]) -> Result<(), AllocError>
    ensures { OnOk result (string_bytes text.new ≡ string_bytes text.old ++ items_text items.now) }
{
    for item in items {
        push_item(text, item)?;
    }
    Ok(())
}

fn push_item(text: &mut String, item: &Item) -> Result<(), AllocError>
    ensures { OnOk result (string_bytes text.new ≡ string_bytes text.old ++ item_line item.now) }
{
    push_words(text, item)?;
    text.push_str("\n")
}

fn push_words(text: &mut String, item: &Item) -> Result<(), AllocError>
    ensures { OnOk result (string_bytes text.new ≡ string_bytes text.old ++ item_words item.now) }
{
    match item {
        Item::Event { seat, event, tag } => {
            push_number(text, u64::from(*seat))?;
            push_event(text, event, *tag)
        }
        Item::Advance { seat, epoch } => {
            push_seat(text, *seat, " advance ")?;
            push_number(text, *epoch)
        }
        Item::Claim {
            seat,
            global: false,
        } => push_seat(text, *seat, " claim local"),
        Item::Claim { seat, global: true } => push_seat(text, *seat, " claim global"),
        Item::Leave {
            seat,
            global: false,
        } => push_seat(text, *seat, " leave local"),
        Item::Leave { seat, global: true } => push_seat(text, *seat, " leave global"),
    }
}

/// Adds the number of a seat and a word.
fn push_seat(text: &mut String, seat: u32, word: &str) -> Result<(), AllocError>
    ensures { OnOk result (string_bytes text.new ≡ string_bytes text.old ++ (decimal seat ++ word.now)) }
{
    push_number(text, u64::from(seat))?;
    text.push_str(word)
}

fn push_event(text: &mut String, event: &EpochEvent, tag: u64) -> Result<(), AllocError>
    ensures { OnOk result (string_bytes text.new ≡ string_bytes text.old ++ event_words event.now tag) }
{
    match event {
        EpochEvent::Registered { token } => push_token(text, " registered ", token),
        EpochEvent::Unregistered { token } => push_token(text, " unregistered ", token),
        EpochEvent::Pinned { token } => push_token(text, " pinned ", token),
        EpochEvent::Unpinned { token } => push_token(text, " unpinned ", token),
        EpochEvent::Given { ptr } => push_pointer(text, " given ", *ptr),
        EpochEvent::Shown { ptr } => push_pointer(text, " shown ", *ptr),
        EpochEvent::Returned { ptr } => push_pointer(text, " returned ", *ptr),
        EpochEvent::Freed { ptr } => push_pointer(text, " freed ", *ptr),
        EpochEvent::Held { token, ptr } => {
            push_token(text, " held ", token)?;
            push_pointer(text, " ", *ptr)
        }
        EpochEvent::Deferred { token, ptr } => {
            push_token(text, " deferred ", token)?;
            push_pointer(text, " ", *ptr)?;
            text.push_str(" ")?;
            push_number(text, tag)
        }
    }
}

/// Adds a word and a token, `locale.number`.
fn push_token(text: &mut String, word: &str, token: &Token) -> Result<(), AllocError>
    ensures { OnOk result (string_bytes text.new ≡ string_bytes text.old ++ (word.now ++ token_word token.now)) }
{
    text.push_str(word)?;
    push_number(text, u64::from(token.locale))?;
    text.push_str(".")?;
    push_number(text, u64::from(token.number))
}

/// Adds a word and a pointer, `locale.index.count`.
pub(crate) fn push_pointer(text: &mut String, word: &str, ptr: Ptr) -> Result<(), AllocError>
    ensures { OnOk result (string_bytes text.new ≡ string_bytes text.old ++ (word.now ++ pointer_word ptr)) }
{
    text.push_str(word)?;
    push_number(text, u64::from(ptr.locale()))?;
    text.push_str(".")?;
    push_number(text, u64::from(ptr.index()))?;
    text.push_str(".")?;
    push_number(text, u64::from(ptr.count()))
}

fn push_end(text: &mut String, end: RunEnd, steps: usize) -> Result<(), AllocError>
    ensures { OnOk result (string_bytes text.new ≡ string_bytes text.old ++ end_line end steps) }
{
    push_end_words(text, end, steps)?;
    text.push_str("\n")
}

fn push_end_words(text: &mut String, end: RunEnd, steps: usize) -> Result<(), AllocError>
    ensures { OnOk result (string_bytes text.new ≡ string_bytes text.old ++ end_words end steps) }
{
    match end {
        RunEnd::Run => {
            text.push_str("# run ")?;
            push_number(text, steps as u64)
        }
        RunEnd::NotRun { line, need, word } => {
            text.push_str("# not a run: line ")?;
            push_number(text, line)?;
            text.push_str(" need ")?;
            push_number(text, u64::from(need))?;
            text.push_str(" word ")?;
            push_number(text, word)
        }
    }
}
