//! The words with which a manager opens.
ghost use Rattle.std.specs.Prelude.{◌≡◌, ◌<◌, ◌≤◌, ℕ, IfOk, length, slice_index};
ghost use Rattle.pgas_base.specs.Shapes.{IsShape};
ghost use Rattle.pgas_base.specs.Starts.{IsStart};
ghost use Rattle.epoch_laws.specs.States.{IsPlace};
ghost use Rattle.epoch_table.specs.Layout.{site_at, locale_site, object_site, object_at, opening_number, table_words};

use crate::layout::{LINE, LOCALE, LOCALES, client_at, objects_at, tokens_at};
use pgas_base::{Ptr, Shape, Start};
use pool_core::{State, free_word, header};
use std::alloc::{AllocError, Global};

// The word of a locale with this offset.
#[tactic(auto, unfolding(crate::specs::Layout::locale_site, crate::specs::Layout::opening_number, epoch_laws::specs::States::opening_words))]
fn locale_word(start: &Start, offset: usize) -> u64
    requires { IsStart start.now }
    ensures { (shape : Shape) (locale : ℕ) → result ≡ opening_number shape start.now (locale_site locale offset) }
{
    if offset < LINE {
        start.epoch
    } else if offset < 3 * LINE {
        0
    } else if offset < 4 * LINE {
        free_word(start.stack, 1)
    } else {
        0
    }
}

// The word of an object with this offset: its header, its next word, or one of its row.
#[tactic(auto, unfolding(crate::specs::Layout::object_site, crate::specs::Layout::opening_number, epoch_laws::specs::States::opening_words))]
fn object_word(shape: &Shape, start: &Start, locale: u8, index: u32, offset: usize) -> u64
    requires shape { IsShape shape.now }
    requires place { IsPlace shape.now record { locale = locale; index = index } }
    ensures { result ≡ opening_number shape.now start.now (object_site record { locale = locale; index = index } offset) }
{
    if offset == 0 {
        header(start.count, State::Free)
    } else if offset == 1 && index < shape.objects {
        Ptr::new(locale, index + 1, start.count).word()
    } else {
        0
    }
}

// The word at a place of the table.
#[tactic(auto, unfolding(crate::specs::Layout::site_at, crate::specs::Layout::object_at, crate::specs::Layout::token_in, crate::specs::Layout::opening_number, epoch_laws::specs::States::opening_words))]
fn opening_word(shape: &Shape, start: &Start, at: usize) -> u64
    requires shape { IsShape shape.now }
    requires start { IsStart start.now }
    ensures { result ≡ opening_number shape.now start.now (site_at shape.now at) }
{
    if at < LINE {
        start.epoch
    } else if at < LOCALES {
        0
    } else if at < tokens_at(shape) {
        locale_word(start, (at - LOCALES) % LOCALE)
    } else if at < objects_at(shape) || client_at(shape) <= at {
        0
    } else {
        let row = shape.width as usize + 2;
        let number = (at - objects_at(shape)) / row;
        let objects = shape.objects as usize;
        object_word(
            shape,
            start,
            (number / objects) as u8,
            (number % objects) as u32 + 1,
            (at - objects_at(shape)) % row,
        )
    }
}

/// All words with which a manager opens, with so many of the client's.
pub(crate) fn opening_words(
    alloc: Global,
    shape: &Shape,
    start: &Start,
    own: u32,
) -> Result<Vec<u64>, AllocError>
    requires shape { IsShape shape.now }
    requires start { IsStart start.now }
    ensures { IfOk result (λ v. (length v.items ≡ table_words shape.now own) × ((at : ℕ) → at < table_words shape.now own → slice_index v.items at ≡ opening_number shape.now start.now (site_at shape.now at))) }
{
    let many = client_at(shape) + own as usize * LINE;
    let mut words = Vec::with_capacity(alloc, many)?;
    for at in 0..many {
        words.push_reserved(opening_word(shape, start, at));
    }
    Ok(words)
}
