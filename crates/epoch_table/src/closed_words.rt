//! The words of a manager's table after its close.
ghost use Rattle.std.specs.Prelude.{◌≡◌, ◌+◌, ◌<◌, ◌≤◌, slice_index};
ghost use Rattle.std.specs.Slots.{slots_items, slots_len, IsFull};
ghost use Rattle.pgas_base.specs.Shapes.{IsShape};
ghost use Rattle.epoch_laws.specs.States.{IsPlace};
ghost use Rattle.epoch_table.specs.Layout.{InRow, OfClient, place, client_place, table_words};

use crate::layout::Layout;
use atomic_table::Closed;
use pgas_base::Shape;
use std::alloc::Global;

/// The client's word of this number.
pub fn client_word(closed: &Closed<(), Global>, shape: &Shape, word: u32) -> u64
    requires shape { IsShape shape.now }
    requires words { IsFull closed.now.words × (table_words shape.now (word + 1) ≤ slots_len closed.now.words) }
    ensures { result ≡ slice_index (slots_items closed.now.words) (place shape.now (OfClient word)) }
{
    closed.word(Layout::of(*shape).own_at(word))
}

/// A word in the row of an object.
pub fn row_word(closed: &Closed<(), Global>, shape: &Shape, locale: u8, index: u32, at: u32) -> u64
    requires shape { IsShape shape.now }
    requires place { IsPlace shape.now record { locale = locale; index = index } }
    requires at { at < shape.now.width }
    requires words { IsFull closed.now.words × (client_place shape.now ≤ slots_len closed.now.words) }
    ensures { result ≡ slice_index (slots_items closed.now.words) (place shape.now (InRow record { locale = locale; index = index } at)) }
{
    closed.word(Layout::of(*shape).header_at(locale, index) + 2 + at as usize)
}
