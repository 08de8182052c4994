//! Where the words of a deque stand, and what the ends word says. Word 0 is the ends. Then each cell has its owner
//! and its value.
ghost use Rattle.std.specs.Prelude.{◌≡◌, ◌%◌, ◌<◌, ◌≤◌};
ghost use Rattle.shared_deque.specs.Layout.{owner_place, value_place, size_in, head_in};
ghost use Rattle.shared_deque.specs.Aims.{is_turned_away, cell_of, ends_after, call_of, MayGo};

use crate::sides::{Aim, Side};

/// The name of a word of a deque, in the lists of words that a caller has read.
pub enum Word {
    /// The ends: the first cell times 2^32, and the number of items.
    Ends,
    /// The turn of a cell: 0, or the number of the caller who has the cell and one.
    Turn { cell: u32 },
    /// The value of a cell.
    Value { cell: u32 },
}

/// The place of the ends word, which all callers exchange.
pub(crate) const ENDS: usize = 0;

// The ends word has the first cell in steps of this, and the number of items below it.
const HALF: u64 = 1 << 32;

#[inline]
pub(crate) fn owner_at(cell: u32) -> usize
    ensures { result ≡ owner_place cell }
{
    2 * cell as usize + 1
}

#[inline]
pub(crate) fn value_at(cell: u32) -> usize
    ensures { result ≡ value_place cell }
{
    2 * cell as usize + 2
}

#[inline]
pub(crate) fn size_at(ends: u64) -> u64
    ensures { result ≡ size_in ends }
{
    ends % HALF
}

#[inline]
pub(crate) fn head_at(ends: u64) -> u64
    ensures { result ≡ head_in ends }
{
    ends / HALF
}

// A place of the ring that is mostly less than one round on. Then no division is made.
#[inline]
fn wrap(place: u64, cells: u64) -> u64
    requires { 0 < cells }
    ensures { result ≡ place % cells }
{
    if place < cells { place } else { place % cells }
}

/// Whether the ends leave no room for a push, or no item for a pop.
#[inline]
pub(crate) fn turns_away(capacity: u32, ends: u64, aim: Aim) -> bool
    ensures { result ≡ is_turned_away capacity ends aim }
{
    match aim {
        Aim::Push { .. } => size_at(ends) == u64::from(capacity),
        Aim::Pop { .. } => size_at(ends) == 0,
    }
}

/// The cell that a call claims, once it has loaded the ends.
#[inline]
pub(crate) fn claimed_cell(capacity: u32, ends: u64, aim: Aim) -> u32
    requires some_cell { 0 < capacity }
    requires may_go { MayGo capacity ends aim }
    ensures { result ≡ cell_of capacity ends (call_of aim) }
{
    let cells = u64::from(capacity);
    let head = head_at(ends);
    let cell = match aim {
        Aim::Push {
            side: Side::Back,
            ..
        } => wrap(head + size_at(ends), cells),
        Aim::Push {
            side: Side::Front,
            ..
        } => wrap(head + cells - 1, cells),
        Aim::Pop { side: Side::Back } => wrap(head + size_at(ends) - 1, cells),
        Aim::Pop { side: Side::Front } => head,
    };
    cell as u32
}

/// The ends after the call.
#[inline]
pub(crate) fn next_ends(capacity: u32, ends: u64, aim: Aim) -> u64
    requires some_cell { 0 < capacity }
    requires may_go { MayGo capacity ends aim }
    ensures { result ≡ ends_after capacity ends aim }
{
    let cells = u64::from(capacity);
    let head = head_at(ends);
    let size = size_at(ends);
    match aim {
        Aim::Push {
            side: Side::Back,
            ..
        } => head * HALF + (size + 1),
        Aim::Push {
            side: Side::Front,
            ..
        } => wrap(head + cells - 1, cells) * HALF + (size + 1),
        Aim::Pop { side: Side::Back } => head * HALF + (size - 1),
        Aim::Pop { side: Side::Front } => wrap(head + 1, cells) * HALF + (size - 1),
    }
}
