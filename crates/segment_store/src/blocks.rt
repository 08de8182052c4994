ghost use Rattle.std.specs.Prelude.{◌≡◌, ℕ, ◌<◌, ◌≤◌, ◌*◌, ◌-◌, ◌+◌, IfOk, OnErr, OnOk, drop, slice_range, take, vec_len};
ghost use Rattle.segment_store.specs.Blocks.{AreWhole, joined};

use std::alloc::{AllocError, Global};

/// How many places a block has.
pub const PLACES: usize = 32;

/// The places of a block. One that no item stands in has any number.
pub type Block = [u64; PLACES];

/// Splits off the blocks before the one with this number, and a copy of that one, since a cut in it
/// leaves items on both sides. What stays ends before the block `used`. An `Err` changes nothing.
pub fn split_before(
    blocks: &mut Vec<Box<Block>>,
    number: usize,
    used: usize,
) -> Result<Vec<Box<Block>>, AllocError>
    requires inside { number < used }
    requires used { used ≤ vec_len blocks.old }
    ensures front { IfOk result (λ front. joined front.items ≡ joined (take (number + 1) blocks.old.items)) }
    ensures front_count { IfOk result (λ front. vec_len front ≡ number + 1) }
    ensures front_whole { AreWhole blocks.old.items → IfOk result (λ front. AreWhole front.items) }
    ensures rest { OnOk result (blocks.new.items ≡ take (used - number) (drop number blocks.old.items)) }
    ensures err { OnErr result (blocks.new ≡ blocks.old) }
{
    let alloc = *blocks.allocator();
    let border = Box::new(alloc, *blocks[number])?;
    let mut front = Vec::with_capacity(alloc, number + 1)?;
    let mut rest = blocks.split_off(number)?;
    rest.truncate(used - number);
    // The front has room for both.
    front.append(blocks).unwrap();
    front.push(border).unwrap();
    *blocks = rest;
    Ok(front)
}

/// The items from the place `start` up to the place `end`, counted through the blocks.
pub fn copied(
    alloc: Global,
    blocks: &[Box<Block>],
    mut start: usize,
    mut end: usize,
) -> Result<Vec<u64>, AllocError>
    requires whole { AreWhole blocks.now }
    requires ordered { start ≤ end }
    ensures { IfOk result (λ items. items.items ≡ slice_range (joined blocks.now) start end) }
{
    let mut items = Vec::with_capacity(alloc, end - start)?;
    for block in blocks {
        items.extend_from_slice(&block[start.min(PLACES)..end.min(PLACES)])?;
        start = start.saturating_sub(PLACES);
        end = end.saturating_sub(PLACES);
    }
    Ok(items)
}
