ghost use Rattle.std.specs.Prelude.{◌≡◌, ℕ, ◌<◌, ◌≤◌, ◌+◌, ◌/◌, ◌^◌, ◌↔◌, [], ◌∷◌, ◌++◌, IfErr, IfNone, IfOk, IfSome, IsNone, IsOk, OnErr, OnOk, OnSome, drop, length, take};
ghost use Rattle.segment_store.specs.Steals.{Steals};

use crate::blocks::{Block, PLACES, copied, split_before};
use std::alloc::{AllocError, Global};
use std::marker::Model;

/// A list of at most 2^24 items. Contracts see it as the list `items` and a number `spare`: so many
/// pushes need no memory. To move it is to move four words, however long it is.
#[derive(Debug, Drop)]
pub struct Segment {
    blocks: Vec<Box<Block>>,
    /// The place of the first item, which lies in the first block.
    start: u32,
    /// The place behind the last item.
    end: u32,
}

impl Model for Segment {
    ghost use Rattle.std.specs.Prelude.{◌*◌, ◌-◌, slice_range, vec_len};
    ghost use Rattle.segment_store.specs.Blocks.{HoldItems, joined};
    ghost use Rattle.segment_store.specs.Contents.{Contents};
    ghost use Rattle.segment_store.specs.declared.blocks.TheConstants.{PLACES};

    ghost Value = { Contents };

    ghost view = { λ s. record { items = slice_range (joined s.blocks.items) s.start s.end; spare = PLACES * vec_len s.blocks - s.end } };

    ghost invariant = { λ s. HoldItems s.blocks.items s.start s.end };
}

impl Segment {
    /// A segment with no items. It takes no memory.
    pub fn new(alloc: Global) -> Segment
        ensures items { result.items ≡ [] }
        ensures spare { result.spare ≡ 0 }
    {
        Segment {
            blocks: Vec::new(alloc),
            start: 0,
            end: 0,
        }
    }

    /// How many items it has, at most 2^24.
    pub fn len(&self) -> u32
        ensures count { result ≡ length self.now.items }
        ensures bound { result ≤ 2 ^ 24 }
    {
        self.end - self.start
    }

    /// Makes room for a push, where there is none yet. An `Err` is want of memory, and changes
    /// nothing.
    pub fn reserve(&mut self) -> Result<(), AllocError>
        ensures items { self.new.items ≡ self.old.items }
        ensures room { OnOk result (1 ≤ self.new.spare) }
        ensures enough { 1 ≤ self.old.spare → IsOk result }
        ensures kept { self.old.spare ≤ self.new.spare }
        ensures err { OnErr result (self.new ≡ self.old) }
    {
        if self.end as usize / PLACES == self.blocks.len() {
            let block = Box::new(*self.blocks.allocator(), [0; PLACES])?;
            self.blocks.push(block)?;
        }
        Ok(())
    }

    /// Adds an item at the end, in the room that a `reserve` made or a `pop` left.
    pub fn push(&mut self, item: u64)
        requires room { 1 ≤ self.old.spare }
        requires count { length self.old.items < 2 ^ 24 }
        ensures items { self.new.items ≡ self.old.items ++ item ∷ [] }
        ensures spare { self.new.spare + 1 ≡ self.old.spare }
    {
        let end = self.end as usize;
        self.blocks[end / PLACES][end % PLACES] = item;
        self.end += 1;
    }

    /// Takes the last item. Its place is room for another push.
    pub fn pop(&mut self) -> Option<u64>
        ensures empty { IsNone result ↔ (self.old.items ≡ []) }
        ensures none { IfNone result (self.new ≡ self.old) }
        ensures last { IfSome result (λ item. self.old.items ≡ self.new.items ++ item ∷ []) }
        ensures room { OnSome result (self.new.spare ≡ self.old.spare + 1) }
    {
        if self.start == self.end {
            return None;
        }
        self.end -= 1;
        let end = self.end as usize;
        Some(self.blocks[end / PLACES][end % PLACES])
    }

    /// Hands out the first half of the items, rounded down, and keeps the others. Unless the front is
    /// empty, blocks with no items are given back; the room that is left is unspecified. An `Err` is
    /// want of memory, and changes nothing.
    pub fn split_half(&mut self) -> Result<Segment, AllocError>
        ensures front { IfOk result (λ front. front.items ≡ take (length self.old.items / 2) self.old.items) }
        ensures rest { OnOk result (self.new.items ≡ drop (length self.old.items / 2) self.old.items) }
        ensures err { OnErr result (self.new ≡ self.old) }
    {
        let half = self.len() / 2;
        if half == 0 {
            return Ok(Segment::new(*self.blocks.allocator()));
        }
        let cut = self.start + half;
        let number = cut as usize / PLACES;
        let used = (self.end as usize).div_ceil(PLACES);
        let blocks = split_before(&mut self.blocks, number, used)?;
        let front = Segment {
            blocks,
            start: self.start,
            end: cut,
        };
        let moved = (number * PLACES) as u32;
        self.start = cut - moved;
        self.end -= moved;
        Ok(front)
    }

    /// Takes the last item of the first half of `other`, rounded down, and moves the items before it to
    /// `own`, which is empty. What is behind it stays in `other`. One item alone is taken as it is. Where
    /// there is no memory to cut `other`, its last item is taken and nothing is moved, so it never
    /// answers want of memory. `None` is the answer where `other` is empty, too.
    pub fn steal_half(own: &mut Segment, other: &mut Segment) -> Option<u64>
        requires empty { own.old.items ≡ [] }
        ensures empty { IsNone result ↔ (other.old.items ≡ []) }
        ensures none { IfNone result ((own.new ≡ own.old) × (other.new ≡ other.old)) }
        ensures some { IfSome result (λ item. Steals other.old.items own.new.items other.new.items item) }
    {
        if other.len() < 2 {
            return other.pop();
        }
        let Ok(half) = other.split_half() else {
            return other.pop();
        };
        *own = half;
        own.pop()
    }

    /// The items in order. An `Err` is want of memory, and hands the segment back as it was.
    pub fn into_items(self) -> Result<Vec<u64>, Segment>
        ensures items { IfOk result (λ items. items.items ≡ self.items) }
        ensures back { IfErr result (λ segment. segment ≡ self) }
    {
        let alloc = *self.blocks.allocator();
        match copied(alloc, &self.blocks, self.start as usize, self.end as usize) {
            Ok(items) => Ok(items),
            Err(AllocError) => Err(self),
        }
    }
}
