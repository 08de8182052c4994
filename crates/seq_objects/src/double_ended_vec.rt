ghost use Rattle.std.specs.Prelude.{◌≡◌, ℕ, ◌+◌, ◌-◌, ◌*◌, ◌<◌, ◌≤◌, ◌^◌, List, [], ◌∷◌, ◌++◌, IfOk, OnOk, OnErr, length, take, drop, replicate, slice_get};

use std::alloc::{AllocError, Global};
use std::marker::Model;

/// The fewest free slots at each end after the items were moved.
const ROOM: usize = 64;

/// Numbers in a row, with free slots before and behind them, so that both ends grow and shrink in
/// constant time on average and the items are always one slice. (Boost calls such a container a
/// devector.) Where a push finds no free slot at its end, the items move to the middle of a new buffer
/// with twice as many slots as items, and some more. So it takes half as many pushes as there are
/// items until they move again, and the slots are at most twice the most items that there were, and
/// some more.
///
/// Contracts see the items from front to back, and the free slots at both ends.
#[derive(Debug, Drop)]
pub struct DoubleEndedVec {
    slots: Vec<u64>,
    start: usize,
    end: usize,
}

impl Model for DoubleEndedVec {
    ghost use Rattle.std.specs.Prelude.{◌-◌, ◌≤◌, take, drop, vec_len};
    ghost use Rattle.seq_objects.specs.DoubleEnded.{Row};

    ghost Value = { Row };

    ghost view = { λ v. record {
      before = v.start;
      items = take (v.end - v.start) (drop v.start v.slots.items);
      behind = vec_len v.slots - v.end;
    } };

    ghost invariant = { λ v. (v.start ≤ v.end) × (v.end ≤ vec_len v.slots) };
}

impl DoubleEndedVec {
    pub fn new(alloc: Global) -> DoubleEndedVec
        ensures { result.items ≡ [] }
    {
        DoubleEndedVec {
            slots: Vec::new(alloc),
            start: 0,
            end: 0,
        }
    }

    pub fn len(&self) -> usize
        ensures { result ≡ length self.now.items }
    {
        self.end - self.start
    }

    pub fn items(&self) -> &[u64]
        ensures { result.now ≡ self.now.items }
    {
        &self.slots[self.start..self.end]
    }

    /// Adds an item behind the others, or changes no item where there is no memory.
    pub fn push_back(&mut self, item: u64) -> Result<(), AllocError>
        ensures ok { OnOk result (self.new.items ≡ self.old.items ++ item ∷ []) }
        ensures err { OnErr result (self.new.items ≡ self.old.items) }
    {
        self.make_room_behind()?;
        self.slots[self.end] = item;
        self.end += 1;
        Ok(())
    }

    /// Adds an item before the others, or changes no item where there is no memory.
    pub fn push_front(&mut self, item: u64) -> Result<(), AllocError>
        ensures ok { OnOk result (self.new.items ≡ item ∷ self.old.items) }
        ensures err { OnErr result (self.new.items ≡ self.old.items) }
    {
        self.make_room_before()?;
        self.start -= 1;
        self.slots[self.start] = item;
        Ok(())
    }

    pub fn pop_back(&mut self) -> Option<u64>
        ensures item { result ≡ slice_get self.old.items (length self.old.items - 1) }
        ensures rest { self.new.items ≡ take (length self.old.items - 1) self.old.items }
    {
        if self.start == self.end {
            return None;
        }
        self.end -= 1;
        Some(self.slots[self.end])
    }

    #[tactic(auto, using(crate::proofs::Windows::window_without_first))]
    pub fn pop_front(&mut self) -> Option<u64>
        ensures item { result ≡ slice_get self.old.items 0 }
        ensures rest { self.new.items ≡ drop 1 self.old.items }
    {
        if self.start == self.end {
            return None;
        }
        let item = self.slots[self.start];
        self.start += 1;
        Some(item)
    }

    fn make_room_behind(&mut self) -> Result<(), AllocError>
        ensures room { OnOk result (0 < self.new.behind) }
        ensures items { self.new.items ≡ self.old.items }
    {
        if self.end < self.slots.len() {
            return Ok(());
        }
        self.move_to_middle()
    }

    fn make_room_before(&mut self) -> Result<(), AllocError>
        ensures room { OnOk result (0 < self.new.before) }
        ensures items { self.new.items ≡ self.old.items }
    {
        if self.start > 0 {
            return Ok(());
        }
        self.move_to_middle()
    }

    fn move_to_middle(&mut self) -> Result<(), AllocError>
        ensures before { OnOk result (0 < self.new.before) }
        ensures behind { OnOk result (0 < self.new.behind) }
        ensures items { self.new.items ≡ self.old.items }
    {
        let room = self.len() / 2 + ROOM;
        let alloc = *self.slots.allocator();
        let slots = with_room(alloc, self.items(), room)?;
        self.end = room + self.len();
        self.start = room;
        self.slots = slots;
        Ok(())
    }
}

/// The items between as many free slots on either side.
fn with_room(alloc: Global, items: &[u64], room: usize) -> Result<Vec<u64>, AllocError>
    requires { length items.now + 2 * room < 2 ^ 64 }
    ensures { IfOk result (λ slots. slots.items ≡ replicate room 0 ++ (items.now ++ replicate room 0)) }
{
    let len = room + items.len();
    let mut slots = Vec::with_capacity(alloc, len + room)?;
    slots.resize(room, 0)?;
    slots.extend_from_slice(items)?;
    slots.resize(len + room, 0)?;
    Ok(slots)
}
