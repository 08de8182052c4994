//! How a deque is closed.
ghost use Rattle.std.specs.Prelude.{◌≡◌, ℕ, ◌+◌, ◌*◌, ◌<◌, ◌≤◌, [], length, All, IfOk, IfErr, slice_index, vec_len, vec_capacity};
ghost use Rattle.std.specs.Slots.{slots_items, slots_len, IsFull};
ghost use Rattle.pass_table.specs.Looks.{HaveLooked};
ghost use Rattle.pass_table.specs.Passes.{plan_of};
ghost use Rattle.shared_deque.specs.Layout.{size_in};
ghost use Rattle.shared_deque.specs.Rule.{deque_terms};
ghost use Rattle.shared_deque.specs.Deques.{callers_of, keeper_of};
ghost use Rattle.shared_deque.specs.Opened.{AreOfOpening};
ghost use Rattle.shared_deque.specs.Closed.{ClosesWith, ReadsRing};

use crate::deques::{Deque, DequePass};
use crate::layout::{ENDS, head_at, size_at, value_at};
use atomic_table::Closed;
use seq_objects::Keeps;
use std::alloc::Global;

/// What a deque held when it was closed, from front to back.
#[derive(Drop)]
pub struct ClosedDeque {
    pub items: Vec<u64>,
}

/// There was no memory for the items. The deque comes back untouched, and so do the passes, but that each
/// has looked at the ends once.
#[derive(Drop)]
pub struct DequeBack<K: Keeps> {
    pub deque: Deque<K>,
    pub passes: Vec<DequePass<K>>,
}

// The values of the ring's cells, from the first on.
fn read_ring(closed: &Closed<(), Global>, capacity: u32, mut items: Vec<u64>) -> Vec<u64>
    requires words { IsFull closed.now.words × (slots_len closed.now.words ≡ 2 * capacity + 1) }
    requires some_cell { 0 < capacity }
    requires room { (items.items ≡ []) × (vec_len items ≡ 0) × (size_in (slice_index (slots_items closed.now.words) 0) ≤ vec_capacity items) }
    ensures { ReadsRing (slots_items closed.now.words) capacity result.items }
{
    let ends = closed.word(ENDS);
    let cells = u64::from(capacity);
    for place in 0..size_at(ends) {
        let cell = (head_at(ends) + place) % cells;
        items.push_reserved(closed.word(value_at(cell as u32)));
    }
    items
}

impl<K: Keeps> Deque<K> {
    /// Closes the deque, with as many passes of its opening as it has callers, and gives what it holds. It first looks at the
    /// ends with each pass, and takes memory for as many items as there are. Where there is none, the deque
    /// and the passes come back.
    pub fn close(self, mut passes: Vec<DequePass<K>>) -> Result<ClosedDeque, DequeBack<K>>
        requires opening { AreOfOpening self passes.items }
        requires count { length passes.items ≡ callers_of self }
        ensures ok { IfOk result (λ closed. ClosesWith self passes.items (K.keeps (keeper_of self)) closed.items.items) }
        ensures kept { IfOk result (λ closed. All (K.keeps (keeper_of self)) closed.items.items) }
        ensures err { IfErr result (λ back. (back.deque ≡ self) × ((most : ℕ) × HaveLooked (deque_terms K.keeps) (plan_of self.table) most passes.items back.passes.items)) }
        ensures again { IfErr result (λ back. AreOfOpening back.deque back.passes.items × (length back.passes.items ≡ callers_of back.deque)) }
    {
        let most = self.table.most_items(passes.as_mut_slice());
        let Ok(items) = Vec::with_capacity(self.alloc, most as usize) else {
            return Err(DequeBack {
                deque: self,
                passes,
            });
        };
        let Deque {
            table,
            capacity,
            alloc: _,
        } = self;
        let closed = table.close(passes);
        let items = read_ring(&closed, capacity, items);
        closed.free();
        Ok(ClosedDeque { items })
    }
}
