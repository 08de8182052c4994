//! An item that one thread hands to another, by a deque.
ghost use Rattle.std.specs.Prelude.{◌≡◌};
ghost use Rattle.shared_deque.specs.Passes.{IsSamePass, pass_opening};
ghost use Rattle.shared_deque.specs.Deques.{opening_of};

use seq_objects::AnyItem;
use shared_deque::{Deque, DequePass};
use std::sync::Wait;
use std::thread::{Threads, join_mut};

/// Hands an item from one thread to another. `None` where the taker came first, or the deque was full.
pub fn hand_over<R: Threads + Wait + Sync>(
    rt: &R,
    deque: &Deque<AnyItem>,
    giver: &mut DequePass<AnyItem>,
    taker: &mut DequePass<AnyItem>,
) -> Option<u64>
    requires giver { pass_opening giver.old ≡ opening_of deque.now }
    requires taker { pass_opening taker.old ≡ opening_of deque.now }
    ensures giver { IsSamePass giver.old giver.new }
    ensures taker { IsSamePass taker.old taker.new }
{
    let mut taken = None;
    join_mut(
        rt,
        &mut || {
            let _ = deque.push_back(rt, giver, 7);
        },
        &mut || {
            taken = deque.pop_front(rt, taker);
        },
    );
    taken
}
