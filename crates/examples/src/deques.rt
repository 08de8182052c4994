//! A deque that callers share: opened for some of them, used by each in a thread, and closed.
ghost use Rattle.std.specs.Prelude.{◌≡◌, List, IfOk};
ghost use Rattle.shared_deque.specs.Histories.{IsOfCallers};
ghost use Rattle.shared_deque.specs.Counted.{DequeEntry, LeavesItems};
ghost use Rattle.shared_deque.specs.Passes.{pass_opening};
ghost use Rattle.shared_deque.specs.Deques.{opening_of};

use seq_objects::AnyItem;
use shared_deque::{Deque, DequeFault, DequePass};
use std::alloc::Global;
use std::sync::Wait;
use std::thread::{Threads, for_each_mut};

/// Lets each of so many callers push its number in a thread. What the deque holds then, from front to
/// back, is what a history of these callers leaves.
pub fn push_numbers<R: Threads + Wait + Sync>(
    rt: &R,
    alloc: Global,
    callers: u32,
) -> Result<Vec<u64>, DequeFault>
    ensures { IfOk result (λ items. (h : List DequeEntry) × LeavesItems 1024 h items.items × IsOfCallers callers h) }
{
    let (deque, mut passes) = Deque::open(alloc, 1, 1024, callers, AnyItem)?;
    for_each_mut(
        rt,
        passes.as_mut_slice(),
        4,
        &|_, pass: &mut DequePass<AnyItem>|
            requires { pass_opening pass.now ≡ opening_of deque }
        {
            let number = u64::from(pass.caller());
            let _ = deque.push_back(rt, pass, number);
        },
    );
    match deque.close(passes) {
        Ok(closed) => Ok(closed.items),
        Err(_) => Err(DequeFault::OutOfMemory),
    }
}
