//! Three callers, each in a thread, of which two push and one pops, and what came out.
ghost use Rattle.std.specs.Prelude.{◌≡◌, ◌%◌, IfOk, IfSome, All};
ghost use Rattle.shared_deque.specs.Passes.{IsSamePass, pass_opening};
ghost use Rattle.shared_deque.specs.Deques.{callers_of, opening_of};

use crate::keepers::Even;
use shared_deque::{Deque, DequeFault, DequePass};
use std::alloc::Global;
use std::sync::Wait;
use std::thread::{Threads, join_mut};

/// Pushes an item with each pass, each in a thread.
fn push_both<R: Threads + Wait + Sync>(
    rt: &R,
    deque: &Deque<Even>,
    first: &mut DequePass<Even>,
    second: &mut DequePass<Even>,
)
    requires first { pass_opening first.old ≡ opening_of deque.now }
    requires second { pass_opening second.old ≡ opening_of deque.now }
    ensures first { IsSamePass first.old first.new }
    ensures second { IsSamePass second.old second.new }
{
    join_mut(
        rt,
        &mut || {
            let _ = deque.push_back(rt, first, 2);
        },
        &mut || {
            let _ = deque.push_back(rt, second, 4);
        },
    );
}

/// What is left of a deque of three callers.
fn close_three(
    alloc: Global,
    deque: Deque<Even>,
    first: DequePass<Even>,
    second: DequePass<Even>,
    third: DequePass<Even>,
) -> Result<Vec<u64>, DequeFault>
    requires callers { callers_of deque ≡ 3 }
    requires first { pass_opening first ≡ opening_of deque }
    requires second { pass_opening second ≡ opening_of deque }
    requires third { pass_opening third ≡ opening_of deque }
    ensures { IfOk result (λ items. All (λ item. item % 2 ≡ 0) items.items) }
{
    let mut passes = Vec::new(alloc);
    let (Ok(()), Ok(()), Ok(())) = (passes.push(first), passes.push(second), passes.push(third))
    else {
        return Err(DequeFault::OutOfMemory);
    };
    match deque.close(passes) {
        Ok(closed) => Ok(closed.items),
        Err(_) => Err(DequeFault::OutOfMemory),
    }
}

/// What a third caller took while two pushed, each in a thread, and what was left: all of it is even.
pub fn relay<R: Threads + Wait + Sync>(
    rt: &R,
    alloc: Global,
) -> Result<(Option<u64>, Vec<u64>), DequeFault>
    ensures taken { IfOk result (λ r. IfSome r.0 (λ item. item % 2 ≡ 0)) }
    ensures left { IfOk result (λ r. All (λ item. item % 2 ≡ 0) r.1.items) }
{
    let (deque, mut passes) = Deque::open(alloc, 1, 16, 3, Even)?;
    let mut third = deque.take_pass(&mut passes);
    let mut second = deque.take_pass(&mut passes);
    let mut first = deque.take_pass(&mut passes);
    let mut taken = None;
    join_mut(
        rt,
        &mut ||
            requires { (pass_opening first ≡ opening_of deque) × (pass_opening second ≡ opening_of deque) }
        { push_both(rt, &deque, &mut first, &mut second) },
        &mut || {
            taken = deque.pop_front(rt, &mut third);
        },
    );
    let left = close_three(alloc, deque, first, second, third)?;
    Ok((taken, left))
}
