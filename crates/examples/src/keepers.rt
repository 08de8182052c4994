//! A keeper of one's own: which items a deque may hold is for its opener to say.
ghost use Rattle.std.specs.Prelude.{◌≡◌, ◌*◌, ◌%◌, IfOk, IfSome, All};
ghost use Rattle.shared_deque.specs.Passes.{IsSamePass, pass_opening};
ghost use Rattle.shared_deque.specs.Deques.{opening_of};

use seq_objects::Keeps;
use shared_deque::{Deque, DequeFault, DequePass};
use std::alloc::Global;
use std::sync::Wait;
use std::thread::{Threads, for_each_mut};

/// Keeps even items alone.
#[derive(Clone, Copy)]
pub struct Even;

impl Keeps for Even {
    ghost use Rattle.std.specs.Prelude.{◌≡◌, ◌%◌};

    ghost keeps = { λ _ item. item % 2 ≡ 0 };
}

/// Half of the item at the front, which has no rest, whoever pushed it.
pub fn half_of_first<R: Wait>(
    rt: &R,
    deque: &Deque<Even>,
    pass: &mut DequePass<Even>,
) -> Option<u64>
    requires { pass_opening pass.old ≡ opening_of deque.now }
    ensures { IsSamePass pass.old pass.new }
{
    let item = deque.pop_front(rt, pass)?;
    prove!(item % 2 == 0);
    Some(item / 2)
}

/// Lets each of so many callers push twice its number in a thread, and one more pop. All items that are left are even.
pub fn push_even<R: Threads + Wait + Sync>(
    rt: &R,
    alloc: Global,
    callers: u32,
) -> Result<Vec<u64>, DequeFault>
    ensures { IfOk result (λ items. All (λ item. item % 2 ≡ 0) items.items) }
{
    let (deque, mut passes) = Deque::open(alloc, 1, 1024, callers, Even)?;
    for_each_mut(
        rt,
        passes.as_mut_slice(),
        4,
        &|_, pass: &mut DequePass<Even>|
            requires { pass_opening pass.now ≡ opening_of deque }
        {
            let number = u64::from(pass.caller());
            let _ = deque.push_back(rt, pass, 2 * number);
        },
    );
    match deque.close(passes) {
        Ok(closed) => Ok(closed.items),
        Err(_) => Err(DequeFault::OutOfMemory),
    }
}
