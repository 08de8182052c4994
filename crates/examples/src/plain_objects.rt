//! The plain objects, for one caller, whose calls are data.
ghost use Rattle.std.specs.Prelude.{◌≡◌, IfOk};
ghost use Rattle.seq_objects.specs.declared.deques.DequeReply.TheVariants.{Took};

use seq_objects::{DequeCall, DequeReply, PlainDeque};
use std::alloc::{AllocError, Global};

/// Pushes an item at each end of a deque, and pops the one at the back.
pub fn pop_last(alloc: Global) -> Result<DequeReply, AllocError>
    ensures { IfOk result (λ reply. reply ≡ Took 1) }
{
    let mut deque = PlainDeque::open(alloc, 2);
    deque.act(DequeCall::PushBack { item: 1 })?;
    deque.act(DequeCall::PushFront { item: 2 })?;
    deque.act(DequeCall::PopBack)
}
