//! A bag that callers share: opened for some of them, used by each in a thread, and closed.
ghost use Rattle.std.specs.Prelude.{◌≡◌, List, IfOk};
ghost use Rattle.shared_bag.specs.Histories.{IsOfCallers};
ghost use Rattle.shared_bag.specs.Counted.{BagEntry, LeavesItems};
ghost use Rattle.shared_bag.specs.Passes.{pass_opening};
ghost use Rattle.shared_bag.specs.Bags.{opening_of};

use seq_objects::AnyItem;
use shared_bag::{Bag, BagFault, BagPass};
use std::alloc::Global;
use std::sync::Wait;
use std::thread::{Threads, for_each_mut};

/// Lets each of so many callers add its number in a thread. What the bag holds then, in no stated order,
/// is what a history of these callers leaves.
pub fn add_numbers<R: Threads + Wait + Sync>(
    rt: &R,
    alloc: Global,
    callers: u32,
) -> Result<Vec<u64>, BagFault>
    ensures { IfOk result (λ items. (h : List BagEntry) × LeavesItems h items.items × IsOfCallers callers h) }
{
    let (bag, mut passes) = Bag::open(alloc, 2, 4, 1024, callers, AnyItem)?;
    for_each_mut(
        rt,
        passes.as_mut_slice(),
        4,
        &|_, pass: &mut BagPass<AnyItem>|
            requires { pass_opening pass.now ≡ opening_of bag }
        {
            let number = u64::from(pass.caller());
            let _ = bag.add(rt, pass, number);
        },
    );
    match bag.close(passes) {
        Ok(closed) => Ok(closed.items),
        Err(_) => Err(BagFault::OutOfMemory),
    }
}
