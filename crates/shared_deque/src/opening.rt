//! How a deque is opened, and its passes are taken one by one.
ghost use Rattle.std.specs.Prelude.{◌≡◌, ◌↔◌, ◌*◌, ◌+◌, ◌^◌, ◌<◌, ◌≤◌, [], ◌∷◌, ◌++◌, IfOk, IsErrOf, length, replicate};
ghost use Rattle.pass_table.specs.Passes.{pass_opening};
ghost use Rattle.shared_deque.specs.Deques.{opening_of};
ghost use Rattle.shared_deque.specs.Opened.{AreOfOpening, IsIn, IsOpenedWith};

use crate::clients::Plan;
use crate::deques::{Deque, DequePass};
use crate::faults::DequeFault;
use pass_table::PassTable;
use seq_objects::{Keeps, MOST_CALLERS, MOST_CAPACITY, MOST_LOCALES};
use std::alloc::{AllocError, Global};

// Locales group callers and cells, and a deque's words are the same however many there are.
fn check(locales: u8, capacity: u32, callers: u32) -> Result<(), DequeFault>
    ensures locales { IsErrOf result DequeFault.Locales ↔ (¬ IsIn 1 MOST_LOCALES locales) }
    ensures capacity { IsErrOf result DequeFault.Capacity ↔ (IsIn 1 MOST_LOCALES locales × (¬ IsIn 1 MOST_CAPACITY capacity)) }
    ensures callers { IsErrOf result DequeFault.Callers ↔ (IsIn 1 MOST_LOCALES locales × IsIn 1 MOST_CAPACITY capacity × (¬ IsIn 1 MOST_CALLERS callers)) }
    ensures memory { ¬ IsErrOf result DequeFault.OutOfMemory }
    ensures ok { IfOk result (λ _. IsIn 1 MOST_CAPACITY capacity × IsIn 1 MOST_CALLERS callers) }
{
    if !(1..=MOST_LOCALES).contains(&locales) {
        return Err(DequeFault::Locales);
    }
    if !(1..=MOST_CAPACITY).contains(&capacity) {
        return Err(DequeFault::Capacity);
    }
    if !(1..=MOST_CALLERS).contains(&callers) {
        return Err(DequeFault::Callers);
    }
    Ok(())
}

// The words of a new deque, all 0: the ends, and an owner and a value for each cell.
fn new_words(alloc: Global, capacity: u32) -> Result<Vec<u64>, AllocError>
    requires { capacity ≤ MOST_CAPACITY }
    ensures { IfOk result (λ v. v.items ≡ replicate (2 * capacity + 1) 0) }
{
    Vec::from_elem(alloc, 0u64, 2 * capacity as usize + 1)
}

impl<K: Keeps> Deque<K> {
    /// Opens an empty deque of 1 to 2^24 items for 1 to 1024 callers, in 1 to 16 locales. `keeps` says
    /// which items it may hold. The passes come in order of the callers' numbers. The first of the
    /// numbers that is out of its range is the refusal.
    pub fn open(
        alloc: Global,
        locales: u8,
        capacity: u32,
        callers: u32,
        keeps: K,
    ) -> Result<(Deque<K>, Vec<DequePass<K>>), DequeFault>
        ensures locales { IsErrOf result DequeFault.Locales ↔ (¬ IsIn 1 MOST_LOCALES locales) }
        ensures capacity { IsErrOf result DequeFault.Capacity ↔ (IsIn 1 MOST_LOCALES locales × (¬ IsIn 1 MOST_CAPACITY capacity)) }
        ensures callers { IsErrOf result DequeFault.Callers ↔ (IsIn 1 MOST_LOCALES locales × IsIn 1 MOST_CAPACITY capacity × (¬ IsIn 1 MOST_CALLERS callers)) }
        ensures ok { IfOk result (λ r. IsOpenedWith capacity callers keeps r.0 r.1.items) }
    {
        if let Err(fault) = check(locales, capacity, callers) {
            return Err(fault);
        }
        match Deque::of_numbers(alloc, capacity, callers, keeps) {
            Ok(opened) => Ok(opened),
            Err(AllocError) => Err(DequeFault::OutOfMemory),
        }
    }

    fn of_numbers(
        alloc: Global,
        capacity: u32,
        callers: u32,
        keeps: K,
    ) -> Result<(Deque<K>, Vec<DequePass<K>>), AllocError>
        requires { IsIn 1 MOST_CAPACITY capacity × IsIn 1 MOST_CALLERS callers }
        ensures { IfOk result (λ r. IsOpenedWith capacity callers keeps r.0 r.1.items) }
    {
        let words = new_words(alloc, capacity)?;
        let plan = Plan {
            capacity,
            callers,
            keeper: keeps,
        };
        let (table, passes) = PassTable::open(
            alloc,
            words.as_slice(),
            Vec::new(alloc),
            &plan,
            callers,
        )?;
        let deque = Deque {
            table,
            capacity,
            alloc,
        };
        Ok((deque, passes))
    }

    /// Takes the last pass out of the list, so that its caller can have it apart from the others, as in a thread of its
    /// own. `close` wants all of them in one list again, in any order.
    pub fn take_pass(&self, passes: &mut Vec<DequePass<K>>) -> DequePass<K>
        requires opening { AreOfOpening self.now passes.old.items }
        requires some { 0 < length passes.old.items }
        ensures taken { passes.old.items ≡ passes.new.items ++ result ∷ [] }
        ensures pass { pass_opening result ≡ opening_of self.now }
        ensures rest { AreOfOpening self.now passes.new.items }
        ensures count { length passes.new.items + 1 ≡ length passes.old.items }
    {
        let Some(pass) = passes.pop() else {
            unreachable!()
        };
        pass
    }
}
