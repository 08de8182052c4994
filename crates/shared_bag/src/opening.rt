//! How a bag is opened, and its passes are taken one by one.
ghost use Rattle.std.specs.Prelude.{◌≡◌, ◌↔◌, ◌+◌, ◌<◌, ◌≤◌, [], ◌∷◌, ◌++◌, IfOk, IsErrOf, Some, length, replicate};
ghost use Rattle.segment_store.specs.Contents.{Contents};
ghost use Rattle.pass_table.specs.Passes.{pass_opening};
ghost use Rattle.shared_bag.specs.Layout.{slots_in, words_of};
ghost use Rattle.shared_bag.specs.Shapes.{IsIn, IsShape};
ghost use Rattle.shared_bag.specs.Bags.{opening_of};
ghost use Rattle.shared_bag.specs.Opened.{AreOfOpening, IsOpenedWith};

use crate::bags::{Bag, BagPass};
use crate::clients::Plan;
use crate::faults::BagFault;
use crate::layout::{slots_for, words_for};
use crate::shapes::Shape;
use pass_table::PassTable;
use segment_store::Segment;
use seq_objects::{Keeps, MOST_CALLERS, MOST_LOCALES, MOST_ROOM, MOST_SEGMENTS};
use std::alloc::{AllocError, Global};

fn check(shape: Shape) -> Result<(), BagFault>
    ensures locales { IsErrOf result BagFault.Locales ↔ (¬ IsIn 1 MOST_LOCALES shape.locales) }
    ensures segments { IsErrOf result BagFault.Segments ↔ (IsIn 1 MOST_LOCALES shape.locales × (¬ IsIn 1 MOST_SEGMENTS shape.segments)) }
    ensures room { IsErrOf result BagFault.Room ↔ (IsIn 1 MOST_LOCALES shape.locales × IsIn 1 MOST_SEGMENTS shape.segments × (¬ IsIn 1 MOST_ROOM shape.room)) }
    ensures callers { IsErrOf result BagFault.Callers ↔ (IsIn 1 MOST_LOCALES shape.locales × IsIn 1 MOST_SEGMENTS shape.segments × IsIn 1 MOST_ROOM shape.room × (¬ IsIn 1 MOST_CALLERS shape.callers)) }
    ensures memory { ¬ IsErrOf result BagFault.OutOfMemory }
    ensures ok { IfOk result (λ _. IsShape shape) }
{
    if !(1..=u32::from(MOST_LOCALES)).contains(&shape.locales) {
        return Err(BagFault::Locales);
    }
    if !(1..=MOST_SEGMENTS).contains(&shape.segments) {
        return Err(BagFault::Segments);
    }
    if !(1..=MOST_ROOM).contains(&shape.room) {
        return Err(BagFault::Room);
    }
    if !(1..=MOST_CALLERS).contains(&shape.callers) {
        return Err(BagFault::Callers);
    }
    Ok(())
}

// The words of a new bag, all 0: the count, and a turn for each segment.
fn new_words(alloc: Global, segments: u32) -> Result<Vec<u64>, AllocError>
    requires { segments ≤ 1024 }
    ensures { IfOk result (λ v. v.items ≡ replicate (words_of segments) 0) }
{
    Vec::from_elem(alloc, 0u64, words_for(segments))
}

// The slots of a new bag, each with an empty segment.
fn new_slots(alloc: Global, segments: u32) -> Result<Vec<Option<Segment>>, AllocError>
    ensures { IfOk result (λ v. v.items ≡ replicate (slots_in segments) (Some (record { items = []; spare = 0 }))) }
{
    let count = slots_for(segments);
    let mut slots = Vec::with_capacity(alloc, count)?;
    for _ in 0..count {
        slots.push_reserved(Some(Segment::new(alloc)));
    }
    Ok(slots)
}

impl<K: Keeps> Bag<K> {
    /// Opens an empty bag for 1 to 1024 callers, in 1 to 16 locales, each with 1 to 64 segments of room
    /// for 1 to 2^24 items. `keeps` says which items it may hold. The passes come in order of the callers'
    /// numbers. The first of the numbers that is out of its range is the refusal.
    pub fn open(
        alloc: Global,
        locales: u8,
        segments: u32,
        room: u32,
        callers: u32,
        keeps: K,
    ) -> Result<(Bag<K>, Vec<BagPass<K>>), BagFault>
        ensures locales { IsErrOf result BagFault.Locales ↔ (¬ IsIn 1 MOST_LOCALES locales) }
        ensures segments { IsErrOf result BagFault.Segments ↔ (IsIn 1 MOST_LOCALES locales × (¬ IsIn 1 MOST_SEGMENTS segments)) }
        ensures room { IsErrOf result BagFault.Room ↔ (IsIn 1 MOST_LOCALES locales × IsIn 1 MOST_SEGMENTS segments × (¬ IsIn 1 MOST_ROOM room)) }
        ensures callers { IsErrOf result BagFault.Callers ↔ (IsIn 1 MOST_LOCALES locales × IsIn 1 MOST_SEGMENTS segments × IsIn 1 MOST_ROOM room × (¬ IsIn 1 MOST_CALLERS callers)) }
        ensures ok { IfOk result (λ r. IsOpenedWith (record { locales = locales; segments = segments; room = room; callers = callers }) keeps r.0 r.1.items) }
    {
        let shape = Shape {
            locales: u32::from(locales),
            segments,
            room,
            callers,
        };
        if let Err(fault) = check(shape) {
            return Err(fault);
        }
        match Bag::of_shape(alloc, shape, keeps) {
            Ok(opened) => Ok(opened),
            Err(AllocError) => Err(BagFault::OutOfMemory),
        }
    }

    fn of_shape(
        alloc: Global,
        shape: Shape,
        keeps: K,
    ) -> Result<(Bag<K>, Vec<BagPass<K>>), AllocError>
        requires { IsShape shape }
        ensures { IfOk result (λ r. IsOpenedWith shape keeps r.0 r.1.items) }
    {
        let words = new_words(alloc, shape.all_segments())?;
        let slots = new_slots(alloc, shape.all_segments())?;
        let plan = Plan {
            shape,
            keeper: keeps,
        };
        let (table, passes) = PassTable::open(
            alloc,
            words.as_slice(),
            slots,
            &plan,
            shape.callers,
        )?;
        let bag = Bag {
            table,
            shape,
            alloc,
        };
        Ok((bag, passes))
    }

    /// Takes the last pass out of the list, so that its caller can have it apart from the others, as in a thread of its
    /// own. `close` wants all of them in one list again, in any order.
    pub fn take_pass(&self, passes: &mut Vec<BagPass<K>>) -> BagPass<K>
        requires opening { AreOfOpening self.now passes.old.items }
        requires some { 0 < length passes.old.items }
        ensures taken { passes.old.items ≡ passes.new.items ++ result ∷ [] }
        ensures pass { pass_opening result ≡ opening_of self.now }
        ensures rest { AreOfOpening self.now passes.new.items }
        ensures count { length passes.new.items + 1 ≡ length passes.old.items }
    {
        let Some(pass) = passes.pop() else {
            unreachable!()
        };
        pass
    }
}
