ghost use Rattle.std.specs.Prelude.{◌≡◌, ◌≤◌, [], All, length, IfOk, vec_capacity, vec_len};
ghost use mathlib.Core.List.{IsPrefix};
ghost use Rattle.pass_table.specs.Passes.{IsSamePass, page, pass_opening};
ghost use Rattle.shared_bag.specs.Bags.{callers_of, opening_of};
ghost use Rattle.shared_bag.specs.Opened.{AreOfOpening};

use seq_objects::{AnyItem, Keeps};
use shared_bag::{AddFault, Bag, BagBack, BagFault, BagPass, Shape};
use std::alloc::{AllocError, Global};
use std::sync::Wait;
use std::test::Fail;
use std::thread;
use std::thread::{Threads, for_each_mut};

// Any thread may use a bag, and each pass may go to another.
fn crosses<T: Send + Sync>(_shared: &T) {}

fn moves<T: Send>(_sent: &T) {}

// A caller that adds so many items, and removes so many.
#[derive(Drop)]
struct Worker {
    pass: BagPass<AnyItem>,
    adds: u64,
    removals: u64,
    removed: Vec<u64>,
}

// The items of a caller begin at its number times this.
const STRIDE: u64 = 10_000;

fn add_until_room<R: Wait>(rt: &R, bag: &Bag<AnyItem>, pass: &mut BagPass<AnyItem>, item: u64)
    requires { pass_opening pass.old ≡ opening_of bag.now }
    ensures { pass_opening pass.new ≡ opening_of bag.now }
{
    for _ in rt.forever() {
        if bag.add(rt, pass, item).is_ok() {
            break;
        }
        thread::yield_now();
    }
}

fn remove_until_found<R: Wait>(rt: &R, bag: &Bag<AnyItem>, pass: &mut BagPass<AnyItem>) -> u64
    requires { pass_opening pass.old ≡ opening_of bag.now }
    ensures { pass_opening pass.new ≡ opening_of bag.now }
{
    for _ in rt.forever() {
        if let Some(item) = bag.remove(rt, pass) {
            return item;
        }
        thread::yield_now();
    }
    unreachable!()
}

fn work<R: Wait>(rt: &R, bag: &Bag<AnyItem>, worker: &mut Worker)
    requires { pass_opening worker.old.pass ≡ opening_of bag.now }
{
    let Worker {
        pass,
        adds,
        removals,
        removed,
    } = worker;
    let base = u64::from(pass.caller()) * STRIDE;
    for number in 0..*adds {
        add_until_room(rt, bag, pass, base.wrapping_add(number));
    }
    for _ in 0..*removals {
        let item = remove_until_found(rt, bag, pass);
        if removed.push(item).is_err() {
            let _ = removed.push(item);
        }
    }
}

fn work_all<R: Threads + Wait + Sync>(rt: &R, bag: &Bag<AnyItem>, workers: &mut [Worker])
    requires { All (λ w. pass_opening w.pass ≡ opening_of bag.now) workers.old }
{
    let threads = workers.len();
    if threads == 0 {
        return;
    }
    for_each_mut(
        rt,
        workers,
        threads,
        &|_place: usize, worker: &mut Worker|
            requires { pass_opening worker.old.pass ≡ opening_of bag.now }
        { work(rt, bag, worker) },
    );
}

fn close_alone(alloc: Global, bag: Bag<AnyItem>, pass: BagPass<AnyItem>) -> Result<Vec<u64>, Fail>
    requires opening { pass_opening pass ≡ opening_of bag }
    requires alone { callers_of bag ≡ 1 }
{
    let mut passes = match Vec::with_capacity(alloc, 1) {
        Ok(passes) => passes,
        Err(_) => Vec::with_capacity(alloc, 1)?,
    };
    passes.push_reserved(pass);
    match bag.close(passes) {
        Ok(closed) => Ok(closed.items),
        Err(back) => close_again(back),
    }
}

// Closes a bag that came back for want of memory.
fn close_again(back: BagBack<AnyItem>) -> Result<Vec<u64>, Fail>
    requires opening { AreOfOpening back.bag back.passes.items }
    requires count { length back.passes.items ≡ callers_of back.bag }
{
    let BagBack { bag, passes } = back;
    match bag.close(passes) {
        Ok(closed) => Ok(closed.items),
        Err(_) => Err("memory".into()),
    }
}

// Each caller with its pass: those with even numbers add, the others remove.
fn workers_of(
    alloc: Global,
    bag: &Bag<AnyItem>,
    mut passes: Vec<BagPass<AnyItem>>,
    each: u64,
) -> Result<Vec<Worker>, Fail>
    requires { AreOfOpening bag.now passes.items }
    ensures { IfOk result (λ v. All (λ w. pass_opening w.pass ≡ opening_of bag.now) v.items) }
{
    let mut workers = Vec::new(alloc);
    'callers: while !passes.is_empty() {
        let pass = bag.take_pass(&mut passes);
        let adds_items = pass.caller() % 2 == 0;
        let worker = Worker {
            pass,
            adds: if adds_items { each } else { 0 },
            removals: if adds_items { 0 } else { each },
            removed: Vec::new(alloc),
        };
        let Ok(()) = workers.push(worker) else {
            return Err("memory".into());
        };
    }
    Ok(workers)
}

// The adders and the removers of a bag, after their work: two of each, each with so many items.
fn after_work<R: Threads + Wait + Sync>(
    rt: &R,
    alloc: Global,
    locales: u8,
    room: u32,
    each: u64,
) -> Result<Vec<Worker>, Fail> {
    let (bag, passes) = Bag::open(alloc, locales, 2, room, 4, AnyItem)?;
    let mut workers = workers_of(alloc, &bag, passes, each)?;
    work_all(rt, &bag, workers.as_mut_slice());
    Ok(workers)
}

// All items that were removed, in order of their numbers.
fn all_removed(alloc: Global, workers: &[Worker]) -> Result<Vec<u64>, AllocError> {
    let mut all = Vec::new(alloc);
    for worker in workers {
        all.extend_from_slice(worker.removed.as_slice())?;
    }
    all.sort()?;
    Ok(all)
}

// All items that are added, in order of their numbers.
fn all_added(alloc: Global, each: u64) -> Result<Vec<u64>, AllocError> {
    let mut all = Vec::new(alloc);
    for adder in [0, 2] {
        for number in 0..each {
            all.push((adder * STRIDE).wrapping_add(number))?;
        }
    }
    Ok(all)
}

// Opens a bag of one caller, and once more where memory was refused.
fn open_again(
    alloc: Global,
    locales: u8,
    segments: u32,
    room: u32,
) -> Result<(Bag<AnyItem>, Vec<BagPass<AnyItem>>), BagFault>
    ensures passes { IfOk result (λ r. AreOfOpening r.0 r.1.items × (length r.1.items ≡ 1)) }
    ensures alone { IfOk result (λ r. callers_of r.0 ≡ 1) }
{
    match Bag::open(alloc, locales, segments, room, 1, AnyItem) {
        Ok(opened) => Ok(opened),
        Err(_) => Bag::open(alloc, locales, segments, room, 1, AnyItem),
    }
}

// A bag of one caller, and its pass.
fn alone(
    alloc: Global,
    locales: u8,
    segments: u32,
    room: u32,
) -> Result<(Bag<AnyItem>, BagPass<AnyItem>), Fail>
    ensures { IfOk result (λ r. (pass_opening r.1 ≡ opening_of r.0) × (callers_of r.0 ≡ 1)) }
{
    let (bag, mut passes) = open_again(alloc, locales, segments, room)?;
    let pass = bag.take_pass(&mut passes);
    Ok((bag, pass))
}

// Tries an add, and once more where memory was refused. So the tests of one caller pass with any one allocation failing.
fn add_again(bag: &Bag<AnyItem>, pass: &mut BagPass<AnyItem>, item: u64) -> Result<(), AddFault>
    requires { pass_opening pass.old ≡ opening_of bag.now }
    ensures { IsSamePass pass.old pass.new }
{
    match bag.try_add(pass, item) {
        Err(AddFault::OutOfMemory) => bag.try_add(pass, item),
        answer => answer,
    }
}

#[test]
fn one_segment_is_filled_and_gives_its_newest(rt: HostRuntime) -> Result<(), Fail> {
    let (bag, mut pass) = alone(rt.alloc(), 1, 1, 2)?;
    crosses(&bag);
    moves(&pass);
    assert_eq!(rt; add_again(&bag, &mut pass, 5), Ok(()));
    assert_eq!(rt; add_again(&bag, &mut pass, 6), Ok(()));
    assert_eq!(rt; bag.try_add(&mut pass, 7), Err(AddFault::Full));
    assert_eq!(rt; bag.try_remove(&mut pass), Ok(Some(6)));
    assert_eq!(rt;
        close_alone(rt.alloc(), bag, pass)?.as_slice(),
        [5].as_slice()
    );
    Ok(())
}

#[test]
fn the_first_segment_with_items_gives_its_newest(rt: HostRuntime) -> Result<(), Fail> {
    let (bag, mut pass) = alone(rt.alloc(), 1, 2, 2)?;
    assert_eq!(rt; add_again(&bag, &mut pass, 1), Ok(()));
    assert_eq!(rt; add_again(&bag, &mut pass, 2), Ok(()));
    assert_eq!(rt; add_again(&bag, &mut pass, 3), Ok(()));
    assert_eq!(rt; add_again(&bag, &mut pass, 4), Ok(()));
    assert_eq!(rt; bag.try_remove(&mut pass), Ok(Some(2)));
    assert_eq!(rt; bag.try_remove(&mut pass), Ok(Some(1)));
    assert_eq!(rt; bag.try_remove(&mut pass), Ok(Some(4)));
    assert_eq!(rt; bag.try_remove(&mut pass), Ok(Some(3)));
    assert_eq!(rt; bag.try_remove(&mut pass), Ok(None));
    Ok(())
}

#[test]
fn rooms_at_the_borders_of_blocks_are_filled(rt: HostRuntime) -> Result<(), Fail> {
    for room in [1, 31, 32, 33] {
        let (bag, mut pass) = alone(rt.alloc(), 1, 2, room)?;
        for item in 0..2 * room {
            assert_eq!(rt; add_again(&bag, &mut pass, u64::from(item)), Ok(()));
        }
        assert_eq!(rt; bag.try_add(&mut pass, 9), Err(AddFault::Full));
        for _ in 0..2 * room {
            assert!(rt; matches!(bag.try_remove(&mut pass), Ok(Some(_))));
        }
        assert_eq!(rt; bag.try_remove(&mut pass), Ok(None));
    }
    Ok(())
}

#[test]
fn what_wanted_memory_can_be_done_once_more(rt: HostRuntime) -> Result<(), Fail> {
    let (bag, mut pass) = alone(rt.alloc(), 1, 2, 33)?;
    for item in 0..66 {
        assert_eq!(rt; add_again(&bag, &mut pass, item), Ok(()));
    }
    assert_eq!(rt; add_again(&bag, &mut pass, 66), Err(AddFault::Full));
    let mut items = close_alone(rt.alloc(), bag, pass)?;
    items.sort_unstable();
    assert_eq!(rt; items.len(), 66);
    for (place, item) in items.iter().enumerate() {
        assert_eq!(rt; *item, place as u64);
    }
    Ok(())
}

#[test]
fn a_bag_with_the_most_room_is_closed(rt: HostRuntime) -> Result<(), Fail> {
    let (bag, mut pass) = alone(rt.alloc(), 16, 64, 1 << 24)?;
    assert_eq!(rt; add_again(&bag, &mut pass, 5), Ok(()));
    assert_eq!(rt;
        close_alone(rt.alloc(), bag, pass)?.as_slice(),
        [5].as_slice()
    );
    Ok(())
}

#[test]
fn each_item_is_taken_once(rt: HostRuntime) -> Result<(), Fail> {
    let workers = after_work(&rt, rt.alloc(), 3, 33, 1000)?;
    assert!(rt; all_removed(rt.alloc(), workers.as_slice())? == all_added(rt.alloc(), 1000)?);
    Ok(())
}

// Both adders are of the one locale, and both removers of the other.
#[test]
fn removers_live_from_another_locale(rt: HostRuntime) -> Result<(), Fail> {
    let workers = after_work(&rt, rt.alloc(), 2, 67, 1000)?;
    assert!(rt; all_removed(rt.alloc(), workers.as_slice())? == all_added(rt.alloc(), 1000)?);
    Ok(())
}

// The fault of an opening, if it is refused.
fn fault_of(
    alloc: Global,
    locales: u8,
    segments: u32,
    room: u32,
    callers: u32,
) -> Option<BagFault> {
    Bag::open(alloc, locales, segments, room, callers, AnyItem).err()
}

#[test]
fn numbers_out_of_range_are_refused_in_order(rt: HostRuntime) -> Result<(), Fail> {
    let rows = [
        (0, 0, 0, 0, BagFault::Locales),
        (17, 1, 1, 1, BagFault::Locales),
        (1, 0, 0, 0, BagFault::Segments),
        (16, 65, 1, 1, BagFault::Segments),
        (1, 1, 0, 0, BagFault::Room),
        (1, 64, 16_777_217, 1, BagFault::Room),
        (1, 1, 1, 0, BagFault::Callers),
        (1, 1, 1, 1025, BagFault::Callers),
    ];
    for (locales, segments, room, callers, want) in rows {
        assert_eq!(rt;
            fault_of(rt.alloc(), locales, segments, room, callers),
            Some(want)
        );
    }
    Ok(())
}

// Opens a bag of two callers, and once more where memory was refused.
fn open_two(
    alloc: Global,
    locales: u8,
    room: u32,
) -> Result<(Bag<AnyItem>, Vec<BagPass<AnyItem>>), BagFault>
    ensures passes { IfOk result (λ r. AreOfOpening r.0 r.1.items × (length r.1.items ≡ 2)) }
    ensures two { IfOk result (λ r. callers_of r.0 ≡ 2) }
{
    match Bag::open(alloc, locales, 1, room, 2, AnyItem) {
        Ok(opened) => Ok(opened),
        Err(_) => Bag::open(alloc, locales, 1, room, 2, AnyItem),
    }
}

fn room_for_two(alloc: Global) -> Result<Vec<BagPass<AnyItem>>, AllocError>
    ensures { IfOk result (λ v. (v.items ≡ []) × (vec_len v ≡ 0) × (vec_capacity v ≡ 2)) }
{
    match Vec::with_capacity(alloc, 2) {
        Ok(passes) => Ok(passes),
        Err(_) => Vec::with_capacity(alloc, 2),
    }
}

// Closes a bag of two callers, and once more where memory was refused.
fn close_two(
    alloc: Global,
    bag: Bag<AnyItem>,
    first: BagPass<AnyItem>,
    second: BagPass<AnyItem>,
) -> Result<Vec<u64>, Fail>
    requires two { callers_of bag ≡ 2 }
    requires first { pass_opening first ≡ opening_of bag }
    requires second { pass_opening second ≡ opening_of bag }
{
    let mut passes = room_for_two(alloc)?;
    passes.push_reserved(first);
    passes.push_reserved(second);
    match bag.close(passes) {
        Ok(closed) => Ok(closed.items),
        Err(back) => close_again(back),
    }
}

// Adds an item by the call that waits, and once more where memory was refused.
fn add_waiting_again<R: Wait>(
    rt: &R,
    bag: &Bag<AnyItem>,
    pass: &mut BagPass<AnyItem>,
    item: u64,
) -> Result<(), AddFault>
    requires { pass_opening pass.old ≡ opening_of bag.now }
    ensures { IsSamePass pass.old pass.new }
{
    match bag.add(rt, pass, item) {
        Err(AddFault::OutOfMemory) => bag.add(rt, pass, item),
        answer => answer,
    }
}

// The two passes of a bag, by their callers' numbers.
fn two_passes(
    alloc: Global,
    locales: u8,
    room: u32,
) -> Result<(Bag<AnyItem>, BagPass<AnyItem>, BagPass<AnyItem>), Fail>
    ensures { IfOk result (λ r. (callers_of r.0 ≡ 2) × (pass_opening r.1 ≡ opening_of r.0) × (pass_opening r.2 ≡ opening_of r.0)) }
{
    let (bag, mut passes) = open_two(alloc, locales, room)?;
    let second = bag.take_pass(&mut passes);
    let first = bag.take_pass(&mut passes);
    Ok((bag, first, second))
}

#[test]
fn calls_that_wait_answer_as_a_plain_bag(rt: HostRuntime) -> Result<(), Fail> {
    let (bag, mut first, mut second) = two_passes(rt.alloc(), 1, 2)?;
    assert_eq!(rt; (first.caller(), second.caller()), (0, 1));
    assert_eq!(rt; bag.remove(&rt, &mut first), None);
    assert_eq!(rt; add_waiting_again(&rt, &bag, &mut first, 5), Ok(()));
    let note = bag.note(&mut first);
    bag.learn(&mut second, note);
    assert_eq!(rt; add_waiting_again(&rt, &bag, &mut second, 6), Ok(()));
    assert_eq!(rt;
        add_waiting_again(&rt, &bag, &mut first, 7),
        Err(AddFault::Full)
    );
    assert_eq!(rt; bag.remove(&rt, &mut first), Some(6));
    assert_eq!(rt; bag.remove(&rt, &mut second), Some(5));
    assert_eq!(rt; bag.remove(&rt, &mut second), None);
    Ok(())
}

#[test]
fn a_bag_of_two_callers_gives_what_both_added(rt: HostRuntime) -> Result<(), Fail> {
    let (bag, mut first, mut second) = two_passes(rt.alloc(), 2, 1)?;
    assert_eq!(rt; add_waiting_again(&rt, &bag, &mut first, 8), Ok(()));
    assert_eq!(rt; add_waiting_again(&rt, &bag, &mut second, 9), Ok(()));
    let mut items = close_two(rt.alloc(), bag, first, second)?;
    items.sort_unstable();
    assert_eq!(rt; items.as_slice(), [8, 9].as_slice());
    Ok(())
}

#[test]
fn a_remover_takes_half_of_another_locales_items(rt: HostRuntime) -> Result<(), Fail> {
    let (bag, mut first, mut second) = two_passes(rt.alloc(), 2, 8)?;
    for item in 1..=4 {
        assert_eq!(rt; add_waiting_again(&rt, &bag, &mut first, item), Ok(()));
    }
    for taken in [2, 1, 3] {
        assert_eq!(rt; bag.remove(&rt, &mut second), Some(taken));
    }
    let items = close_two(rt.alloc(), bag, first, second)?;
    assert_eq!(rt; items.as_slice(), [4].as_slice());
    Ok(())
}

// Whatever allocation is refused, each item is had once.
#[test]
fn stealing_loses_nothing(rt: HostRuntime) -> Result<(), Fail> {
    let (bag, mut first, mut second) = two_passes(rt.alloc(), 2, 70)?;
    for item in 0..70 {
        assert_eq!(rt; add_waiting_again(&rt, &bag, &mut first, item), Ok(()));
    }
    let mut sum = 0u64;
    for _ in 0..69 {
        let taken = bag.remove(&rt, &mut second).unwrap_or(1000);
        sum = sum.wrapping_add(taken);
    }
    let mut items = close_two(rt.alloc(), bag, first, second)?;
    let last = items.pop().unwrap_or(1000);
    assert_eq!(rt; (items.len(), sum.wrapping_add(last)), (0, 2415));
    Ok(())
}

// Keeps even items alone.
#[derive(Clone, Copy)]
struct Even;

impl Keeps for Even {
    ghost use Rattle.std.specs.Prelude.{◌≡◌, ◌%◌};

    ghost keeps = { λ _ item. item % 2 ≡ 0 };
}

// Half of the newest item of a bag of even items, which has no rest.
fn half_of_newest(bag: &Bag<Even>, pass: &mut BagPass<Even>) -> Option<u64>
    requires { pass_opening pass.old ≡ opening_of bag.now }
    ensures { IsSamePass pass.old pass.new }
{
    let Ok(Some(item)) = bag.try_remove(pass) else {
        return None;
    };
    prove!(item % 2 == 0);
    Some(item / 2)
}

// Makes the one caller see all that the other has seen.
fn hand_on(bag: &Bag<Even>, giver: &mut BagPass<Even>, taker: &mut BagPass<Even>)
    requires giver { pass_opening giver.old ≡ opening_of bag.now }
    requires taker { pass_opening taker.old ≡ opening_of bag.now }
    ensures giver { IsSamePass giver.old giver.new }
    ensures taker { IsSamePass taker.old taker.new }
    ensures after { IsPrefix (page giver.new).seen (page taker.new).seen }
{
    let note = bag.note(giver);
    bag.learn(taker, note);
}

#[test]
fn even_items_come_out_even(rt: HostRuntime) -> Result<(), Fail> {
    let (bag, mut passes) = Bag::open(rt.alloc(), 1, 1, 2, 2, Even)?;
    let mut second = bag.take_pass(&mut passes);
    let mut first = bag.take_pass(&mut passes);
    assert_eq!(rt; bag.try_add(&mut first, 8), Ok(()));
    hand_on(&bag, &mut first, &mut second);
    assert_eq!(rt; half_of_newest(&bag, &mut second), Some(4));
    assert_eq!(rt; half_of_newest(&bag, &mut first), None);
    Ok(())
}
