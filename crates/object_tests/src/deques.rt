ghost use Rattle.std.specs.Prelude.{◌≡◌, ◌<◌, ◌≤◌, All, length, IfOk};
ghost use mathlib.Core.List.{IsPrefix};
ghost use Rattle.pass_table.specs.Passes.{IsSamePass, page, pass_opening};
ghost use Rattle.shared_deque.specs.Deques.{callers_of, opening_of};
ghost use Rattle.shared_deque.specs.Opened.{AreOfOpening};

use seq_objects::{AnyItem, DequeCall, DequeReply, Keeps};
use shared_deque::{BusyAt, Deque, DequeBack, DequeFault, DequePass, Full, PushFault};
use std::alloc::{AllocError, Global};
use std::sync::Wait;
use std::test::Fail;
use std::thread;
use std::thread::{Threads, for_each_mut};

// Any thread may use a deque, and each pass may go to another.
fn crosses<T: Send + Sync>(_shared: &T) {}

fn moves<T: Send>(_sent: &T) {}

#[derive(Clone, Copy)]
enum Side {
    Front,
    Back,
}

// A caller that pushes so many items at one end, each above the last, or pops so many at the other.
#[derive(Drop)]
struct Worker {
    pass: DequePass<AnyItem>,
    pushes_at: Side,
    pushes: u64,
    pops: u64,
    popped: Vec<u64>,
}

// The items of a caller begin at its number times this.
const STRIDE: u64 = 10_000;

fn push_until_room<R: Wait>(
    rt: &R,
    deque: &Deque<AnyItem>,
    pass: &mut DequePass<AnyItem>,
    side: Side,
    item: u64,
)
    requires { pass_opening pass.old ≡ opening_of deque.now }
    ensures { pass_opening pass.new ≡ opening_of deque.now }
{
    for _ in rt.forever() {
        let pushed = match side {
            Side::Back => deque.push_back(rt, pass, item),
            Side::Front => deque.push_front(rt, pass, item),
        };
        if pushed.is_ok() {
            break;
        }
        thread::yield_now();
    }
}

fn pop_until_found<R: Wait>(
    rt: &R,
    deque: &Deque<AnyItem>,
    pass: &mut DequePass<AnyItem>,
    side: Side,
) -> u64
    requires { pass_opening pass.old ≡ opening_of deque.now }
    ensures { pass_opening pass.new ≡ opening_of deque.now }
{
    for _ in rt.forever() {
        let popped = match side {
            Side::Back => deque.pop_front(rt, pass),
            Side::Front => deque.pop_back(rt, pass),
        };
        if let Some(item) = popped {
            return item;
        }
        thread::yield_now();
    }
    unreachable!()
}

fn work<R: Wait>(rt: &R, deque: &Deque<AnyItem>, worker: &mut Worker)
    requires { pass_opening worker.old.pass ≡ opening_of deque.now }
{
    let Worker {
        pass,
        pushes_at,
        pushes,
        pops,
        popped,
    } = worker;
    let base = u64::from(pass.caller()) * STRIDE;
    for number in 0..*pushes {
        push_until_room(rt, deque, pass, *pushes_at, base.wrapping_add(number));
    }
    for _ in 0..*pops {
        let item = pop_until_found(rt, deque, pass, *pushes_at);
        let _ = popped.push(item);
    }
}

fn work_all<R: Threads + Wait + Sync>(rt: &R, deque: &Deque<AnyItem>, workers: &mut [Worker])
    requires { All (λ w. pass_opening w.pass ≡ opening_of deque.now) workers.old }
{
    let threads = workers.len();
    if threads == 0 {
        return;
    }
    for_each_mut(
        rt,
        workers,
        threads,
        &|_place: usize, worker: &mut Worker|
            requires { pass_opening worker.old.pass ≡ opening_of deque.now }
        { work(rt, deque, worker) },
    );
}

fn close_alone(
    alloc: Global,
    deque: Deque<AnyItem>,
    pass: DequePass<AnyItem>,
) -> Result<Vec<u64>, Fail>
    requires opening { pass_opening pass ≡ opening_of deque }
    requires alone { callers_of deque ≡ 1 }
{
    let mut passes = Vec::new(alloc);
    let Ok(()) = passes.push(pass) else {
        return Err("memory".into());
    };
    match deque.close(passes) {
        Ok(closed) => Ok(closed.items),
        Err(back) => closed_again(back),
    }
}

// A close that was refused, made again.
fn closed_again(back: DequeBack<AnyItem>) -> Result<Vec<u64>, Fail>
    requires opening { AreOfOpening back.deque back.passes.items }
    requires count { length back.passes.items ≡ callers_of back.deque }
{
    let DequeBack { deque, passes } = back;
    match deque.close(passes) {
        Ok(closed) => Ok(closed.items),
        Err(_) => Err("memory".into()),
    }
}

// Each caller with its pass: the first ones push, the others pop.
fn workers_of(
    alloc: Global,
    deque: &Deque<AnyItem>,
    mut passes: Vec<DequePass<AnyItem>>,
    pushers: u32,
    each: u64,
    pushes_at: Side,
) -> Result<Vec<Worker>, Fail>
    requires { AreOfOpening deque.now passes.items }
    ensures { IfOk result (λ v. All (λ w. pass_opening w.pass ≡ opening_of deque.now) v.items) }
{
    let mut workers = Vec::new(alloc);
    'callers: while !passes.is_empty() {
        let pass = deque.take_pass(&mut passes);
        let pushes_items = pass.caller() < pushers;
        let worker = Worker {
            pass,
            pushes_at,
            pushes: if pushes_items { each } else { 0 },
            pops: if pushes_items { 0 } else { each },
            popped: Vec::new(alloc),
        };
        let Ok(()) = workers.push(worker) else {
            return Err("memory".into());
        };
    }
    Ok(workers)
}

// Whether the items of each pusher rise.
fn rises(items: &[u64], pushers: u64) -> bool {
    (0..pushers).all(|pusher| {
        let mut last = 0;
        items.iter().all(|item| {
            let rising = item / STRIDE != pusher || *item % STRIDE >= last;
            if item / STRIDE == pusher {
                last = *item % STRIDE;
            }
            rising
        })
    })
}

// The pushers and the poppers of a deque, after their work: as many pushers as poppers, each with so many items.
fn after_work<R: Threads + Wait + Sync>(
    rt: &R,
    alloc: Global,
    capacity: u32,
    pushers: u32,
    each: u64,
    pushes_at: Side,
) -> Result<Vec<Worker>, Fail>
    requires { pushers ≤ 512 }
{
    let (deque, passes) = Deque::open(alloc, 2, capacity, 2 * pushers, AnyItem)?;
    let mut workers = workers_of(alloc, &deque, passes, pushers, each, pushes_at)?;
    work_all(rt, &deque, workers.as_mut_slice());
    Ok(workers)
}

// All items that were popped, in order of their numbers.
fn all_popped(alloc: Global, workers: &[Worker]) -> Result<Vec<u64>, AllocError> {
    let mut all = Vec::new(alloc);
    for worker in workers {
        all.extend_from_slice(worker.popped.as_slice())?;
    }
    all.sort()?;
    Ok(all)
}

// All items that are pushed, in order of their numbers.
fn all_pushed(alloc: Global, pushers: u64, each: u64) -> Result<Vec<u64>, AllocError> {
    let mut all = Vec::new(alloc);
    for pusher in 0..pushers {
        for number in 0..each {
            all.push(pusher.wrapping_mul(STRIDE).wrapping_add(number))?;
        }
    }
    Ok(all)
}

// Whether each item was taken once, and each popper saw the items of each pusher rising.
fn is_whole(
    alloc: Global,
    workers: &[Worker],
    pushers: u64,
    each: u64,
) -> Result<bool, AllocError> {
    let whole = all_popped(alloc, workers)? == all_pushed(alloc, pushers, each)?;
    let in_order = workers
        .iter()
        .all(|worker| rises(worker.popped.as_slice(), pushers));
    Ok(whole && in_order)
}

// What a try of the call replies, and nothing where it is busy.
fn tried(
    deque: &Deque<AnyItem>,
    pass: &mut DequePass<AnyItem>,
    call: DequeCall,
) -> Option<DequeReply>
    requires { pass_opening pass.old ≡ opening_of deque.now }
    ensures { IsSamePass pass.old pass.new }
{
    match call {
        DequeCall::PushBack { item } => push_reply(deque.try_push_back(pass, item)),
        DequeCall::PushFront { item } => push_reply(deque.try_push_front(pass, item)),
        DequeCall::PopBack => pop_reply(deque.try_pop_back(pass)),
        DequeCall::PopFront => pop_reply(deque.try_pop_front(pass)),
    }
}

fn push_reply(outcome: Result<(), PushFault>) -> Option<DequeReply> {
    match outcome {
        Ok(()) => Some(DequeReply::Pushed),
        Err(PushFault::Full) => Some(DequeReply::Full),
        Err(PushFault::Busy { .. }) => None,
    }
}

fn pop_reply(outcome: Result<Option<u64>, BusyAt>) -> Option<DequeReply> {
    match outcome {
        Ok(taken) => Some(taken_reply(taken)),
        Err(_) => None,
    }
}

fn taken_reply(taken: Option<u64>) -> DequeReply {
    match taken {
        Some(item) => DequeReply::Took { item },
        None => DequeReply::Empty,
    }
}

// What the call replies that waits.
fn waited<R: Wait>(
    rt: &R,
    deque: &Deque<AnyItem>,
    pass: &mut DequePass<AnyItem>,
    call: DequeCall,
) -> DequeReply
    requires { pass_opening pass.old ≡ opening_of deque.now }
    ensures { IsSamePass pass.old pass.new }
{
    match call {
        DequeCall::PushBack { item } => added_reply(deque.push_back(rt, pass, item)),
        DequeCall::PushFront { item } => added_reply(deque.push_front(rt, pass, item)),
        DequeCall::PopBack => taken_reply(deque.pop_back(rt, pass)),
        DequeCall::PopFront => taken_reply(deque.pop_front(rt, pass)),
    }
}

fn added_reply(outcome: Result<(), Full>) -> DequeReply {
    match outcome {
        Ok(()) => DequeReply::Pushed,
        Err(Full {}) => DequeReply::Full,
    }
}

// Whether each call gets its reply in turn.
fn replies_so(
    deque: &Deque<AnyItem>,
    pass: &mut DequePass<AnyItem>,
    cases: &[(DequeCall, DequeReply)],
) -> bool
    requires { pass_opening pass.old ≡ opening_of deque.now }
    ensures { IsSamePass pass.old pass.new }
{
    for (call, reply) in cases {
        if tried(deque, pass, *call) != Some(*reply) {
            return false;
        }
    }
    true
}

// The deque of one caller, with its pass.
fn alone(alloc: Global, capacity: u32) -> Result<(Deque<AnyItem>, DequePass<AnyItem>), Fail>
    ensures opening { IfOk result (λ r. pass_opening r.1 ≡ opening_of r.0) }
    ensures alone { IfOk result (λ r. callers_of r.0 ≡ 1) }
{
    let (deque, mut passes) = Deque::open(alloc, 16, capacity, 1, AnyItem)?;
    let pass = deque.take_pass(&mut passes);
    Ok((deque, pass))
}

const PUSHED: DequeReply = DequeReply::Pushed;

const fn took(item: u64) -> DequeReply {
    DequeReply::Took { item }
}

#[test]
fn callers_and_threads_share_a_deque(rt: HostRuntime) -> Result<(), Fail> {
    let (deque, mut pass) = alone(rt.alloc(), 1)?;
    crosses(&deque);
    moves(&pass);
    let note = deque.note(&mut pass);
    moves(&note);
    deque.learn(&mut pass, note);
    assert_eq!(rt; pass.caller(), 0);
    Ok(())
}

#[test]
fn a_deque_of_one_item_replies_as_the_plain_one(rt: HostRuntime) -> Result<(), Fail> {
    let (deque, mut pass) = alone(rt.alloc(), 1)?;
    let cases = [
        (DequeCall::PushBack { item: 1 }, PUSHED),
        (DequeCall::PushFront { item: 2 }, DequeReply::Full),
        (DequeCall::PopBack, took(1)),
        (DequeCall::PopFront, DequeReply::Empty),
    ];
    for (call, reply) in cases {
        assert_eq!(rt; waited(&rt, &deque, &mut pass, call), reply);
    }
    assert_eq!(rt;
        tried(&deque, &mut pass, DequeCall::PopBack),
        Some(DequeReply::Empty)
    );
    Ok(())
}

#[test]
fn a_ring_goes_round_both_ways(rt: HostRuntime) -> Result<(), Fail> {
    let (deque, mut pass) = alone(rt.alloc(), 3)?;
    let round = [
        (DequeCall::PushBack { item: 1 }, PUSHED),
        (DequeCall::PushFront { item: 2 }, PUSHED),
        (DequeCall::PopFront, took(2)),
        (DequeCall::PopFront, took(1)),
        (DequeCall::PopFront, DequeReply::Empty),
    ];
    for _ in 0..5 {
        assert!(rt; replies_so(&deque, &mut pass, &round));
    }
    let last = [
        (DequeCall::PushBack { item: 7 }, PUSHED),
        (DequeCall::PushBack { item: 8 }, PUSHED),
        (DequeCall::PushFront { item: 6 }, PUSHED),
        (DequeCall::PushFront { item: 5 }, DequeReply::Full),
    ];
    assert!(rt; replies_so(&deque, &mut pass, &last));
    assert_eq!(rt;
        close_alone(rt.alloc(), deque, pass)?.as_slice(),
        [6, 7, 8].as_slice()
    );
    Ok(())
}

#[test]
fn each_item_is_taken_once_and_in_order(rt: HostRuntime) -> Result<(), Fail> {
    let workers = after_work(&rt, rt.alloc(), 8, 2, 1000, Side::Back)?;
    assert!(rt; is_whole(rt.alloc(), workers.as_slice(), 2, 1000)?);
    Ok(())
}

#[test]
fn items_go_the_other_way_too(rt: HostRuntime) -> Result<(), Fail> {
    let workers = after_work(&rt, rt.alloc(), 8, 2, 1000, Side::Front)?;
    assert!(rt; is_whole(rt.alloc(), workers.as_slice(), 2, 1000)?);
    Ok(())
}

#[test]
fn more_callers_than_processors_end(rt: HostRuntime) -> Result<(), Fail> {
    let workers = after_work(&rt, rt.alloc(), 3, 24, 50, Side::Back)?;
    assert!(rt; is_whole(rt.alloc(), workers.as_slice(), 24, 50)?);
    Ok(())
}

// The fault of an opening, if it is refused.
fn fault_of(alloc: Global, locales: u8, capacity: u32, callers: u32) -> Option<DequeFault> {
    Deque::open(alloc, locales, capacity, callers, AnyItem).err()
}

#[test]
fn numbers_out_of_range_are_refused_in_order(rt: HostRuntime) -> Result<(), Fail> {
    let cases = [
        (0, 0, 0, DequeFault::Locales),
        (17, 1, 1, DequeFault::Locales),
        (1, 0, 0, DequeFault::Capacity),
        (1, 16_777_217, 1, DequeFault::Capacity),
        (16, 16_777_216, 0, DequeFault::Callers),
        (1, 1, 1025, DequeFault::Callers),
    ];
    for (locales, capacity, callers, fault) in cases {
        assert_eq!(rt;
            fault_of(rt.alloc(), locales, capacity, callers),
            Some(fault)
        );
    }
    Ok(())
}

// Keeps even items alone.
#[derive(Clone, Copy)]
struct Even;

impl Keeps for Even {
    ghost use Rattle.std.specs.Prelude.{◌≡◌, ◌%◌};

    ghost keeps = { λ _ item. item % 2 ≡ 0 };
}

// Half of the item at the back of a deque of even items, which has no rest.
fn half_of_last(deque: &Deque<Even>, pass: &mut DequePass<Even>) -> Option<u64>
    requires { pass_opening pass.old ≡ opening_of deque.now }
    ensures { IsSamePass pass.old pass.new }
{
    let Ok(Some(item)) = deque.try_pop_back(pass) else {
        return None;
    };
    prove!(item % 2 == 0);
    Some(item / 2)
}

// Pushes an item with one pass, and makes the other's caller see all that the first has seen.
fn hand_on(
    deque: &Deque<Even>,
    giver: &mut DequePass<Even>,
    taker: &mut DequePass<Even>,
) -> Result<(), PushFault>
    requires giver { pass_opening giver.old ≡ opening_of deque.now }
    requires taker { pass_opening taker.old ≡ opening_of deque.now }
    ensures giver { IsSamePass giver.old giver.new }
    ensures taker { IsSamePass taker.old taker.new }
    ensures after { IsPrefix (page giver.new).seen (page taker.new).seen }
{
    let pushed = deque.try_push_front(giver, 8);
    let note = deque.note(giver);
    deque.learn(taker, note);
    pushed
}

// What a deque of two callers holds, closed with their passes.
fn closed_by_two(
    alloc: Global,
    deque: Deque<Even>,
    first: DequePass<Even>,
    second: DequePass<Even>,
) -> Result<Vec<u64>, Fail>
    requires first { pass_opening first ≡ opening_of deque }
    requires second { pass_opening second ≡ opening_of deque }
    requires callers { callers_of deque ≡ 2 }
{
    let mut passes = Vec::new(alloc);
    let (Ok(()), Ok(())) = (passes.push(first), passes.push(second)) else {
        return Err("memory".into());
    };
    match deque.close(passes) {
        Ok(closed) => Ok(closed.items),
        Err(_) => Err("memory".into()),
    }
}

// A deque of two callers, with their passes.
fn pair(alloc: Global) -> Result<(Deque<Even>, DequePass<Even>, DequePass<Even>), Fail>
    ensures first { IfOk result (λ r. pass_opening r.1 ≡ opening_of r.0) }
    ensures second { IfOk result (λ r. pass_opening r.2 ≡ opening_of r.0) }
    ensures callers { IfOk result (λ r. callers_of r.0 ≡ 2) }
{
    let (deque, mut passes) = Deque::open(alloc, 2, 5, 2, Even)?;
    let second = deque.take_pass(&mut passes);
    let first = deque.take_pass(&mut passes);
    Ok((deque, first, second))
}

#[test]
fn two_callers_close_a_deque(rt: HostRuntime) -> Result<(), Fail> {
    let (deque, mut first, mut second) = pair(rt.alloc())?;
    assert_eq!(rt; deque.try_push_back(&mut second, 6), Ok(()));
    assert_eq!(rt; hand_on(&deque, &mut first, &mut second), Ok(()));
    assert_eq!(rt; half_of_last(&deque, &mut second), Some(3));
    assert_eq!(rt; deque.try_push_back(&mut first, 10), Ok(()));
    let closed = closed_by_two(rt.alloc(), deque, first, second)?;
    assert_eq!(rt; closed.as_slice(), [8, 10].as_slice());
    Ok(())
}
