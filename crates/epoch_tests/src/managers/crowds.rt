//! As many callers as scripts have, one after another and in threads; and four threads that replace what one cell names.
ghost use Rattle.std.specs.Prelude.{◌≡◌, ◌<◌, All};
ghost use Rattle.epoch_tests.specs.Carrying.{Carries};

use super::callers::{Caller, make};
use super::calls::{Call, Reply, Turn};
use super::scripts::{Object, callers_with, close_all, first_other, open_again};
use epoch_manager::{Cells, Manager};
use pgas_base::{Shape, Start};
use std::sync::Wait;
use std::test::Fail;
use std::thread::{Threads, for_each_mut};

// One cell, and in each of four locales a token for each of 16 callers.
fn crowd(callers: u32) -> Object
    ensures { result.cells ≡ 1 }
{
    Object {
        shape: Shape {
            locales: 4,
            tokens: 16,
            objects: 16,
            width: 2,
        },
        start: Start::usual(),
        callers,
        cells: 1,
    }
}

fn locale_of(caller: &Caller) -> u8 {
    (caller.pass.caller() % 4) as u8
}

// Makes calls whose replies don't matter.
fn make_all(rt: &impl Wait, manager: &Manager<Cells>, caller: &mut Caller, calls: &[Call])
    requires { Carries manager.now caller.old.cells caller.old.pass caller.old.hand caller.old.cut caller.old.held }
    ensures { Carries manager.now caller.new.cells caller.new.pass caller.new.hand caller.new.cut caller.new.held }
{
    for call in calls {
        make(rt, manager, caller, *call);
    }
}

// Registers, pins, holds what the cell names, and unpins. Whether each call replied so.
fn comes_and_goes(rt: &impl Wait, manager: &Manager<Cells>, caller: &mut Caller)
    requires { Carries manager.now caller.old.cells caller.old.pass caller.old.hand caller.old.cut caller.old.held }
    ensures { Carries manager.now caller.new.cells caller.new.pass caller.new.hand caller.new.cut caller.new.held }
{
    let locale = locale_of(caller);
    let registered = make(rt, manager, caller, Call::Register(locale));
    let pinned = make(rt, manager, caller, Call::Pin);
    let held = make(rt, manager, caller, Call::Hold(0));
    let unpinned = make(rt, manager, caller, Call::Unpin);
    caller.served = registered == Reply::Registered
        && pinned == Reply::Pinned
        && held == Reply::Held(0, 1, 0)
        && unpinned == Reply::Unpinned;
}

// The first caller puts an object into the cell, and gives its token up.
const BEGIN: [Turn; 7] = [
    (0, Call::Register(0), Reply::Registered),
    (0, Call::Take(0), Reply::Took(0, 1, 0)),
    (0, Call::Fill(1, 1), Reply::Filled),
    (0, Call::Pin, Reply::Pinned),
    (0, Call::Put(0), Reply::WasNone),
    (0, Call::Unpin, Reply::Unpinned),
    (0, Call::Unregister, Reply::Unregistered),
];

fn all_are_served(callers: &[Caller]) -> bool {
    let mut all = true;
    for caller in callers {
        all &= caller.served;
    }
    all
}

// All callers, in so many threads.
fn come_and_go<R: Threads + Wait + Sync>(
    rt: &R,
    manager: &Manager<Cells>,
    callers: &mut [Caller],
    threads: usize,
)
    requires carries { All (λ c. Carries manager.now c.cells c.pass c.hand c.cut c.held) callers.old }
    requires some { 0 < threads }
    ensures { All (λ c. Carries manager.now c.cells c.pass c.hand c.cut c.held) callers.new }
{
    for_each_mut(
        rt,
        callers,
        threads,
        &|_place: usize, caller: &mut Caller|
            requires { Carries manager.now caller.old.cells caller.old.pass caller.old.hand caller.old.cut caller.old.held }
            ensures { Carries manager.entry.now caller.new.cells caller.new.pass caller.new.hand caller.new.cut caller.new.held }
        { comes_and_goes(rt, manager, caller) },
    );
}

#[test]
fn a_crowd_comes_and_goes(rt: HostRuntime) -> Result<(), Fail> {
    let object = crowd(64);
    let (manager, passes) = open_again(rt.alloc(), &object)?;
    let mut callers = callers_with(rt.alloc(), &manager, passes, object.cells)?;
    let other = first_other(&rt, &manager, callers.as_mut_slice(), &BEGIN);
    come_and_go(&rt, &manager, callers.as_mut_slice(), 1);
    assert!(rt; other.is_none() && all_are_served(callers.as_slice()));
    close_all(rt.alloc(), manager, callers)?;
    Ok(())
}

#[test]
fn a_crowd_comes_and_goes_in_threads(rt: HostRuntime) -> Result<(), Fail> {
    let object = crowd(64);
    let (manager, passes) = open_again(rt.alloc(), &object)?;
    let mut callers = callers_with(rt.alloc(), &manager, passes, object.cells)?;
    let other = first_other(&rt, &manager, callers.as_mut_slice(), &BEGIN);
    come_and_go(&rt, &manager, callers.as_mut_slice(), 8);
    assert!(rt; other.is_none() && all_are_served(callers.as_slice()));
    close_all(rt.alloc(), manager, callers)?;
    Ok(())
}

// What stands behind a value in each row.
fn second_of(first: u64) -> u64 {
    first.wrapping_mul(3).wrapping_add(1)
}

// Holds the cell's object, and reads its row twice. Whether both times found what its taker had filled.
fn reads_whole_rows(rt: &impl Wait, manager: &Manager<Cells>, caller: &mut Caller) -> bool
    requires { Carries manager.now caller.old.cells caller.old.pass caller.old.hand caller.old.cut caller.old.held }
    ensures { Carries manager.now caller.new.cells caller.new.pass caller.new.hand caller.new.cut caller.new.held }
{
    make(rt, manager, caller, Call::Pin);
    make(rt, manager, caller, Call::Hold(0));
    let first = make(rt, manager, caller, Call::Read(0));
    let second = make(rt, manager, caller, Call::Read(1));
    let again = make(rt, manager, caller, Call::Read(0));
    let last = make(rt, manager, caller, Call::Read(1));
    make(rt, manager, caller, Call::Unpin);
    let Reply::Value(value) = first else {
        return false;
    };
    second == Reply::Value(second_of(value)) && again == first && last == second
}

// Puts an object with this value in its row into the cell, and defers what stood there. Where no object is free it
// reclaims.
fn replace(rt: &impl Wait, manager: &Manager<Cells>, caller: &mut Caller, value: u64)
    requires { Carries manager.now caller.old.cells caller.old.pass caller.old.hand caller.old.cut caller.old.held }
    ensures { Carries manager.now caller.new.cells caller.new.pass caller.new.hand caller.new.cut caller.new.held }
{
    let locale = locale_of(caller);
    let second = second_of(value);
    let calls = [
        Call::Take(locale),
        Call::Fill(0, value),
        Call::Fill(1, second),
        Call::Pin,
        Call::Put(0),
        Call::Defer,
        Call::Unpin,
        Call::Reclaim,
    ];
    make_all(rt, manager, caller, &calls);
}

const ROUNDS: u64 = 2000;

// Reads and replaces by turns. The cell is never empty.
fn take_turns(rt: &impl Wait, manager: &Manager<Cells>, caller: &mut Caller)
    requires { Carries manager.now caller.old.cells caller.old.pass caller.old.hand caller.old.cut caller.old.held }
    ensures { Carries manager.now caller.new.cells caller.new.pass caller.new.hand caller.new.cut caller.new.held }
{
    let number = u64::from(caller.pass.caller());
    let locale = locale_of(caller);
    make(rt, manager, caller, Call::Register(locale));
    let mut whole = true;
    for round in 0..ROUNDS {
        whole &= reads_whole_rows(rt, manager, caller);
        replace(
            rt,
            manager,
            caller,
            round.wrapping_mul(4).wrapping_add(number),
        );
    }
    caller.served = whole;
}

fn take_turns_at_once<R: Threads + Wait + Sync>(
    rt: &R,
    manager: &Manager<Cells>,
    callers: &mut [Caller],
)
    requires { All (λ c. Carries manager.now c.cells c.pass c.hand c.cut c.held) callers.old }
    ensures { All (λ c. Carries manager.now c.cells c.pass c.hand c.cut c.held) callers.new }
{
    for_each_mut(
        rt,
        callers,
        4,
        &|_place: usize, caller: &mut Caller|
            requires { Carries manager.now caller.old.cells caller.old.pass caller.old.hand caller.old.cut caller.old.held }
            ensures { Carries manager.entry.now caller.new.cells caller.new.pass caller.new.hand caller.new.cut caller.new.held }
        { take_turns(rt, manager, caller) },
    );
}

#[test]
fn rows_that_are_held_stay_whole(rt: HostRuntime) -> Result<(), Fail> {
    let object = crowd(4);
    let (manager, passes) = open_again(rt.alloc(), &object)?;
    let mut callers = callers_with(rt.alloc(), &manager, passes, object.cells)?;
    let other = first_other(&rt, &manager, callers.as_mut_slice(), &BEGIN);
    take_turns_at_once(&rt, &manager, callers.as_mut_slice());
    assert!(rt; other.is_none() && all_are_served(callers.as_slice()));
    close_all(rt.alloc(), manager, callers)?;
    Ok(())
}
