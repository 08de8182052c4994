//! Short scripts, each with what it has to reply.
ghost use Rattle.std.specs.Prelude.{◌≡◌};

use super::calls::Call::*;
use super::calls::Reply::*;
use super::calls::Turn;
use super::scripts::{Object, run};
use pgas_base::{Ptr, Shape, Start};
use std::test::Fail;

// One cell on objects of one locale, or of two.
fn one_cell(locales: u8, tokens: u32, callers: u32, start: Start) -> Object
    ensures { result.cells ≡ 1 }
{
    Object {
        shape: Shape {
            locales,
            tokens,
            objects: 1,
            width: 2,
        },
        start,
        callers,
        cells: 1,
    }
}

// The object is cut out and deferred while the first caller holds it, and is freed two advances after that one's unpin.
const HELD: [Turn; 22] = [
    (0, Register(0), Registered),
    (0, Take(0), Took(0, 1, 0)),
    (0, Fill(0, 7), Filled),
    (0, Pin, Pinned),
    (0, Put(0), WasNone),
    (0, Unpin, Unpinned),
    (0, Pin, Pinned),
    (0, Hold(0), Held(0, 1, 0)),
    (1, Register(0), Registered),
    (1, Pin, Pinned),
    (1, Clear(0), Was(0, 1, 0)),
    (1, Defer, Deferred),
    (1, Unpin, Unpinned),
    (1, Reclaim, Advanced(2, 0)),
    (1, Reclaim, Blocked(0, 0, 3)),
    (1, Reclaim, Blocked(0, 0, 3)),
    (1, Take(0), NoRoom(0)),
    (0, Read(0), Value(7)),
    (0, Unpin, Unpinned),
    (1, Reclaim, Advanced(3, 0)),
    (1, Reclaim, Advanced(4, 1)),
    (1, Take(0), Took(0, 1, 1)),
];

#[test]
fn a_held_object_is_freed_after_its_holders_unpin(rt: HostRuntime) -> Result<(), Fail> {
    let object = one_cell(1, 2, 2, Start::usual());
    let ran = run(&rt, rt.alloc(), &object, &HELD)?;
    assert_eq!(rt; ran.other, None);
    assert_eq!(rt; ran.left.as_slice(), [0].as_slice());
    Ok(())
}

const FREED: [Turn; 11] = [
    (0, Register(0), Registered),
    (0, Take(0), Took(0, 1, 0)),
    (0, Pin, Pinned),
    (0, Put(0), WasNone),
    (0, Clear(0), Was(0, 1, 0)),
    (0, Defer, Deferred),
    (0, Unpin, Unpinned),
    (0, Reclaim, Advanced(2, 0)),
    (0, Reclaim, Advanced(3, 0)),
    (0, Reclaim, Advanced(4, 1)),
    (0, Take(0), Took(0, 1, 1)),
];

#[test]
fn an_object_is_freed_by_the_third_advance_and_comes_again(rt: HostRuntime) -> Result<(), Fail> {
    let object = one_cell(1, 1, 1, Start::usual());
    let ran = run(&rt, rt.alloc(), &object, &FREED)?;
    assert_eq!(rt; ran.other, None);
    assert_eq!(rt; ran.left.as_slice(), [0].as_slice());
    Ok(())
}

const WORN: [Turn; 11] = [
    (0, Register(0), Registered),
    (0, Take(0), Took(0, 1, 4_294_967_295)),
    (0, Pin, Pinned),
    (0, Put(0), WasNone),
    (0, Clear(0), Was(0, 1, 4_294_967_295)),
    (0, Defer, Deferred),
    (0, Unpin, Unpinned),
    (0, Reclaim, Advanced(2, 0)),
    (0, Reclaim, Advanced(3, 0)),
    (0, Reclaim, Advanced(4, 1)),
    (0, Take(0), NoRoom(0)),
];

#[test]
fn an_object_that_has_had_its_last_count_is_worn(rt: HostRuntime) -> Result<(), Fail> {
    let last = Start {
        count: u32::MAX,
        ..Start::usual()
    };
    let ran = run(&rt, rt.alloc(), &one_cell(1, 1, 1, last), &WORN)?;
    assert_eq!(rt; ran.other, None);
    assert_eq!(rt; ran.left.as_slice(), [0].as_slice());
    Ok(())
}

const ONE_TOKEN: [Turn; 4] = [
    (0, Register(0), Registered),
    (1, Register(0), TokensFull),
    (0, Unregister, Unregistered),
    (1, Register(0), Registered),
];

#[test]
fn a_token_is_one_callers_at_a_time(rt: HostRuntime) -> Result<(), Fail> {
    let object = one_cell(1, 1, 2, Start::usual());
    let ran = run(&rt, rt.alloc(), &object, &ONE_TOKEN)?;
    assert_eq!(rt; ran.other, None);
    assert_eq!(rt; ran.left.as_slice(), [0].as_slice());
    Ok(())
}

const SPENT_EPOCHS: [Turn; 2] = [(0, Register(0), Registered), (0, Reclaim, EpochsSpent)];

#[test]
fn no_advance_is_made_from_the_last_epoch(rt: HostRuntime) -> Result<(), Fail> {
    let last = Start {
        epoch: 1 << 62,
        ..Start::usual()
    };
    let ran = run(&rt, rt.alloc(), &one_cell(1, 1, 1, last), &SPENT_EPOCHS)?;
    assert_eq!(rt; ran.other, None);
    assert_eq!(rt; ran.left.as_slice(), [0].as_slice());
    Ok(())
}

const GIVEN_BACK: [Turn; 6] = [
    (0, Unpin, Skip),
    (0, Reclaim, Skip),
    (0, Register(0), Registered),
    (0, Take(0), Took(0, 1, 0)),
    (0, Back, Returned),
    (0, Take(0), Took(0, 1, 0)),
];

#[test]
fn what_is_given_back_comes_again_with_its_count(rt: HostRuntime) -> Result<(), Fail> {
    let object = one_cell(1, 1, 1, Start::usual());
    let ran = run(&rt, rt.alloc(), &object, &GIVEN_BACK)?;
    assert_eq!(rt; ran.other, None);
    assert_eq!(rt; ran.left.as_slice(), [0].as_slice());
    Ok(())
}

const SPENT_STACK: [Turn; 4] = [
    (0, Register(0), Registered),
    (0, Take(0), Took(0, 1, 0)),
    (0, Back, Returned),
    (0, Take(0), Spent),
];

#[test]
fn a_stack_has_a_last_count(rt: HostRuntime) -> Result<(), Fail> {
    let last_but_one = Start {
        stack: 1_099_511_627_774,
        ..Start::usual()
    };
    let mut object = one_cell(1, 1, 1, last_but_one);
    object.shape.objects = 2;
    let ran = run(&rt, rt.alloc(), &object, &SPENT_STACK)?;
    assert_eq!(rt; ran.other, None);
    assert_eq!(rt; ran.left.as_slice(), [0].as_slice());
    Ok(())
}

const NOTHING_GIVEN: [Turn; 2] = [(0, Take(1), Spent), (0, Take(0), Spent)];

#[test]
fn stacks_that_open_with_the_last_count_give_nothing(rt: HostRuntime) -> Result<(), Fail> {
    let last = Start {
        stack: 1_099_511_627_775,
        ..Start::usual()
    };
    let ran = run(&rt, rt.alloc(), &one_cell(2, 1, 1, last), &NOTHING_GIVEN)?;
    assert_eq!(rt; ran.other, None);
    Ok(())
}

const LENT: [Turn; 8] = [
    (0, Register(0), Registered),
    (0, Take(0), Took(0, 1, 0)),
    (0, Pin, Pinned),
    (0, Put(0), WasNone),
    (0, Take(0), Took(1, 1, 0)),
    (0, Back, Returned),
    (0, Take(1), Took(1, 1, 0)),
    (0, Take(0), Skip),
];

#[test]
fn a_locale_without_a_free_object_borrows_from_the_next(rt: HostRuntime) -> Result<(), Fail> {
    let object = one_cell(2, 1, 1, Start::usual());
    let ran = run(&rt, rt.alloc(), &object, &LENT)?;
    assert_eq!(rt; ran.other, None);
    assert_eq!(rt; ran.left.as_slice(), [Ptr::new(0, 1, 0).word()].as_slice());
    Ok(())
}
