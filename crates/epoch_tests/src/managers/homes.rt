//! Objects that one reclaim frees, more than go home together, of two homes.
ghost use Rattle.std.specs.Prelude.{◌≡◌, ◌<◌};
ghost use Rattle.epoch_laws.specs.declared.tokens.Token.{Token};
ghost use Rattle.epoch_manager.specs.Managers.{plan_of, opening_of, shape_of, pass_opening, phase_of};

use super::one_cell::{defer_what_a_cell_names, put_into_a_cell};
use super::scripts::{open_again, usual_object};
use epoch_manager::{Cells, Manager, Pass, Phase};
use std::sync::Wait;
use std::test::Fail;

// How many objects a reclaim frees.
fn freed_by(manager: &Manager<Cells>, pass: &mut Pass<Cells>) -> Option<u32>
    requires opening { pass_opening pass.old ≡ opening_of manager.now }
    requires phase { (token : Token) × (phase_of pass.old ≡ Phase.Registered token) }
    ensures opening { pass_opening pass.new ≡ pass_opening pass.old }
    ensures phase { phase_of pass.new ≡ phase_of pass.old }
{
    match manager.try_reclaim(pass) {
        Ok(advanced) => Some(advanced.freed),
        Err(_) => None,
    }
}

// Puts an object into a cell, cuts it out again and defers it. Whether there was one.
fn defer_an_object(rt: &impl Wait, manager: &Manager<Cells>, pass: &mut Pass<Cells>) -> bool
    requires opening { pass_opening pass.old ≡ opening_of manager.now }
    requires phase { (token : Token) × (phase_of pass.old ≡ Phase.Registered token) }
    requires cells { 0 < (plan_of manager.now).own }
    requires locales { 0 < (shape_of manager.now).locales }
    ensures opening { pass_opening pass.new ≡ pass_opening pass.old }
    ensures phase { (token : Token) × (phase_of pass.new ≡ Phase.Registered token) }
{
    let Ok(ptr) = manager.take(rt, pass, 0) else {
        return false;
    };
    manager.pin(pass);
    put_into_a_cell(manager, pass, ptr);
    defer_what_a_cell_names(manager, pass);
    manager.unpin(pass);
    true
}

// Defers so many objects. Whether there were as many.
fn defer_objects(
    rt: &impl Wait,
    manager: &Manager<Cells>,
    pass: &mut Pass<Cells>,
    many: u32,
) -> bool
    requires opening { pass_opening pass.old ≡ opening_of manager.now }
    requires phase { (token : Token) × (phase_of pass.old ≡ Phase.Registered token) }
    requires cells { 0 < (plan_of manager.now).own }
    requires locales { 0 < (shape_of manager.now).locales }
    ensures opening { pass_opening pass.new ≡ pass_opening pass.old }
    ensures phase { (token : Token) × (phase_of pass.new ≡ Phase.Registered token) }
{
    for _ in 0..many {
        if !defer_an_object(rt, manager, pass) {
            return false;
        }
    }
    true
}

// Takes objects, up to so many. How many of them had been freed once.
fn take_freed(rt: &impl Wait, manager: &Manager<Cells>, pass: &mut Pass<Cells>, many: u32) -> u32
    requires opening { pass_opening pass.old ≡ opening_of manager.now }
    requires locales { 0 < (shape_of manager.now).locales }
{
    let mut freed = 0;
    for _ in 0..many {
        let Ok(ptr) = manager.take(rt, pass, 0) else {
            return freed;
        };
        if ptr.count() == 1 {
            freed += 1;
        }
    }
    freed
}

// Frees 45 objects, 40 of them of one home. How many the third reclaim frees, and how many of all 80 were freed once.
fn free_many(
    rt: &impl Wait,
    manager: &Manager<Cells>,
    pass: &mut Pass<Cells>,
) -> Option<(Option<u32>, u32)>
    requires opening { pass_opening pass.old ≡ opening_of manager.now }
    requires phase { (token : Token) × (phase_of pass.old ≡ Phase.Registered token) }
    requires cells { 0 < (plan_of manager.now).own }
    requires locales { 0 < (shape_of manager.now).locales }
{
    if !defer_objects(rt, manager, pass, 45) {
        return None;
    }
    freed_by(manager, pass);
    freed_by(manager, pass);
    let freed = freed_by(manager, pass);
    Some((freed, take_freed(rt, manager, pass, 80)))
}

// One reclaim hands home more objects of one locale than go home together, and some of another, and none is lost.
#[test]
fn objects_of_two_homes_that_are_freed_together_all_come_again(
    rt: HostRuntime,
) -> Result<(), Fail> {
    let (manager, mut passes) = open_again(rt.alloc(), &usual_object(2, 1, 40, 1, 1))?;
    let mut pass = manager.take_pass(&mut passes);
    let registered = manager.register(&mut pass, 0);
    assert_eq!(rt; registered, Ok(()));
    if let Phase::Registered { .. } = pass.phase() {
        let freed = free_many(&rt, &manager, &mut pass);
        assert_eq!(rt; freed, Some((Some(45), 45)));
    }
    Ok(())
}
