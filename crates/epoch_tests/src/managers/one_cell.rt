//! An object on its way into a cell and out of it again.
ghost use Rattle.std.specs.Prelude.{◌≡◌, ◌<◌, length, Contains};
ghost use Rattle.pgas_base.specs.declared.spots.Spot.TheVariants.{Own as OwnSpot};
ghost use Rattle.epoch_laws.specs.declared.tokens.Token.{Token};
ghost use Rattle.epoch_manager.specs.Managers.{plan_of, opening_of, pass_opening, phase_of, owned_by, held_by, shape_of};

use super::scripts::{open_again, usual_object};
use epoch_manager::{Cells, Manager, Pass, Phase};
use pgas_base::{Ptr, Spot};
use std::sync::Wait;
use std::test::Fail;

fn first_cell() -> Spot
    ensures { result ≡ OwnSpot 0 }
{
    Spot::Own { word: 0 }
}

// Shows an object of the caller's own, and switches it into the first cell.
pub(crate) fn put_into_a_cell(manager: &Manager<Cells>, pass: &mut Pass<Cells>, ptr: Ptr) -> u64
    requires opening { pass_opening pass.old ≡ opening_of manager.now }
    requires owned { Contains (owned_by pass.old) ptr }
    requires cells { 0 < (plan_of manager.now).own }
    ensures opening { pass_opening pass.new ≡ pass_opening pass.old }
    ensures phase { phase_of pass.new ≡ phase_of pass.old }
    ensures held { held_by pass.new ≡ held_by pass.old }
{
    let word = ptr.word();
    manager.show(pass, ptr);
    manager.switch(pass, first_cell(), word)
}

// Empties the first cell, and defers what stood there. Whether an object did.
pub(crate) fn defer_what_a_cell_names(manager: &Manager<Cells>, pass: &mut Pass<Cells>) -> bool
    requires opening { pass_opening pass.old ≡ opening_of manager.now }
    requires phase { (token : Token) × (phase_of pass.old ≡ Phase.Pinned token) }
    requires cells { 0 < (plan_of manager.now).own }
    ensures opening { pass_opening pass.new ≡ pass_opening pass.old }
    ensures phase { phase_of pass.new ≡ phase_of pass.old }
{
    let word = manager.switch(pass, first_cell(), 0);
    let Some(ptr) = Ptr::of_word(word) else {
        return false;
    };
    manager.defer_delete(pass, ptr);
    true
}

// What the first cell named before an object was taken, filled and put there, what a hold then reads in its row, and whether
// it was deferred.
fn through_a_cell(
    rt: &impl Wait,
    manager: &Manager<Cells>,
    pass: &mut Pass<Cells>,
) -> Option<(u64, u64, u64, bool)>
    requires opening { pass_opening pass.old ≡ opening_of manager.now }
    requires phase { (token : Token) × (phase_of pass.old ≡ Phase.Pinned token) }
    requires room { length (held_by pass.old) < 4 }
    requires cells { 0 < (plan_of manager.now).own }
    requires width { 1 < (shape_of manager.now).width }
    requires locales { 0 < (shape_of manager.now).locales }
{
    let Ok(ptr) = manager.take(rt, pass, 0) else {
        return None;
    };
    manager.fill(pass, ptr, 0, 7);
    manager.fill(pass, ptr, 1, 8);
    let before = put_into_a_cell(manager, pass, ptr);
    let Some(held) = manager.hold(pass, first_cell()) else {
        return None;
    };
    let first = manager.read(pass, held, 0);
    let second = manager.read(pass, held, 1);
    let deferred = defer_what_a_cell_names(manager, pass);
    Some((before, first, second, deferred))
}

#[test]
fn a_cell_leads_to_what_its_object_was_filled_with(rt: HostRuntime) -> Result<(), Fail> {
    let (manager, mut passes) = open_again(rt.alloc(), &usual_object(2, 1, 3, 1, 1))?;
    let mut pass = manager.take_pass(&mut passes);
    assert_eq!(rt; (pass.caller(), pass.held()), (0, 0));
    let _ = manager.register(&mut pass, 0);
    if let Phase::Registered { .. } = pass.phase() {
        manager.pin(&mut pass);
        if pass.held() < 4 {
            let found = through_a_cell(&rt, &manager, &mut pass);
            assert_eq!(rt; found, Some((0, 7, 8, true)));
        }
    }
    Ok(())
}
