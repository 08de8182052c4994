//! Scripts: calls of several callers on a row of cells, one after another.
ghost use Rattle.std.specs.Prelude.{◌≡◌, ◌≤◌, ◌<◌, [], length, All, IfOk};
ghost use Rattle.pass_table.specs.Passes.{note_opening};
ghost use Rattle.epoch_tests.specs.Carrying.{Carries};
ghost use Rattle.epoch_manager.specs.Cells.{cells_terms};
ghost use Rattle.epoch_manager.specs.Managers.{callers_of, opening_of, plan_of, shape_of};
ghost use Rattle.epoch_manager.specs.Opened.{AreOfOpening, IsIdlePass};

use super::callers::{Caller, make, new_caller, note_of, pass_of, take_in};
use super::calls::{Reply, Turn};
use epoch_manager::{Cells, Closed, Manager, ManagerBack, Note, OpenFault, Pass};
use pgas_base::{Shape, Start};
use std::alloc::{AllocError, Global};
use std::sync::Wait;
use std::test::Fail;

/// What a script's calls are made on, and by how many callers.
#[derive(Clone, Copy)]
pub(crate) struct Object {
    pub(crate) shape: Shape,
    pub(crate) start: Start,
    pub(crate) callers: u32,
    pub(crate) cells: u32,
}

/// An object with rows of two words and the usual start.
pub(crate) fn usual_object(
    locales: u8,
    tokens: u32,
    objects: u32,
    cells: u32,
    callers: u32,
) -> Object
    ensures shape { result.shape ≡ record { locales = locales; tokens = tokens; objects = objects; width = 2 } }
    ensures callers { result.callers ≡ callers }
    ensures cells { result.cells ≡ cells }
{
    Object {
        shape: Shape {
            locales,
            tokens,
            objects,
            width: 2,
        },
        start: Start::usual(),
        callers,
        cells,
    }
}

/// What a script came to: the first turn that replied otherwise, with its reply, and the words that were left in the cells.
#[derive(Drop)]
pub(crate) struct Ran {
    pub(crate) other: Option<(usize, Reply)>,
    pub(crate) left: Vec<u64>,
}

/// Opens a manager, and once more where memory was refused.
pub(crate) fn open_again(
    alloc: Global,
    object: &Object,
) -> Result<(Manager<Cells>, Vec<Pass<Cells>>), OpenFault>
    requires some { 1 ≤ object.now.cells }
    requires most { object.now.cells ≤ 64 }
    ensures shape { IfOk result (λ r. shape_of r.0 ≡ object.now.shape) }
    ensures callers { IfOk result (λ r. callers_of r.0 ≡ object.now.callers) }
    ensures cells { IfOk result (λ r. object.now.cells ≡ (plan_of r.0).own) }
    ensures opening { IfOk result (λ r. AreOfOpening cells_terms r.0 r.1.items) }
    ensures count { IfOk result (λ r. length r.1.items ≡ callers_of r.0) }
    ensures idle { IfOk result (λ r. All IsIdlePass r.1.items) }
{
    let Object {
        shape,
        start,
        callers,
        cells,
    } = *object;
    match Manager::open(alloc, shape, start, callers, Cells::new(cells)) {
        Err(OpenFault::OutOfMemory) => {
            Manager::open(alloc, shape, start, callers, Cells::new(cells))
        }
        answer => answer,
    }
}

/// Closes a manager, and once more where memory was refused.
pub(crate) fn close_again(
    manager: Manager<Cells>,
    passes: Vec<Pass<Cells>>,
) -> Result<Closed<Cells>, Fail>
    requires opening { AreOfOpening cells_terms manager passes.items }
    requires count { length passes.items ≡ callers_of manager }
{
    match manager.close(passes) {
        Ok(closed) => Ok(closed),
        Err(ManagerBack { manager, passes }) => match manager.close(passes) {
            Ok(closed) => Ok(closed),
            Err(_) => Err("memory".into()),
        },
    }
}

// Room for so many callers: so no push asks for memory.
fn room_for_callers(alloc: Global, many: usize) -> Result<Vec<Caller>, AllocError>
    ensures { IfOk result (λ v. v.items ≡ []) }
{
    match Vec::with_capacity(alloc, many) {
        Ok(callers) => Ok(callers),
        Err(AllocError) => Vec::with_capacity(alloc, many),
    }
}

fn room_for_passes(alloc: Global, many: usize) -> Result<Vec<Pass<Cells>>, AllocError>
    ensures { IfOk result (λ v. v.items ≡ []) }
{
    match Vec::with_capacity(alloc, many) {
        Ok(passes) => Ok(passes),
        Err(AllocError) => Vec::with_capacity(alloc, many),
    }
}

/// A caller of so many cells for each pass, in the same order.
pub(crate) fn callers_with(
    alloc: Global,
    manager: &Manager<Cells>,
    mut passes: Vec<Pass<Cells>>,
    cells: u32,
) -> Result<Vec<Caller>, AllocError>
    requires opening { AreOfOpening cells_terms manager.now passes.items }
    requires cells { cells ≡ (plan_of manager.now).own }
    ensures opening { IfOk result (λ v. All (λ c. Carries manager.now c.cells c.pass c.hand c.cut c.held) v.items) }
    ensures count { IfOk result (λ v. length v.items ≡ length passes.items) }
{
    let mut callers = room_for_callers(alloc, passes.len())?;
    while let Some(pass) = passes.pop() {
        let caller = new_caller(manager, pass, cells);
        callers.push(caller)?;
    }
    callers.as_mut_slice().reverse();
    Ok(callers)
}

/// Takes the callers' passes, and closes the manager.
pub(crate) fn close_all(
    alloc: Global,
    manager: Manager<Cells>,
    mut callers: Vec<Caller>,
) -> Result<Closed<Cells>, Fail>
    requires opening { All (λ c. Carries manager c.cells c.pass c.hand c.cut c.held) callers.items }
    requires count { length callers.items ≡ callers_of manager }
{
    let mut passes = room_for_passes(alloc, callers.len())?;
    while let Some(caller) = callers.pop() {
        passes.push(pass_of(caller))?;
    }
    close_again(manager, passes)
}

// A note of what one of the callers has seen.
fn noted_by(manager: &Manager<Cells>, callers: &mut [Caller], giver: usize) -> Note<Cells>
    requires carries { All (λ c. Carries manager.now c.cells c.pass c.hand c.cut c.held) callers.old }
    requires giver { giver < length callers.old }
    ensures note { note_opening result ≡ opening_of manager.now }
    ensures carries { All (λ c. Carries manager.now c.cells c.pass c.hand c.cut c.held) callers.new }
    ensures count { length callers.new ≡ length callers.old }
{
    note_of(manager, &mut callers[giver])
}

// One caller takes in what another has seen.
fn hand_on(manager: &Manager<Cells>, callers: &mut [Caller], giver: usize, taker: usize)
    requires { All (λ c. Carries manager.now c.cells c.pass c.hand c.cut c.held) callers.old }
    ensures { All (λ c. Carries manager.now c.cells c.pass c.hand c.cut c.held) callers.new }
{
    if giver < callers.len() && taker < callers.len() {
        let note = noted_by(manager, callers, giver);
        take_in(manager, &mut callers[taker], note);
    }
}

/// Makes one turn after another. Who makes the next takes in first what the one before has seen. The first turn that replies
/// otherwise than it has to, with its reply.
pub(crate) fn first_other(
    rt: &impl Wait,
    manager: &Manager<Cells>,
    callers: &mut [Caller],
    turns: &[Turn],
) -> Option<(usize, Reply)>
    requires { All (λ c. Carries manager.now c.cells c.pass c.hand c.cut c.held) callers.old }
    ensures { All (λ c. Carries manager.now c.cells c.pass c.hand c.cut c.held) callers.new }
{
    let mut last = 0;
    for (place, turn) in turns.iter().enumerate() {
        let (caller, call, reply) = *turn;
        if callers.len() <= caller {
            return Some((place, Reply::Skip));
        }
        if caller != last {
            hand_on(manager, callers, last, caller);
            last = caller;
        }
        let replied = make(rt, manager, &mut callers[caller], call);
        if replied != reply {
            return Some((place, replied));
        }
    }
    None
}

/// Opens an object, makes the turns on it, and closes it.
pub(crate) fn run(
    rt: &impl Wait,
    alloc: Global,
    object: &Object,
    turns: &[Turn],
) -> Result<Ran, Fail>
    requires some { 1 ≤ object.now.cells }
    requires most { object.now.cells ≤ 64 }
{
    let (manager, passes) = open_again(alloc, object)?;
    let mut callers = callers_with(alloc, &manager, passes, object.cells)?;
    let other = first_other(rt, &manager, callers.as_mut_slice(), turns);
    let closed = close_all(alloc, manager, callers)?;
    Ok(Ran {
        other,
        left: closed.words,
    })
}
