//! A caller of a row of cells, who makes the calls of a script one after another.
ghost use Rattle.std.specs.Prelude.{◌≡◌, ◌⊎◌, ◌<◌, None as Nothing, Contains};
ghost use Rattle.pgas_base.specs.declared.spots.Spot.TheVariants.{Own as OwnSpot};
ghost use Rattle.pass_table.specs.Passes.{note_opening};
ghost use Rattle.epoch_tests.specs.Carrying.{Carries};
ghost use Rattle.epoch_manager.specs.Managers.{plan_of, opening_of, pass_opening, knows};

use super::calls::{Call, Reply};
use epoch_manager::{Advanced, Cells, Manager, NotNow, Note, Pass, Phase, TakeFault};
use pgas_base::{Ptr, Spot};
use std::sync::Wait;

/// A caller with its pass, how many cells there are, the object that it took and hasn't shown, the one that it cut out of
/// a cell and hasn't deferred, and the one that it has held last since it pinned; and whether a crowd's calls replied to it
/// as they have to.
#[derive(Drop)]
pub(crate) struct Caller {
    pub(crate) pass: Pass<Cells>,
    cells: u32,
    hand: Option<Ptr>,
    cut: Option<Ptr>,
    held: Option<Ptr>,
    pub(crate) served: bool,
}

/// A caller that has made no call.
pub(crate) fn new_caller(manager: &Manager<Cells>, pass: Pass<Cells>, cells: u32) -> Caller
    requires opening { pass_opening pass ≡ opening_of manager.now }
    requires cells { cells ≡ (plan_of manager.now).own }
    ensures { Carries manager.now result.cells result.pass result.hand result.cut result.held }
{
    Caller {
        pass,
        cells,
        hand: None,
        cut: None,
        held: None,
        served: false,
    }
}

/// The pass of a caller, who makes no more calls.
pub(crate) fn pass_of(caller: Caller) -> Pass<Cells>
    ensures { result ≡ caller.pass }
{
    let Caller {
        pass,
        cells: _,
        hand: _,
        cut: _,
        held: _,
        served: _,
    } = caller;
    pass
}

/// A note of what the caller has seen.
pub(crate) fn note_of(manager: &Manager<Cells>, caller: &mut Caller) -> Note<Cells>
    requires { Carries manager.now caller.old.cells caller.old.pass caller.old.hand caller.old.cut caller.old.held }
    ensures note { note_opening result ≡ opening_of manager.now }
    ensures carries { Carries manager.now caller.new.cells caller.new.pass caller.new.hand caller.new.cut caller.new.held }
{
    manager.note(&mut caller.pass)
}

pub(crate) fn take_in(manager: &Manager<Cells>, caller: &mut Caller, note: Note<Cells>)
    requires carries { Carries manager.now caller.old.cells caller.old.pass caller.old.hand caller.old.cut caller.old.held }
    requires note { note_opening note ≡ opening_of manager.now }
    ensures { Carries manager.now caller.new.cells caller.new.pass caller.new.hand caller.new.cut caller.new.held }
{
    manager.learn(&mut caller.pass, note);
}

fn cell_spot(cell: u32) -> Spot
    ensures { result ≡ OwnSpot cell }
{
    Spot::Own { word: cell }
}

/// Makes the call.
pub(crate) fn make(
    rt: &impl Wait,
    manager: &Manager<Cells>,
    caller: &mut Caller,
    call: Call,
) -> Reply
    requires { Carries manager.now caller.old.cells caller.old.pass caller.old.hand caller.old.cut caller.old.held }
    ensures { Carries manager.now caller.new.cells caller.new.pass caller.new.hand caller.new.cut caller.new.held }
{
    match call {
        Call::Register(locale) => register(manager, caller, locale),
        Call::Unregister => unregister(manager, caller),
        Call::Pin => pin(manager, caller),
        Call::Unpin => unpin(manager, caller),
        Call::Take(locale) => take(rt, manager, caller, locale),
        Call::Fill(at, value) => fill(manager, caller, at, value),
        Call::Back => back(manager, caller),
        Call::Put(cell) => put(manager, caller, cell),
        Call::Clear(cell) => clear(manager, caller, cell),
        Call::Hold(cell) => hold(manager, caller, cell),
        Call::Read(at) => read(manager, caller, at),
        Call::Defer => defer(manager, caller),
        Call::Reclaim => reclaim(manager, caller),
    }
}

fn register(manager: &Manager<Cells>, caller: &mut Caller, locale: u8) -> Reply
    requires { Carries manager.now caller.old.cells caller.old.pass caller.old.hand caller.old.cut caller.old.held }
    ensures { Carries manager.now caller.new.cells caller.new.pass caller.new.hand caller.new.cut caller.new.held }
{
    let Phase::Idle = caller.pass.phase() else {
        return Reply::Skip;
    };
    if manager.shape().locales <= locale {
        return Reply::Skip;
    }
    match manager.register(&mut caller.pass, locale) {
        Ok(()) => Reply::Registered,
        Err(_) => Reply::TokensFull,
    }
}

fn unregister(manager: &Manager<Cells>, caller: &mut Caller) -> Reply
    requires { Carries manager.now caller.old.cells caller.old.pass caller.old.hand caller.old.cut caller.old.held }
    ensures { Carries manager.now caller.new.cells caller.new.pass caller.new.hand caller.new.cut caller.new.held }
{
    let Phase::Registered { .. } = caller.pass.phase() else {
        return Reply::Skip;
    };
    manager.unregister(&mut caller.pass);
    Reply::Unregistered
}

fn pin(manager: &Manager<Cells>, caller: &mut Caller) -> Reply
    requires { Carries manager.now caller.old.cells caller.old.pass caller.old.hand caller.old.cut caller.old.held }
    ensures { Carries manager.now caller.new.cells caller.new.pass caller.new.hand caller.new.cut caller.new.held }
{
    let Phase::Registered { .. } = caller.pass.phase() else {
        return Reply::Skip;
    };
    manager.pin(&mut caller.pass);
    Reply::Pinned
}

fn unpin(manager: &Manager<Cells>, caller: &mut Caller) -> Reply
    requires { Carries manager.now caller.old.cells caller.old.pass caller.old.hand caller.old.cut caller.old.held }
    ensures { Carries manager.now caller.new.cells caller.new.pass caller.new.hand caller.new.cut caller.new.held }
{
    let Phase::Pinned { .. } = caller.pass.phase() else {
        return Reply::Skip;
    };
    if caller.cut.is_some() {
        return Reply::Skip;
    }
    caller.held = None;
    manager.unpin(&mut caller.pass);
    Reply::Unpinned
}

fn take(rt: &impl Wait, manager: &Manager<Cells>, caller: &mut Caller, locale: u8) -> Reply
    requires { Carries manager.now caller.old.cells caller.old.pass caller.old.hand caller.old.cut caller.old.held }
    ensures { Carries manager.now caller.new.cells caller.new.pass caller.new.hand caller.new.cut caller.new.held }
{
    if caller.hand.is_some() || manager.shape().locales <= locale || manager.shape().width < 2 {
        return Reply::Skip;
    }
    match manager.take(rt, &mut caller.pass, locale) {
        Ok(ptr) => {
            manager.fill(&mut caller.pass, ptr, 0, 0);
            manager.fill(&mut caller.pass, ptr, 1, 0);
            caller.hand = Some(ptr);
            Reply::Took(ptr.locale(), ptr.index(), ptr.count())
        }
        Err(TakeFault::NoRoom { locale }) => Reply::NoRoom(locale),
        Err(TakeFault::Spent { .. }) => Reply::Spent,
    }
}

fn fill(manager: &Manager<Cells>, caller: &mut Caller, at: u32, value: u64) -> Reply
    requires { Carries manager.now caller.old.cells caller.old.pass caller.old.hand caller.old.cut caller.old.held }
    ensures { Carries manager.now caller.new.cells caller.new.pass caller.new.hand caller.new.cut caller.new.held }
{
    let Some(ptr) = caller.hand else {
        return Reply::Skip;
    };
    if manager.shape().width <= at {
        return Reply::Skip;
    }
    manager.fill(&mut caller.pass, ptr, at, value);
    Reply::Filled
}

fn back(manager: &Manager<Cells>, caller: &mut Caller) -> Reply
    requires { Carries manager.now caller.old.cells caller.old.pass caller.old.hand caller.old.cut caller.old.held }
    ensures { Carries manager.now caller.new.cells caller.new.pass caller.new.hand caller.new.cut caller.new.held }
{
    let Some(ptr) = caller.hand else {
        return Reply::Skip;
    };
    caller.hand = None;
    manager.give_back(&mut caller.pass, ptr);
    Reply::Returned
}

// Switches the cell to this word. What stood there is the caller's cut.
fn switch_cell(manager: &Manager<Cells>, caller: &mut Caller, cell: u32, word: u64) -> Reply
    requires carries { Carries manager.now caller.old.cells caller.old.pass caller.old.hand caller.old.cut caller.old.held }
    requires cell { cell < (plan_of manager.now).own }
    requires word { (word ≡ 0) ⊎ Contains (knows caller.old.pass).shown word }
    requires uncut { caller.old.cut ≡ Nothing }
    ensures { Carries manager.now caller.new.cells caller.new.pass caller.new.hand caller.new.cut caller.new.held }
{
    let old = manager.switch(&mut caller.pass, cell_spot(cell), word);
    let found = Ptr::of_word(old);
    match found {
        Some(ptr) => {
            caller.cut = Some(ptr);
            Reply::Was(ptr.locale(), ptr.index(), ptr.count())
        }
        None => Reply::WasNone,
    }
}

fn put(manager: &Manager<Cells>, caller: &mut Caller, cell: u32) -> Reply
    requires { Carries manager.now caller.old.cells caller.old.pass caller.old.hand caller.old.cut caller.old.held }
    ensures { Carries manager.now caller.new.cells caller.new.pass caller.new.hand caller.new.cut caller.new.held }
{
    let Phase::Pinned { .. } = caller.pass.phase() else {
        return Reply::Skip;
    };
    let Some(ptr) = caller.hand else {
        return Reply::Skip;
    };
    if caller.cut.is_some() || caller.cells <= cell {
        return Reply::Skip;
    }
    let word = ptr.word();
    caller.hand = None;
    manager.show(&mut caller.pass, ptr);
    switch_cell(manager, caller, cell, word)
}

fn clear(manager: &Manager<Cells>, caller: &mut Caller, cell: u32) -> Reply
    requires { Carries manager.now caller.old.cells caller.old.pass caller.old.hand caller.old.cut caller.old.held }
    ensures { Carries manager.now caller.new.cells caller.new.pass caller.new.hand caller.new.cut caller.new.held }
{
    let Phase::Pinned { .. } = caller.pass.phase() else {
        return Reply::Skip;
    };
    if caller.cut.is_some() || caller.cells <= cell {
        return Reply::Skip;
    }
    switch_cell(manager, caller, cell, 0)
}

fn hold(manager: &Manager<Cells>, caller: &mut Caller, cell: u32) -> Reply
    requires { Carries manager.now caller.old.cells caller.old.pass caller.old.hand caller.old.cut caller.old.held }
    ensures { Carries manager.now caller.new.cells caller.new.pass caller.new.hand caller.new.cut caller.new.held }
{
    let Phase::Pinned { .. } = caller.pass.phase() else {
        return Reply::Skip;
    };
    if 4 <= caller.pass.held() || caller.cells <= cell {
        return Reply::Skip;
    }
    match manager.hold(&mut caller.pass, cell_spot(cell)) {
        Some(ptr) => {
            caller.held = Some(ptr);
            Reply::Held(ptr.locale(), ptr.index(), ptr.count())
        }
        None => Reply::HeldNone,
    }
}

fn read(manager: &Manager<Cells>, caller: &mut Caller, at: u32) -> Reply
    requires { Carries manager.now caller.old.cells caller.old.pass caller.old.hand caller.old.cut caller.old.held }
    ensures { Carries manager.now caller.new.cells caller.new.pass caller.new.hand caller.new.cut caller.new.held }
{
    let Some(ptr) = caller.held else {
        return Reply::Skip;
    };
    if manager.shape().width <= at {
        return Reply::Skip;
    }
    Reply::Value(manager.read(&mut caller.pass, ptr, at))
}

fn defer(manager: &Manager<Cells>, caller: &mut Caller) -> Reply
    requires { Carries manager.now caller.old.cells caller.old.pass caller.old.hand caller.old.cut caller.old.held }
    ensures { Carries manager.now caller.new.cells caller.new.pass caller.new.hand caller.new.cut caller.new.held }
{
    let Phase::Pinned { .. } = caller.pass.phase() else {
        return Reply::Skip;
    };
    let Some(ptr) = caller.cut else {
        return Reply::Skip;
    };
    caller.cut = None;
    manager.defer_delete(&mut caller.pass, ptr);
    Reply::Deferred
}

// A caller that isn't pinned has no cut.
fn reclaim(manager: &Manager<Cells>, caller: &mut Caller) -> Reply
    requires { Carries manager.now caller.old.cells caller.old.pass caller.old.hand caller.old.cut caller.old.held }
    ensures { Carries manager.now caller.new.cells caller.new.pass caller.new.hand caller.new.cut caller.new.held }
{
    let Phase::Registered { .. } = caller.pass.phase() else {
        return Reply::Skip;
    };
    if caller.cut.is_some() {
        return Reply::Skip;
    }
    match manager.try_reclaim(&mut caller.pass) {
        Ok(Advanced { epoch, freed }) => Reply::Advanced(epoch, freed),
        Err(NotNow::LocalBusy) => Reply::LocalBusy,
        Err(NotNow::GlobalBusy) => Reply::GlobalBusy,
        Err(NotNow::EpochsSpent) => Reply::EpochsSpent,
        Err(
            NotNow::Held {
                locale,
                token,
                word,
            },
        ) => Reply::Blocked(locale, token, word),
    }
}
