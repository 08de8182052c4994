//! A row of two words that threads share by a cell of a manager: one thread replaces it, another reads it meanwhile.
ghost use Rattle.std.specs.Prelude.{◌≡◌, ◌<◌, IfSome, Contains};
ghost use Rattle.epoch_laws.specs.declared.tokens.Token.{Token};
ghost use Rattle.epoch_manager.specs.Cells.{IsCut};
ghost use Rattle.epoch_manager.specs.Managers.{plan_of, opening_of, shape_of, callers_of, pass_opening, phase_of, owned_by, knows, IsSamePass};

use epoch_manager::{Cells, Manager, OpenFault, Pass, Phase};
use pgas_base::{Ptr, Shape, Spot, Start};
use std::alloc::Global;
use std::sync::Wait;
use std::thread::{Threads, join_mut};

const CELL: Spot = Spot::Own { word: 0 };

/// A manager with a cell, whose rows have two words.
#[derive(Drop)]
pub struct Rows {
    manager: Manager<Cells>,
    ghost cell: { 0 < (plan_of manager).own },
    ghost width: { 1 < (shape_of manager).width },
    ghost locale: { 0 < (shape_of manager).locales },
}

impl Rows {
    /// Shows a row of the caller's own and puts it into the cell. The row that was there is cut out, for this caller to defer.
    #[tactic(auto, using(epoch_manager::proofs::CellCalls::shown_may_be_put, epoch_manager::proofs::CellCalls::found_is_cut))]
    fn put(&self, pass: &mut Pass<Cells>, row: Ptr) -> Option<Ptr>
        requires opening { pass_opening pass.old ≡ opening_of self.now.manager }
        requires owned { Contains (owned_by pass.old) row }
        ensures pass { IsSamePass pass.old pass.new }
        ensures phase { phase_of pass.new ≡ phase_of pass.old }
        ensures cut { IfSome result (λ old. IsCut (knows pass.new) old) }
    {
        self.manager.show(pass, row);
        let word = self.manager.switch(pass, CELL, row.word());
        Ptr::of_word(word)
    }

    /// Fills a row with a number and the next one, and puts it into the cell. The row that was there is deferred: it is free
    /// again once nobody can be reading it. `false` where no row was free.
    fn replace<R: Wait>(&self, rt: &R, pass: &mut Pass<Cells>, number: u32) -> bool
        requires opening { pass_opening pass.old ≡ opening_of self.now.manager }
        requires phase { (token : Token) × (phase_of pass.old ≡ Phase.Registered token) }
        ensures pass { IsSamePass pass.old pass.new }
        ensures phase { phase_of pass.new ≡ phase_of pass.old }
    {
        let Ok(row) = self.manager.take(rt, pass, 0) else {
            return false;
        };
        self.manager.fill(pass, row, 0, u64::from(number));
        self.manager.fill(pass, row, 1, u64::from(number) + 1);
        self.manager.pin(pass);
        if let Some(old) = self.put(pass, row) {
            self.manager.defer_delete(pass, old);
        }
        self.manager.unpin(pass);
        true
    }

    /// Whether the row in the cell has a number and the next one. The row stays as it is until the unpin.
    fn is_whole(&self, pass: &mut Pass<Cells>) -> bool
        requires opening { pass_opening pass.old ≡ opening_of self.now.manager }
        requires phase { (token : Token) × (phase_of pass.old ≡ Phase.Registered token) }
        ensures pass { IsSamePass pass.old pass.new }
        ensures phase { phase_of pass.new ≡ phase_of pass.old }
    {
        self.manager.pin(pass);
        let whole = match self.manager.hold(pass, CELL) {
            Some(row) => {
                let first = self.manager.read(pass, row, 0);
                let second = self.manager.read(pass, row, 1);
                first.wrapping_add(1) == second
            }
            None => false,
        };
        self.manager.unpin(pass);
        whole
    }

    /// Puts so many rows into the cell, one after another.
    fn replace_often<R: Wait>(&self, rt: &R, pass: &mut Pass<Cells>, times: u32)
        requires opening { pass_opening pass.old ≡ opening_of self.now.manager }
        requires phase { phase_of pass.old ≡ Phase.Idle }
        ensures pass { IsSamePass pass.old pass.new }
        ensures phase { phase_of pass.new ≡ Phase.Idle }
    {
        let Ok(()) = self.manager.register(pass, 0) else {
            return;
        };
        for number in 0..times {
            let replaced = self.replace(rt, pass, number);
            if !replaced || number % 16 == 0 {
                let _ = self.manager.try_reclaim(pass);
            }
        }
        self.manager.unregister(pass);
    }

    /// Looks so many times whether the row in the cell is whole. Whether it always was.
    fn stays_whole(&self, pass: &mut Pass<Cells>, times: u32) -> bool
        requires opening { pass_opening pass.old ≡ opening_of self.now.manager }
        requires phase { phase_of pass.old ≡ Phase.Idle }
        ensures pass { IsSamePass pass.old pass.new }
    {
        let Ok(()) = self.manager.register(pass, 0) else {
            return false;
        };
        let mut whole = true;
        for _ in 0..times {
            whole &= self.is_whole(pass);
        }
        self.manager.unregister(pass);
        whole
    }
}

// What is left of two callers' rows: the words of all of them.
fn close_both(
    alloc: Global,
    rows: Rows,
    first: Pass<Cells>,
    second: Pass<Cells>,
) -> Result<Vec<u64>, OpenFault>
    requires callers { callers_of rows.manager ≡ 2 }
    requires first { pass_opening first ≡ opening_of rows.manager }
    requires second { pass_opening second ≡ opening_of rows.manager }
{
    let mut passes = Vec::new(alloc);
    let (Ok(()), Ok(())) = (passes.push(first), passes.push(second)) else {
        return Err(OpenFault::OutOfMemory);
    };
    match rows.manager.close(passes) {
        Ok(closed) => Ok(closed.rows),
        Err(_) => Err(OpenFault::OutOfMemory),
    }
}

// Whether each row was whole that one thread read in the cell, so many times, while another replaced it as often.
fn use_both<R: Threads + Wait + Sync>(
    rt: &R,
    rows: &Rows,
    reader: &mut Pass<Cells>,
    writer: &mut Pass<Cells>,
    times: u32,
) -> bool
    requires reader { pass_opening reader.old ≡ opening_of rows.now.manager }
    requires writer { pass_opening writer.old ≡ opening_of rows.now.manager }
    requires idle { (phase_of reader.old ≡ Phase.Idle) × (phase_of writer.old ≡ Phase.Idle) }
    ensures reader { IsSamePass reader.old reader.new }
    ensures writer { IsSamePass writer.old writer.new }
{
    let mut whole = false;
    join_mut(
        rt,
        &mut || {
            whole = rows.stays_whole(reader, times);
        },
        &mut || rows.replace_often(rt, writer, times),
    );
    whole
}

/// Whether each row was whole that one thread read in a cell, so many times, while another replaced it as often; and the
/// words of all rows at the end.
pub fn read_while_replaced<R: Threads + Wait + Sync>(
    rt: &R,
    alloc: Global,
    times: u32,
) -> Result<(bool, Vec<u64>), OpenFault> {
    let shape = Shape {
        locales: 1,
        tokens: 2,
        objects: 64,
        width: 2,
    };
    let (manager, mut passes) = Manager::open(alloc, shape, Start::usual(), 2, Cells::new(1))?;
    let mut writer = manager.take_pass(&mut passes);
    let mut reader = manager.take_pass(&mut passes);
    let rows = Rows { manager };
    rows.replace_often(rt, &mut writer, 1);
    let whole = use_both(rt, &rows, &mut reader, &mut writer, times);
    let words = close_both(alloc, rows, reader, writer)?;
    Ok((whole, words))
}
