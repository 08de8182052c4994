//! Turns on the one cell of a manager that all threads share: a read of what it names, or its replacement.
ghost use Rattle.std.specs.Prelude.{◌≡◌, ◌<◌, IfSome, Contains};
ghost use Rattle.epoch_laws.specs.declared.tokens.Token.{Token};
ghost use Rattle.epoch_manager.specs.Cells.{IsCut};
ghost use Rattle.epoch_manager.specs.Managers.{plan_of, opening_of, shape_of, pass_opening, phase_of, owned_by, knows};

use crate::orders::{Tally, Timed, Turn};
use anyhow::Result;
use epoch_manager::{Cells, Manager, Pass, Phase};
use pgas_base::{Ptr, Shape, Spot, Start};
use std::rt::Clock;
use std::sync::Wait;
use std::thread::{Threads, map_vec};
use std::time::Instant;

// More objects of each locale than those that wait to be released.
const OBJECTS: u32 = 1024;

const TURNS_FOR_A_RECLAIM: u32 = 64;

const CELL: Spot = Spot::Own { word: 0 };

/// A manager with a cell, whose rows have two words.
#[derive(Drop)]
struct Rows {
    manager: Manager<Cells>,
    locales: u8,
    ghost cell: { 0 < (plan_of manager).own },
    ghost width: { 1 < (shape_of manager).width },
    ghost many: { (shape_of manager).locales ≡ locales },
    ghost some: { 0 < locales },
}

impl Rows {
    // Pins, reads what the cell names, and unpins. Whether it names anything.
    fn read(&self, pass: &mut Pass<Cells>) -> bool
        requires opening { pass_opening pass.old ≡ opening_of self.now.manager }
        requires phase { (token : Token) × (phase_of pass.old ≡ Phase.Registered token) }
        ensures opening { pass_opening pass.new ≡ pass_opening pass.old }
        ensures phase { phase_of pass.new ≡ phase_of pass.old }
    {
        self.manager.pin(pass);
        let found = match self.manager.hold(pass, CELL) {
            Some(row) => {
                let _ = self.manager.read(pass, row, 0);
                true
            }
            None => false,
        };
        self.manager.unpin(pass);
        found
    }

    fn read_often(&self, pass: &mut Pass<Cells>, turns: u32) -> Tally
        requires opening { pass_opening pass.old ≡ opening_of self.now.manager }
        requires phase { (token : Token) × (phase_of pass.old ≡ Phase.Registered token) }
    {
        let mut tally = Tally::new();
        for _ in 0..turns {
            tally.count(true, self.read(pass));
        }
        tally
    }

    // Shows a row and puts it into the cell. What was there is cut out.
    #[tactic(auto, using(epoch_manager::proofs::CellCalls::shown_may_be_put, epoch_manager::proofs::CellCalls::found_is_cut))]
    fn put(&self, pass: &mut Pass<Cells>, row: Ptr) -> Option<Ptr>
        requires opening { pass_opening pass.old ≡ opening_of self.now.manager }
        requires owned { Contains (owned_by pass.old) row }
        ensures opening { pass_opening pass.new ≡ pass_opening pass.old }
        ensures phase { phase_of pass.new ≡ phase_of pass.old }
        ensures cut { IfSome result (λ old. IsCut (knows pass.new) old) }
    {
        self.manager.show(pass, row);
        let word = self.manager.switch(pass, CELL, row.word());
        Ptr::of_word(word)
    }

    // Takes an object of the locale, fills its row, pins, puts it into the cell in place of what stood there, defers that,
    // and unpins. Whether the cell named an object. `None` where no object was free.
    fn replace<R: Wait>(
        &self,
        rt: &R,
        pass: &mut Pass<Cells>,
        locale: u8,
        number: u32,
    ) -> Option<bool>
        requires opening { pass_opening pass.old ≡ opening_of self.now.manager }
        requires phase { (token : Token) × (phase_of pass.old ≡ Phase.Registered token) }
        requires locale { locale < self.now.locales }
        ensures opening { pass_opening pass.new ≡ pass_opening pass.old }
        ensures phase { phase_of pass.new ≡ phase_of pass.old }
    {
        let Ok(row) = self.manager.take(rt, pass, locale) else {
            return None;
        };
        self.manager.fill(pass, row, 0, u64::from(number));
        self.manager.fill(pass, row, 1, u64::from(number));
        self.manager.pin(pass);
        let cut = self.put(pass, row);
        if let Some(old) = cut {
            self.manager.defer_delete(pass, old);
        }
        self.manager.unpin(pass);
        Some(cut.is_some())
    }

    fn replace_often<R: Wait>(
        &self,
        rt: &R,
        pass: &mut Pass<Cells>,
        locale: u8,
        turns: u32,
    ) -> Tally
        requires opening { pass_opening pass.old ≡ opening_of self.now.manager }
        requires phase { (token : Token) × (phase_of pass.old ≡ Phase.Registered token) }
        requires locale { locale < self.now.locales }
    {
        let mut tally = Tally::new();
        for number in 0..turns {
            let replaced = self.replace(rt, pass, locale, number);
            tally.count(replaced.is_some(), replaced == Some(true));
            if replaced.is_none() || number % TURNS_FOR_A_RECLAIM == 0 {
                let _ = self.manager.try_reclaim(pass);
            }
        }
        tally
    }

    // The turns of one thread, with a token of the locale to which its caller belongs.
    fn make_turns<R: Wait>(&self, rt: &R, pass: &mut Pass<Cells>, turn: Turn, turns: u32) -> Tally
        requires opening { pass_opening pass.old ≡ opening_of self.now.manager }
        requires phase { phase_of pass.old ≡ Phase.Idle }
    {
        let locale = (pass.caller() % u32::from(self.locales)) as u8;
        let Ok(()) = self.manager.register(pass, locale) else {
            return Tally::new();
        };
        match turn {
            Turn::Read => self.read_often(pass, turns),
            Turn::Replace => self.replace_often(rt, pass, locale, turns),
        }
    }
}

/// Opens a manager of one cell with a caller and a locale for each thread, puts an object into the cell, and times the
/// threads.
pub fn run<R: Threads + Wait + Sync + Clock + AllocGlobal>(
    rt: &R,
    turn: Turn,
    threads: u8,
    turns: u32,
) -> Result<Timed>
    requires { 0 < threads }
{
    let shape = Shape {
        locales: threads,
        tokens: 2,
        objects: OBJECTS,
        width: 2,
    };
    let callers = u32::from(threads) + 1;
    let (manager, mut passes) = Manager::open(
        rt.alloc(),
        shape,
        Start::usual(),
        callers,
        Cells::new(1),
    )?;
    let mut opener = manager.take_pass(&mut passes);
    let rows = Rows {
        manager,
        locales: threads,
    };
    rows.make_turns(rt, &mut opener, Turn::Replace, 1);
    let begin = Instant::now(rt)?;
    let tallies = map_vec(
        rt,
        passes,
        &|mut pass: Pass<Cells>| -> Tally
            requires { (pass_opening pass ≡ opening_of rows.manager) × (phase_of pass ≡ Phase.Idle) }
        { rows.make_turns(rt, &mut pass, turn, turns) },
    )?;
    let time = begin.elapsed(rt)?;
    Ok(Timed {
        time,
        tally: Tally::sum(tallies.as_slice()),
    })
}
