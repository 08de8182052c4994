//! Pairs of calls on a bag: an add to the thread's own locale, and a removal.
ghost use Rattle.std.specs.Prelude.{◌≡◌};
ghost use Rattle.shared_bag.specs.Passes.{pass_opening};
ghost use Rattle.shared_bag.specs.Bags.{opening_of};

use crate::orders::{Form, Tally, Timed};
use anyhow::Result;
use seq_objects::AnyItem;
use shared_bag::{Bag, BagPass};
use std::rt::Clock;
use std::sync::Wait;
use std::thread::{Threads, map_vec};
use std::time::Instant;

// Each locale has so many segments, each with room for so many items.
const SEGMENTS: u32 = 4;

const ROOM: u32 = 1024;

fn make_tries(bag: &Bag<AnyItem>, pass: &mut BagPass<AnyItem>, pairs: u32) -> Tally
    requires { pass_opening pass.old ≡ opening_of bag.now }
{
    let mut tally = Tally::new();
    for number in 0..pairs {
        let put = bag.try_add(pass, u64::from(number)).is_ok();
        let taken = matches!(bag.try_remove(pass), Ok(Some(_)));
        tally.count(put, taken);
    }
    tally
}

fn make_waits<R: Wait>(rt: &R, bag: &Bag<AnyItem>, pass: &mut BagPass<AnyItem>, pairs: u32) -> Tally
    requires { pass_opening pass.old ≡ opening_of bag.now }
{
    let mut tally = Tally::new();
    for number in 0..pairs {
        let put = bag.add(rt, pass, u64::from(number)).is_ok();
        let taken = bag.remove(rt, pass).is_some();
        tally.count(put, taken);
    }
    tally
}

/// Opens a bag with a caller and a locale for each thread, and times the threads.
pub fn run<R: Threads + Wait + Sync + Clock + AllocGlobal>(
    rt: &R,
    form: Form,
    threads: u8,
    pairs: u32,
) -> Result<Timed> {
    let callers = u32::from(threads);
    let (bag, passes) = Bag::open(rt.alloc(), threads, SEGMENTS, ROOM, callers, AnyItem)?;
    let begin = Instant::now(rt)?;
    let tallies = map_vec(
        rt,
        passes,
        &|mut pass: BagPass<AnyItem>| -> Tally
            requires { pass_opening pass ≡ opening_of bag }
        {
            match form {
                Form::Try => make_tries(&bag, &mut pass, pairs),
                Form::Wait => make_waits(rt, &bag, &mut pass, pairs),
            }
        },
    )?;
    let time = begin.elapsed(rt)?;
    Ok(Timed {
        time,
        tally: Tally::sum(tallies.as_slice()),
    })
}
