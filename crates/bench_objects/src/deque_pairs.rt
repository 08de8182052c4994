//! Pairs of calls on a deque: a push at the back and a pop at the front.
ghost use Rattle.std.specs.Prelude.{◌≡◌};
ghost use Rattle.shared_deque.specs.Passes.{pass_opening};
ghost use Rattle.shared_deque.specs.Deques.{opening_of};

use crate::orders::{Form, Tally, Timed};
use anyhow::Result;
use seq_objects::AnyItem;
use shared_deque::{Deque, DequePass};
use std::rt::Clock;
use std::sync::Wait;
use std::thread::{Threads, map_vec};
use std::time::Instant;

// Room for an item of each thread, and more.
const CAPACITY: u32 = 1024;

fn make_tries(deque: &Deque<AnyItem>, pass: &mut DequePass<AnyItem>, pairs: u32) -> Tally
    requires { pass_opening pass.old ≡ opening_of deque.now }
{
    let mut tally = Tally::new();
    for number in 0..pairs {
        let put = deque.try_push_back(pass, u64::from(number)).is_ok();
        let taken = matches!(deque.try_pop_front(pass), Ok(Some(_)));
        tally.count(put, taken);
    }
    tally
}

fn make_waits<R: Wait>(
    rt: &R,
    deque: &Deque<AnyItem>,
    pass: &mut DequePass<AnyItem>,
    pairs: u32,
) -> Tally
    requires { pass_opening pass.old ≡ opening_of deque.now }
{
    let mut tally = Tally::new();
    for number in 0..pairs {
        let put = deque.push_back(rt, pass, u64::from(number)).is_ok();
        let taken = deque.pop_front(rt, pass).is_some();
        tally.count(put, taken);
    }
    tally
}

/// Opens a deque with a caller for each thread, and times the threads.
pub fn run<R: Threads + Wait + Sync + Clock + AllocGlobal>(
    rt: &R,
    form: Form,
    threads: u8,
    pairs: u32,
) -> Result<Timed> {
    let (deque, passes) = Deque::open(rt.alloc(), 1, CAPACITY, u32::from(threads), AnyItem)?;
    let begin = Instant::now(rt)?;
    let tallies = map_vec(
        rt,
        passes,
        &|mut pass: DequePass<AnyItem>| -> Tally
            requires { pass_opening pass ≡ opening_of deque }
        {
            match form {
                Form::Try => make_tries(&deque, &mut pass, pairs),
                Form::Wait => make_waits(rt, &deque, &mut pass, pairs),
            }
        },
    )?;
    let time = begin.elapsed(rt)?;
    Ok(Timed {
        time,
        tally: Tally::sum(tallies.as_slice()),
    })
}
