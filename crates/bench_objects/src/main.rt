//! The program `bench_objects`: times pairs of calls on a shared deque or a shared bag, or turns on a cell of a manager, each of
//! some threads making as many with a pass of its own.
//!
//! It does one order after another, each of four words. Of each it says on standard output how many items were put in and taken
//! out, and on standard error how many nanoseconds a call of one thread took, or a turn, from before the threads start until all
//! have ended. Opening isn't timed.
#![tactic(auto)]

mod bag_pairs;
mod deque_pairs;
mod epoch_turns;
mod orders;

use anyhow::Result;
use orders::{Order, Timed, Work};
use std::env;
use std::rt::Clock;
use std::sync::Wait;
use std::thread::Threads;

const USAGE: &str =
    "bench_objects ORDER.., where an order is deque|bag try|wait THREADS PAIRS, or epochs read|replace THREADS TURNS";

fn time<R: Threads + Wait + Sync + Clock + AllocGlobal>(rt: &R, order: Order) -> Result<Timed> {
    match order.work {
        Work::Deque(form) => deque_pairs::run(rt, form, order.threads, order.times),
        Work::Bag(form) => bag_pairs::run(rt, form, order.threads, order.times),
        Work::Epochs(turn) => epoch_turns::run(rt, turn, order.threads, order.times),
    }
}

fn main(rt: HostRuntime) -> Result<()> {
    let words: Vec<String> = env::args(&rt)?.skip(1).collect(rt.alloc())?;
    for four in words.as_slice().chunks(4) {
        let Some(order) = Order::from_words(four) else {
            println!(rt; "{USAGE}")?;
            return Ok(());
        };
        let timed = time(&rt, order)?;
        let tenths = timed.tenths(order);
        let whole = tenths / 10;
        let part = tenths % 10;
        eprintln!(rt; "{whole}.{part} ns a call")?;
        let put = timed.tally.put;
        let taken = timed.tally.taken;
        println!(rt; "put {put}, taken {taken}")?;
    }
    Ok(())
}
