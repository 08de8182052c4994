//! Whole scripts.
ghost use Rattle.std.specs.Prelude.{◌≡◌, IfOk};
ghost use Rattle.script_engine.specs.Answers.{IsAnswer};
ghost use Rattle.script_engine.specs.Runs.{HaveAnswered};
ghost use Rattle.script_engine.specs.Says.{SaysBag, SaysDeque};
ghost use Rattle.script_text.specs.Scripts.{plain_script, plain_round, IsValid};

use crate::alone::run_alone;
use crate::many::run_shared;
use script_text::{ObjectLine, Replies, Script};
use seq_objects::AnyItem;
use shared_bag::Bag;
use shared_deque::Deque;
use shared_io::Gate;
use std::alloc::{AllocError, Global};
use std::sync::Wait;
use std::thread::Threads;

/// Runs a script, and answers the replies and what is left. A bag or a deque is shared: in each round every caller
/// with calls makes them in a thread of its own, and behind each round every caller learns what all have done. A
/// list has one caller, and runs as in `run_alone`. An error is want of memory.
pub fn run_script<R: Threads + Wait + Sync, G: Gate>(
    rt: &R,
    alloc: Global,
    script: &Script,
    gate: &G,
) -> Result<Replies, AllocError>
    requires { IsValid (plain_script script.now) }
    ensures answer { IfOk result (λ replies. IsAnswer (plain_script script.now) replies) }
{
    match script.object {
        ObjectLine::List { .. } => run_alone(alloc, script),
        ObjectLine::Bag {
            locales,
            segments,
            room,
        } => run_on_bag(rt, alloc, script, locales, segments, room, gate),
        ObjectLine::Deque { locales, capacity } => {
            run_on_deque(rt, alloc, script, locales, capacity, gate)
        }
    }
}

fn run_on_bag<R: Threads + Wait + Sync, G: Gate>(
    rt: &R,
    alloc: Global,
    script: &Script,
    locales: u8,
    segments: u32,
    room: u32,
    gate: &G,
) -> Result<Replies, AllocError>
    requires valid { IsValid (plain_script script.now) }
    requires object { script.now.object ≡ ObjectLine.Bag locales segments room }
    ensures answer { IfOk result (λ replies. IsAnswer (plain_script script.now) replies) }
{
    match Bag::open(alloc, locales, segments, room, script.callers, AnyItem) {
        Ok((bag, passes)) => { run_shared(rt, alloc, bag, passes, script.rounds.as_slice(), gate) }
        Err(_) => Err(AllocError),
    }
}

fn run_on_deque<R: Threads + Wait + Sync, G: Gate>(
    rt: &R,
    alloc: Global,
    script: &Script,
    locales: u8,
    capacity: u32,
    gate: &G,
) -> Result<Replies, AllocError>
    requires valid { IsValid (plain_script script.now) }
    requires object { script.now.object ≡ ObjectLine.Deque locales capacity }
    ensures answer { IfOk result (λ replies. IsAnswer (plain_script script.now) replies) }
{
    match Deque::open(alloc, locales, capacity, script.callers, AnyItem) {
        Ok((deque, passes)) => {
            run_shared(rt, alloc, deque, passes, script.rounds.as_slice(), gate)
        }
        Err(_) => Err(AllocError),
    }
}
