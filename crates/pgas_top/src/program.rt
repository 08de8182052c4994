ghost use Rattle.std.specs.Prelude.{ℕ, List, Option, ◌<◌, ◌≤◌, ◌^◌, All, map, string_bytes};
ghost use Rattle.pgas_top.specs.Commands.{NeedsOneThread, Request, request_of};
ghost use Rattle.pgas_top.specs.Devices.{SourceChange, source_change, sink_change};
ghost use Rattle.pgas_top.specs.MadeText.{IsMadeText};
ghost use Rattle.pgas_top.specs.Outcome.{Outcome, Ran};

use crate::commands::{Command, command_of, is_run};
use crate::made_lists::write_made;
use crate::made_texts::{check_made, levels_made, replies_made};
use crate::statuses::{Status, report};
use shared_io::{Gate, Sink, Source, write_whole};
use std::alloc::Global;
use std::sync::Wait;
use std::thread::Threads;

/// Carries out the command that the words name, and answers how it ended. `main` hands in the words
/// after the program's name, standard input, output and error, and a gate that holds nobody.
pub fn run<S: Source, K: Sink, F: Sink, G: Gate>(
    rt: &(impl Threads + Wait + Sync),
    alloc: Global,
    words: &[String],
    source: &mut S,
    sink: &mut K,
    faults: &mut F,
    gate: &G,
) -> Status
    ensures outcome { Outcome (λ _. Unit {0}) (map string_bytes words.now)
        (source_change S.left S.faults source.old source.new)
        (sink_change K.taken K.faults K.refusals sink.old sink.new)
        (sink_change F.taken F.faults F.refusals faults.old faults.new)
        result }
{
    if is_run(words) {
        report(run_script(rt, alloc, source, sink, gate), faults)
    } else {
        run_plain(alloc, words, source, sink, faults)
    }
}

/// Carries out a command that needs one thread alone. Every other command's words are bad words here.
pub fn run_plain<S: Source, K: Sink, F: Sink>(
    alloc: Global,
    words: &[String],
    source: &mut S,
    sink: &mut K,
    faults: &mut F,
) -> Status
    ensures outcome { Outcome NeedsOneThread (map string_bytes words.now)
        (source_change S.left S.faults source.old source.new)
        (sink_change K.taken K.faults K.refusals sink.old sink.new)
        (sink_change F.taken F.faults F.refusals faults.old faults.new)
        result }
{
    let named = match command_of(alloc, words) {
        Ok(named) => named,
        Err(_) => return report(Status::OutOfMemory, faults),
    };
    match named {
        Some(Command::Plain { sources }) => report(
            run_levels(alloc, sources.as_slice(), source, sink),
            faults,
        ),
        Some(Command::Check) => report(run_check(alloc, source, sink), faults),
        Some(
            Command::Make {
                seed,
                vertices,
                edges,
            },
        ) => report(run_make(seed, vertices, edges, sink), faults),
        None => report(Status::BadWords, faults),
    }
}

/// The command `plain`: reads the edge list to its end, and writes the text of its levels.
fn run_levels<S: Source, K: Sink>(
    alloc: Global,
    sources: &[u32],
    source: &mut S,
    sink: &mut K,
) -> Status
    requires { All (λ vertex. vertex < 2 ^ 24) sources.now }
    ensures ran { Ran (Request.Plain sources.now)
        (source_change S.left S.faults source.old source.new)
        (sink_change K.taken K.faults K.refusals sink.old sink.new)
        result }
{
    write_out(levels_made(alloc, sources, source), sink)
}

/// The command `check`: reads steps to the line `end`, and writes what they list and whether they are a run.
fn run_check<S: Source, K: Sink>(alloc: Global, source: &mut S, sink: &mut K) -> Status
    ensures ran { Ran Request.Check
        (source_change S.left S.faults source.old source.new)
        (sink_change K.taken K.faults K.refusals sink.old sink.new)
        result }
{
    write_out(check_made(alloc, source), sink)
}

/// The command `run`: reads the script to its line `end`, and writes the text of its replies.
fn run_script<S: Source, K: Sink, R: Threads + Wait + Sync, G: Gate>(
    rt: &R,
    alloc: Global,
    source: &mut S,
    sink: &mut K,
    gate: &G,
) -> Status
    ensures ran { Ran Request.Run
        (source_change S.left S.faults source.old source.new)
        (sink_change K.taken K.faults K.refusals sink.old sink.new)
        result }
{
    write_out(replies_made(rt, alloc, source, gate), sink)
}

/// The command `make`: writes the edge list that the seed has. It reads nothing.
fn run_make<K: Sink>(seed: u64, vertices: u32, edges: u32, sink: &mut K) -> Status
    requires some { 0 < vertices }
    requires few { vertices ≤ 2 ^ 24 }
    ensures ran { (left : Option (List ℕ)) (count : ℕ) → Ran (Request.Make seed vertices edges)
        (record { left_before = left; left_after = left; faults_before = count; faults_after = count })
        (sink_change K.taken K.faults K.refusals sink.old sink.new)
        result }
{
    match write_made(sink, seed, vertices, edges) {
        Ok(()) => Status::Done,
        Err(cause) => Status::from(cause),
    }
}

/// Writes the text, or answers why there is none.
fn write_out<K: Sink>(made: Result<Vec<u8>, Status>, sink: &mut K) -> Status
    ensures ran { (command : Request) (source : SourceChange) → IsMadeText command source made → Ran command source
        (sink_change K.taken K.faults K.refusals sink.old sink.new)
        result }
{
    match made {
        Ok(text) => match write_whole(sink, text.as_slice()) {
            Ok(()) => Status::Done,
            Err(fault) => Status::from(fault),
        },
        Err(status) => status,
    }
}
