//! Scripts of many callers on an object that they share.
ghost use Rattle.std.specs.Prelude.{◌≡◌, ℕ, ◌<◌, ◌^◌, List, [], length, map, All, IfOk, OnOk};
ghost use Rattle.script_engine.specs.Runs.{HaveRun, HaveAnswered, IsAskedOf, AreNew, AreHired, AreDismissed, calls_of};
ghost use Rattle.script_engine.specs.Workers.{AreReady, AreOwn, RunsOn};
ghost use Rattle.script_text.specs.Scripts.{plain_round};

use crate::notes::synchronize;
use crate::rounds::{Worker, work_all};
use crate::shared::Shared;
use script_text::{Call, Left, Replies, Reply, Round};
use shared_io::Gate;
use std::alloc::{AllocError, Global};
use std::sync::Wait;
use std::thread::Threads;

/// Runs the rounds on the object, which was opened for these passes, and closes it.
pub(crate) fn run_shared<P: Send + Drop, O: Shared<Pass = P>, R: Threads + Wait + Sync, G: Gate>(
    rt: &R,
    alloc: Global,
    object: O,
    passes: Vec<P>,
    rounds: &[Round],
    gate: &G,
) -> Result<Replies, AllocError>
    requires some { 0 < O.callers object }
    requires new { AreNew (O.fits object) O.caller O.page (O.callers object) passes.items }
    requires asked { All (IsAskedOf (O.asks object) (O.callers object)) (map plain_round rounds.now) }
    requires few { (caller : ℕ) → length (calls_of caller (map plain_round rounds.now)) < 2 ^ 32 }
    ensures { IfOk result (λ replies. HaveAnswered (O.says object) (O.leaves object) (O.callers object) (map plain_round rounds.now) replies) }
{
    let mut workers = hire(alloc, passes)?;
    run_rounds(rt, &alloc, &object, rounds, gate, workers.as_mut_slice())?;
    let (passes, callers) = dismiss(alloc, workers)?;
    let items = object.finish(passes)?;
    Ok(Replies {
        callers,
        left: Left::Items { items },
    })
}

/// A worker for each pass.
fn hire<P: Send + Drop>(alloc: Global, passes: Vec<P>) -> Result<Vec<Worker<P>>, AllocError>
    ensures { IfOk result (λ workers. AreHired passes.items workers.items) }
{
    let mut workers = Vec::with_capacity(alloc, passes.len())?;
    for pass in passes {
        workers.push(Worker {
            pass,
            replies: Vec::new(alloc),
        })?;
    }
    Ok(workers)
}

/// The workers' passes, and their replies.
fn dismiss<P: Send + Drop>(
    alloc: Global,
    workers: Vec<Worker<P>>,
) -> Result<(Vec<P>, Vec<Vec<Reply>>), AllocError>
    ensures { IfOk result (λ r. AreDismissed workers.items r.0.items (map (λ replies. replies.items) r.1.items)) }
{
    let mut passes = Vec::with_capacity(alloc, workers.len())?;
    let mut replies = Vec::with_capacity(alloc, workers.len())?;
    for worker in workers {
        passes.push(worker.pass)?;
        replies.push(worker.replies)?;
    }
    Ok((passes, replies))
}

/// Runs the rounds, one after another. Behind each every caller learns what all have done.
fn run_rounds<P: Send + Drop, O: Shared<Pass = P>, R: Threads + Wait + Sync, G: Gate>(
    rt: &R,
    alloc: &Global,
    object: &O,
    rounds: &[Round],
    gate: &G,
    workers: &mut [Worker<P>],
) -> Result<(), AllocError>
    requires some { 0 < length workers.old }
    requires new { HaveRun (O.fits object.now) O.caller O.page (O.says object.now) [] workers.old }
    requires asked { All (IsAskedOf (O.asks object.now) (length workers.old)) (map plain_round rounds.now) }
    requires few { (caller : ℕ) → length (calls_of caller (map plain_round rounds.now)) < 2 ^ 32 }
    ensures { OnOk result (HaveRun (O.fits object.now) O.caller O.page (O.says object.now) (map plain_round rounds.now) workers.new) }
{
    for round in rounds {
        run_round(rt, alloc, object, round.calls.as_slice(), gate, workers)?;
    }
    Ok(())
}

/// Runs one round more.
fn run_round<P: Send + Drop, O: Shared<Pass = P>, R: Threads + Wait + Sync, G: Gate>(
    rt: &R,
    alloc: &Global,
    object: &O,
    calls: &[Vec<Call>],
    gate: &G,
    workers: &mut [Worker<P>],
) -> Result<(), AllocError>
    requires some { 0 < length workers.old }
    requires ready { AreReady (O.fits object.now) (O.asks object.now) workers.old calls.now }
    requires own { AreOwn O.caller O.page workers.old }
    ensures { OnOk result (RunsOn (O.fits object.now) O.caller O.page (O.says object.now) calls.now workers.old workers.new) }
{
    work_all(rt, alloc, object, calls, gate, workers)?;
    synchronize(object, calls, workers);
    Ok(())
}
