//! Rounds of calls, each caller in a thread of its own.
ghost use Rattle.std.specs.Prelude.{◌≡◌, ◌+◌, ◌<◌, ◌^◌, ◌≤◌, false, length, IsOk, OnOk};
ghost use Rattle.std.specs.Thread.{IsSync};
ghost use Rattle.script_engine.specs.Workers.{AllWorked, AreReady, AreIdle};

use crate::calls::make_each;
use crate::shared::Shared;
use script_text::{Call, Reply};
use shared_io::Gate;
use std::alloc::{AllocError, Global};
use std::sync::Wait;
use std::thread::{Threads, join_mut};

/// A caller of the script: its pass and its replies so far.
#[derive(Drop)]
pub(crate) struct Worker<P> {
    pub pass: P,
    pub replies: Vec<Reply>,
}

/// Whether somebody has a call to make.
fn is_busy(calls: &[Vec<Call>]) -> bool
    ensures { result ≡ false → AreIdle calls.now }
{
    for its in calls {
        if !its.is_empty() {
            return true;
        }
    }
    false
}

/// Makes the calls of one caller, or of none, and adds their replies.
fn work_alone<P: Send + Drop, O: Shared<Pass = P>, R: Wait, G: Gate>(
    rt: &R,
    alloc: &Global,
    object: &O,
    calls: &[Vec<Call>],
    gate: &G,
    workers: &mut [Worker<P>],
) -> Result<(), AllocError>
    requires few { length workers.old < 2 }
    requires ready { AreReady (O.fits object.now) (O.asks object.now) workers.old calls.now }
    ensures { OnOk result (AllWorked (O.fits object.now) O.caller O.page (O.says object.now) workers.old calls.now workers.new) }
{
    let Some(its) = calls.first() else {
        return Ok(());
    };
    let Some(worker) = workers.first_mut() else {
        return Ok(());
    };
    let first = worker.replies.len() as u32;
    let told = make_each(
        rt,
        *alloc,
        object,
        &mut worker.pass,
        its.as_slice(),
        first,
        gate,
    )?;
    worker.replies.extend_from_slice(told.as_slice())
}

/// Makes the calls of several callers, each in a thread of its own. A caller without calls has none.
#[cycle(workers)]
pub(crate) fn work_all<P: Send + Drop, O: Shared<Pass = P>, R: Threads + Wait + Sync, G: Gate>(
    rt: &R,
    alloc: &Global,
    object: &O,
    calls: &[Vec<Call>],
    gate: &G,
    workers: &mut [Worker<P>],
) -> Result<(), AllocError>
    requires { AreReady (O.fits object.now) (O.asks object.now) workers.old calls.now }
    ensures { OnOk result (AllWorked (O.fits object.now) O.caller O.page (O.says object.now) workers.old calls.now workers.new) }
{
    if workers.len() < 2 {
        return work_alone(rt, alloc, object, calls, gate, workers);
    }
    let middle = workers.len() / 2;
    let (before, behind) = calls.split_at(middle);
    if !is_busy(before) {
        let (_, right) = workers.split_at_mut(middle);
        return work_all(rt, alloc, object, behind, gate, right);
    }
    if !is_busy(behind) {
        let (left, _) = workers.split_at_mut(middle);
        return work_all(rt, alloc, object, before, gate, left);
    }
    work_halves(rt, alloc, object, calls, gate, workers)
}

/// Both are well, or memory ran out in one.
fn both(one: Result<(), AllocError>, other: Result<(), AllocError>) -> Result<(), AllocError>
    ensures { OnOk result (IsOk one × IsOk other) }
{
    one?;
    other
}

/// Makes the calls of both halves of the callers side by side.
#[cycle(workers)]
fn work_halves<P: Send + Drop, O: Shared<Pass = P>, R: Threads + Wait + Sync, G: Gate>(
    rt: &R,
    alloc: &Global,
    object: &O,
    calls: &[Vec<Call>],
    gate: &G,
    workers: &mut [Worker<P>],
) -> Result<(), AllocError>
    requires several { 2 ≤ length workers.old }
    requires ready { AreReady (O.fits object.now) (O.asks object.now) workers.old calls.now }
    ensures { OnOk result (AllWorked (O.fits object.now) O.caller O.page (O.says object.now) workers.old calls.now workers.new) }
{
    let middle = workers.len() / 2;
    let (before, behind) = calls.split_at(middle);
    let (left, right) = workers.split_at_mut(middle);
    let (one, other) = join_mut(
        rt,
        &mut || -> Result<(), AllocError>
            requires sync { IsSync R.row }
            requires ready { AreReady (O.fits object.now) (O.asks object.now) left.now before.now }
            ensures { OnOk result (AllWorked (O.fits object.entry.now) O.caller O.page (O.says object.entry.now) left.entry.now before.entry.now left.exit.now) }
        { work_all(rt, alloc, object, before, gate, left) },
        &mut || -> Result<(), AllocError>
            requires sync { IsSync R.row }
            requires ready { AreReady (O.fits object.now) (O.asks object.now) right.now behind.now }
            ensures { OnOk result (AllWorked (O.fits object.entry.now) O.caller O.page (O.says object.entry.now) right.entry.now behind.entry.now right.exit.now) }
        { work_all(rt, alloc, object, behind, gate, right) },
    );
    both(one, other)
}
