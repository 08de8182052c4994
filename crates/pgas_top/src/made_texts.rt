//! The text of each command, made whole before any of it is written.
ghost use Rattle.std.specs.Prelude.{◌<◌, ◌^◌, All};
ghost use Rattle.pgas_top.specs.Devices.{source_change};
ghost use Rattle.pgas_top.specs.MadeText.{IsMadeText};
ghost use Rattle.pgas_top.specs.Commands.{Request};

use crate::levels_text::write_levels;
use crate::statuses::Status;
use edge_text::read_edges;
use levels_engine::plain;
use run_text::{check_run, read_run, write_checked};
use script_engine::run_script;
use script_text::{read_script, write_replies};
use shared_io::{Gate, Source};
use std::alloc::Global;
use std::sync::Wait;
use std::thread::Threads;

/// The text of the levels of the edge list that the source has, or the status in its place.
pub(crate) fn levels_made<S: Source>(
    alloc: Global,
    sources: &[u32],
    source: &mut S,
) -> Result<Vec<u8>, Status>
    requires { All (λ vertex. vertex < 2 ^ 24) sources.now }
    ensures { IsMadeText (Request.Plain sources.now)
        (source_change S.left S.faults source.old source.new)
        result }
{
    let edges = read_edges(alloc, source)?;
    let levels = plain(alloc, &edges, sources)?;
    drop(edges);
    let text = write_levels(alloc, levels.as_slice())?;
    Ok(text)
}

/// The text of what the run that the source has lists, and whether it is one, or the status in its place.
pub(crate) fn check_made<S: Source>(alloc: Global, source: &mut S) -> Result<Vec<u8>, Status>
    ensures { IsMadeText Request.Check
        (source_change S.left S.faults source.old source.new)
        result }
{
    let run = read_run(alloc, source)?;
    let checked = check_run(alloc, &run)?;
    let listed = write_checked(alloc, &checked, run.steps.len())?;
    Ok(listed.into_bytes())
}

/// The text of the replies to the script that the source has, or the status in its place.
pub(crate) fn replies_made<S: Source, R: Threads + Wait + Sync, G: Gate>(
    rt: &R,
    alloc: Global,
    source: &mut S,
    gate: &G,
) -> Result<Vec<u8>, Status>
    ensures { IsMadeText Request.Run
        (source_change S.left S.faults source.old source.new)
        result }
{
    let script = read_script(alloc, source)?;
    let replies = run_script(rt, alloc, &script, gate)?;
    drop(script);
    let text = write_replies(alloc, &replies)?;
    Ok(text.into_bytes())
}
