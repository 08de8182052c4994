//! A script of calls that is read from a text, run, and answered by a text.
ghost use Rattle.std.specs.Prelude.{◌≡◌, IfOk, string_bytes};
ghost use Rattle.script_text.specs.declared.replies.Replies.{Replies};
ghost use Rattle.script_text.specs.Replies.{replies_text};
ghost use Rattle.script_text.specs.Scripts.{PlainScript};
ghost use Rattle.script_engine.specs.Answers.{IsAnswer};

use anyhow::Result;
use script_engine::run_script;
use script_text::{read_script, write_replies};
use shared_io::{OpenGate, Source};
use std::alloc::Global;
use std::sync::Wait;
use std::thread::Threads;

/// The text of the replies to the script that the source gives, as `pgas run` prints it.
pub fn replies_to<R: Threads + Wait + Sync, S: Source>(
    rt: &R,
    alloc: Global,
    source: &mut S,
) -> Result<String>
    ensures { IfOk result (λ text. (script : PlainScript) × (replies : Replies) × IsAnswer script replies × (string_bytes text ≡ replies_text replies)) }
{
    let script = read_script(alloc, source)?;
    let replies = run_script(rt, alloc, &script, &OpenGate)?;
    let text = write_replies(alloc, &replies)?;
    Ok(text)
}
