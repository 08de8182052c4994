ghost use Rattle.std.specs.Prelude.{◌≡◌, ℕ, List, Some, IfOk, MatchResult};
ghost use Rattle.line_text.specs.declared.faults.TextFault.{TextFault};
ghost use Rattle.line_text.specs.Readings.{IsExcuse, IsRefusal};
ghost use Rattle.script_text.specs.Reading.{Reading};
ghost use Rattle.script_text.specs.Scripts.{PlainScript, plain_script, IsValid};
ghost use Rattle.script_text.specs.ScriptText.{HasScript, IsRefused};
ghost use Rattle.shared_io.specs.Counts.{Rose};

use crate::drafts::ScriptDraft;
use crate::scripts::Script;
use line_text::{TextFault as ScriptFault, read_text};
use shared_io::Source;
use std::alloc::Global;

/// Reads a script from the source, up to the end of its line `end`.
///
/// A refusal is answered as soon as its byte has come, and nothing is asked for behind that byte or
/// behind the line `end`; what came in the same piece is lost. A bad line stands at the first byte with
/// which no line goes on in its place, at the LF that ends the line too early, or at the end of an input
/// that has no line `end`. A script is too large at the end of its call or `round` line number 2^20 + 1,
/// and at byte number 2^30 + 1, unless that is the LF of the line `end`. Of several the first in the
/// input is answered, and at one byte the number of bytes comes first.
pub fn read_script<S: Source>(alloc: Global, source: &mut S) -> Result<Script, ScriptFault>
    // What the answer says of the bytes that were read.
    ensures reading { Reading (S.left source.old) (S.left source.new) (S.faults source.old) (S.faults source.new) result }
    ensures valid { IfOk result (λ script. IsValid (plain_script script)) }

    // Where the source tells its bytes, the answer is that of the whole input.
    ensures accepted { (input : List ℕ) (script : PlainScript) → S.left source.old ≡ Some input → HasScript input (Unit {0}) script
        → MatchResult result (λ read. plain_script read ≡ script) (IsExcuse (Rose (S.faults source.old) (S.faults source.new))) }
    ensures refused { (input : List ℕ) (refusal : TextFault) → S.left source.old ≡ Some input → IsRefused input (Unit {0}) refusal
        → MatchResult result (λ _. ⊥) (IsRefusal refusal (Rose (S.faults source.old) (S.faults source.new))) }
{
    let mut draft = ScriptDraft::new(alloc);
    read_text(alloc, source, &mut draft)?;
    Ok(draft.finish()?)
}
