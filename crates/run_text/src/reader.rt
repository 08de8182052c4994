ghost use Rattle.std.specs.Prelude.{◌≡◌, ℕ, List, Some, IfOk, MatchResult};
ghost use Rattle.line_text.specs.declared.faults.TextFault.{TextFault};
ghost use Rattle.line_text.specs.Readings.{IsExcuse, IsRefusal};
ghost use Rattle.shared_io.specs.Counts.{Rose};
ghost use Rattle.run_text.specs.Reading.{Reading};
ghost use Rattle.run_text.specs.RunText.{HasRun, IsRefused};
ghost use Rattle.run_text.specs.Runs.{IsOpening, PlainRun, plain_run};

use crate::drafts::RunDraft;
use crate::runs::RunText;
use line_text::{TextFault as RunFault, read_text};
use shared_io::Source;
use std::alloc::Global;

/// Reads the text of a run up to its line `end`, and answers it with the line of each step.
///
/// The lines are `pgas-run 1`, `shape LOCALES TOKENS OBJECTS WIDTH`, `start EPOCH COUNT STACK`, `seats N`,
/// then steps, then `end`; a step is the number of a seat and a kind with its arguments. Blank lines and
/// comments may stand between them. Words are parted by blanks; a blank is a space, a tab or CR. Numbers
/// are decimal digits, leading zeros allowed.
///
/// `BadLine` stands at the first byte with which no line goes on, or at the end that comes before `end`.
/// `TooLarge` stands at the end of step line number 2^20 + 1, and at byte number 2^30 + 1. The first in the
/// input is answered, and nothing is asked for behind it, nor behind `end`; what came in the same piece is
/// lost.
pub fn read_run<S: Source>(alloc: Global, source: &mut S) -> Result<RunText, RunFault>
    // What the answer says of the bytes that were read.
    ensures reading { Reading (S.left source.old) (S.left source.new) (S.faults source.old) (S.faults source.new) result }
    ensures opens { IfOk result (λ run. IsOpening run.shape run.start run.seats) }

    // Where the source tells its bytes, the answer is that of the whole input.
    ensures accepted { (input : List ℕ) (run : PlainRun) → S.left source.old ≡ Some input → HasRun input (Unit {0}) run
        → MatchResult result (λ answer. plain_run answer ≡ run) (IsExcuse (Rose (S.faults source.old) (S.faults source.new))) }
    ensures refused { (input : List ℕ) (refusal : TextFault) → S.left source.old ≡ Some input → IsRefused input (Unit {0}) refusal
        → MatchResult result (λ _. ⊥) (IsRefusal refusal (Rose (S.faults source.old) (S.faults source.new))) }
{
    let mut draft = RunDraft::new(alloc);
    read_text(alloc, source, &mut draft)?;
    Ok(draft.finish())
}
