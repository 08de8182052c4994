//! A text of steps of the epoch machine, which is read, checked and answered by a text.
ghost use Rattle.std.specs.Prelude.{◌≡◌, ℕ, IfOk, string_bytes};
ghost use Rattle.run_text.specs.declared.checking.Checked.{Checked};
ghost use Rattle.run_text.specs.Checks.{IsLegalIn, IsVerdict};
ghost use Rattle.run_text.specs.Listing.{checked_text};
ghost use Rattle.run_text.specs.Runs.{PlainRun};

use anyhow::Result;
use run_text::{check_run, read_run, write_checked};
use shared_io::Source;
use std::alloc::Global;

/// What the steps list that the source gives, and whether they are a run, as `pgas check` prints it.
pub fn check_text<S: Source>(alloc: Global, source: &mut S) -> Result<String>
    ensures { IfOk result (λ text. (run : PlainRun) × (checked : Checked) × IsVerdict run checked.end × IsLegalIn run checked.items.items
        × (steps : ℕ) × (string_bytes text ≡ checked_text checked.items.items checked.end steps)) }
{
    let steps = read_run(alloc, source)?;
    let checked = check_run(alloc, &steps)?;
    let text = write_checked(alloc, &checked, steps.steps.len())?;
    Ok(text)
}
