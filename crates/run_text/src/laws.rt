//! What holds of every input, and of every run that is written.
ghost use Rattle.std.specs.Prelude.{ℕ, List};
ghost use Rattle.run_text.specs.Reading.{MeansOne};
ghost use Rattle.run_text.specs.Runs.{PlainRun};
ghost use Rattle.run_text.specs.Written.{ReadBack};

/// An input is the text of one run, or is refused at one place for one cause, and never both. So the
/// answer of the reader to a whole input is a function of it, but for failures and want of memory.
#[tactic(auto, using(crate::proofs::Readings::means_one))]
pub fn inputs_mean_one()
    ensures { (input : List ℕ) → MeansOne input }
{}

/// What `write_run` writes of a run reads back as the same shape, start, seats and steps; the k-th step
/// stands in line k + 4.
#[tactic(auto, using(crate::proofs::WrittenRuns::run_read_back))]
pub fn written_runs_read_back()
    ensures { (run : PlainRun) → ReadBack run }
{}
