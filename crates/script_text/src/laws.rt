//! What holds of every input.
ghost use Rattle.std.specs.Prelude.{ℕ, List};
ghost use Rattle.script_text.specs.ScriptText.{MeansOne};

/// An input is the text of one script, or is refused at one place for one cause, and never both. So the
/// answer of a reader to a whole input is a function of it, but for failures and want of memory.
#[tactic(auto, using(crate::proofs::Readings::means_one))]
pub fn inputs_mean_one()
    ensures { (input : List ℕ) → MeansOne input }
{}
