ghost use Rattle.std.specs.Prelude.{◌≡◌, ℕ, List, Ok, OnOk};
ghost use Rattle.line_text.specs.Lines.{line_says, IsSaid};
ghost use Rattle.line_text.specs.Texts.{Rules};

use crate::forms::Form;
use shared_io::TooKind;
use std::alloc::AllocError;

/// What the lines of a text make, one after another.
pub trait Draft<L: Copy, F: Form<L>> {
    /// What a draft is, as contracts see it.
    type Progress;

    /// The kind of rules.
    ghost rules: { Rules Self.Progress F L };

    ghost progress: { Self → Self.Progress };

    /// Where the next line starts.
    fn start(&self) -> F
        ensures start { result ≡ rules.start (progress self.now) }
        ensures form { F.is_form result };

    /// Whether the line is one of those of which a text has at most so many.
    fn counts(&self, said: Option<L>) -> bool
        ensures { result ≡ rules.counts said };

    fn most(&self) -> u64
        ensures { result ≡ rules.most };

    /// The limit of those lines.
    fn kind(&self) -> TooKind
        ensures { result ≡ rules.kind };

    /// Whether the text ends with the LF of the line.
    fn ends(&self, said: Option<L>) -> bool
        ensures { result ≡ rules.ends said };

    /// Whether the text may end with the line where the input does.
    fn may_be_last(&self, said: Option<L>) -> bool
        ensures { result ≡ rules.may_be_last said };

    /// Takes what a line says that may come next.
    fn take(&mut self, said: Option<L>) -> Result<(), AllocError>
        requires said { IsSaid F.grammar F.is_form said }
        requires line { (line : List ℕ) × (line_says F.grammar (rules.start (progress self.old)) line ≡ Ok said) }
        ensures { OnOk result (progress self.new ≡ rules.after (progress self.old) said) };
}
