ghost use Rattle.std.specs.Prelude.{◌≡◌, ◌<◌, ◌≤◌, length, Some};
ghost use Rattle.line_text.specs.Lines.{Grammar, IsGrammar, word_at};

use shared_io::TooKind;

/// Why no line goes on.
#[derive(Clone, Copy, Debug, PartialEq, Eq)]
pub enum Reject {
    /// With the byte no line goes on, or it ends the line too early.
    Bad,
    /// A line may go on with the byte, but none that keeps this limit.
    TooLarge { kind: TooKind },
}

/// The numbers that may stand in a place.
#[derive(Clone, Copy, Debug, PartialEq, Eq)]
pub struct Bounds {
    /// At most 9, so that each digit shows whether a number in the bounds can still come of it.
    pub least: u64,
    pub most: u64,
    /// What a digit is that makes the number greater than `most`. It is `Bad` where `least` isn't 0.
    pub above: Reject,
}

/// What a line may be, word by word. A value stands behind some words of a line, or at its start, and
/// says which words may come next: one of some literal words, or a number.
pub trait Form<L: Copy>: Copy {
    /// What the words of a line say.
    ghost grammar: { Grammar Self L };

    /// What holds of each form that words lead to.
    ghost is_form: { Self → Type 0 };

    /// How many literal words may come next.
    fn word_count(self) -> usize
        ensures { result ≡ length (grammar.words self) };

    /// The literal word of this number.
    fn word(self, index: usize) -> &'static [u8]
        requires { index < length (grammar.words self) }
        ensures { result.now ≡ word_at grammar self index };

    /// Where the literal word of this number leads.
    fn after_word(self, index: usize) -> Self
        requires form { is_form self }
        requires word { index < length (grammar.words self) }
        ensures { result ≡ grammar.after_word self index };

    /// The numbers that may come next, if one may. Then a word that begins with a digit is a number.
    fn bounds(self) -> Option<Bounds>
        requires { is_form self }
        ensures { result ≡ grammar.bounds self };

    /// Where a number leads.
    fn after_number(self, number: u64) -> Self
        requires form { is_form self }
        requires bounds { (bounds : Bounds) → grammar.bounds self ≡ Some bounds → (bounds.least ≤ number) × (number ≤ bounds.most) }
        ensures { result ≡ grammar.after_number self number };

    /// What the line says if it ends here, if it may.
    fn says(self) -> Option<L>
        ensures { result ≡ grammar.says self };

    /// Where a line stands that begins with a blank.
    fn indented(self) -> Self
        ensures { result ≡ grammar.indented self };

    /// Whether the number that may come next is joined to another: a dot ends it, right behind which the
    /// number of the next form stands.
    fn is_joined(self) -> bool
        ensures { result ≡ grammar.joined self };

    ghost sound: { IsGrammar grammar is_form };
}
