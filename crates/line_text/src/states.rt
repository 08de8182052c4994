ghost use Rattle.std.specs.Prelude.{◌≡◌, ◌≢◌, ◌<◌, ◌≤◌, ◌++◌, ◌∷◌, ◌*◌, ℕ, [], Some, None, Ok, Err, true, false, MatchOption, MatchResult, IfOk, length, take, IfSome, IsTrue, OnSome, ◌↔◌, ◌+◌, ◌^◌};
ghost use Rattle.std.specs.Bool.{OnTrue};
ghost use Rattle.line_text.specs.Lines.{place_from, is_number, ends_number, word_at, IsSaid};
ghost use Rattle.line_text.specs.States.{IsState, IsFront, IsOpen, Takes, Leads, RejectsByte, rest_says};
ghost use Rattle.line_text.specs.Words.{is_blank, is_digit};
ghost use Rattle.std.specs.Char.{digit_value};
ghost use Rattle.line_text.specs.Fronts.{Begins, BeginsNone, BeginsOne, IsOutside};

use crate::forms::{Bounds, Form, Reject};

/// Where in a line a reader stands.
#[derive(Clone, Copy, Debug, PartialEq, Eq)]
pub enum State<F> {
    /// Before the first word.
    Lead { form: F },
    Comment,
    /// Behind a word and a blank.
    Gap { form: F },
    /// In a literal word, of which so many bytes were read.
    Word { form: F, index: usize, at: usize },
    /// Behind a digit of a number.
    Number { form: F, bounds: Bounds, value: u64 },
    /// Behind the dot that joins the number of the form to the one before.
    Joint { form: F },
}

/// What a byte does to a line.
#[derive(Clone, Copy, Debug, PartialEq, Eq)]
pub enum Step<F, L> {
    /// The line goes on.
    Next(State<F>),
    /// It ends, and says so; a blank line or a comment says nothing.
    Ends(Option<L>),
    Rejects(Reject),
}

/// What a byte does to a line that stands so.
pub fn step_with<L: Copy, F: Form<L>>(state: State<F>, byte: u8) -> Step<F, L>
    requires { IsState F.grammar F.is_form state }
    ensures { Takes F.grammar F.is_form state byte result }
{
    if byte == b'\n' {
        return line_end(state);
    }
    match state {
        State::Lead { form } => from_lead(form, byte),
        State::Comment => Step::Next(State::Comment),
        State::Gap { form } => from_gap(form, byte),
        State::Word { form, index, at } => from_word(form, index, at, byte),
        State::Number {
            form,
            bounds,
            value,
        } => from_number(form, bounds, value, byte),
        State::Joint { form } => from_joint(form, byte),
    }
}

/// What the end of a line does.
fn line_end<L: Copy, F: Form<L>>(state: State<F>) -> Step<F, L>
    requires { IsState F.grammar F.is_form state }
    ensures { Takes F.grammar F.is_form state 10 result }
{
    match state {
        State::Lead { .. } | State::Comment => Step::Ends(None),
        State::Gap { form } => form_end(form),
        State::Word { form, index, at } => word_end(form, index, at),
        State::Number {
            form,
            bounds,
            value,
        } => number_end(form, bounds, value),
        State::Joint { .. } => Step::Rejects(Reject::Bad),
    }
}

/// What the line says if it ends here.
pub fn said_by<L: Copy, F: Form<L>>(state: State<F>) -> Result<Option<L>, Reject>
    requires { IsState F.grammar F.is_form state }
    ensures value { result ≡ rest_says F.grammar state [] }
    ensures said { IfOk result (λ said. IsSaid F.grammar F.is_form said) }
{
    match line_end(state) {
        Step::Ends(said) => Ok(said),
        Step::Rejects(_) => Err(Reject::Bad),
        Step::Next(_) => unreachable!(),
    }
}

pub fn is_blank(byte: u8) -> bool
    ensures { result ≡ is_blank byte }
{
    byte == b' ' || byte == b'\t' || byte == b'\r'
}

fn from_lead<L: Copy, F: Form<L>>(form: F, byte: u8) -> Step<F, L>
    requires form { F.is_form form }
    requires within { byte ≢ 10 }
    ensures { Takes F.grammar F.is_form (State.Lead form) byte result }
{
    if is_blank(byte) {
        return Step::Next(State::Lead {
            form: form.indented(),
        });
    }
    if byte == b'#' {
        return Step::Next(State::Comment);
    }
    first_letter(form, byte)
}

fn from_gap<L: Copy, F: Form<L>>(form: F, byte: u8) -> Step<F, L>
    requires form { F.is_form form }
    requires within { byte ≢ 10 }
    ensures { Takes F.grammar F.is_form (State.Gap form) byte result }
{
    if is_blank(byte) {
        return Step::Next(State::Gap { form });
    }
    first_letter(form, byte)
}

/// Goes on with the first letter of a word.
fn first_letter<L: Copy, F: Form<L>>(form: F, byte: u8) -> Step<F, L>
    requires form { F.is_form form }
    requires within { byte ≢ 10 }
    requires letter { is_blank byte ≡ false }
    ensures { Takes F.grammar F.is_form (State.Gap form) byte result }
{
    if is_digit(byte) {
        if let Some(bounds) = form.bounds() {
            return match with_digit(bounds, 0, byte) {
                Ok(value) => Step::Next(State::Number {
                    form,
                    bounds,
                    value,
                }),
                Err(reject) => Step::Rejects(reject),
            };
        }
    }
    match word_with(form, b"", byte) {
        Some(index) => Step::Next(State::Word { form, index, at: 1 }),
        None => Step::Rejects(Reject::Bad),
    }
}

pub fn is_digit(byte: u8) -> bool
    ensures { result ≡ is_digit byte }
{
    byte.is_ascii_digit()
}

/// The number with a digit at its end, if a number within the bounds can come of it.
pub fn with_digit(bounds: Bounds, value: u64, byte: u8) -> Result<u64, Reject>
    requires { is_digit byte ≡ true }
    ensures { MatchResult result
        (λ longer. (longer ≡ value * 10 + digit_value byte) × IsOpen bounds longer)
        (λ reject. IsOutside bounds (value * 10 + digit_value byte) reject) }
{
    let digit = u64::from(byte - b'0');
    let Some(longer) = value
        .checked_mul(10)
        .and_then(|tens| tens.checked_add(digit))
    else {
        return Err(bounds.above);
    };
    if longer > bounds.most {
        return Err(bounds.above);
    }
    if longer > 0 && longer < bounds.least && longer > bounds.most / 10 {
        return Err(Reject::Bad);
    }
    Ok(longer)
}

/// A literal word that begins with the front and the byte.
fn word_with<L: Copy, F: Form<L>>(form: F, front: &[u8], byte: u8) -> Option<usize>
    ensures short { OnSome result (length front.now + 1 < 2 ^ 64) }
    ensures word { MatchOption result
        (BeginsNone (F.grammar.words form) (front.now ++ byte ∷ []))
        (λ index. BeginsOne (F.grammar.words form) (front.now ++ byte ∷ []) index) }
{
    for index in 0..form.word_count() {
        if begins(form.word(index), front, byte) {
            return Some(index);
        }
    }
    None
}

#[inline(always)]
fn begins(word: &[u8], front: &[u8], byte: u8) -> bool
    ensures short { OnTrue result (length front.now + 1 < 2 ^ 64) }
    ensures begins { IsTrue result ↔ Begins word.now (front.now ++ byte ∷ []) }
{
    if word.len() <= front.len() {
        return false;
    }
    if word[front.len()] != byte {
        return false;
    }
    word.starts_with(front)
}

fn from_word<L: Copy, F: Form<L>>(form: F, index: usize, at: usize, byte: u8) -> Step<F, L>
    requires state { IsState F.grammar F.is_form (State.Word form index at) }
    requires within { byte ≢ 10 }
    ensures { Takes F.grammar F.is_form (State.Word form index at) byte result }
{
    if is_blank(byte) {
        return match word_behind(form, index, at) {
            Some(form) => Step::Next(State::Gap { form }),
            None => Step::Rejects(Reject::Bad),
        };
    }
    match longer_word(form, index, at, byte) {
        Some(index) => Step::Next(State::Word {
            form,
            index,
            at: at + 1,
        }),
        None => Step::Rejects(Reject::Bad),
    }
}

/// Where the word leads of which all was read.
fn word_behind<L: Copy, F: Form<L>>(form: F, index: usize, at: usize) -> Option<F>
    requires { IsState F.grammar F.is_form (State.Word form index at) }
    ensures { MatchOption result
        (place_from 0 (F.grammar.words form) (take at (word_at F.grammar form index)) ≡ None)
        (λ next. F.is_form next × (place : ℕ) × (place_from 0 (F.grammar.words form) (take at (word_at F.grammar form index)) ≡ Some place) × (next ≡ F.grammar.after_word form place)) }
{
    let place = place_of(form, &form.word(index)[..at])?;
    Some(form.after_word(place))
}

/// The place of a word among the literal words of the form.
#[inline(always)]
pub fn place_of<L: Copy, F: Form<L>>(form: F, word: &[u8]) -> Option<usize>
    ensures value { result ≡ place_from 0 (F.grammar.words form) word.now }
    ensures within { IfSome result (λ place. place < length (F.grammar.words form)) }
    ensures word { IfSome result (λ place. word_at F.grammar form place ≡ word.now) }
{
    for index in 0..form.word_count() {
        if form.word(index) == word {
            return Some(index);
        }
    }
    None
}

/// This word, or another that begins with as many of its letters, if it goes on with the byte.
fn longer_word<L: Copy, F: Form<L>>(form: F, index: usize, at: usize, byte: u8) -> Option<usize>
    requires { IsFront F.grammar form index at }
    ensures short { OnSome result (at + 1 < 2 ^ 64) }
    ensures word { MatchOption result
        (BeginsNone (F.grammar.words form) (take at (word_at F.grammar form index) ++ byte ∷ []))
        (λ other. BeginsOne (F.grammar.words form) (take at (word_at F.grammar form index) ++ byte ∷ []) other) }
{
    let word = form.word(index);
    if at < word.len() && word[at] == byte {
        return Some(index);
    }
    word_with(form, &word[..at], byte)
}

fn from_number<L: Copy, F: Form<L>>(form: F, bounds: Bounds, value: u64, byte: u8) -> Step<F, L>
    requires state { IsState F.grammar F.is_form (State.Number form bounds value) }
    requires within { byte ≢ 10 }
    ensures { Takes F.grammar F.is_form (State.Number form bounds value) byte result }
{
    if is_blank(byte) {
        return match number_behind(form, bounds, value) {
            Some(form) => Step::Next(State::Gap { form }),
            None => Step::Rejects(Reject::Bad),
        };
    }
    if !is_digit(byte) {
        return joint_behind(form, bounds, value, byte);
    }
    match with_digit(bounds, value, byte) {
        Ok(value) => Step::Next(State::Number {
            form,
            bounds,
            value,
        }),
        Err(reject) => Step::Rejects(reject),
    }
}

/// Goes on behind the dot that ends a number, if it is joined to another.
fn joint_behind<L: Copy, F: Form<L>>(form: F, bounds: Bounds, value: u64, byte: u8) -> Step<F, L>
    requires state { IsState F.grammar F.is_form (State.Number form bounds value) }
    requires within { byte ≢ 10 }
    requires letter { is_blank byte ≡ false }
    requires other { is_digit byte ≡ false }
    ensures { Takes F.grammar F.is_form (State.Number form bounds value) byte result }
{
    if byte != b'.' || !form.is_joined() || value < bounds.least {
        return Step::Rejects(Reject::Bad);
    }
    Step::Next(State::Joint {
        form: form.after_number(value),
    })
}

/// Goes on with the first digit of a number that is joined to the one before.
fn from_joint<L: Copy, F: Form<L>>(form: F, byte: u8) -> Step<F, L>
    requires state { IsState F.grammar F.is_form (State.Joint form) }
    requires within { byte ≢ 10 }
    ensures { Takes F.grammar F.is_form (State.Joint form) byte result }
{
    if is_digit(byte) {
        if let Some(bounds) = form.bounds() {
            return match with_digit(bounds, 0, byte) {
                Ok(value) => Step::Next(State::Number {
                    form,
                    bounds,
                    value,
                }),
                Err(reject) => Step::Rejects(reject),
            };
        }
    }
    Step::Rejects(Reject::Bad)
}

/// Where the number leads at the end of its word.
fn number_behind<L: Copy, F: Form<L>>(form: F, bounds: Bounds, value: u64) -> Option<F>
    requires { IsState F.grammar F.is_form (State.Number form bounds value) }
    ensures { MatchOption result
        (ends_number F.grammar form value ≡ Err Reject.Bad)
        (λ next. F.is_form next × (ends_number F.grammar form value ≡ Ok next)) }
{
    if form.is_joined() || value < bounds.least {
        return None;
    }
    Some(form.after_number(value))
}

/// What the end of a line does that would say what the form says.
fn form_end<L: Copy, F: Form<L>>(form: F) -> Step<F, L>
    ensures { Takes F.grammar F.is_form (State.Gap form) 10 result }
{
    match form.says() {
        Some(line) => Step::Ends(Some(line)),
        None => Step::Rejects(Reject::Bad),
    }
}

fn word_end<L: Copy, F: Form<L>>(form: F, index: usize, at: usize) -> Step<F, L>
    requires { IsState F.grammar F.is_form (State.Word form index at) }
    ensures { Takes F.grammar F.is_form (State.Word form index at) 10 result }
{
    match word_behind(form, index, at) {
        Some(next) => form_end(next),
        None => Step::Rejects(Reject::Bad),
    }
}

fn number_end<L: Copy, F: Form<L>>(form: F, bounds: Bounds, value: u64) -> Step<F, L>
    requires { IsState F.grammar F.is_form (State.Number form bounds value) }
    ensures { Takes F.grammar F.is_form (State.Number form bounds value) 10 result }
{
    match number_behind(form, bounds, value) {
        Some(next) => form_end(next),
        None => Step::Rejects(Reject::Bad),
    }
}
