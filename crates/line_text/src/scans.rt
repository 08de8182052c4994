ghost use Rattle.std.specs.Prelude.{◌≡◌, ◌≢◌, ◌≤◌, Some, None, IfSome, ◌+◌, ◌<◌, ◌^◌, true, drop, length, take};
ghost use Rattle.std.specs.List.{AllByRecursion};
ghost use Rattle.line_text.specs.Scans.{Goes, StandsThere, StandsWord, StandsLine};
ghost use Rattle.line_text.specs.States.{IsState, IsFront, IsOpen};
ghost use Rattle.line_text.specs.Lines.{word_at};
ghost use Rattle.line_text.specs.Words.{is_digit, number_behind};

use crate::forms::{Bounds, Form};
use crate::states::{State, is_blank, is_digit, place_of, with_digit};

/// Goes over bytes at the front with which the line goes on, and answers where they lead and how many
/// they are. There may be more. What comes often is gone over here, many bytes at once.
#[inline(always)]
pub fn scan<L: Copy, F: Form<L>>(state: State<F>, bytes: &[u8]) -> (State<F>, usize)
    requires { IsState F.grammar F.is_form state }
    ensures state { IsState F.grammar F.is_form result.0 }
    ensures goes { Goes F.grammar state bytes.now result.1 result.0 }
{
    match state {
        State::Comment => (State::Comment, scan_comment(bytes)),
        State::Number {
            form,
            bounds,
            value,
        } => scan_more_digits(form, bounds, value, bytes),
        State::Gap { form } => scan_gap(form, bytes),
        State::Lead { form } => scan_lead(form, bytes),
        State::Word { form, index, at } => scan_more_letters(form, index, at, bytes),
        State::Joint { form } => (State::Joint { form }, 0),
    }
}

/// Goes over more digits of a number.
#[inline(always)]
fn scan_more_digits<L: Copy, F: Form<L>>(
    form: F,
    bounds: Bounds,
    value: u64,
    bytes: &[u8],
) -> (State<F>, usize)
    requires { IsState F.grammar F.is_form (State.Number form bounds value) }
    ensures state { IsState F.grammar F.is_form result.0 }
    ensures goes { Goes F.grammar (State.Number form bounds value) bytes.now result.1 result.0 }
{
    let (value, count) = scan_digits(bounds, value, bytes);
    let next = State::Number {
        form,
        bounds,
        value,
    };
    (next, count)
}

/// Goes over more letters of a literal word.
#[inline(always)]
fn scan_more_letters<L: Copy, F: Form<L>>(
    form: F,
    index: usize,
    at: usize,
    bytes: &[u8],
) -> (State<F>, usize)
    requires { IsState F.grammar F.is_form (State.Word form index at) }
    ensures state { IsState F.grammar F.is_form result.0 }
    ensures goes { Goes F.grammar (State.Word form index at) bytes.now result.1 result.0 }
{
    let count = scan_letters(form, index, at, bytes);
    let next = State::Word {
        form,
        index,
        at: at + count,
    };
    (next, count)
}

/// Goes over the digits of a number.
#[inline(always)]
fn scan_digits(bounds: Bounds, value: u64, bytes: &[u8]) -> (u64, usize)
    requires { IsOpen bounds value }
    ensures open { IsOpen bounds result.0 }
    ensures count { result.1 ≤ length bytes.now }
    ensures digits { AllByRecursion (λ byte. is_digit byte ≡ true) (take result.1 bytes.now) }
    ensures value { number_behind value (take result.1 bytes.now) ≡ Some result.0 }
{
    let mut value = value;
    let mut count = 0;
    for &byte in bytes {
        if !is_digit(byte) {
            return (value, count);
        }
        match with_digit(bounds, value, byte) {
            Ok(longer) => value = longer,
            Err(_) => return (value, count),
        }
        count += 1;
    }
    (value, count)
}

#[inline(always)]
fn scan_gap<L: Copy, F: Form<L>>(form: F, bytes: &[u8]) -> (State<F>, usize)
    requires { F.is_form form }
    ensures state { IsState F.grammar F.is_form result.0 }
    ensures goes { Goes F.grammar (State.Gap form) bytes.now result.1 result.0 }
{
    match scan_number(form, bytes) {
        Some(found) => found,
        None => (State::Gap { form }, 0),
    }
}

#[inline(always)]
fn scan_lead<L: Copy, F: Form<L>>(form: F, bytes: &[u8]) -> (State<F>, usize)
    requires { F.is_form form }
    ensures state { IsState F.grammar F.is_form result.0 }
    ensures goes { Goes F.grammar (State.Lead form) bytes.now result.1 result.0 }
{
    match scan_number(form, bytes) {
        Some(found) => found,
        None => (State::Lead { form }, 0),
    }
}

/// Goes over a number, if one may come and stands there.
#[inline(always)]
fn scan_number<L: Copy, F: Form<L>>(form: F, bytes: &[u8]) -> Option<(State<F>, usize)>
    requires { F.is_form form }
    ensures state { IfSome result (λ found. IsState F.grammar F.is_form found.0) }
    ensures lead { IfSome result (λ found. Goes F.grammar (State.Lead form) bytes.now found.1 found.0) }
    ensures gap { IfSome result (λ found. Goes F.grammar (State.Gap form) bytes.now found.1 found.0) }
{
    let bounds = form.bounds()?;
    let (value, count) = scan_digits(bounds, 0, bytes);
    if count == 0 {
        return None;
    }
    let next = State::Number {
        form,
        bounds,
        value,
    };
    Some((next, count))
}

/// Goes over the rest of a literal word, if it stands there.
#[inline(always)]
fn scan_letters<L: Copy, F: Form<L>>(form: F, index: usize, at: usize, bytes: &[u8]) -> usize
    requires { IsFront F.grammar form index at }
    ensures count { result ≤ length bytes.now }
    ensures short { at + result < 2 ^ 64 }
    ensures stands { StandsThere (drop at (word_at F.grammar form index)) bytes.now result }
{
    let letters = &form.word(index)[at..];
    if bytes.starts_with(letters) {
        letters.len()
    } else {
        0
    }
}

/// Goes over a whole line, and answers what it says and how many bytes it has before its LF. A line that
/// begins with a blank or is none is left to be gone over byte by byte.
#[inline(always)]
pub fn scan_line<L: Copy, F: Form<L>>(form: F, bytes: &[u8]) -> Option<(L, usize)>
    requires { F.is_form form }
    ensures { IfSome result (λ found. StandsLine F.grammar F.is_form form bytes.now found.0 found.1) }
{
    let mut form = form;
    let mut at = 0;
    while at < bytes.len() {
        let count = scan_word(&mut form, &bytes[at..])?;
        at += count;
        if at >= bytes.len() {
            return None;
        }
        if bytes[at] == b'\n' {
            let line = form.says()?;
            return Some((line, at));
        }
        if !is_blank(bytes[at]) {
            return None;
        }
        at += 1;
    }
    None
}

/// Goes over a whole word, and answers how many letters it has. What stands behind it isn't looked at.
#[inline(always)]
fn scan_word<L: Copy, F: Form<L>>(form: &mut F, bytes: &[u8]) -> Option<usize>
    requires { F.is_form form.old }
    ensures { IfSome result (λ count. StandsWord F.grammar F.is_form form.old bytes.now form.new count) }
{
    match form.bounds() {
        Some(bounds) => scan_numeral(form, bounds, bytes),
        None => scan_literal(form, bytes),
    }
}

/// Goes over a word of a number, or of several that are joined.
#[inline(always)]
fn scan_numeral<L: Copy, F: Form<L>>(form: &mut F, bounds: Bounds, bytes: &[u8]) -> Option<usize>
    requires form { F.is_form form.old }
    requires own { F.grammar.bounds form.old ≡ Some bounds }
    ensures { IfSome result (λ count. StandsWord F.grammar F.is_form form.old bytes.now form.new count) }
{
    let mut bounds = bounds;
    let mut at = 0;
    while at < bytes.len() {
        let (value, count) = scan_digits(bounds, 0, &bytes[at..]);
        if count == 0 || value < bounds.least {
            return None;
        }
        let joined = form.is_joined();
        *form = form.after_number(value);
        at += count;
        if !joined {
            return Some(at);
        }
        if at >= bytes.len() || bytes[at] != b'.' {
            return None;
        }
        at += 1;
        bounds = form.bounds()?;
    }
    None
}

/// Goes over a literal word: letters up to a blank or the end of the line, if they are one.
#[inline(always)]
fn scan_literal<L: Copy, F: Form<L>>(form: &mut F, bytes: &[u8]) -> Option<usize>
    requires form { F.is_form form.old }
    requires none { F.grammar.bounds form.old ≡ None }
    ensures { IfSome result (λ count. StandsWord F.grammar F.is_form form.old bytes.now form.new count) }
{
    let count = count_letters(bytes);
    if count == 0 || bytes[0] == b'#' {
        return None;
    }
    let place = place_of(*form, &bytes[..count])?;
    *form = form.after_word(place);
    Some(count)
}

/// How many letters stand at the front.
#[inline(always)]
fn count_letters(bytes: &[u8]) -> usize
    ensures { result ≤ length bytes.now }
{
    let mut count = 0;
    for &byte in bytes {
        if is_blank(byte) || byte == b'\n' {
            return count;
        }
        count += 1;
    }
    count
}

/// Goes over bytes of a comment.
fn scan_comment(bytes: &[u8]) -> usize
    ensures count { result ≤ length bytes.now }
    ensures line { AllByRecursion (λ byte. byte ≢ 10) (take result bytes.now) }
{
    let mut count = 0;
    for &byte in bytes {
        if byte == b'\n' {
            return count;
        }
        count += 1;
    }
    count
}
