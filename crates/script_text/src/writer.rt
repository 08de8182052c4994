ghost use Rattle.std.specs.Prelude.{◌≡◌, ◌<◌, ◌++◌, ◌∷◌, [], OnOk, IfOk, string_bytes, map, decimal};
ghost use Rattle.line_text.specs.Words.{spaced};
ghost use Rattle.script_text.specs.Replies.{reply_text, caller_text, left_text, replies_text};
ghost use Rattle.script_text.specs.Rows.{listed, written_line};
ghost use Rattle.script_text.specs.ScriptText.{HasScript};
ghost use Rattle.script_text.specs.Scripts.{written, plain_script, IsValid, written_calls, plain_round, written_callers, written_rounds};

use crate::lines::Line;
use crate::replies::{Left, Replies, Reply};
use crate::rows::{Numbers, line_parts};
use crate::scripts::{Call, ObjectLine, Round, Script};
use line_text::push_number;
use std::alloc::{AllocError, Global};
use std::fmt::Write;

/// Adds a line of words and a number.
fn push_line(text: &mut String, words: &str, number: u64) -> Result<(), AllocError>
    ensures { OnOk result (string_bytes text.new ≡ string_bytes text.old ++ (words.now ++ (decimal number ++ 10 ∷ []))) }
{
    text.push_str(words)?;
    push_number(text, number)?;
    text.push_str("\n")
}

/// Adds a reply's line.
fn push_reply(text: &mut String, reply: Reply) -> Result<(), AllocError>
    ensures { OnOk result (string_bytes text.new ≡ string_bytes text.old ++ (reply_text reply ++ 10 ∷ [])) }
{
    match reply {
        Reply::Value { value } => push_line(text, "value ", value),
        Reply::Wrote => text.push_str("wrote\n"),
        Reply::Was { value } => push_line(text, "was ", value),
        Reply::Range { len } => push_line(text, "range ", len),
        Reply::Len { len } => push_line(text, "len ", len),
        Reply::TooLong => text.push_str("too long\n"),
        Reply::NoRoom { locale } => push_line(text, "no room ", u64::from(locale)),
        Reply::Added => text.push_str("added\n"),
        Reply::Full => text.push_str("full\n"),
        Reply::Took { item } => push_line(text, "took ", item),
        Reply::Empty => text.push_str("empty\n"),
        Reply::Pushed => text.push_str("pushed\n"),
    }
}

/// Adds a caller's line and the lines of its replies.
fn push_caller(text: &mut String, caller: usize, replies: &[Reply]) -> Result<(), AllocError>
    ensures { OnOk result (string_bytes text.new ≡ string_bytes text.old ++ caller_text caller replies.now) }
{
    writeln!(text, "caller {caller}")?;
    for reply in replies {
        push_reply(text, *reply)?;
    }
    Ok(())
}

/// Adds the line of what is left.
fn push_left(text: &mut String, items: &[u64]) -> Result<(), AllocError>
    ensures { OnOk result (string_bytes text.new ≡ string_bytes text.old ++ left_text items.now) }
{
    text.push_str("left")?;
    for item in items {
        text.push_str(" ")?;
        push_number(text, *item)?;
    }
    text.push_str("\n")
}

/// The text of the replies: for each caller its line and a line for each reply, and a line of what is
/// left. Each line ends with LF.
pub fn write_replies(alloc: Global, replies: &Replies) -> Result<String, AllocError>
    ensures { IfOk result (λ text. string_bytes text ≡ replies_text replies.now) }
{
    let mut text = String::new(alloc);
    for (caller, list) in replies.callers.iter().enumerate() {
        push_caller(&mut text, caller, list)?;
    }
    let Left::Items { items } = &replies.left;
    push_left(&mut text, items)?;
    Ok(text)
}

/// Adds numbers, with a space before each.
fn push_numbers(text: &mut String, numbers: Numbers) -> Result<(), AllocError>
    ensures { OnOk result (string_bytes text.new ≡ string_bytes text.old ++ spaced (map decimal (listed numbers))) }
{
    match numbers {
        Numbers::Zero => Ok(()),
        Numbers::One(first) => write!(text, " {first}"),
        Numbers::Two(first, second) => write!(text, " {first} {second}"),
        Numbers::Three(first, second, third) => write!(text, " {first} {second} {third}"),
    }
}

/// Adds a line.
fn push_whole(text: &mut String, line: Line) -> Result<(), AllocError>
    ensures { OnOk result (string_bytes text.new ≡ string_bytes text.old ++ written_line line) }
{
    let (word, numbers) = line_parts(line);
    match line {
        Line::Pgas => text.push_str("pgas 1")?,
        Line::Object(_) => write!(text, "object {word}")?,
        Line::Call(Call::Bag { once: true, .. } | Call::Deque { once: true, .. }) => {
            write!(text, "try {word}")?;
        }
        _ => text.push_str(word)?,
    }
    push_numbers(text, numbers)?;
    text.push_str("\n")
}

/// Adds the lines of a caller in a round.
fn push_calls(text: &mut String, caller: usize, calls: &[Call]) -> Result<(), AllocError>
    ensures { OnOk result (string_bytes text.new ≡ string_bytes text.old ++ written_calls caller calls.now) }
{
    if calls.is_empty() {
        return Ok(());
    }
    writeln!(text, "caller {caller}")?;
    for call in calls {
        push_whole(text, Line::Call(*call))?;
    }
    Ok(())
}

/// Adds the lines of a round.
fn push_round(text: &mut String, round: &Round) -> Result<(), AllocError>
    ensures { OnOk result (string_bytes text.new ≡ string_bytes text.old ++ written_callers 0 (plain_round round.now)) }
{
    for (caller, calls) in round.calls.iter().enumerate() {
        push_calls(text, caller, calls)?;
    }
    Ok(())
}

/// Adds the lines of the rounds.
fn push_rounds(text: &mut String, rounds: &[Round]) -> Result<(), AllocError>
    ensures { OnOk result (string_bytes text.new ≡ string_bytes text.old ++ written_rounds (map plain_round rounds.now)) }
{
    let Some((first, others)) = rounds.split_first() else {
        return Ok(());
    };
    push_round(text, first)?;
    for round in others {
        push_whole(text, Line::Round)?;
        push_round(text, round)?;
    }
    Ok(())
}

/// The text of the script: its lines in order, with single spaces and no leading zeros, in each round a
/// `caller` line for each caller that has calls, and a `round` line between two rounds. Each line ends
/// with LF. `read_script` reads it as the same script.
pub fn write_script(alloc: Global, script: &Script) -> Result<String, AllocError>
    requires { IsValid (plain_script script.now) }
    ensures text { IfOk result (λ text. string_bytes text ≡ written (plain_script script.now)) }
    ensures reads { IfOk result (λ text. HasScript (string_bytes text) (Unit {0}) (plain_script script.now)) }
{
    let mut text = String::new(alloc);
    push_whole(&mut text, Line::Pgas)?;
    push_whole(&mut text, Line::Object(script.object))?;
    push_whole(&mut text, Line::Callers(script.callers))?;
    push_rounds(&mut text, &script.rounds)?;
    push_whole(&mut text, Line::End)?;
    Ok(text)
}
