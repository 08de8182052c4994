//! The words and the numbers of each line.
//!
//! A row is a line but for its numbers. That of a call is the number of the call's word among those of its
//! kind: so another call is a line of `call_of` and one of `call_parts`.
ghost use Rattle.std.specs.Prelude.{◌≡◌};
ghost use Rattle.script_text.specs.Rows.{count, with_number, call_of, call_parts, object_of, line_parts, made, IsMakeable, IsMakeableObject};

use crate::lines::{Kind, Line};
use crate::scripts::{Call, ObjectLine};
use seq_objects::{BagCall, DequeCall, ListCall};

/// The numbers of a line.
#[derive(Clone, Copy, Debug, PartialEq, Eq)]
pub enum Numbers {
    Zero,
    One(u64),
    Two(u64, u64),
    Three(u64, u64, u64),
}

impl Numbers {
    pub fn count(self) -> u8
        ensures { result ≡ count self }
    {
        match self {
            Numbers::Zero => 0,
            Numbers::One(..) => 1,
            Numbers::Two(..) => 2,
            Numbers::Three(..) => 3,
        }
    }

    /// With one more at the end.
    pub fn with(self, number: u64) -> Numbers
        ensures { result ≡ with_number self number }
    {
        match self {
            Numbers::Zero => Numbers::One(number),
            Numbers::One(first) => Numbers::Two(first, number),
            Numbers::Two(first, second) | Numbers::Three(first, second, _) => {
                Numbers::Three(first, second, number)
            }
        }
    }
}

/// A line but for its numbers.
#[derive(Clone, Copy, Debug, PartialEq, Eq)]
pub enum Row {
    Object(Kind),
    /// Where the script is of this object.
    Callers(ObjectLine),
    /// Where there are so many callers.
    Caller(u32),
    /// The call of this kind whose word has this number, and whether it is tried once.
    Call(Kind, usize, bool),
}

// ---- calls, by the numbers of their words: those come first that come often

#[inline(always)]
fn call_of(kind: Kind, word: usize, once: bool, at: u64, old: u64, new: u64) -> Call
    ensures { result ≡ call_of kind word once at old new }
{
    match kind {
        Kind::List => {
            let call = match word {
                0 => ListCall::Read { at },
                1 => ListCall::Write { at, value: old },
                2 => ListCall::Swap { at, old, new },
                3 => ListCall::Add { at, value: old },
                4 => ListCall::Grow { to: at },
                _ => ListCall::Len,
            };
            Call::List { call }
        }
        Kind::Bag => {
            let call = match word {
                0 => BagCall::Add { item: at },
                _ => BagCall::Remove,
            };
            Call::Bag { call, once }
        }
        Kind::Deque => {
            let call = match word {
                0 => DequeCall::PushBack { item: at },
                1 => DequeCall::PushFront { item: at },
                2 => DequeCall::PopBack,
                _ => DequeCall::PopFront,
            };
            Call::Deque { call, once }
        }
    }
}

/// The word of a call, which `try` may stand before, and its numbers.
#[inline(always)]
fn call_parts(call: Call) -> (&'static str, Numbers)
    ensures { (result.0.now, result.1) ≡ call_parts call }
{
    match call {
        Call::List { call } => match call {
            ListCall::Read { at } => ("read", Numbers::One(at)),
            ListCall::Write { at, value } => ("write", Numbers::Two(at, value)),
            ListCall::Swap { at, old, new } => ("swap", Numbers::Three(at, old, new)),
            ListCall::Add { at, value } => ("add", Numbers::Two(at, value)),
            ListCall::Grow { to } => ("grow", Numbers::One(to)),
            ListCall::Len => ("len", Numbers::Zero),
        },
        Call::Bag { call, .. } => match call {
            BagCall::Add { item } => ("add", Numbers::One(item)),
            BagCall::Remove => ("remove", Numbers::Zero),
        },
        Call::Deque { call, .. } => match call {
            DequeCall::PushBack { item } => ("push_back", Numbers::One(item)),
            DequeCall::PushFront { item } => ("push_front", Numbers::One(item)),
            DequeCall::PopBack => ("pop_back", Numbers::Zero),
            DequeCall::PopFront => ("pop_front", Numbers::Zero),
        },
    }
}

// ---- lines

fn three(first: u8, second: u32, third: u32) -> Numbers
    ensures { result ≡ Numbers.Three first second third }
{
    Numbers::Three(u64::from(first), u64::from(second), u64::from(third))
}

/// The last word of a line, and its numbers.
#[inline(always)]
pub fn line_parts(line: Line) -> (&'static str, Numbers)
    ensures { (result.0.now, result.1) ≡ line_parts line }
{
    match line {
        Line::Pgas => ("1", Numbers::Zero),
        Line::Object(object) => match object {
            ObjectLine::List {
                locales,
                objects,
                width,
            } => ("list", three(locales, objects, width)),
            ObjectLine::Bag {
                locales,
                segments,
                room,
            } => ("bag", three(locales, segments, room)),
            ObjectLine::Deque { locales, capacity } => (
                "deque",
                Numbers::Two(locales.into(), capacity.into()),
            ),
        },
        Line::Callers(number) => ("callers", Numbers::One(u64::from(number))),
        Line::Caller(number) => ("caller", Numbers::One(u64::from(number))),
        Line::Round => ("round", Numbers::Zero),
        Line::Call(call) => call_parts(call),
        Line::End => ("end", Numbers::Zero),
    }
}

fn object_of(kind: Kind, locales: u64, second: u64, third: u64) -> ObjectLine
    requires { IsMakeableObject (Numbers.Three locales second third) }
    ensures { result ≡ object_of kind locales second third }
{
    match kind {
        Kind::List => ObjectLine::List {
            locales: locales as u8,
            objects: second as u32,
            width: third as u32,
        },
        Kind::Bag => ObjectLine::Bag {
            locales: locales as u8,
            segments: second as u32,
            room: third as u32,
        },
        Kind::Deque => ObjectLine::Deque {
            locales: locales as u8,
            capacity: second as u32,
        },
    }
}

/// The line of a row with these numbers. Those that are not there are 0.
#[inline(always)]
pub fn made(row: Row, numbers: Numbers) -> Line
    requires { IsMakeable row numbers }
    ensures { result ≡ made row numbers }
{
    let (first, second, third) = match numbers {
        Numbers::Zero => (0, 0, 0),
        Numbers::One(first) => (first, 0, 0),
        Numbers::Two(first, second) => (first, second, 0),
        Numbers::Three(first, second, third) => (first, second, third),
    };
    match row {
        Row::Object(kind) => Line::Object(object_of(kind, first, second, third)),
        Row::Callers(_) => Line::Callers(first as u32),
        Row::Caller(_) => Line::Caller(first as u32),
        Row::Call(kind, word, once) => Line::Call(call_of(kind, word, once, first, second, third)),
    }
}
