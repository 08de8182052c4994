ghost use Rattle.std.specs.Prelude.{◌≡◌, ◌<◌, [], length, slice_index_or};
ghost use Rattle.script_text.specs.Forms.{IsSpot, IsFront, script_grammar, calls_at, round_start, round_leads, row_spot, object_bounds};
ghost use Rattle.script_text.specs.Rows.{IsMakeable, row_word};
ghost use Rattle.script_text.specs.Sound.{script_grammar_sound};

use crate::lines::{Kind, Line, Stage};
use crate::rows::{Numbers, Row, line_parts, made};
use line_text::{Bounds, Form};
use pgas_base::{LEAST_WIDTH, MOST_LOCALES, MOST_OBJECTS, MOST_WIDTH, MOST_WORDS};
use seq_objects::{MOST_CAPACITY, MOST_ROOM, MOST_SEGMENTS};

/// Which words a line of a script may go on with, behind those that were read.
#[derive(Clone, Copy, Debug, PartialEq, Eq)]
pub enum Spot {
    /// At the front of a line.
    Start(Stage),
    /// Behind `pgas`.
    Version,
    /// Behind `object`.
    Kind,
    /// Behind `try`.
    Try(Kind),
    /// Behind all words of a row, and some of its numbers.
    Row { row: Row, numbers: Numbers },
    Whole(Line),
}

/// The kinds of object, in the order of their words.
const KINDS: [Kind; 3] = [Kind::List, Kind::Bag, Kind::Deque];

/// How many calls a line may begin with, if a `caller` line stands before it.
fn calls_at(kind: Kind, spoken: bool) -> usize
    ensures { result ≡ calls_at spoken kind }
{
    match kind {
        _ if !spoken => 0,
        Kind::List => 6,
        Kind::Bag => 2,
        Kind::Deque => 4,
    }
}

/// A word that begins a line of a round.
#[inline(always)]
fn round_word(kind: Kind, callers: u32, spoken: bool, index: usize) -> &'static str
    requires { index < length (round_start spoken kind callers) }
    ensures { result.now ≡ slice_index_or (round_start spoken kind callers) index [] }
{
    let calls = calls_at(kind, spoken);
    if index < calls {
        return row_word(Row::Call(kind, index, false));
    }
    match index - calls {
        0 => "caller",
        1 => "round",
        2 => "end",
        _ => "try",
    }
}

/// Where it leads.
#[inline(always)]
fn round_leads(kind: Kind, callers: u32, spoken: bool, index: usize) -> Spot
    ensures { result ≡ round_leads spoken kind callers index }
{
    let calls = calls_at(kind, spoken);
    if index < calls {
        return row_spot(Row::Call(kind, index, false), Numbers::Zero);
    }
    match index - calls {
        0 => row_spot(Row::Caller(callers), Numbers::Zero),
        1 => Spot::Whole(Line::Round),
        2 => Spot::Whole(Line::End),
        _ => Spot::Try(kind),
    }
}

/// The last word of a row.
#[inline(always)]
fn row_word(row: Row) -> &'static str
    requires { IsMakeable row Numbers.Zero }
    ensures { result.now ≡ row_word row }
{
    line_parts(made(row, Numbers::Zero)).0
}

/// Behind these numbers of a row.
#[inline(always)]
fn row_spot(row: Row, numbers: Numbers) -> Spot
    requires { IsMakeable row numbers }
    ensures { result ≡ row_spot row numbers }
{
    let line = made(row, numbers);
    if line_parts(line).1.count() == numbers.count() {
        return Spot::Whole(line);
    }
    Spot::Row { row, numbers }
}

/// The numbers that may come next in a row, so that those behind them still have one. The objects of a
/// list leave room for rows of the least width, and the width for all of them. An object has two words
/// beside its row.
fn object_bounds(kind: Kind, numbers: Numbers) -> Bounds
    requires { IsFront (Row.Object kind) numbers }
    ensures { result ≡ object_bounds numbers kind }
{
    let least = u64::from(LEAST_WIDTH);
    match (numbers, kind) {
        (Numbers::Zero, _) => Bounds::between(1, u64::from(MOST_LOCALES)),
        (Numbers::One(locales), Kind::List) => {
            let most = MOST_WORDS / ((least + 2) * locales);
            Bounds::between(2, most.min(u64::from(MOST_OBJECTS)))
        }
        (Numbers::Two(locales, objects), Kind::List) => {
            let most = MOST_WORDS / (locales * objects) - 2;
            Bounds::between(least, most.min(u64::from(MOST_WIDTH)))
        }
        (Numbers::One(_), Kind::Bag) => Bounds::between(1, u64::from(MOST_SEGMENTS)),
        (_, Kind::Bag) => Bounds::between(1, u64::from(MOST_ROOM)),
        _ => Bounds::between(1, u64::from(MOST_CAPACITY)),
    }
}

impl Form<Line> for Spot {
    ghost grammar = { script_grammar };

    ghost is_form = { IsSpot };

    ghost sound = { script_grammar_sound };

    #[inline(always)]
    fn word_count(self) -> usize {
        match self {
            Spot::Start(Stage::InRound(object, callers, caller)) => {
                let (kind, spoken) = (object.kind(), caller.is_some());
                // A call of a bag or a deque may be tried once by a caller that is alone.
                let tries = spoken && !matches!(kind, Kind::List) && callers == 1;
                calls_at(kind, spoken) + 3 + usize::from(tries)
            }
            Spot::Start(_) | Spot::Version => 1,
            Spot::Kind => 3,
            Spot::Try(kind) => calls_at(kind, true),
            Spot::Row { .. } | Spot::Whole(_) => 0,
        }
    }

    #[inline(always)]
    fn word(self, index: usize) -> &'static [u8] {
        let word = match self {
            Spot::Start(Stage::AtPgas) => "pgas",
            Spot::Start(Stage::AtObject) => "object",
            Spot::Start(Stage::AtCallers(_)) => "callers",
            Spot::Start(Stage::InRound(object, callers, caller)) => {
                round_word(object.kind(), callers, caller.is_some(), index)
            }
            Spot::Version => "1",
            Spot::Kind => row_word(Row::Object(KINDS[index])),
            Spot::Try(kind) => row_word(Row::Call(kind, index, false)),
            Spot::Row { .. } | Spot::Whole(_) => "",
        };
        word.as_bytes()
    }

    #[inline(always)]
    fn after_word(self, index: usize) -> Self {
        let row = match self {
            Spot::Start(Stage::AtPgas) => return Spot::Version,
            Spot::Start(Stage::AtObject) => return Spot::Kind,
            Spot::Start(Stage::AtCallers(object)) => Row::Callers(object),
            Spot::Start(Stage::InRound(object, callers, caller)) => {
                return round_leads(object.kind(), callers, caller.is_some(), index);
            }
            Spot::Version => return Spot::Whole(Line::Pgas),
            Spot::Kind => Row::Object(KINDS[index]),
            Spot::Try(kind) => Row::Call(kind, index, true),
            Spot::Row { .. } | Spot::Whole(_) => return self,
        };
        row_spot(row, Numbers::Zero)
    }

    #[inline(always)]
    fn bounds(self) -> Option<Bounds> {
        let Spot::Row { row, numbers } = self else {
            return None;
        };
        Some(match row {
            Row::Object(kind) => object_bounds(kind, numbers),
            Row::Callers(object) => Bounds::between(1, u64::from(object.most_callers())),
            Row::Caller(callers) => Bounds::between(0, u64::from(callers.saturating_sub(1))),
            Row::Call(..) => Bounds::between(0, u64::MAX),
        })
    }

    #[inline(always)]
    fn after_number(self, number: u64) -> Self {
        match self {
            Spot::Row { row, numbers } => row_spot(row, numbers.with(number)),
            _ => self,
        }
    }

    fn says(self) -> Option<Line> {
        match self {
            Spot::Whole(line) => Some(line),
            _ => None,
        }
    }

    fn indented(self) -> Self {
        self
    }

    fn is_joined(self) -> bool {
        false
    }
}
