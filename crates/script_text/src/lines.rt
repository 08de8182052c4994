ghost use Rattle.std.specs.Prelude.{◌≡◌};
ghost use Rattle.script_text.specs.Lines.{most_callers, caller_at, stage_after};
ghost use Rattle.script_text.specs.Rows.{kind_of};

use crate::scripts::{Call, ObjectLine};

/// The most callers of a shared object.
const MOST_CALLERS: u32 = 64;

/// A kind of object.
#[derive(Clone, Copy, Debug, PartialEq, Eq)]
pub enum Kind {
    List,
    Bag,
    Deque,
}

/// What a line says, unless it is blank or a comment.
#[derive(Clone, Copy, Debug, PartialEq, Eq)]
pub enum Line {
    /// The first line, `pgas 1`.
    Pgas,
    Object(ObjectLine),
    Callers(u32),
    /// The calls that follow are this caller's.
    Caller(u32),
    /// A new round begins.
    Round,
    Call(Call),
    End,
}

/// Which lines may come next.
#[derive(Clone, Copy, Debug, PartialEq, Eq)]
pub enum Stage {
    /// The line `pgas 1`.
    AtPgas,
    /// The object's line.
    AtObject,
    /// The line that says how many callers there are.
    AtCallers(ObjectLine),
    /// A line of a round of so many callers, or the end, behind the `caller` line of one of them if the
    /// round has one so far.
    InRound(ObjectLine, u32, Option<u32>),
}

impl ObjectLine {
    pub fn kind(self) -> Kind
        ensures { result ≡ kind_of self }
    {
        match self {
            ObjectLine::List { .. } => Kind::List,
            ObjectLine::Bag { .. } => Kind::Bag,
            ObjectLine::Deque { .. } => Kind::Deque,
        }
    }

    /// The most callers: many share a bag or a deque, a list has one.
    pub fn most_callers(self) -> u32
        ensures { result ≡ most_callers self }
    {
        match self {
            ObjectLine::List { .. } => 1,
            ObjectLine::Bag { .. } | ObjectLine::Deque { .. } => MOST_CALLERS,
        }
    }
}

impl Stage {
    /// Whose calls come.
    pub fn caller(self) -> usize
        ensures { result ≡ caller_at self }
    {
        match self {
            Stage::InRound(_, _, Some(caller)) => caller as usize,
            _ => 0,
        }
    }

    /// What may come behind a line.
    pub fn after(self, line: Line) -> Stage
        ensures { result ≡ stage_after self line }
    {
        match (self, line) {
            (Stage::AtPgas, _) => Stage::AtObject,
            (Stage::AtObject, Line::Object(object)) => Stage::AtCallers(object),
            (Stage::InRound(object, callers, _), Line::Caller(caller)) => {
                Stage::InRound(object, callers, Some(caller))
            }
            (Stage::AtCallers(object), Line::Callers(callers))
            | (Stage::InRound(object, callers, _), Line::Round) => {
                Stage::InRound(object, callers, None)
            }
            (stage, _) => stage,
        }
    }
}
