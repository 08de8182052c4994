ghost use Rattle.edge_text.specs.Forms.{IsSpot, edge_grammar};
ghost use Rattle.edge_text.specs.Sound.{edge_grammar_sound};

use crate::edges::{Edge, GREATEST_ID};
use line_text::{Bounds, Form, Reject};
use shared_io::TooKind;

/// What a line of an edge list says.
#[derive(Clone, Copy, Debug, PartialEq, Eq)]
pub enum EdgeLine {
    /// The text is of version 2, and its edges lead both ways or one.
    Head { both: bool },
    Edge { edge: Edge },
}

/// Which words a line of an edge list may go on with, behind those that were read.
#[derive(Clone, Copy, Debug, PartialEq, Eq)]
pub enum Spot {
    /// At the first byte of the text.
    First,
    /// Behind `%pgas`.
    Version,
    /// Behind `%pgas 2`.
    Direction,
    /// Behind a whole head line.
    Head { both: bool },
    /// Before an edge, which has a weight in a text of version 2 alone.
    From { weighted: bool },
    To { weighted: bool, from: u32 },
    Ends { weighted: bool, from: u32, to: u32 },
    Whole { edge: Edge },
}

const ID: Bounds = Bounds {
    least: 0,
    most: GREATEST_ID as u64,
    above: Reject::TooLarge { kind: TooKind::Id },
};

const WEIGHT: Bounds = Bounds {
    least: 0,
    most: u32::MAX as u64,
    above: Reject::TooLarge {
        kind: TooKind::Weight,
    },
};

impl Form<EdgeLine> for Spot {
    ghost grammar = { edge_grammar };

    ghost is_form = { IsSpot };

    ghost sound = { edge_grammar_sound };

    #[inline(always)]
    fn word_count(self) -> usize {
        match self {
            Spot::First | Spot::Version => 1,
            Spot::Direction => 2,
            _ => 0,
        }
    }

    #[inline(always)]
    fn word(self, index: usize) -> &'static [u8] {
        match self {
            Spot::First => b"%pgas",
            Spot::Version => b"2",
            _ if index == 0 => b"directed",
            _ => b"both",
        }
    }

    #[inline(always)]
    fn after_word(self, index: usize) -> Self {
        match self {
            Spot::First => Spot::Version,
            Spot::Version => Spot::Direction,
            Spot::Direction => Spot::Head { both: index == 1 },
            _ => self,
        }
    }

    #[inline(always)]
    fn bounds(self) -> Option<Bounds> {
        match self {
            Spot::First | Spot::From { .. } | Spot::To { .. } => Some(ID),
            Spot::Ends { weighted: true, .. } => Some(WEIGHT),
            _ => None,
        }
    }

    #[inline(always)]
    fn after_number(self, number: u64) -> Self {
        match self {
            Spot::First => Spot::To {
                weighted: false,
                from: number as u32,
            },
            Spot::From { weighted } => Spot::To {
                weighted,
                from: number as u32,
            },
            Spot::To { weighted, from } => Spot::Ends {
                weighted,
                from,
                to: number as u32,
            },
            Spot::Ends {
                weighted: true,
                from,
                to,
            } => Spot::Whole {
                edge: Edge {
                    from,
                    to,
                    weight: number as u32,
                },
            },
            _ => self,
        }
    }

    #[inline(always)]
    fn says(self) -> Option<EdgeLine> {
        match self {
            Spot::Head { both } => Some(EdgeLine::Head { both }),
            Spot::Ends { from, to, .. } => Some(EdgeLine::Edge {
                edge: Edge {
                    from,
                    to,
                    weight: 1,
                },
            }),
            Spot::Whole { edge } => Some(EdgeLine::Edge { edge }),
            _ => None,
        }
    }

    #[inline(always)]
    fn indented(self) -> Self {
        match self {
            Spot::First => Spot::From { weighted: false },
            _ => self,
        }
    }

    #[inline(always)]
    fn is_joined(self) -> bool {
        false
    }
}
