ghost use Rattle.std.specs.Prelude.{◌≡◌, ◌<◌, ◌≤◌, ◌^◌, ◌*◌};
ghost use Rattle.run_text.specs.Forms.{IsSpot, after_kind, after_locale, after_number_of, after_pointer, kind_word, objects_most, run_grammar, step_spot, width_most};
ghost use Rattle.run_text.specs.Sound.{run_grammar_sound};
ghost use Rattle.run_text.specs.declared.forms.Spot.TheVariants.{Locale, Pointer};

use crate::verbs::{LocaleVerb, NumberVerb, PointerVerb};
use epoch_core::{Kind, Step};
use line_text::{Bounds, Form};
use pgas_base::{Ptr, Shape, Start};

/// What a line of a run says.
#[derive(Clone, Copy, Debug, PartialEq, Eq)]
pub enum RunLine {
    /// The text is a run, of version 1.
    Version,
    Shape(Shape),
    Start(Start),
    Seats(u32),
    Step(Step),
    End,
}

/// Which words a line of a run may go on with, behind those that were read.
#[derive(Clone, Copy, Debug, PartialEq, Eq)]
pub enum Spot {
    /// Before `pgas-run`.
    First,
    Version,
    /// Before `shape`.
    ShapeWord,
    Locales,
    Tokens {
        locales: u8,
    },
    Objects {
        locales: u8,
        tokens: u32,
    },
    Width {
        locales: u8,
        tokens: u32,
        objects: u32,
    },
    /// Before `start`.
    StartWord,
    Epoch,
    Count {
        epoch: u64,
    },
    Stack {
        epoch: u64,
        count: u32,
    },
    /// Before `seats`.
    SeatsWord,
    Seats,
    /// Before a step, or `end`.
    Seat,
    Kind {
        seat: u32,
    },
    Locale {
        seat: u32,
        verb: LocaleVerb,
    },
    /// Behind a locale: a token or an index.
    Number {
        seat: u32,
        verb: NumberVerb,
        locale: u8,
    },
    /// Before the locale of a pointer.
    Pointer {
        seat: u32,
        verb: PointerVerb,
    },
    Index {
        seat: u32,
        verb: PointerVerb,
        locale: u8,
    },
    Uses {
        seat: u32,
        verb: PointerVerb,
        locale: u8,
        index: u32,
    },
    /// Before the next word that `hand_link` stores.
    Next {
        seat: u32,
        ptr: Ptr,
    },
    Whole(RunLine),
}

const MOST_COUNT: u64 = u32::MAX as u64;

/// The most objects that a shape of so many locales may have.
#[inline(always)]
fn objects_most(locales: u8) -> u64
    requires { 1 ≤ locales }
    ensures { result ≡ objects_most locales }
{
    ((1 << 25) / (4 * u64::from(locales))).min(1 << 20)
}

/// The greatest width that a shape of so many objects may have.
#[inline(always)]
fn width_most(locales: u8, objects: u32) -> u64
    requires locales { 1 ≤ locales }
    requires objects { 1 ≤ objects }
    requires few { locales * objects * 4 ≤ 2 ^ 25 }
    ensures { result ≡ width_most locales objects }
{
    ((1 << 25) / (u64::from(locales) * u64::from(objects)) - 2).min(4096)
}

#[inline(always)]
fn step(seat: u32, kind: Kind) -> Spot
    ensures { result ≡ step_spot seat kind }
{
    Spot::Whole(RunLine::Step(Step { seat, kind }))
}

#[inline(always)]
fn at_locale(seat: u32, verb: LocaleVerb) -> Spot
    ensures { result ≡ Locale seat verb }
{
    Spot::Locale { seat, verb }
}

#[inline(always)]
fn at_pointer(seat: u32, verb: PointerVerb) -> Spot
    ensures { result ≡ Pointer seat verb }
{
    Spot::Pointer { seat, verb }
}

/// The word of the kind of step with this number.
#[inline(always)]
fn kind_word(index: usize) -> &'static [u8]
    requires { index < 33 }
    ensures { result.now ≡ kind_word index }
{
    match index {
        0 => b"register",
        1 => b"unregister",
        2 => b"pin_look",
        3 => b"pin_set",
        4 => b"unpin",
        5 => b"take_look",
        6 => b"take_try",
        7 => b"show",
        8 => b"hold",
        9 => b"touch",
        10 => b"return",
        11 => b"defer_look",
        12 => b"defer_swap",
        13 => b"defer_link",
        14 => b"elect_local",
        15 => b"elect_global",
        16 => b"epoch_look",
        17 => b"scan_token",
        18 => b"advance",
        19 => b"spread",
        20 => b"collect",
        21 => b"walk",
        22 => b"release",
        23 => b"leave",
        24 => b"stack_look",
        25 => b"stack_next",
        26 => b"stack_pop",
        27 => b"stack_put",
        28 => b"hand_link",
        29 => b"home_swap",
        30 => b"home_link",
        31 => b"home_take",
        _ => b"home_walk",
    }
}

/// What stands behind the word of the kind of step with this number.
#[inline(always)]
fn after_kind(seat: u32, index: usize) -> Spot
    requires { index < 33 }
    ensures { result ≡ after_kind seat index }
{
    match index {
        0 => at_locale(seat, LocaleVerb::Number(NumberVerb::Register)),
        1 => step(seat, Kind::Unregister),
        2 => step(seat, Kind::PinLook),
        3 => step(seat, Kind::PinSet),
        4 => step(seat, Kind::Unpin),
        5 => at_locale(seat, LocaleVerb::Number(NumberVerb::TakeLook)),
        6 => at_locale(seat, LocaleVerb::Number(NumberVerb::TakeTry)),
        7 => at_pointer(seat, PointerVerb::Show),
        8 => at_pointer(seat, PointerVerb::Hold),
        9 => at_pointer(seat, PointerVerb::Touch),
        10 => at_pointer(seat, PointerVerb::Return),
        11 => at_pointer(seat, PointerVerb::DeferLook),
        12 => step(seat, Kind::DeferSwap),
        13 => step(seat, Kind::DeferLink),
        14 => step(seat, Kind::ElectLocal),
        15 => step(seat, Kind::ElectGlobal),
        16 => step(seat, Kind::EpochLook),
        17 => step(seat, Kind::ScanToken),
        18 => step(seat, Kind::Advance),
        19 => step(seat, Kind::Spread),
        20 => step(seat, Kind::Collect),
        21 => step(seat, Kind::Walk),
        22 => at_pointer(seat, PointerVerb::Release),
        23 => step(seat, Kind::Leave),
        24 => at_locale(seat, LocaleVerb::StackLook),
        25 => step(seat, Kind::StackNext),
        26 => step(seat, Kind::StackPop),
        27 => at_pointer(seat, PointerVerb::StackPut),
        28 => at_pointer(seat, PointerVerb::HandLink),
        29 => at_pointer(seat, PointerVerb::HomeSwap),
        30 => step(seat, Kind::HomeLink),
        31 => at_locale(seat, LocaleVerb::HomeTake),
        _ => step(seat, Kind::HomeWalk),
    }
}

/// What stands behind the locale of a step.
#[inline(always)]
fn after_locale(seat: u32, verb: LocaleVerb, locale: u8) -> Spot
    ensures { result ≡ after_locale seat verb locale }
{
    match verb {
        LocaleVerb::Number(verb) => Spot::Number { seat, verb, locale },
        LocaleVerb::StackLook => step(seat, Kind::StackLook { locale }),
        LocaleVerb::HomeTake => step(seat, Kind::HomeTake { locale }),
    }
}

/// What stands behind the token or the index of a step.
#[inline(always)]
fn after_number_of(seat: u32, verb: NumberVerb, locale: u8, number: u32) -> Spot
    ensures { result ≡ after_number_of seat verb locale number }
{
    let kind = match verb {
        NumberVerb::Register => Kind::Register {
            locale,
            token: number,
        },
        NumberVerb::TakeLook => Kind::TakeLook {
            locale,
            index: number,
        },
        NumberVerb::TakeTry => Kind::TakeTry {
            locale,
            index: number,
        },
    };
    step(seat, kind)
}

/// What stands behind a pointer of a step.
#[inline(always)]
fn after_pointer(seat: u32, verb: PointerVerb, ptr: Ptr) -> Spot
    ensures { result ≡ after_pointer seat verb ptr }
{
    match verb {
        PointerVerb::Show => step(seat, Kind::Show { ptr }),
        PointerVerb::Hold => step(seat, Kind::Hold { ptr }),
        PointerVerb::Touch => step(seat, Kind::Touch { ptr }),
        PointerVerb::Return => step(seat, Kind::Return { ptr }),
        PointerVerb::DeferLook => step(seat, Kind::DeferLook { ptr }),
        PointerVerb::Release => step(seat, Kind::Release { ptr }),
        PointerVerb::HandLink => Spot::Next { seat, ptr },
        PointerVerb::StackPut => at_pointer(seat, PointerVerb::StackTail { top: ptr }),
        PointerVerb::StackTail { top } => step(seat, Kind::StackPut { top, tail: ptr }),
        PointerVerb::HomeSwap => at_pointer(seat, PointerVerb::HomeTail { top: ptr }),
        PointerVerb::HomeTail { top } => step(seat, Kind::HomeSwap { top, tail: ptr }),
    }
}

impl Form<RunLine> for Spot {
    ghost grammar = { run_grammar };

    ghost is_form = { IsSpot };

    ghost sound = { run_grammar_sound };

    #[inline(always)]
    fn word_count(self) -> usize {
        match self {
            Spot::First
            | Spot::Version
            | Spot::ShapeWord
            | Spot::StartWord
            | Spot::SeatsWord
            | Spot::Seat => 1,
            Spot::Kind { .. } => 33,
            _ => 0,
        }
    }

    #[inline(always)]
    fn word(self, index: usize) -> &'static [u8] {
        match self {
            Spot::First => b"pgas-run",
            Spot::Version => b"1",
            Spot::ShapeWord => b"shape",
            Spot::StartWord => b"start",
            Spot::SeatsWord => b"seats",
            Spot::Seat => b"end",
            _ => kind_word(index),
        }
    }

    #[inline(always)]
    fn after_word(self, index: usize) -> Self {
        match self {
            Spot::First => Spot::Version,
            Spot::Version => Spot::Whole(RunLine::Version),
            Spot::ShapeWord => Spot::Locales,
            Spot::StartWord => Spot::Epoch,
            Spot::SeatsWord => Spot::Seats,
            Spot::Seat => Spot::Whole(RunLine::End),
            Spot::Kind { seat } => after_kind(seat, index),
            _ => self,
        }
    }

    #[inline(always)]
    fn bounds(self) -> Option<Bounds> {
        match self {
            Spot::Locales => Some(Bounds::between(1, 16)),
            Spot::Tokens { .. } | Spot::Seats => Some(Bounds::between(1, 1024)),
            Spot::Objects { locales, .. } => Some(Bounds::between(1, objects_most(locales))),
            Spot::Width {
                locales,
                objects,
                ..
            } => Some(Bounds::between(2, width_most(locales, objects))),
            Spot::Epoch => Some(Bounds::between(1, 1 << 62)),
            Spot::Stack { .. } => Some(Bounds::between(0, (1 << 40) - 1)),
            Spot::Seat | Spot::Count { .. } | Spot::Number { .. } | Spot::Uses { .. } => Some(
                Bounds::between(0, MOST_COUNT),
            ),
            Spot::Locale { .. } => Some(Bounds::between(0, 255)),
            Spot::Pointer { .. } => Some(Bounds::between(0, 15)),
            Spot::Index { .. } => Some(Bounds::between(1, (1 << 24) - 1)),
            Spot::Next { .. } => Some(Bounds::between(0, u64::MAX)),
            _ => None,
        }
    }

    #[inline(always)]
    fn after_number(self, number: u64) -> Self {
        match self {
            Spot::Locales => Spot::Tokens {
                locales: number as u8,
            },
            Spot::Tokens { locales } => Spot::Objects {
                locales,
                tokens: number as u32,
            },
            Spot::Objects { locales, tokens } => Spot::Width {
                locales,
                tokens,
                objects: number as u32,
            },
            Spot::Width {
                locales,
                tokens,
                objects,
            } => Spot::Whole(RunLine::Shape(Shape {
                locales,
                tokens,
                objects,
                width: number as u32,
            })),
            Spot::Epoch => Spot::Count { epoch: number },
            Spot::Count { epoch } => Spot::Stack {
                epoch,
                count: number as u32,
            },
            Spot::Stack { epoch, count } => Spot::Whole(RunLine::Start(Start {
                epoch,
                count,
                stack: number,
            })),
            Spot::Seats => Spot::Whole(RunLine::Seats(number as u32)),
            Spot::Seat => Spot::Kind {
                seat: number as u32,
            },
            Spot::Locale { seat, verb } => after_locale(seat, verb, number as u8),
            Spot::Number { seat, verb, locale } => {
                after_number_of(seat, verb, locale, number as u32)
            }
            Spot::Pointer { seat, verb } => Spot::Index {
                seat,
                verb,
                locale: number as u8,
            },
            Spot::Index { seat, verb, locale } => Spot::Uses {
                seat,
                verb,
                locale,
                index: number as u32,
            },
            Spot::Uses {
                seat,
                verb,
                locale,
                index,
            } => after_pointer(seat, verb, Ptr::new(locale, index, number as u32)),
            Spot::Next { seat, ptr } => step(seat, Kind::HandLink { ptr, next: number }),
            _ => self,
        }
    }

    #[inline(always)]
    fn says(self) -> Option<RunLine> {
        match self {
            Spot::Whole(line) => Some(line),
            _ => None,
        }
    }

    #[inline(always)]
    fn indented(self) -> Self {
        self
    }

    #[inline(always)]
    fn is_joined(self) -> bool {
        matches!(self, Spot::Pointer { .. } | Spot::Index { .. })
    }
}
