//! Where the words of a manager stand in its table. Only this file and `specs/Layout.antt` know.
//!
//! The two global words come first, each on a cache line of its own. Then each locale has five lines: its
//! epoch, its election, its four lists, the head of its stack and that of its home chain. Then each token has
//! a line, so that pins of two callers don't disturb one another. Then each object has its header, its next
//! word and its row, one behind the other. Then each of the client's words has a line.
ghost use Rattle.std.specs.Prelude.{◌≡◌, ◌+◌, ◌*◌, ◌^◌, ◌<◌, ◌≤◌};
ghost use Rattle.pgas_base.specs.Shapes.{IsShape};
ghost use Rattle.epoch_laws.specs.Places.{place_of};
ghost use Rattle.epoch_laws.specs.States.{IsPlace};
ghost use Rattle.epoch_laws.specs.Timing.{IsToken};
ghost use Rattle.epoch_laws.specs.Words.{local_epoch, local_election, list, free_stack, home_chain, token as word_of_token, header_of, next_of};
ghost use Rattle.epoch_table.specs.Layout.{InRow, OfClient, IsSite, site_of, place, named_place, locale_place, tokens_place, objects_place, client_place, object_place};

use epoch_laws::Token;
use pgas_base::{Ptr, Shape, Spot};
use std::marker::Model;

/// The words of one cache line.
pub(crate) const LINE: usize = 8;

/// The place of the global epoch.
pub(crate) const EPOCH: usize = 0;

/// The place of the global election.
pub(crate) const ELECTION: usize = LINE;

/// The first locale's words stand here, and those of the next one so many words on.
pub(crate) const LOCALES: usize = 16;

/// From one locale's words to the next one's.
pub(crate) const LOCALE: usize = 5 * LINE;

#[inline]
fn locale_at(locale: u8) -> usize
    ensures value { result ≡ locale_place locale }
    ensures most { result ≤ 10216 }
{
    LOCALES + locale as usize * LOCALE
}

#[inline]
pub(crate) fn epoch_at(locale: u8) -> usize
    ensures { (shape : Shape) → result ≡ named_place shape (local_epoch locale) }
{
    locale_at(locale)
}

#[inline]
pub(crate) fn election_at(locale: u8) -> usize
    ensures { (shape : Shape) → result ≡ named_place shape (local_election locale) }
{
    locale_at(locale) + LINE
}

#[inline]
pub(crate) fn stack_at(locale: u8) -> usize
    ensures { (shape : Shape) → result ≡ named_place shape (free_stack locale) }
{
    locale_at(locale) + 3 * LINE
}

#[inline]
pub(crate) fn list_at(locale: u8, number: u64) -> usize
    requires { number < 4 }
    ensures { (shape : Shape) → result ≡ named_place shape (list locale number) }
{
    locale_at(locale) + 2 * LINE + number as usize
}

#[inline]
pub(crate) fn home_at(locale: u8) -> usize
    ensures { (shape : Shape) → result ≡ named_place shape (home_chain locale) }
{
    locale_at(locale) + 4 * LINE
}

/// Where the tokens begin.
#[inline]
pub(crate) fn tokens_at(shape: &Shape) -> usize
    ensures value { result ≡ tokens_place shape.now }
    ensures most { result ≤ 10216 }
{
    locale_at(shape.locales)
}

/// Where the objects begin.
#[inline]
pub(crate) fn objects_at(shape: &Shape) -> usize
    requires { IsShape shape.now }
    ensures { result ≡ objects_place shape.now }
{
    tokens_at(shape) + shape.locales as usize * shape.tokens as usize * LINE
}

/// Where the client's words begin.
#[inline]
pub(crate) fn client_at(shape: &Shape) -> usize
    requires { IsShape shape.now }
    ensures value { result ≡ client_place shape.now }
    ensures most { result < 2 ^ 32 }
{
    objects_at(shape) + shape.locales as usize * shape.objects as usize * (shape.width as usize + 2)
}

/// A shape with where its parts begin and how many words they have, worked out once: so that a step finds its word by a
/// product or two. Contracts see the shape.
#[derive(Debug, Drop)]
pub(crate) struct Layout {
    shape: Shape,
    tokens: usize,
    objects: usize,
    client: usize,
    // The words of an object, and those of all objects of a locale.
    object_words: usize,
    locale_words: usize,
}

impl Model for Layout {
    ghost use Rattle.pgas_base.specs.declared.shapes.Shape.{Shape};
    ghost use Rattle.epoch_table.specs.Layout.{IsLaidOut};

    ghost Value = { Shape };

    ghost view = { λ l. l.shape };

    ghost invariant = { λ l. IsLaidOut l.shape l.tokens l.objects l.client l.object_words l.locale_words };
}

impl Layout {
    /// The layout of a shape.
    pub(crate) fn of(shape: Shape) -> Layout
        requires { IsShape shape }
        ensures { result ≡ shape }
    {
        let object_words = shape.width as usize + 2;
        Layout {
            shape,
            tokens: tokens_at(&shape),
            objects: objects_at(&shape),
            client: client_at(&shape),
            object_words,
            locale_words: shape.objects as usize * object_words,
        }
    }

    #[inline]
    pub(crate) fn token_at(&self, token: Token) -> usize
        requires { IsToken self.now.locales self.now.tokens token }
        ensures { result ≡ named_place self.now (word_of_token token) }
    {
        let number = token.locale as usize * self.shape.tokens as usize + token.number as usize;
        self.tokens + number * LINE
    }

    // The place of a word of the client's.
    #[inline]
    pub(crate) fn own_at(&self, word: u32) -> usize
        ensures { result ≡ place self.now (OfClient word) }
    {
        self.client + word as usize * LINE
    }

    // The first word of an object, which is its header.
    #[inline]
    pub(crate) fn header_at(&self, locale: u8, index: u32) -> usize
        requires place { IsPlace self.now record { locale = locale; index = index } }
        ensures value { result ≡ named_place self.now (header_of record { locale = locale; index = index }) }
        ensures most { result + self.now.width + 1 < 2 ^ 32 }
    {
        self.objects
            + locale as usize * self.locale_words
            + (index as usize - 1) * self.object_words
    }

    #[inline]
    pub(crate) fn next_at(&self, locale: u8, index: u32) -> usize
        requires place { IsPlace self.now record { locale = locale; index = index } }
        ensures { result ≡ named_place self.now (next_of record { locale = locale; index = index }) }
    {
        self.header_at(locale, index) + 1
    }

    // A word in the row of an object.
    #[inline]
    pub(crate) fn row_at(&self, ptr: Ptr, at: u32) -> usize
        requires place { IsPlace self.now (place_of ptr) }
        requires at { at < self.now.width }
        ensures { result ≡ place self.now (InRow (place_of ptr) at) }
    {
        self.header_at(ptr.locale(), ptr.index()) + 2 + at as usize
    }

    // The place of a spot.
    #[inline]
    pub(crate) fn spot_at(&self, spot: Spot) -> usize
        requires { IsSite self.now (site_of spot) }
        ensures { result ≡ place self.now (site_of spot) }
    {
        match spot {
            Spot::Own { word } => self.own_at(word),
            Spot::Row { ptr, at } => self.row_at(ptr, at),
        }
    }
}
