ghost use Rattle.std.specs.Prelude.{◌≡◌, ◌↔◌, IsOk, IsErrOf};
ghost use Rattle.pgas_base.specs.Shapes.{LocalesInRange, TokensInRange, ObjectsInRange, WidthInRange, WordsInRange, IsShape};

use thiserror::Error;

/// The most locales of a shape.
pub const MOST_LOCALES: u8 = 16;

/// The most tokens per locale.
pub const MOST_TOKENS: u32 = 1024;

/// The most objects per locale.
pub const MOST_OBJECTS: u32 = 0x10_0000;

/// The least words in the row of an object.
pub const LEAST_WIDTH: u32 = 2;

/// The most words in the row of an object.
pub const MOST_WIDTH: u32 = 4096;

/// The most words of all objects, each with two beside its row.
pub const MOST_WORDS: u64 = 0x200_0000;

/// How much there is: the locales, of which each has so many tokens and so many objects, and the
/// words in the row of an object. Any numbers may stand here; `check` says whether they will do.
#[derive(Clone, Copy, Debug, PartialEq, Eq)]
pub struct Shape {
    /// 1 to 16.
    pub locales: u8,
    /// 1 to 1,024 per locale.
    pub tokens: u32,
    /// 1 to 2^20 per locale.
    pub objects: u32,
    /// 2 to 4,096 words.
    pub width: u32,
}

/// The limit that a shape breaks.
#[derive(Clone, Copy, Debug, PartialEq, Eq, Error)]
pub enum ShapeFault {
    #[error("the locales are not 1 to 16")]
    Locales,
    #[error("the tokens per locale are not 1 to 1024")]
    Tokens,
    #[error("the objects per locale are not 1 to 1048576")]
    Objects,
    #[error("the width is not 2 to 4096")]
    Width,
    #[error("the objects have more than 33554432 words")]
    Words,
}

impl Shape {
    /// The first limit that the shape breaks, in the order of `ShapeFault`. For the last one an object
    /// counts two words beside its row.
    pub fn check(&self) -> Result<(), ShapeFault>
        ensures ok { IsOk result ↔ IsShape self.now }
        ensures locales { IsErrOf result ShapeFault.Locales ↔ ¬ LocalesInRange self.now }
        ensures tokens { IsErrOf result ShapeFault.Tokens ↔
            (LocalesInRange self.now × ¬ TokensInRange self.now) }
        ensures objects { IsErrOf result ShapeFault.Objects ↔
            (LocalesInRange self.now × TokensInRange self.now × ¬ ObjectsInRange self.now) }
        ensures width { IsErrOf result ShapeFault.Width ↔
            (LocalesInRange self.now × TokensInRange self.now × ObjectsInRange self.now
            × ¬ WidthInRange self.now) }
        ensures words { IsErrOf result ShapeFault.Words ↔
            (LocalesInRange self.now × TokensInRange self.now × ObjectsInRange self.now
            × WidthInRange self.now × ¬ WordsInRange self.now) }
    {
        if !(1..=MOST_LOCALES).contains(&self.locales) {
            return Err(ShapeFault::Locales);
        }
        if !(1..=MOST_TOKENS).contains(&self.tokens) {
            return Err(ShapeFault::Tokens);
        }
        if !(1..=MOST_OBJECTS).contains(&self.objects) {
            return Err(ShapeFault::Objects);
        }
        if !(LEAST_WIDTH..=MOST_WIDTH).contains(&self.width) {
            return Err(ShapeFault::Width);
        }
        let objects = u64::from(self.locales) * u64::from(self.objects);
        if objects * (u64::from(self.width) + 2) > MOST_WORDS {
            return Err(ShapeFault::Words);
        }
        Ok(())
    }
}
