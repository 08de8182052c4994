ghost use Rattle.std.specs.Prelude.{◌≡◌, ◌↔◌, ◌<◌, ◌≤◌, ◌^◌, IfSome, IsNone};
ghost use Rattle.pgas_base.specs.Pointers.{Pointer, IsPointer, NamesPointer, word_of};

use std::fmt;
use std::marker::Model;

const LOCALES: u64 = 16;

// The locale stands in a word in steps of this.
const LOCALE_STEP: u64 = 1 << 56;

// The index stands in a word in steps of this, below the locale, and the count below the index.
const INDEX_STEP: u64 = 1 << 32;

const INDEXES: u64 = 1 << 24;

/// A counted pointer: the object with this index of this locale, in the use with this count. Each time
/// that an object is released its count rises, so a pointer to an earlier use is told from one to a later
/// use (Treiber 1986 gives the reason). Indexes begin at 1, so that the word 0 is free to mean none.
#[derive(Clone, Copy, PartialEq, Eq)]
pub struct Ptr {
    // The parts stand in one word, as it is stored, so that a pointer is moved and stored as it is.
    word: u64,
}

impl Model for Ptr {
    ghost use Rattle.pgas_base.specs.Pointers.{Pointer, NamesPointer, pointer_in, word_of, word_in};

    ghost Value = { Pointer };

    ghost view = { λ p. pointer_in p.word };

    ghost invariant = { λ p. NamesPointer p.word };

    ghost inverse = { λ q. record { word = word_of q } };

    ghost inverse_ok = { λ p _ i. record { word = word_in p.word i } };
}

impl Ptr {
    #[inline]
    pub fn new(locale: u8, index: u32, count: u32) -> Ptr
        requires locale { locale < 16 }
        requires some_object { 1 ≤ index }
        requires index { index < 2 ^ 24 }
        ensures { result ≡ record { locale = locale; index = index; count = count } }
    {
        Ptr {
            word: u64::from(locale) * LOCALE_STEP
                + u64::from(index) * INDEX_STEP
                + u64::from(count),
        }
    }

    /// 0 to 15.
    #[inline]
    pub fn locale(self) -> u8
        ensures value { result ≡ self.locale }
        ensures bound { result < 16 }
    {
        (self.word / LOCALE_STEP) as u8
    }

    /// 1 to 2^24 - 1.
    #[inline]
    pub fn index(self) -> u32
        ensures value { result ≡ self.index }
        ensures some_object { 1 ≤ result }
        ensures bound { result < 2 ^ 24 }
    {
        (self.word / INDEX_STEP % INDEXES) as u32
    }

    /// The reuse count.
    #[inline]
    pub fn count(self) -> u32
        ensures { result ≡ self.count }
    {
        (self.word % INDEX_STEP) as u32
    }

    /// The locale in the top 8 bits, the index in the next 24, and the count in the low 32. No other
    /// pointer has this word.
    #[inline]
    pub fn word(self) -> u64
        ensures value { result ≡ word_of self }
        ensures pointer { IsPointer self }
        ensures one_to_one { (other : Pointer) → IsPointer other → word_of other ≡ result → other ≡ self }
        ensures some { 1 ≤ result }
        ensures bound { result < 2 ^ 60 }
    {
        self.word
    }

    /// The pointer with this word. `None` comes exactly where the index would be 0 or the locale 16 or
    /// more, so of the word 0 too.
    #[inline]
    pub fn of_word(word: u64) -> Option<Ptr>
        ensures some { IfSome result (λ pointer. word_of pointer ≡ word) }
        ensures pointer { IfSome result (λ pointer. IsPointer pointer) }
        ensures none { IsNone result ↔ ¬ NamesPointer word }
    {
        let locale = word / LOCALE_STEP;
        let index = word / INDEX_STEP % INDEXES;
        if locale >= LOCALES || index == 0 {
            return None;
        }
        Some(Ptr { word })
    }

    /// The pointer with this word, which is known to name one.
    #[inline]
    pub fn named(word: u64) -> Ptr
        requires { NamesPointer word }
        ensures word { word_of result ≡ word }
        ensures pointer { IsPointer result }
    {
        Ptr { word }
    }
}

impl fmt::Debug for Ptr {
    fn fmt<W: fmt::Write>(&self, f: &mut fmt::Formatter<W>) -> fmt::Result {
        f.debug_struct("Ptr")
            .field("locale", &self.locale())
            .field("index", &self.index())
            .field("count", &self.count())
            .finish()
    }
}
