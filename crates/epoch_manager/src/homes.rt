//! The objects that a reclaim has freed and that go home together.
//!
//! Freed objects of one locale are linked as they come, each to the one before it, so that one exchange of the locale's
//! home head takes up to 32 of them home.
ghost use Rattle.std.specs.Prelude.{◌≡◌, ◌<◌, ◌≤◌, ℕ, None, length};
ghost use Rattle.epoch_manager.specs.HomeChains.{chain_of, IsShort, word_below, joined, AreBut, Joins};

use pgas_base::{MOST_LOCALES, Ptr};

/// The next word of an object that has no link yet.
pub(crate) const PENDING: u64 = u64::MAX;

// The most objects that go home together.
const MOST_TOGETHER: u32 = 32;

const LOCALES: usize = MOST_LOCALES as usize;

/// Freed objects of one locale, linked from the last one that came to the first.
#[derive(Drop, Clone, Copy)]
pub(crate) struct HomeChain {
    pub(crate) top: Ptr,
    pub(crate) tail: Ptr,
    many: u32,
}

/// The chain of each locale that has freed objects.
#[derive(Drop)]
pub(crate) struct Homes {
    chains: [Option<HomeChain>; LOCALES],
    ghost many: { length chains ≡ 16 },
    ghost short: { (locale : ℕ) → IsShort (chain_of chains locale) },
}

// The chain with one more object before it.
fn joined(ptr: Ptr, chain: Option<HomeChain>) -> HomeChain
    requires { IsShort chain }
    ensures value { result ≡ joined ptr chain }
    ensures bound { result.many ≤ 32 }
{
    match chain {
        None => HomeChain {
            top: ptr,
            tail: ptr,
            many: 1,
        },
        Some(chain) => HomeChain {
            top: ptr,
            tail: chain.tail,
            many: chain.many + 1,
        },
    }
}

impl Homes {
    /// No chain.
    pub(crate) fn none() -> Homes
        ensures { (locale : ℕ) → chain_of result.chains locale ≡ None }
    {
        Homes {
            chains: [None; LOCALES],
        }
    }

    fn at(&self, locale: u8) -> Option<HomeChain>
        requires { locale < 16 }
        ensures { result ≡ chain_of self.now.chains locale }
    {
        self.chains[usize::from(locale)]
    }

    /// The next word of an object that comes before those of its locale.
    pub(crate) fn below(&self, locale: u8) -> u64
        requires { locale < 16 }
        ensures { result ≡ word_below (chain_of self.now.chains locale) }
    {
        match self.at(locale) {
            None => PENDING,
            Some(chain) => chain.top.word(),
        }
    }

    fn set(&mut self, locale: u8, chain: Option<HomeChain>)
        requires locale { locale < 16 }
        requires short { IsShort chain }
        ensures { AreBut locale chain (chain_of self.old.chains) (chain_of self.new.chains) }
    {
        self.chains[usize::from(locale)] = chain;
    }

    /// Puts an object before those of its locale. A chain that then is as long as may be is given out.
    pub(crate) fn join(&mut self, ptr: Ptr) -> Option<HomeChain>
        ensures { Joins ptr (chain_of self.old.chains) (chain_of self.new.chains) result }
    {
        let locale = ptr.locale();
        let before = self.at(locale);
        let longer = joined(ptr, before);
        let full = longer.many == MOST_TOGETHER;
        if full {
            self.set(locale, None);
            return Some(longer);
        }
        self.set(locale, Some(longer));
        None
    }

    /// Gives out the chain of a locale.
    pub(crate) fn take(&mut self, locale: u8) -> Option<HomeChain>
        requires { locale < 16 }
        ensures chain { result ≡ chain_of self.old.chains locale }
        ensures rest { AreBut locale None (chain_of self.old.chains) (chain_of self.new.chains) }
    {
        let chain = self.at(locale);
        self.set(locale, None);
        chain
    }
}
