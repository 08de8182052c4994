//! The objects that a pass holds, as it keeps them.
ghost use Rattle.std.specs.Prelude.{◌≡◌, ◌<◌, ◌==◌, true, [], ◌∷◌, length};
ghost use Rattle.std.specs.List.{list_any};
ghost use Rattle.epoch_manager.specs.HeldNumbers.{joined_number};

use std::marker::Model;

/// The most objects that a pass holds.
pub const MOST_HELD: usize = 4;

/// The numbers of the objects that a pass holds, each once: of each its locale above the low 24 bits, and its index in them.
/// They fill their places from the last on, so that the one that came last comes first.
#[derive(Drop)]
pub(crate) struct HeldList {
    numbers: [u32; MOST_HELD],
    first: usize,
}

impl Model for HeldList {
    ghost use Rattle.std.specs.Prelude.{ℕ, ◌≤◌, List, drop};

    ghost Value = { List ℕ };

    ghost view = { λ h. drop h.first h.numbers };

    ghost invariant = { λ h. h.first ≤ 4 };
}

impl HeldList {
    /// None is held.
    pub(crate) fn new() -> HeldList
        ensures { result ≡ [] }
    {
        HeldList {
            numbers: [0; MOST_HELD],
            first: MOST_HELD,
        }
    }

    /// How many are held.
    #[inline]
    pub(crate) fn len(&self) -> u32
        ensures { result ≡ length self.now }
    {
        (MOST_HELD - self.first) as u32
    }

    #[inline]
    fn is_empty(&self) -> bool
        ensures { result ≡ true → self.now ≡ [] }
    {
        self.first == MOST_HELD
    }

    #[inline(never)]
    fn has(&self, number: u32) -> bool
        ensures { result ≡ list_any (λ m. m == number) self.now }
    {
        self.numbers[self.first..].contains(&number)
    }

    #[inline]
    fn put(&mut self, number: u32)
        requires { length self.old < 4 }
        ensures { self.new ≡ number ∷ self.old }
    {
        self.first -= 1;
        self.numbers[self.first] = number;
    }

    /// One more is held, or again.
    #[inline]
    pub(crate) fn join(&mut self, number: u32)
        requires { length self.old < 4 }
        ensures { self.new ≡ joined_number number self.old }
    {
        if self.is_empty() || !self.has(number) {
            self.put(number);
        }
    }

    /// All holds end.
    #[inline]
    pub(crate) fn clear(&mut self)
        ensures { self.new ≡ [] }
    {
        self.first = MOST_HELD;
    }
}
