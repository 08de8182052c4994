//! The numbers that a bag is opened with, and the order in which a caller tries the segments.
ghost use Rattle.std.specs.Prelude.{◌≡◌, ◌<◌, ◌≤◌, ◌%◌, ◌/◌};
ghost use Rattle.shared_bag.specs.Shapes.{all_segments, tried, IsShape};

/// What a bag is opened with, in numbers.
#[derive(Clone, Copy)]
pub struct Shape {
    /// Locales group callers and segments: caller c belongs to locale c mod `locales`.
    pub locales: u32,
    /// How many segments each locale has.
    pub segments: u32,
    /// How many items a segment holds at most.
    pub room: u32,
    pub callers: u32,
}

// Mostly the number is below the other one, and nothing is divided.
fn modulo(number: u32, by: u32) -> u32
    requires { 0 < by }
    ensures { result ≡ number % by }
{
    if number < by { number } else { number % by }
}

fn quotient(number: u32, by: u32) -> u32
    requires { 0 < by }
    ensures { result ≡ number / by }
{
    if number < by { 0 } else { number / by }
}

impl Shape {
    /// How many segments all locales have together. They are numbered by locale.
    pub(crate) fn all_segments(self) -> u32
        requires { IsShape self }
        ensures count { result ≡ all_segments self }
        ensures bound { result ≤ 1024 }
    {
        self.locales * self.segments
    }

    /// The segment that a caller tries after `place` others: those of its own locale, from one on that
    /// its number picks, and then those of the other locales by rising locale round from its own.
    pub(crate) fn tried(self, caller: u32, place: u32) -> u32
        requires shape { IsShape self }
        requires place { place < all_segments self }
        ensures segment { result ≡ tried self caller place }
        ensures within { result < all_segments self }
    {
        let locale = modulo(
            modulo(caller, self.locales) + quotient(place, self.segments),
            self.locales,
        );
        let number = modulo(
            modulo(quotient(caller, self.locales), self.segments) + modulo(place, self.segments),
            self.segments,
        );
        locale * self.segments + number
    }
}
