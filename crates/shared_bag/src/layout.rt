//! Where the words and slots of a bag stand. Word 0 is the count. Then each segment has its turn, and its slot, each on cache
//! lines of its own.
ghost use Rattle.std.specs.Prelude.{◌≡◌};
ghost use Rattle.shared_bag.specs.Layout.{turn_place, words_of, slot_place, slots_in};

/// The name of a word of a bag, in the lists of words that a caller has read.
pub enum Word {
    /// The number of items.
    Count,
    /// The turn of a segment: 0, or a caller's number and one.
    Turn { segment: u32 },
    /// The number of items of a segment, which a caller found under its turn and left as they were.
    Length { segment: u32 },
}

/// The place of the count word, which all callers share.
pub(crate) const COUNT: usize = 0;

// So many words are as wide as a cache line.
const LINE: usize = 8;

// A slot is five words wide. So many of them, of which one is used, keep segments on lines of their own.
pub(crate) const SLOTS: usize = 4;

#[inline]
pub(crate) fn turn_at(segment: u32) -> usize
    ensures { result ≡ turn_place segment }
{
    (segment as usize + 1) * LINE
}

/// How many words a bag of so many segments has.
#[inline]
pub(crate) fn words_for(segments: u32) -> usize
    ensures { result ≡ words_of segments }
{
    segments as usize * LINE + 1
}

#[inline]
pub(crate) fn slot_at(segment: u32) -> usize
    ensures { result ≡ slot_place segment }
{
    segment as usize * SLOTS
}

/// How many slots a bag of so many segments has.
#[inline]
pub(crate) fn slots_for(segments: u32) -> usize
    ensures { result ≡ slots_in segments }
{
    segments as usize * SLOTS
}
