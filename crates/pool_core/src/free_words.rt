ghost use Rattle.std.specs.Prelude.{◌≡◌, ◌<◌, ◌^◌};
ghost use Rattle.pool_core.specs.FreeWords.{free_head_word, free_count, free_index};

const INDEXES: u64 = 1 << 24;

/// What the head of a stack of free objects says.
#[derive(Clone, Copy, Debug, PartialEq, Eq)]
pub struct FreeWord {
    /// How often the head was changed, added to the count that it began with.
    pub count: u64,
    /// The index of the object on top, 0 where the stack is empty.
    pub index: u32,
}

/// The word of a head with this count and this index. No other count and index below these bounds have
/// it, and it is the word of what `of_free_word` says of it.
pub fn free_word(count: u64, index: u32) -> u64
    requires count { count < 2 ^ 40 }
    requires index { index < 2 ^ 24 }
    ensures value { result ≡ free_head_word count index }
    ensures count { free_count result ≡ count }
    ensures index { free_index result ≡ index }
{
    count * INDEXES + u64::from(index)
}

/// What a head's word says. Every word says something: the index is its low 24 bits, the count what is
/// above them.
pub fn of_free_word(word: u64) -> FreeWord
    ensures count { result.count ≡ free_count word }
    ensures index { result.index ≡ free_index word }
    ensures count_bound { result.count < 2 ^ 40 }
    ensures index_bound { result.index < 2 ^ 24 }
    ensures word { free_head_word result.count result.index ≡ word }
{
    FreeWord {
        count: word / INDEXES,
        index: (word % INDEXES) as u32,
    }
}
