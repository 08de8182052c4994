ghost use Rattle.std.specs.Prelude.{◌≡◌, ℕ, ◌+◌, ◌-◌, ◌↔◌, ◌<◌, ◌^◌, IfSome, IsNone};
ghost use Rattle.pool_core.specs.Headers.{IsHeaderWord, header_word, released_word};
ghost use Rattle.pool_core.specs.declared.headers.State.{State};

use crate::headers::{Header, State};

const STATES: u64 = 8;

/// The word of an object with this count in this state. No other count and state have it.
pub fn header(count: u32, state: State) -> u64
    ensures value { result ≡ header_word count state }
    ensures bound { result < 2 ^ 35 }
    ensures one_count { (other : ℕ) (as_well : State) → header_word other as_well ≡ result → other ≡ count }
    ensures one_state { (other : ℕ) (as_well : State) → header_word other as_well ≡ result → as_well ≡ state }
{
    u64::from(count) * STATES + state as u64
}

/// What a header word says. `None` comes exactly where the word is 2^35 or more, or its low three bits
/// are no state.
pub fn of_header(word: u64) -> Option<Header>
    ensures some { IfSome result (λ h. header_word h.count h.state ≡ word) }
    ensures none { IsNone result ↔ ¬ IsHeaderWord word }
{
    let count = u32::try_from(word / STATES).ok()?;
    let state = match word % STATES {
        0 => State::Free,
        1 => State::Own,
        2 => State::Shown,
        3 => State::Worn,
        _ => return None,
    };
    Some(Header { count, state })
}

/// The next word of a free object that a caller takes.
pub fn taken(header: Header) -> u64
    requires { header.state ≡ State.Free }
    ensures { result ≡ header_word header.count State.Own }
{
    self::header(header.count, State::Own)
}

/// The next word of an owned object that its owner shows to all.
pub fn shown(header: Header) -> u64
    requires { header.state ≡ State.Own }
    ensures { result ≡ header_word header.count State.Shown }
{
    self::header(header.count, State::Shown)
}

/// The next word of an owned object that its owner gives back. It was never shown, so nobody else knows
/// of it, and its count stays.
pub fn returned(header: Header) -> u64
    requires { header.state ≡ State.Own }
    ensures { result ≡ header_word header.count State.Free }
{
    self::header(header.count, State::Free)
}

/// The next word of a shown object that is released: one count higher and free. An object with the last
/// count, 2^32 - 1, keeps it and is worn.
pub fn released(header: Header) -> u64
    requires { header.state ≡ State.Shown }
    ensures value { result ≡ released_word header.count }
    ensures again { header.count < 2 ^ 32 - 1 → result ≡ header_word (header.count + 1) State.Free }
    ensures last { header.count ≡ 2 ^ 32 - 1 → result ≡ header_word header.count State.Worn }
{
    match header.count.checked_add(1) {
        Some(count) => self::header(count, State::Free),
        None => self::header(header.count, State::Worn),
    }
}
