ghost use Rattle.std.specs.Prelude.{◌≡◌, ◌<◌, ◌≤◌, ◌^◌, ◌*◌, ◌+◌, ◌-◌, ◌/◌, ◌%◌, ℕ, length, slice_index, slice_set};
ghost use Rattle.epoch_laws.specs.Needs.{header_word_of};
ghost use Rattle.epoch_laws.specs.Places.{with_number, with_place, with_token};
ghost use Rattle.epoch_laws.specs.DeferralSteps.{with_list};
ghost use Rattle.epoch_laws.specs.StackSteps.{free_head_word_of};
ghost use Rattle.epoch_laws.specs.States.{IsPlace, State};
ghost use Rattle.epoch_core.specs.Objects.{object_place};
ghost use Rattle.epoch_core.specs.Shown.{IsShowing};
ghost use Rattle.epoch_core.specs.Tables.{IsToken, place_number, token_number};

use crate::machine::Machine;
use crate::objects::Object;
use epoch_laws::Token;
use pool_core::{FreeWord, Header, State as HeaderState, header};

/// How many lists of deferred objects a locale has.
pub(crate) const LISTS: u64 = 4;

/// The next word of an object whose link was not stored yet.
pub(crate) const PENDING: u64 = u64::MAX;

impl Machine {
    fn token_at(&self, token: Token) -> usize
        ensures { result ≡ token_number self.now.shape token }
    {
        token.locale as usize * self.shape.tokens as usize + token.number as usize
    }

    /// The place of an object in the tables. Indexes begin at 1.
    pub(crate) fn object_at(&self, at: Object) -> usize
        ensures { result ≡ place_number self.now.shape (object_place at) }
    {
        at.locale as usize * self.shape.objects as usize + (at.index as usize).saturating_sub(1)
    }

    pub(crate) fn word_of_token(&self, token: Token) -> u64
        ensures { (s : State) → IsShowing self.now s → IsToken self.now.shape token →
            result ≡ s.words.token_word token }
    {
        read(&self.tokens, self.token_at(token))
    }

    pub(crate) fn next_of(&self, at: Object) -> u64
        ensures { (s : State) → IsShowing self.now s → IsPlace self.now.shape (object_place at) →
            result ≡ s.words.next (object_place at) }
    {
        read(&self.next, self.object_at(at))
    }

    pub(crate) fn header_at(&self, at: Object) -> Header
        ensures { (s : State) → IsShowing self.now s → IsPlace self.now.shape (object_place at) →
            result ≡ s.words.header (object_place at) }
    {
        match self.headers.get(self.object_at(at)) {
            Some(header) => *header,
            None => Header {
                count: 0,
                state: HeaderState::Free,
            },
        }
    }

    pub(crate) fn header_word_at(&self, at: Object) -> u64
        ensures { (s : State) → IsShowing self.now s → IsPlace self.now.shape (object_place at) →
            result ≡ header_word_of s (object_place at) }
    {
        let found = self.header_at(at);
        header(found.count, found.state)
    }

    pub(crate) fn free_head_at(&self, locale: u8) -> FreeWord
        ensures { (s : State) → IsShowing self.now s → locale < self.now.shape.locales →
            result ≡ s.words.free_head locale }
    {
        match self.free_heads.get(locale as usize) {
            Some(head) => *head,
            None => FreeWord { count: 0, index: 0 },
        }
    }

    pub(crate) fn free_head_word_at(&self, locale: u8) -> u64
        ensures { (s : State) → IsShowing self.now s → locale < self.now.shape.locales →
            result ≡ free_head_word_of s locale }
    {
        let head = self.free_head_at(locale);
        head.count
            .wrapping_mul(1 << 24)
            .wrapping_add(u64::from(head.index))
    }

    pub(crate) fn epoch_of(&self, locale: u8) -> u64
        ensures { (s : State) → IsShowing self.now s → locale < self.now.shape.locales →
            result ≡ s.words.epoch_of locale }
    {
        read(&self.epochs, locale as usize)
    }

    pub(crate) fn election_of(&self, locale: u8) -> u64
        ensures { (s : State) → IsShowing self.now s → locale < self.now.shape.locales →
            result ≡ s.words.election_of locale }
    {
        read(&self.elections, locale as usize)
    }

    pub(crate) fn home_head(&self, locale: u8) -> u64
        ensures { (s : State) → IsShowing self.now s → locale < self.now.shape.locales →
            result ≡ s.words.home_head locale }
    {
        read(&self.home_heads, locale as usize)
    }

    /// The head of the locale's list with the number `tag` modulo 4.
    pub(crate) fn list_head(&self, locale: u8, tag: u64) -> u64
        ensures { (s : State) → IsShowing self.now s → locale < self.now.shape.locales →
            result ≡ s.words.list_head locale (tag % 4) }
    {
        read(&self.lists, list_at(locale, tag))
    }

    pub(crate) fn put_token(&mut self, token: Token, word: u64)
        ensures shown { (s : State) → IsShowing self.old s → IsToken self.old.shape token →
            IsShowing self.new (record s { words = record s.words { token_word = with_token s.words.token_word token word } }) }
        ensures seats { self.new.seats ≡ self.old.seats }
    {
        let at = self.token_at(token);
        write(&mut self.tokens, at, word);
    }

    pub(crate) fn put_next(&mut self, object: Object, word: u64)
        ensures shown { (s : State) → IsShowing self.old s → IsPlace self.old.shape (object_place object) →
            IsShowing self.new (record s { words = record s.words { next = with_place s.words.next (object_place object) word } }) }
        ensures seats { self.new.seats ≡ self.old.seats }
    {
        let at = self.object_at(object);
        write(&mut self.next, at, word);
    }

    pub(crate) fn put_header(&mut self, object: Object, count: u32, state: HeaderState)
        ensures shown { (s : State) → IsShowing self.old s → IsPlace self.old.shape (object_place object) →
            IsShowing self.new (record s {
              words = record s.words {
                header = with_place s.words.header (object_place object) (record { count = count; state = state });
              };
            }) }
        ensures seats { self.new.seats ≡ self.old.seats }
    {
        let at = self.object_at(object);
        if at < self.headers.len() {
            self.headers[at] = Header { count, state };
        }
    }

    pub(crate) fn put_free_head(&mut self, locale: u8, count: u64, index: u32)
        ensures shown { (s : State) → IsShowing self.old s → locale < self.old.shape.locales → count < 2 ^ 40 →
            index ≤ self.old.shape.objects →
            IsShowing self.new (record s {
              words = record s.words {
                free_head = with_number s.words.free_head locale (record { count = count; index = index });
              };
            }) }
        ensures seats { self.new.seats ≡ self.old.seats }
    {
        let at = locale as usize;
        if at < self.free_heads.len() {
            self.free_heads[at] = FreeWord { count, index };
        }
    }

    pub(crate) fn put_epoch_of(&mut self, locale: u8, word: u64)
        ensures shown { (s : State) → IsShowing self.old s → locale < self.old.shape.locales → word ≤ 2 ^ 62 →
            IsShowing self.new (record s { words = record s.words { epoch_of = with_number s.words.epoch_of locale word } }) }
        ensures seats { self.new.seats ≡ self.old.seats }
    {
        write(&mut self.epochs, locale as usize, word);
    }

    pub(crate) fn put_election_of(&mut self, locale: u8, word: u64)
        ensures shown { (s : State) → IsShowing self.old s → locale < self.old.shape.locales →
            IsShowing self.new (record s { words = record s.words { election_of = with_number s.words.election_of locale word } }) }
        ensures seats { self.new.seats ≡ self.old.seats }
    {
        write(&mut self.elections, locale as usize, word);
    }

    pub(crate) fn put_home_head(&mut self, locale: u8, word: u64)
        ensures shown { (s : State) → IsShowing self.old s → locale < self.old.shape.locales →
            IsShowing self.new (record s { words = record s.words { home_head = with_number s.words.home_head locale word } }) }
        ensures seats { self.new.seats ≡ self.old.seats }
    {
        write(&mut self.home_heads, locale as usize, word);
    }

    pub(crate) fn put_list_head(&mut self, locale: u8, tag: u64, word: u64)
        ensures shown { (s : State) → IsShowing self.old s → locale < self.old.shape.locales →
            IsShowing self.new (record s { words = record s.words { list_head = with_list s.words.list_head locale (tag % 4) word } }) }
        ensures seats { self.new.seats ≡ self.old.seats }
    {
        let at = list_at(locale, tag);
        write(&mut self.lists, at, word);
    }

    pub(crate) fn tag_of(&self, at: Object) -> Option<u64>
        ensures { (s : State) → IsShowing self.now s → IsPlace self.now.shape (object_place at) →
            result ≡ s.tag (object_place at) }
    {
        match self.tags.get(self.object_at(at)) {
            Some(tag) => *tag,
            None => None,
        }
    }

    pub(crate) fn put_tag(&mut self, object: Object, tag: Option<u64>)
        ensures shown { (s : State) → IsShowing self.old s → IsPlace self.old.shape (object_place object) →
            IsShowing self.new (record s { tag = with_place s.tag (object_place object) tag }) }
        ensures seats { self.new.seats ≡ self.old.seats }
    {
        let at = self.object_at(object);
        if at < self.tags.len() {
            self.tags[at] = tag;
        }
    }
}

fn list_at(locale: u8, tag: u64) -> usize
    ensures { result ≡ locale * 4 + tag % 4 }
{
    locale as usize * LISTS as usize + (tag % LISTS) as usize
}

/// The word there, 0 past the end.
fn read(words: &Vec<u64>, at: usize) -> u64
    ensures { result ≡ slice_index words.now.items at }
{
    match words.get(at) {
        Some(word) => *word,
        None => 0,
    }
}

/// Stores the word there, if that isn't past the end.
fn write(words: &mut Vec<u64>, at: usize, word: u64)
    ensures { words.new.items ≡ slice_set words.old.items at word }
{
    if at < words.len() {
        words[at] = word;
    }
}
