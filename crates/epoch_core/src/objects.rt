ghost use Rattle.std.specs.Prelude.{◌≡◌, Some};
ghost use Rattle.pgas_base.specs.Pointers.{Pointer, word_of};
ghost use Rattle.epoch_laws.specs.Places.{index_in, place_in, place_of, same_place};
ghost use Rattle.epoch_core.specs.Objects.{object_place};

use pgas_base::Ptr;

/// Where an object is.
#[derive(Clone, Copy, Debug, PartialEq, Eq)]
pub(crate) struct Object {
    pub(crate) locale: u8,
    pub(crate) index: u32,
}

/// The object that a pointer names.
pub(crate) fn object_of(ptr: Ptr) -> Object
    ensures value { object_place result ≡ place_of ptr }
{
    Object {
        locale: ptr.locale(),
        index: ptr.index(),
    }
}

/// The object of the pointer with this word.
#[tactic(auto, unfolding(epoch_laws::specs::Places::place_in))]
pub(crate) fn object_in(word: u64) -> Object
    ensures { object_place result ≡ place_in word }
{
    Object {
        locale: (word / (1 << 56)) as u8,
        index: index_of(word),
    }
}

/// The index in a word: that of the pointer with this word, and 0 for the word 0.
#[tactic(auto, unfolding(epoch_laws::specs::Places::index_in))]
pub(crate) fn index_of(word: u64) -> u32
    ensures { result ≡ index_in word }
{
    (word / (1 << 32) % (1 << 24)) as u32
}

/// The word of a pointer, where there is one.
pub(crate) fn word_named(pointer: Option<Ptr>) -> u64
    ensures { (p : Pointer) → pointer ≡ Some p → result ≡ word_of p }
{
    match pointer {
        Some(ptr) => ptr.word(),
        None => 0,
    }
}

/// The object of a pointer, where there is one.
pub(crate) fn object_named(pointer: Option<Ptr>) -> Object
    ensures { (p : Pointer) → pointer ≡ Some p → object_place result ≡ place_of p }
{
    match pointer {
        Some(ptr) => object_of(ptr),
        None => Object {
            locale: 0,
            index: 0,
        },
    }
}

/// Whether the word is that of a pointer to this object.
pub(crate) fn names(word: u64, at: Object) -> bool
    ensures { result ≡ same_place (object_place at) (place_in word) }
{
    let found = object_in(word);
    at.locale == found.locale && at.index == found.index
}
