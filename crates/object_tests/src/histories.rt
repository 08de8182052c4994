//! The laws of histories, of an object of its own.

use pass_book::{
    Object, entries_added, entry_added, list_is_sublist, note_taken, shorter_begins_longer,
};

// A register that one thread adds to. A call replies what stood there.
struct Adder;

impl Object for Adder {
    ghost use Rattle.std.specs.Prelude.{◌≡◌, ◌+◌};

    type Call = u64;

    type Reply = u64;

    type State = u64;

    ghost opens = { λ state. state ≡ 0 };

    ghost step = { λ old call reply new. (reply ≡ old) × (new ≡ old + call) };
}

#[test]
fn the_laws_hold_of_an_object() {
    entry_added::<Adder>();
    entries_added::<Adder>();
    note_taken::<Adder>();
    shorter_begins_longer::<Adder>();
    list_is_sublist::<Adder>();
}
