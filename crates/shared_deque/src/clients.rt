//! What a caller of a deque knows in the middle of a call, the kinds of its steps, and the deque's rule.

use crate::layout::{Word, size_at};
use crate::sides::Aim;
use pass_table::Client;
use seq_objects::{Keeps, PlainDeque};
use std::marker::{Brand, PhantomData};

/// What a deque is opened with.
#[derive(Drop)]
pub struct Plan<K> {
    pub capacity: u32,
    pub callers: u32,
    pub keeper: K,
}

/// How far a caller is in a call. No value of it is made.
pub enum Stage {
    Idle,
    /// It has loaded the ends.
    Looked { aim: Aim, ends: u64 },
    /// Its cell is its own.
    Claimed { aim: Aim, ends: u64 },
    /// It has loaded its cell's value, too.
    Read { aim: Aim, ends: u64, value: u64 },
    /// It has won the ends, and has an item to store.
    Storing { cell: u32, item: u64 },
    /// It has only to leave its cell.
    Leaving { cell: u32 },
}

/// The kinds of step of a deque's calls, each on one word.
#[derive(Clone, Copy)]
pub enum Kind {
    EndsLook { aim: Aim },
    Claim { aim: Aim, ends: u64 },
    CellLook { aim: Aim, ends: u64 },
    EndsExchange { aim: Aim, ends: u64, value: u64 },
    CellStore { cell: u32, item: u64 },
    Leave { cell: u32 },
}

/// The deque as a client of its table.
pub struct DequeClient<K> {
    marker: PhantomData<K>,
}

impl<K: Keeps> Client for DequeClient<K> {
    ghost use Rattle.shared_deque.specs.Rule.{deque_terms};

    type Object = PlainDeque;

    type Slot = ();

    type Plan = Plan<K>;

    type Part = Stage;

    type Name = Word;

    ghost terms = { deque_terms K.keeps };

    #[inline]
    fn items_in(first: u64) -> u64 {
        size_at(first)
    }
}

/// The kind of step that is made, for the proof alone. Each step picks it.
pub trait Choice {
    ghost use Rattle.shared_deque.specs.declared.clients.Kind.{Kind};

    ghost kind: { Kind };
}

impl Choice for Brand {
    ghost use Rattle.shared_deque.specs.declared.clients.Kind.TheVariants.{Leave};

    ghost kind = { Leave 0 };
}

/// A step of the chosen kind, for the proof alone.
pub struct Chosen<W> {
    marker: PhantomData<W>,
}

impl<K: Keeps, W: Choice> pass_table::Kind<DequeClient<K>> for Chosen<W> {
    ghost use Rattle.shared_deque.specs.Kinds.{TellsChosen};

    ghost tells = { λ plan caller _ carried found e. TellsChosen K.keeps plan caller carried W.kind found e };
}
