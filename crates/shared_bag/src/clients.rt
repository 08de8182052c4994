//! What a caller of a bag knows in the middle of a call, the kinds of its steps, and the bag's rule.

use crate::layout::Word;
use crate::shapes::Shape;
use pass_table::Client;
use segment_store::Segment;
use seq_objects::{Keeps, PlainBag};
use std::collections::LinkedList;
use std::marker::{Brand, PhantomData};

/// What a bag is opened with.
#[derive(Drop)]
pub struct Plan<K> {
    pub shape: Shape,
    pub keeper: K,
}

/// A segment whose turn is a caller's, and the items that it has to have when it is left.
pub struct Holding {
    pub segment: u32,
    pub items: LinkedList<u64>,
}

/// A segment as a caller found it under its turn, and how many items it had.
pub struct Found {
    pub segment: u32,
    pub length: u32,
}

/// What a caller knows of the segments. No value of it is made.
pub struct Hand {
    /// The segments whose turns are its own, the last claimed first.
    pub held: LinkedList<Holding>,
    /// The segments that it left as it found them since it last changed the count.
    pub found: LinkedList<Found>,
}

/// The kinds of step of a bag's calls, each on one word.
#[derive(Clone, Copy)]
pub enum Kind {
    CountLook,
    Claim { segment: u32 },
    /// An item is counted that goes to the segment that was claimed last.
    Put { item: u64 },
    /// The last item of the segment that was claimed last is no longer counted.
    Take,
    /// So many items of the segment that was claimed last go to the one before it, and the next one is
    /// no longer counted.
    Steal { moved: u32 },
    /// The segment that was claimed last is left as it was found.
    LeaveFound,
    /// It is left after a step on the count.
    LeaveChanged,
}

/// The bag as a client of its table.
pub struct BagClient<K> {
    marker: PhantomData<K>,
}

impl<K: Keeps> Client for BagClient<K> {
    ghost use Rattle.shared_bag.specs.Rule.{bag_terms};

    type Object = PlainBag;

    type Slot = Option<Segment>;

    type Plan = Plan<K>;

    type Part = Hand;

    type Name = Word;

    ghost terms = { bag_terms K.keeps };

    #[inline]
    fn items_in(first: u64) -> u64 {
        first
    }
}

/// The kind of step that is made, for the proof alone. Each step picks it.
pub trait Choice {
    ghost use Rattle.shared_bag.specs.declared.clients.Kind.{Kind};

    ghost kind: { Kind };
}

impl Choice for Brand {
    ghost use Rattle.shared_bag.specs.declared.clients.Kind.TheVariants.{CountLook};

    ghost kind = { CountLook };
}

/// A step of the chosen kind, for the proof alone.
pub struct Chosen<W> {
    marker: PhantomData<W>,
}

impl<K: Keeps, W: Choice> pass_table::Kind<BagClient<K>> for Chosen<W> {
    ghost use Rattle.shared_bag.specs.Kinds.{TellsChosen};

    ghost tells = { λ plan caller hand carried found e. TellsChosen K.keeps plan caller hand carried W.kind found e };
}
