//! What a manager is opened with, and what a pass knows in the middle of a call.

use pgas_base::{Shape, Start};
use std::marker::Model;

/// What a manager is opened with.
#[derive(Drop)]
pub struct Plan<C> {
    pub shape: Shape,
    pub start: Start,
    pub callers: u32,
    pub client: C,
    /// How many words of its own the client has.
    pub own: u32,
}

/// A seat of the machine, which contracts see. No value of it is made.
pub struct Seated;

impl Model for Seated {
    ghost use Rattle.epoch_laws.specs.Seats.{Seat};
    ghost use Rattle.epoch_laws.specs.States.{opening_seat};

    ghost Value = { Seat };

    ghost view = { λ s. opening_seat };
}

/// What a pass knows of the words of the objects that it has, which contracts see. No value of it is made.
pub struct Known;

impl Model for Known {
    ghost use Rattle.epoch_table.specs.Facts.{Facts, no_facts};

    ghost Value = { Facts };

    ghost view = { λ s. no_facts };
}

/// The name of a word of the machine, which contracts see. No value of it is made.
pub struct Name;

impl Model for Name {
    ghost use Rattle.epoch_laws.specs.Words.{WordName, global_epoch};

    ghost Value = { WordName };

    ghost view = { λ s. global_epoch };
}

/// What a pass knows: its seat of the machine, the words of the objects that it has, and the client's part.
/// No value of it is made.
pub struct Part<V> {
    pub seat: Seated,
    pub facts: Known,
    /// It has won an exchange of a stack's head since it last took an object.
    pub won: bool,
    pub client: V,
}
