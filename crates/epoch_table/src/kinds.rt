//! How a step picks its kind. These types are for proofs alone.

use crate::clients::Client;
use crate::tables::Manages;
use std::marker::{Brand, PhantomData};

/// The kind of step that is made. Each step picks it.
pub trait Choice {
    ghost use Rattle.epoch_laws.specs.declared.steps.Kind.{Kind};

    ghost kind: { Kind };
}

impl Choice for Brand {
    ghost use Rattle.epoch_laws.specs.declared.steps.Kind.TheVariants.{Unregister};

    ghost kind = { Unregister };
}

/// A step of the chosen kind of the machine.
pub struct Chosen<W> {
    marker: PhantomData<W>,
}

impl<C: Client, W: Choice> pass_table::Kind<Manages<C>> for Chosen<W> {
    ghost use Rattle.epoch_table.specs.Kinds.{TellsKind};

    ghost tells = { λ plan caller part carried found e. TellsKind C.terms plan caller W.kind part carried found e };
}

/// The spot that a step of the client or a hold is on, and what a step does there. Each picks them.
pub trait SpotChoice {
    ghost use Rattle.pgas_base.specs.declared.spots.Spot.{Spot};
    ghost use Rattle.epoch_table.specs.Clients.{Change};

    ghost spot: { Spot };

    ghost change: { Change };
}

impl SpotChoice for Brand {
    ghost use Rattle.pgas_base.specs.declared.spots.Spot.TheVariants.{Own};
    ghost use Rattle.epoch_table.specs.Clients.{Looks};

    ghost spot = { Own 0 };

    ghost change = { Looks };
}

/// A step on the chosen spot.
pub struct Stepped<W> {
    marker: PhantomData<W>,
}

impl<C: Client, W: SpotChoice> pass_table::Kind<Manages<C>> for Stepped<W> {
    ghost use Rattle.epoch_table.specs.Spots.{TellsAt};

    ghost tells = { λ plan caller part carried told e. TellsAt C.terms plan caller W.spot W.change part carried told e };
}

/// A hold of the link at the chosen spot.
pub struct Held<W> {
    marker: PhantomData<W>,
}

impl<C: Client, W: SpotChoice> pass_table::Kind<Manages<C>> for Held<W> {
    ghost use Rattle.epoch_table.specs.Holds.{TellsHold};

    ghost tells = { λ plan caller part carried found e. TellsHold C.terms plan caller W.spot part carried found e };
}

/// The word of a row that a read or a fill is on, and the value of a fill. Each picks them.
pub trait RowChoice {
    ghost use Rattle.std.specs.Prelude.{ℕ};
    ghost use Rattle.pgas_base.specs.Pointers.{Pointer};

    ghost pointer: { Pointer };

    ghost at: { ℕ };

    ghost value: { ℕ };
}

impl RowChoice for Brand {
    ghost pointer = { record { locale = 0; index = 0; count = 0 } };

    ghost at = { 0 };

    ghost value = { 0 };
}

/// A read of the chosen word.
pub struct Read<W> {
    marker: PhantomData<W>,
}

impl<C: Client, W: RowChoice> pass_table::Kind<Manages<C>> for Read<W> {
    ghost use Rattle.epoch_table.specs.RowSteps.{TellsRead};

    ghost tells = { λ plan caller part carried found e. TellsRead C.terms plan caller W.pointer W.at part carried found e };
}

/// A fill of the chosen word with the chosen value.
pub struct Filled<W> {
    marker: PhantomData<W>,
}

impl<C: Client, W: RowChoice> pass_table::Kind<Manages<C>> for Filled<W> {
    ghost use Rattle.epoch_table.specs.RowSteps.{TellsFill};

    ghost tells = { λ plan caller part carried found e. TellsFill C.terms plan caller W.pointer W.at W.value part carried e };
}
