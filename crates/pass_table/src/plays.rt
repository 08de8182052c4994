//! What steps tell, and how passes and notes are made and taken in. These types are for proofs alone.

use crate::clients::{Client, Kind, ViewOf};
use crate::views::View;
use atomic_table::{Join, Play, Split};
use std::marker::PhantomData;

/// A step of a client's call.
pub struct Step<C, M> {
    marker: PhantomData<(C, M)>,
}

impl<C: Client, M: Kind<C>> Play<C::Slot, ViewOf<C>> for Step<C, M> {
    ghost use Rattle.std.specs.Prelude.{IfSome};
    ghost use Rattle.pass_table.specs.Steps.{Steps};

    ghost then = { λ _ m found n. IfSome m.0.plan (λ plan. Steps C.terms C.Object.opens C.Object.step plan (M.tells plan m.0.number m.0.part m.1) m found n) };
}

/// The load after a note was taken in.
pub struct Learn<C> {
    marker: PhantomData<C>,
}

impl<C: Client> Play<C::Slot, ViewOf<C>> for Learn<C> {
    ghost use Rattle.std.specs.Prelude.{◌≡◌, IfSome};
    ghost use Rattle.pass_table.specs.Steps.{LearnsNote};

    ghost then = { λ _ m found n. IfSome m.0.plan (λ plan. LearnsNote C.terms C.Object.opens C.Object.step plan m.0 n.0 found) × (n.1 ≡ m.1) };
}

/// A load of word 0 that sees the whole history.
pub struct LookAtFirst<C> {
    marker: PhantomData<C>,
}

impl<C: Client> Kind<C> for LookAtFirst<C> {
    ghost use Rattle.pass_table.specs.Steps.{SeesFirst};

    ghost tells = { λ _ _ part carried found e. SeesFirst C.terms part carried found e };
}

/// The opener makes the next caller's pass.
pub struct NextPass<C> {
    marker: PhantomData<C>,
}

impl<C: Client> Split<ViewOf<C>> for NextPass<C> {
    ghost use Rattle.pass_table.specs.Views.{opener_next, newcomer};

    ghost left = { opener_next };

    ghost right = { newcomer C.terms };
}

/// A caller makes a note.
pub struct MakeNote;

impl<C, R, P, T, N> Split<View<C, R, P, T, N>> for MakeNote {
    ghost use Rattle.pass_table.specs.Views.{noted};

    ghost left = { λ v. v };

    ghost right = { noted };
}

/// A caller takes in a note.
pub struct TakeNote<C> {
    marker: PhantomData<C>,
}

impl<C: Client> Join<ViewOf<C>> for TakeNote<C> {
    ghost use Rattle.pass_table.specs.Views.{with_pending, spent};

    ghost both = { with_pending };

    ghost spent = { spent C.terms };
}

/// One caller's pass takes in another's, when the object is closed.
pub struct TakePass<C> {
    marker: PhantomData<C>,
}

impl<C: Client> Join<ViewOf<C>> for TakePass<C> {
    ghost use Rattle.pass_table.specs.Views.{merging, spent};

    ghost both = { merging };

    ghost spent = { spent C.terms };
}
