//! What a seat at the table knows, and the rule that binds it to the words. No value of a view is made.

use crate::clients::{CallOf, Client, ReplyOf, ViewOf};
use atomic_table::TableRule;
use pass_book::{Entry, Look};
use std::collections::LinkedList;
use std::marker::PhantomData;

/// What a seat at the table is.
pub enum Role {
    /// It makes the passes, one for each caller.
    Opener,
    Caller,
    Note,
    /// It was taken in by another seat.
    Spent,
}

/// A caller whose pass was taken in by another's.
pub struct Merged<C, R, T> {
    pub caller: u32,
    pub mine: LinkedList<Entry<C, R>>,
    pub seen: LinkedList<Entry<C, R>>,
    pub part: T,
    pub rests: bool,
}

/// What a seat knows: of calls C, replies R, an object's plan P, its part T of a view, and its words' names N.
pub struct View<C, R, P, T, N> {
    /// What the object was opened with, unless the seat is spent.
    pub plan: Option<P>,
    pub role: Role,
    /// A caller's number. Of the opener, how many passes it has made.
    pub number: u32,
    /// The caller's own entries.
    pub mine: LinkedList<Entry<C, R>>,
    /// The beginning of the history that was seen.
    pub seen: LinkedList<Entry<C, R>>,
    /// What a note that was just taken in has seen.
    pub pending_note: LinkedList<Entry<C, R>>,
    /// The words that were read.
    pub looked: LinkedList<Look<N>>,
    pub part: T,
    /// It is between two calls.
    pub rests: bool,
    pub merged: LinkedList<Merged<C, R, T>>,
}

/// The rule of a client's table.
pub struct Law<C> {
    marker: PhantomData<C>,
}

impl<C: Client> TableRule<C::Slot, ViewOf<C>, C::Plan> for Law<C> {
    ghost use Rattle.pass_table.specs.Rule.{TableInvariant};
    ghost use Rattle.pass_table.specs.Views.{opener};

    ghost holds = { λ plan s. TableInvariant C.terms C.Object.opens C.Object.step plan s };

    ghost first = { opener C.terms };
}
