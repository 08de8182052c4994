//! What stands in the history of a manager.

use epoch_laws::Item;
use pass_book::Object;
use std::collections::LinkedList;
use std::marker::PhantomData;

/// What happens at one step: the machine lists an item, or the client's object has a call and its reply.
pub enum Happens<C, R> {
    Lists { item: Item },
    Enters { call: C, reply: R },
}

/// What has happened so far: the items, with the epoch and the count with which all began, and the state of the
/// client's object. No value of it is made.
pub struct Past<S> {
    pub epoch: u64,
    pub count: u32,
    pub items: LinkedList<Item>,
    pub object: S,
}

/// The history of a manager, as an object: each step adds an item that leaves a legal history of events and exact
/// releases, or is one of the client's object.
pub struct History<O> {
    marker: PhantomData<O>,
}

impl<O: Object> Object for History<O> {
    ghost use Rattle.epoch_table.specs.Events.{PastOpens, PastSteps};

    type Call = Happens<O::Call, O::Reply>;

    type Reply = ();

    type State = Past<O::State>;

    ghost opens = { PastOpens O.opens };

    ghost step = { PastSteps O.step };
}
