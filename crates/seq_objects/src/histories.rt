//! What the three objects mean in a history of calls.

use crate::bags::{BagCall, BagReply, PlainBag};
use crate::deques::{DequeCall, DequeReply, PlainDeque};
use crate::lists::{ListCall, ListReply, PlainList};
use pass_book::Object;

impl Object for PlainList {
    ghost use Rattle.seq_objects.specs.Meanings.{ListOpens, ListSteps};

    type Call = ListCall;

    type Reply = ListReply;

    type State = PlainList;

    ghost opens = { ListOpens };

    ghost step = { ListSteps };
}

impl Object for PlainBag {
    ghost use Rattle.seq_objects.specs.Meanings.{BagOpens};
    ghost use Rattle.seq_objects.specs.BagSteps.{BagStep};

    type Call = BagCall;

    type Reply = BagReply;

    type State = PlainBag;

    ghost opens = { BagOpens };

    ghost step = { BagStep };
}

impl Object for PlainDeque {
    ghost use Rattle.seq_objects.specs.Meanings.{DequeOpens, DequeSteps};

    type Call = DequeCall;

    type Reply = DequeReply;

    type State = PlainDeque;

    ghost opens = { DequeOpens };

    ghost step = { DequeSteps };
}
