//! The plain objects, asked as a script asks.
ghost use Rattle.std.specs.Prelude.{◌≡◌, ℕ, List, IfOk};
ghost use Rattle.script_engine.specs.Shown.{list_shown, bag_shown, deque_shown};
ghost use Rattle.script_text.specs.declared.replies.Reply.{Reply};
ghost use Rattle.script_text.specs.declared.scripts.Call.{Call};

use script_text::{Call, Reply};
use seq_objects::{BagReply, DequeReply, ListReply, PlainBag, PlainDeque, PlainList};
use std::alloc::{AllocError, Global};

/// An object of one caller that answers the calls of a script.
pub(crate) trait Asked: Drop {
    /// The calls that it answers.
    ghost asks: { Call → Type 0 };

    /// From the old object the call may get the reply, and leave the new object.
    ghost does: { Self → Call → Reply → Self → Type 0 };

    /// The items of the object, in the order in which they are shown.
    ghost holds: { Self → List ℕ → Type 0 };

    /// Makes the call.
    fn ask(&mut self, call: Call) -> Result<Reply, AllocError>
        requires { asks call }
        ensures { IfOk result (λ reply. does self.old call reply self.new) };

    /// What the object holds.
    fn left(&self, alloc: Global) -> Result<Vec<u64>, AllocError>
        ensures { IfOk result (λ items. holds self.now items.items) };
}

/// A list, with its width.
#[derive(Drop)]
pub(crate) struct ListOfWidth {
    pub list: PlainList,
    pub width: u32,
    ghost same: { list.width ≡ width },
}

impl Asked for ListOfWidth {
    ghost use Rattle.std.specs.Prelude.{◌≡◌};
    ghost use Rattle.script_engine.specs.Replied.{IsListCall, ListDoes};

    ghost asks = { IsListCall };

    ghost does = { λ old call reply new. ListDoes old.list call reply new.list };

    ghost holds = { λ asked items. items ≡ asked.list.items };

    fn ask(&mut self, call: Call) -> Result<Reply, AllocError> {
        let Call::List { call } = call else {
            unreachable!()
        };
        if !call.is_defined(self.width) {
            return Ok(Reply::TooLong);
        }
        Ok(show_list(self.list.act(call)?))
    }

    fn left(&self, alloc: Global) -> Result<Vec<u64>, AllocError> {
        Vec::from_slice(alloc, self.list.items())
    }
}

impl Asked for PlainBag {
    ghost use Rattle.std.specs.Prelude.{IsPermutation};
    ghost use Rattle.std.specs.List.Sorted.{IsNonDecreasing};
    ghost use Rattle.script_engine.specs.Replied.{IsBagCall, BagDoes};

    ghost asks = { IsBagCall };

    ghost does = { BagDoes };

    ghost holds = { λ bag items. IsPermutation bag items × IsNonDecreasing items };

    fn ask(&mut self, call: Call) -> Result<Reply, AllocError> {
        let Call::Bag { call, once: _ } = call else {
            unreachable!()
        };
        Ok(show_bag(self.act(call)?))
    }

    fn left(&self, alloc: Global) -> Result<Vec<u64>, AllocError> {
        let mut items = Vec::from_slice(alloc, self.items())?;
        items.sort_unstable();
        Ok(items)
    }
}

impl Asked for PlainDeque {
    ghost use Rattle.std.specs.Prelude.{◌≡◌};
    ghost use Rattle.script_engine.specs.Replied.{IsDequeCall, DequeDoes};

    ghost asks = { IsDequeCall };

    ghost does = { DequeDoes };

    ghost holds = { λ deque items. items ≡ deque.items };

    fn ask(&mut self, call: Call) -> Result<Reply, AllocError> {
        let Call::Deque { call, once: _ } = call else {
            unreachable!()
        };
        Ok(show_deque(self.act(call)?))
    }

    fn left(&self, alloc: Global) -> Result<Vec<u64>, AllocError> {
        Vec::from_slice(alloc, self.items())
    }
}

fn show_list(reply: ListReply) -> Reply
    ensures { result ≡ list_shown reply }
{
    match reply {
        ListReply::Value { value } => Reply::Value { value },
        ListReply::Wrote => Reply::Wrote,
        ListReply::Was { value } => Reply::Was { value },
        ListReply::Len { len } => Reply::Len { len },
        ListReply::Range { len } => Reply::Range { len },
    }
}

fn show_bag(reply: BagReply) -> Reply
    ensures { result ≡ bag_shown reply }
{
    match reply {
        BagReply::Added => Reply::Added,
        BagReply::Took { item } => Reply::Took { item },
        BagReply::Empty => Reply::Empty,
    }
}

fn show_deque(reply: DequeReply) -> Reply
    ensures { result ≡ deque_shown reply }
{
    match reply {
        DequeReply::Pushed => Reply::Pushed,
        DequeReply::Took { item } => Reply::Took { item },
        DequeReply::Empty => Reply::Empty,
        DequeReply::Full => Reply::Full,
    }
}
