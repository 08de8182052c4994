ghost use Rattle.std.specs.Prelude.{◌≡◌, ◌↔◌, ℕ, ◌≤◌, ◌^◌, [], OnOk, OnErr, IfOk, IsOk, IsTrue, length};
ghost use Rattle.seq_objects.specs.DequeSteps.{pop_reply, deque_reply, deque_after};

use crate::double_ended_vec::DoubleEndedVec;
use pass_book::Object;
use std::alloc::{AllocError, Global};
use std::marker::Model;

/// What a deque can be asked.
#[derive(Clone, Copy, Debug, PartialEq, Eq)]
pub enum DequeCall {
    PushBack { item: u64 },
    PushFront { item: u64 },
    PopBack,
    PopFront,
}

/// What a deque answers.
#[derive(Clone, Copy, Debug, PartialEq, Eq)]
pub enum DequeReply {
    Pushed,
    Took { item: u64 },
    /// There was nothing to pop.
    Empty,
    /// There are as many items as the capacity, and the push changed nothing.
    Full,
}

/// A deque for one caller. Contracts see its capacity, and its items from front to back.
#[derive(Debug, Drop)]
pub struct PlainDeque {
    capacity: u32,
    row: DoubleEndedVec,
}

impl Model for PlainDeque {
    ghost use Rattle.std.specs.Prelude.{◌≤◌, length};
    ghost use Rattle.seq_objects.specs.DequeSteps.{DequeState};

    ghost Value = { DequeState };

    ghost view = { λ d. record { capacity = d.capacity; items = d.row.items } };

    ghost invariant = { λ d. length d.row.items ≤ d.capacity };
}

impl PlainDeque {
    /// An empty deque, which holds at most so many items: 1 to 2^24. It takes no memory yet.
    pub fn open(alloc: Global, capacity: u32) -> PlainDeque
        requires least { 1 ≤ capacity }
        requires most { capacity ≤ 2 ^ 24 }
        ensures capacity { result.capacity ≡ capacity }
        ensures items { result.items ≡ [] }
        ensures opens { ⟦<PlainDeque as Object>⟧.opens result }
    {
        PlainDeque {
            capacity,
            row: DoubleEndedVec::new(alloc),
        }
    }

    /// Makes the call. Only a push that adds its item can want memory, and then the deque is as before.
    pub fn act(&mut self, call: DequeCall) -> Result<DequeReply, AllocError>
        ensures step { IfOk result (λ reply. ⟦<PlainDeque as Object>⟧.step self.old call reply self.new) }
        ensures reply { IfOk result (λ reply. reply ≡ deque_reply self.old.capacity self.old.items call) }
        ensures after { let items = deque_after self.old.capacity self.old.items call in
            OnOk result (self.new ≡ record self.old { items = items }) }
        ensures sure { let items = deque_after self.old.capacity self.old.items call in
            length items ≤ length self.old.items → IsOk result }
        ensures err { OnErr result (self.new ≡ self.old) }
    {
        match call {
            DequeCall::PushBack { .. } | DequeCall::PushFront { .. } if self.is_full() => {
                Ok(DequeReply::Full)
            }
            DequeCall::PushBack { item } => {
                self.row.push_back(item)?;
                Ok(DequeReply::Pushed)
            }
            DequeCall::PushFront { item } => {
                self.row.push_front(item)?;
                Ok(DequeReply::Pushed)
            }
            DequeCall::PopBack => Ok(reply_to_pop(self.row.pop_back())),
            DequeCall::PopFront => Ok(reply_to_pop(self.row.pop_front())),
        }
    }

    /// The items, from front to back.
    pub fn items(&self) -> &[u64]
        ensures items { result.now ≡ self.now.items }
        ensures limit { length self.now.items ≤ self.now.capacity }
    {
        self.row.items()
    }

    fn is_full(&self) -> bool
        ensures { IsTrue result ↔ (length self.now.items ≡ self.now.capacity) }
    {
        self.row.len() == self.capacity as usize
    }
}

fn reply_to_pop(item: Option<u64>) -> DequeReply
    ensures { result ≡ pop_reply item }
{
    match item {
        Some(item) => DequeReply::Took { item },
        None => DequeReply::Empty,
    }
}
