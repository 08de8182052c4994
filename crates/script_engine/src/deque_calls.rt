//! Calls of a script on a shared deque.
ghost use Rattle.std.specs.Prelude.{◌≡◌, ℕ, ◌+◌, ◌<◌, ◌^◌, List, Some, None, Ok, length, All, IfOk, OnErr};
ghost use Rattle.pass_table.specs.Passes.{IsSamePass, caller_of, page, pass_opening};
ghost use Rattle.shared_deque.specs.Answers.{AnswersBusyPush, AnswersBusyPop, last_push};
ghost use Rattle.shared_deque.specs.Deques.{opening_of, callers_of, capacity_of};
ghost use Rattle.script_engine.specs.DequeCalls.{ShowsPush, ShowsPop, IsAskedOfDeque, DequeTries, DequeWaits, DequeGives};
ghost use Rattle.script_engine.specs.Replied.{Replied};
ghost use Rattle.script_engine.specs.Rounds.{Makes};
ghost use Rattle.script_engine.specs.Says.{SaysDeque};
ghost use Rattle.script_engine.specs.Numbers.{AreInOrder};
ghost use Rattle.pass_book.specs.Histories.{IsOfCallers};
ghost use Rattle.pass_book.specs.Pages.{IsPageOf};
ghost use Rattle.shared_deque.specs.Counted.{DequeEntry, LeavesItems};

use crate::calls::make_each;
use crate::shared::Shared;
use script_text::{Call, Reply};
use seq_objects::{AnyItem, DequeCall};
use shared_deque::{BusyAt, Deque, DequePass, Full, PushFault};
use shared_io::Gate;
use std::alloc::{AllocError, Global};
use std::sync::Wait;

/// Makes the calls of a script on the deque, one after another, and answers a reply to each. The gate is
/// passed before and after each call, counted from `first`. An error is want of memory: then no call was made.
pub fn call_deque<R: Wait, G: Gate>(
    rt: &R,
    alloc: Global,
    deque: &Deque<AnyItem>,
    pass: &mut DequePass<AnyItem>,
    calls: &[Call],
    first: u32,
    gate: &G,
) -> Result<Vec<Reply>, AllocError>
    requires opening { pass_opening pass.old ≡ opening_of deque.now }
    requires calls { All (IsAskedOfDeque deque.now) calls.now }
    requires room { first + length calls.now < 2 ^ 32 }
    ensures pass { IsSamePass pass.old pass.new }
    ensures gives { IfOk result (λ replies. Replied (DequeGives deque.now) pass.old calls.now replies.items pass.new) }
    ensures made { IfOk result (λ replies. Replied (Makes SaysDeque (caller_of pass.old)) (page pass.old) calls.now replies.items (page pass.new)) }
    ensures err { OnErr result (pass.new ≡ pass.old) }
{
    make_each(rt, alloc, deque, pass, calls, first, gate)
}

fn show_push(answer: Result<(), PushFault>) -> Reply
    requires { ¬ AnswersBusyPush answer }
    ensures { ShowsPush answer result }
{
    match answer {
        Ok(()) => Reply::Pushed,
        Err(PushFault::Full) => Reply::Full,
        Err(PushFault::Busy { .. }) => unreachable!(),
    }
}

fn show_waited_push(answer: Result<(), Full>) -> Reply
    ensures { ShowsPush (last_push answer) result }
{
    match answer {
        Ok(()) => Reply::Pushed,
        Err(Full {}) => Reply::Full,
    }
}

fn show_pop(answer: Result<Option<u64>, BusyAt>) -> Reply
    requires { ¬ AnswersBusyPop answer }
    ensures { ShowsPop answer result }
{
    match answer {
        Ok(taken) => show_taken(taken),
        Err(_) => unreachable!(),
    }
}

fn show_taken(taken: Option<u64>) -> Reply
    ensures { ShowsPop (Ok taken) result }
{
    match taken {
        Some(item) => Reply::Took { item },
        None => Reply::Empty,
    }
}

/// Tries the call once, on a deque of one caller, where no try is busy.
fn try_call(deque: &Deque<AnyItem>, pass: &mut DequePass<AnyItem>, call: DequeCall) -> Reply
    requires opening { pass_opening pass.old ≡ opening_of deque.now }
    requires alone { callers_of deque.now ≡ 1 }
    ensures pass { IsSamePass pass.old pass.new }
    ensures gives { DequeTries deque.now pass.old call result pass.new }
{
    match call {
        DequeCall::PushBack { item } => show_push(deque.try_push_back(pass, item)),
        DequeCall::PushFront { item } => show_push(deque.try_push_front(pass, item)),
        DequeCall::PopBack => show_pop(deque.try_pop_back(pass)),
        DequeCall::PopFront => show_pop(deque.try_pop_front(pass)),
    }
}

/// Makes the call, and waits where others have its cell.
fn wait_call<R: Wait>(
    rt: &R,
    deque: &Deque<AnyItem>,
    pass: &mut DequePass<AnyItem>,
    call: DequeCall,
) -> Reply
    requires { pass_opening pass.old ≡ opening_of deque.now }
    ensures pass { IsSamePass pass.old pass.new }
    ensures gives { DequeWaits deque.now pass.old call result pass.new }
{
    match call {
        DequeCall::PushBack { item } => show_waited_push(deque.push_back(rt, pass, item)),
        DequeCall::PushFront { item } => show_waited_push(deque.push_front(rt, pass, item)),
        DequeCall::PopBack => show_taken(deque.pop_back(rt, pass)),
        DequeCall::PopFront => show_taken(deque.pop_front(rt, pass)),
    }
}

impl Shared for Deque<AnyItem> {
    ghost use Rattle.std.specs.Prelude.{◌≡◌};
    ghost use Rattle.pass_table.specs.Passes.{caller_of, page, pass_opening};
    ghost use Rattle.shared_deque.specs.Counted.{LeavesItems};
    ghost use Rattle.shared_deque.specs.Deques.{opening_of, callers_of, capacity_of};
    ghost use Rattle.script_engine.specs.DequeCalls.{IsAskedOfDeque, DequeGives};
    ghost use Rattle.script_engine.specs.Widening.{widens_deque};
    ghost use Rattle.script_engine.specs.Says.{SaysDeque};

    type Asked = DequeCall;

    type Told = seq_objects::DequeReply;

    type Pass = DequePass<AnyItem>;

    ghost fits = { λ deque pass. pass_opening pass ≡ opening_of deque };

    ghost caller = { λ pass. caller_of pass };

    ghost page = { λ pass. page pass };

    ghost asks = { IsAskedOfDeque };

    ghost says = { λ deque. SaysDeque };

    ghost widens = { λ deque. widens_deque };

    ghost gives = { DequeGives };

    ghost refuses = { λ deque old call new. ⊥ };

    ghost callers = { λ deque. callers_of deque };

    ghost leaves = { λ deque history items. LeavesItems (capacity_of deque) history items };

    fn number(pass: &DequePass<AnyItem>) -> u32 {
        pass.caller()
    }

    fn make<R: Wait>(
        &self,
        rt: &R,
        pass: &mut DequePass<AnyItem>,
        call: Call,
    ) -> Result<Reply, AllocError> {
        let Call::Deque { call, once } = call else {
            unreachable!()
        };
        Ok(if once {
            try_call(self, pass, call)
        } else {
            wait_call(rt, self, pass, call)
        })
    }

    fn inform(&self, giver: &mut DequePass<AnyItem>, taker: &mut DequePass<AnyItem>) {
        let note = self.note(giver);
        self.learn(taker, note);
    }

    fn finish(self, passes: Vec<DequePass<AnyItem>>) -> Result<Vec<u64>, AllocError>
        requires passes { All (λ pass. pass_opening pass ≡ opening_of self) passes.items }
        requires count { length passes.items ≡ callers_of self }
        requires numbers { AreInOrder (λ pass. caller_of pass) passes.items }
        ensures { IfOk result (λ items. (history : List DequeEntry) × LeavesItems (capacity_of self) history items.items
            × IsOfCallers (callers_of self) history × All (λ pass. IsPageOf (caller_of pass) history (page pass)) passes.items) }
    {
        match self.close(passes) {
            Ok(closed) => Ok(closed.items),
            Err(_) => Err(AllocError),
        }
    }
}
