//! Calls of a script on a shared bag.
ghost use Rattle.std.specs.Prelude.{◌≡◌, ℕ, ◌+◌, ◌<◌, ◌^◌, Some, None, Ok, Err, length, true, false, All, IfOk, OnErr, IfErr};
ghost use Rattle.pass_table.specs.Passes.{IsSamePass, caller_of, page, pass_opening};
ghost use Rattle.shared_bag.specs.declared.faults.AddFault.TheVariants.{OutOfMemory};
ghost use Rattle.shared_bag.specs.Answers.{AnswersBusyAdd, AnswersBusyRemove};
ghost use Rattle.shared_bag.specs.Bags.{opening_of, callers_of, shape_of};
ghost use Rattle.shared_bag.specs.Counted.{BagEntry, LeavesItems};
ghost use Rattle.pass_book.specs.Histories.{IsOfCallers};
ghost use Rattle.pass_book.specs.Pages.{IsPageOf};
ghost use Rattle.script_engine.specs.Answers.{IsRisingOrder};
ghost use Rattle.script_engine.specs.BagCalls.{ShowsAdd, ShowsRemove, IsAskedOfBag, AddAnswers, RemoveAnswers, BagGives, BagRefuses};
ghost use Rattle.script_engine.specs.Replied.{Replied, StopsEarly};
ghost use Rattle.script_engine.specs.Rounds.{Makes};
ghost use Rattle.script_engine.specs.Says.{SaysBag};
ghost use Rattle.script_engine.specs.Numbers.{AreInOrder};

use crate::calls::make_each;
use crate::shared::Shared;
use script_text::{Call, Reply};
use seq_objects::{AnyItem, BagCall};
use shared_bag::{AddFault, Bag, BagPass, Busy};
use shared_io::Gate;
use std::alloc::{AllocError, Global};
use std::sync::Wait;

/// Makes the calls of a script on the bag, one after another, and answers a reply to each. The gate is passed
/// before and after each call, counted from `first`. An error is want of memory: then no call was made, or those
/// before an add for whose item there was no room were made, and that one was not.
pub fn call_bag<R: Wait, G: Gate>(
    rt: &R,
    alloc: Global,
    bag: &Bag<AnyItem>,
    pass: &mut BagPass<AnyItem>,
    calls: &[Call],
    first: u32,
    gate: &G,
) -> Result<Vec<Reply>, AllocError>
    requires opening { pass_opening pass.old ≡ opening_of bag.now }
    requires calls { All (IsAskedOfBag bag.now) calls.now }
    requires room { first + length calls.now < 2 ^ 32 }
    ensures pass { IsSamePass pass.old pass.new }
    ensures gives { IfOk result (λ replies. Replied (BagGives bag.now) pass.old calls.now replies.items pass.new) }
    ensures made { IfOk result (λ replies. Replied (Makes (SaysBag (callers_of bag.now) (shape_of bag.now).segments (shape_of bag.now).room) (caller_of pass.old))
        (page pass.old) calls.now replies.items (page pass.new)) }
    ensures err { OnErr result (StopsEarly (BagGives bag.now) (BagRefuses bag.now) pass.old calls.now pass.new) }
{
    make_each(rt, alloc, bag, pass, calls, first, gate)
}

fn show_add(answer: Result<(), AddFault>) -> Result<Reply, AllocError>
    requires { ¬ AnswersBusyAdd answer }
    ensures shown { IfOk result (λ reply. ShowsAdd answer reply) }
    ensures refused { OnErr result (answer ≡ Err OutOfMemory) }
{
    match answer {
        Ok(()) => Ok(Reply::Added),
        Err(AddFault::Full) => Ok(Reply::Full),
        Err(AddFault::OutOfMemory) => Err(AllocError),
        Err(AddFault::Busy) => unreachable!(),
    }
}

fn show_remove(answer: Result<Option<u64>, Busy>) -> Reply
    requires { ¬ AnswersBusyRemove answer }
    ensures { ShowsRemove answer result }
{
    match answer {
        Ok(taken) => show_taken(taken),
        Err(_) => unreachable!(),
    }
}

fn show_taken(taken: Option<u64>) -> Reply
    ensures { ShowsRemove (Ok taken) result }
{
    match taken {
        Some(item) => Reply::Took { item },
        None => Reply::Empty,
    }
}

fn add<R: Wait>(
    rt: &R,
    bag: &Bag<AnyItem>,
    pass: &mut BagPass<AnyItem>,
    item: u64,
    once: bool,
) -> Result<(), AddFault>
    requires opening { pass_opening pass.old ≡ opening_of bag.now }
    requires alone { once ≡ true → callers_of bag.now ≡ 1 }
    ensures pass { IsSamePass pass.old pass.new }
    ensures answers { AddAnswers bag.now pass.old pass.new item result once }
    ensures calm { ¬ AnswersBusyAdd result }
{
    if once {
        bag.try_add(pass, item)
    } else {
        bag.add(rt, pass, item)
    }
}

fn remove<R: Wait>(
    rt: &R,
    bag: &Bag<AnyItem>,
    pass: &mut BagPass<AnyItem>,
    once: bool,
) -> Result<Option<u64>, Busy>
    requires opening { pass_opening pass.old ≡ opening_of bag.now }
    requires alone { once ≡ true → callers_of bag.now ≡ 1 }
    ensures pass { IsSamePass pass.old pass.new }
    ensures answers { RemoveAnswers bag.now pass.old pass.new result once }
    ensures calm { ¬ AnswersBusyRemove result }
{
    if once {
        bag.try_remove(pass)
    } else {
        Ok(bag.remove(rt, pass))
    }
}

fn make_call<R: Wait>(
    rt: &R,
    bag: &Bag<AnyItem>,
    pass: &mut BagPass<AnyItem>,
    call: BagCall,
    once: bool,
) -> Result<Reply, AllocError>
    requires opening { pass_opening pass.old ≡ opening_of bag.now }
    requires alone { once ≡ true → callers_of bag.now ≡ 1 }
    ensures pass { IsSamePass pass.old pass.new }
    ensures gives { IfOk result (λ reply. BagGives bag.now pass.old (Call.Bag call once) reply pass.new) }
    ensures err { OnErr result (BagRefuses bag.now pass.old (Call.Bag call once) pass.new) }
{
    match call {
        BagCall::Add { item } => show_add(add(rt, bag, pass, item, once)),
        BagCall::Remove => Ok(show_remove(remove(rt, bag, pass, once))),
    }
}

impl Shared for Bag<AnyItem> {
    ghost use Rattle.std.specs.Prelude.{◌≡◌, ℕ, List};
    ghost use Rattle.pass_table.specs.Passes.{caller_of, page, pass_opening};
    ghost use Rattle.shared_bag.specs.Bags.{opening_of, callers_of, shape_of};
    ghost use Rattle.shared_bag.specs.Counted.{LeavesItems};
    ghost use Rattle.script_engine.specs.Answers.{IsRisingOrder};
    ghost use Rattle.script_engine.specs.BagCalls.{IsAskedOfBag, BagGives, BagRefuses};
    ghost use Rattle.script_engine.specs.Widening.{widens_bag};
    ghost use Rattle.script_engine.specs.Says.{SaysBag};

    type Asked = BagCall;

    type Told = seq_objects::BagReply;

    type Pass = BagPass<AnyItem>;

    ghost fits = { λ bag pass. pass_opening pass ≡ opening_of bag };

    ghost caller = { λ pass. caller_of pass };

    ghost page = { λ pass. page pass };

    ghost asks = { IsAskedOfBag };

    ghost says = { λ bag. SaysBag (callers_of bag) (shape_of bag).segments (shape_of bag).room };

    ghost widens = { λ bag. widens_bag (callers_of bag) (shape_of bag).segments (shape_of bag).room };

    ghost gives = { BagGives };

    ghost refuses = { BagRefuses };

    ghost callers = { λ bag. callers_of bag };

    ghost leaves = { λ bag history items. (held : List ℕ) × LeavesItems history held × IsRisingOrder items held };

    fn number(pass: &BagPass<AnyItem>) -> u32 {
        pass.caller()
    }

    fn make<R: Wait>(
        &self,
        rt: &R,
        pass: &mut BagPass<AnyItem>,
        call: Call,
    ) -> Result<Reply, AllocError> {
        let Call::Bag { call, once } = call else {
            unreachable!()
        };
        make_call(rt, self, pass, call, once)
    }

    fn inform(&self, giver: &mut BagPass<AnyItem>, taker: &mut BagPass<AnyItem>) {
        let note = self.note(giver);
        self.learn(taker, note);
    }

    fn finish(self, passes: Vec<BagPass<AnyItem>>) -> Result<Vec<u64>, AllocError>
        requires passes { All (λ pass. pass_opening pass ≡ opening_of self) passes.items }
        requires count { length passes.items ≡ callers_of self }
        requires numbers { AreInOrder (λ pass. caller_of pass) passes.items }
        ensures { IfOk result (λ items. (history : List BagEntry) × ((held : List ℕ) × LeavesItems history held × IsRisingOrder items.items held)
            × IsOfCallers (callers_of self) history × All (λ pass. IsPageOf (caller_of pass) history (page pass)) passes.items) }
    {
        match self.close(passes) {
            Ok(closed) => {
                let mut items = closed.items;
                items.sort_unstable();
                Ok(items)
            }
            Err(_) => Err(AllocError),
        }
    }
}
