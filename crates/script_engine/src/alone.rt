//! Scripts of one caller.
ghost use Rattle.std.specs.Prelude.{◌≡◌, ◌∷◌, [], IfOk, OnOk, map, All, slice_index_or};
ghost use Rattle.script_engine.specs.Answers.{IsPlainAnswer};
ghost use Rattle.script_engine.specs.Replied.{HasReplied, HasAnswered, AreAsked, first_calls};
ghost use Rattle.script_text.specs.Replies.{reply_lists, left_items};
ghost use Rattle.script_text.specs.Scripts.{plain_script, plain_round, IsValid};

use crate::objects::{Asked, ListOfWidth};
use script_text::{Call, Left, ObjectLine, Replies, Reply, Round, Script};
use seq_objects::{PlainBag, PlainDeque, PlainList};
use std::alloc::{AllocError, Global};

/// Runs a script of one caller on a plain object, and answers the replies and what is left. A Grow past
/// the square of the width is `too long`. No reply is `no room`, and a bag is never full. An error is
/// want of memory.
pub fn run_alone(alloc: Global, script: &Script) -> Result<Replies, AllocError>
    requires valid { IsValid (plain_script script.now) }
    requires alone { script.now.callers ≡ 1 }
    ensures answer { IfOk result (λ replies. IsPlainAnswer (plain_script script.now) replies) }
{
    let rounds = script.rounds.as_slice();
    match script.object {
        ObjectLine::List { width, .. } => {
            let list = PlainList::open(alloc, width)?;
            run_on(alloc, ListOfWidth { list, width }, rounds)
        }
        ObjectLine::Bag { .. } => run_on(alloc, PlainBag::open(alloc), rounds),
        ObjectLine::Deque { capacity, .. } => {
            run_on(alloc, PlainDeque::open(alloc, capacity), rounds)
        }
    }
}

/// Runs the rounds on the object.
fn run_on<O: Asked>(alloc: Global, mut object: O, rounds: &[Round]) -> Result<Replies, AllocError>
    requires { AreAsked O.asks (map plain_round rounds.now) }
    ensures { IfOk result (λ replies. HasAnswered O.does O.holds object (first_calls (map plain_round rounds.now)) replies) }
{
    let mut replies = Vec::with_capacity(alloc, count_calls(rounds))?;
    ask_rounds(&mut object, rounds, &mut replies)?;
    let items = object.left(alloc)?;
    alone(alloc, replies, items)
}

/// How many calls the first caller makes.
fn count_calls(rounds: &[Round]) -> usize {
    let mut count = 0usize;
    for round in rounds {
        count = count.saturating_add(first_list(round).len());
    }
    count
}

/// The calls of the first caller.
fn first_list(round: &Round) -> &[Call]
    ensures { result.now ≡ slice_index_or (plain_round round.now) 0 [] }
{
    match round.calls.first() {
        Some(calls) => calls.as_slice(),
        None => &[],
    }
}

/// Makes the calls of the rounds, and adds their replies.
fn ask_rounds<O: Asked>(
    object: &mut O,
    rounds: &[Round],
    replies: &mut Vec<Reply>,
) -> Result<(), AllocError>
    requires { AreAsked O.asks (map plain_round rounds.now) }
    ensures { OnOk result (HasReplied O.does object.old (first_calls (map plain_round rounds.now)) object.new replies.old.items replies.new.items) }
{
    for round in rounds {
        ask_calls(object, first_list(round), replies)?;
    }
    Ok(())
}

/// Makes the calls, and adds their replies.
fn ask_calls<O: Asked>(
    object: &mut O,
    calls: &[Call],
    replies: &mut Vec<Reply>,
) -> Result<(), AllocError>
    requires { All O.asks calls.now }
    ensures { OnOk result (HasReplied O.does object.old calls.now object.new replies.old.items replies.new.items) }
{
    for call in calls {
        replies.push(object.ask(*call)?)?;
    }
    Ok(())
}

/// The replies of a single caller.
fn alone(alloc: Global, replies: Vec<Reply>, items: Vec<u64>) -> Result<Replies, AllocError>
    ensures callers { IfOk result (λ all. reply_lists all ≡ replies.items ∷ []) }
    ensures left { IfOk result (λ all. left_items all.left ≡ items.items) }
{
    let mut callers = Vec::with_capacity(alloc, 1)?;
    callers.push(replies)?;
    Ok(Replies {
        callers,
        left: Left::Items { items },
    })
}
