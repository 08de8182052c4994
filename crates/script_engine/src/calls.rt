//! The calls of one worker in one round.
ghost use Rattle.std.specs.Prelude.{◌≡◌, ◌+◌, ◌<◌, ◌^◌, length, IfOk, OnErr, All};
ghost use Rattle.script_engine.specs.Replied.{Replied, StopsEarly};
ghost use Rattle.script_engine.specs.Rounds.{Makes};

use crate::shared::Shared;
use script_text::{Call, Reply};
use shared_io::{Gate, Point};
use std::alloc::{AllocError, Global};
use std::sync::Wait;

/// Makes the calls, one after another, and passes the gate before and after each. Memory for the replies
/// is taken first.
pub(crate) fn make_each<P: Send + Drop, O: Shared<Pass = P>, R: Wait, G: Gate>(
    rt: &R,
    alloc: Global,
    object: &O,
    pass: &mut P,
    calls: &[Call],
    first: u32,
    gate: &G,
) -> Result<Vec<Reply>, AllocError>
    requires pass { O.fits object.now pass.old }
    requires calls { All (O.asks object.now) calls.now }
    requires room { first + length calls.now < 2 ^ 32 }
    ensures pass { O.fits object.now pass.new × (O.caller pass.new ≡ O.caller pass.old) }
    ensures gives { IfOk result (λ replies. Replied (O.gives object.now) pass.old calls.now replies.items pass.new) }
    ensures made { IfOk result (λ replies. Replied (Makes (O.says object.now) (O.caller pass.old)) (O.page pass.old) calls.now replies.items (O.page pass.new)) }
    ensures err { OnErr result (StopsEarly (O.gives object.now) (O.refuses object.now) pass.old calls.now pass.new) }
{
    let mut replies = Vec::with_capacity(alloc, calls.len())?;
    let worker = O::number(pass);
    for (k, call) in calls.iter().enumerate() {
        let number = first + k as u32;
        gate.pass(rt, worker, Point::Before { call: number });
        replies.push_reserved(object.make(rt, pass, *call)?);
        gate.pass(rt, worker, Point::After { call: number });
    }
    Ok(replies)
}
