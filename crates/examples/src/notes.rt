//! A note that one caller hands to another, who has then seen all that the first had.
ghost use Rattle.std.specs.Prelude.{◌≡◌};
ghost use mathlib.Core.List.{IsPrefix};
ghost use Rattle.shared_bag.specs.Passes.{IsSamePass, page, pass_opening};
ghost use Rattle.shared_bag.specs.Bags.{opening_of};

use seq_objects::AnyItem;
use shared_bag::{Bag, BagPass};
use std::sync::Wait;

/// Adds an item with the one pass, and takes one with the other. By the note the removal comes after the
/// add in the one history of the bag.
pub fn hand_on<R: Wait>(
    rt: &R,
    bag: &Bag<AnyItem>,
    giver: &mut BagPass<AnyItem>,
    taker: &mut BagPass<AnyItem>,
) -> Option<u64>
    requires giver { pass_opening giver.old ≡ opening_of bag.now }
    requires taker { pass_opening taker.old ≡ opening_of bag.now }
    ensures giver { IsSamePass giver.old giver.new }
    ensures taker { IsSamePass taker.old taker.new }
    ensures after { IsPrefix (page giver.new).seen (page taker.new).seen }
{
    let _ = bag.add(rt, giver, 7);
    let note = bag.note(giver);
    bag.learn(taker, note);
    bag.remove(rt, taker)
}
