//! What a call's clause `history` gives: its entry, among what its caller has seen.
ghost use Rattle.std.specs.Prelude.{◌≡◌, ◌∷◌, ◌++◌, [], IsTrue};
ghost use Rattle.seq_objects.specs.declared.deques.DequeCall.TheVariants.{PushBack};
ghost use Rattle.seq_objects.specs.declared.deques.DequeReply.TheVariants.{Pushed};
ghost use Rattle.shared_deque.specs.Passes.{IsSamePass, caller_of, page, pass_opening};
ghost use Rattle.shared_deque.specs.Deques.{opening_of};

use seq_objects::AnyItem;
use shared_deque::{Deque, DequePass};

/// Tries to push an item. Where it says true, the caller has one entry more, which is this push.
pub fn has_pushed(deque: &Deque<AnyItem>, pass: &mut DequePass<AnyItem>, item: u64) -> bool
    requires { pass_opening pass.old ≡ opening_of deque.now }
    ensures pass { IsSamePass pass.old pass.new }
    ensures entry { IsTrue result → (page pass.new).mine
        ≡ (page pass.old).mine ++ record { caller = caller_of pass.old; call = PushBack item; reply = Pushed } ∷ [] }
{
    match deque.try_push_back(pass, item) {
        Ok(()) => true,
        Err(_) => false,
    }
}
