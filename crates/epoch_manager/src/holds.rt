//! The hold of a link.
ghost use Rattle.std.specs.Prelude.{◌≡◌, ◌<◌, true, length, IfSome, Contains};
ghost use Rattle.epoch_laws.specs.declared.tokens.Token.{Token};
ghost use Rattle.epoch_laws.specs.Places.{place_of};
ghost use Rattle.epoch_laws.specs.States.{IsPlace};
ghost use Rattle.epoch_table.specs.Clients.{Holds, is_link};
ghost use Rattle.epoch_manager.specs.HeldNumbers.{number_of, joined_numbers};
ghost use Rattle.epoch_manager.specs.HoldCalls.{link_word, HoldsThen, HeldAt};
ghost use Rattle.epoch_manager.specs.Managers.{plan_of, opening_of, shape_of, pass_opening, phase_of, looked, owned_by, held_by, knows, IsSamePass};
ghost use Rattle.epoch_manager.specs.SpotCalls.{IsReached};

use crate::held::HeldList;
use crate::links::linked;
use crate::managers::{Manager, Pass};
use crate::phases::Phase;
use epoch_table::Client;
use pgas_base::{Ptr, Spot};

// The upper half of its word.
#[inline]
fn object_number(ptr: &Ptr) -> u32
    ensures { result ≡ number_of (place_of ptr.now) }
{
    (ptr.word() / (1 << 32)) as u32
}

// The object that was found, if any, is held once.
#[inline]
fn join(held: &mut HeldList, found: &Option<Ptr>)
    requires room { length held.old < 4 }
    ensures { held.new ≡ joined_numbers found.now held.old }
{
    if let Some(ptr) = found {
        held.join(object_number(ptr));
    }
}

impl<C: Client> Manager<C> {
    /// Loads a link of the client, and holds the object that it names until the caller unpins. `None` is answered exactly
    /// where the word read was 0. The link is one of the client's words, or stands in the row of an object that the caller
    /// holds. An object that is held stays as it is: it is not released, even if it is deferred meanwhile.
    pub fn hold(&self, pass: &mut Pass<C>, spot: Spot) -> Option<Ptr>
        requires opening { pass_opening pass.old ≡ opening_of self.now }
        requires phase { (token : Token) × (phase_of pass.old ≡ Phase.Pinned token) }
        requires room { length (held_by pass.old) < 4 }
        requires link { is_link C.terms spot ≡ true }
        requires reached { IsReached (plan_of self.now) (held_by pass.old) spot }
        ensures pass { IsSamePass pass.old pass.new }
        ensures phase { phase_of pass.new ≡ phase_of pass.old }
        ensures owned { owned_by pass.new ≡ owned_by pass.old }
        ensures held { HoldsThen (held_by pass.old) result (held_by pass.new) }
        ensures among { IfSome result (λ q. Contains (held_by pass.new) q) }
        ensures place { IfSome result (λ q. IsPlace (shape_of self.now) (place_of q)) }
        ensures knows { knows pass.new ≡ C.terms.after (knows pass.old) (Holds spot) (link_word result) }
        ensures history { (token : Token) → phase_of pass.old ≡ Phase.Pinned token → HeldAt C.terms C.Object.opens C.Object.step (plan_of self.now) pass.old pass.new token spot result }
        ensures looked { looked pass.new ≡ looked pass.old }
    {
        let word = self.words.hold(&mut pass.pass.seat, spot);
        let found = linked(word);
        join(&mut pass.held, &found);
        found
    }
}
