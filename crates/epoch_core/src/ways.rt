ghost use Rattle.std.specs.Prelude.{◌≡◌, ◌<◌, true, length};
ghost use Rattle.epoch_laws.specs.Chains.{leads_into, led_in};
ghost use Rattle.epoch_laws.specs.Places.{is_among, place_of, same_place};
ghost use Rattle.epoch_laws.specs.States.{State};
ghost use Rattle.epoch_core.specs.Ends.{IsWay, LetsGo, ends_at, hand_but, path};
ghost use Rattle.epoch_core.specs.Objects.{object_place};
ghost use Rattle.epoch_core.specs.Shown.{IsShowing};
ghost use Rattle.epoch_core.specs.declared.machine.Machine.{Machine};

use crate::machine::Machine;
use crate::marks::Role;
use crate::objects::{Object, index_of, object_in, object_of};
use crate::words::PENDING;
use epoch_laws::Illegal;
use pgas_base::Ptr;

/// What the next word of a chain's tail has to be.
#[derive(Clone, Copy, Debug)]
pub(crate) enum End {
    /// It has this index.
    Index { index: u32 },
    /// It is the pending mark.
    Pending,
}

impl End {
    fn passes(self, word: u64) -> bool
        ensures { result ≡ ends_at self word }
    {
        match self {
            End::Index { index } => index_of(word) == index,
            End::Pending => word == PENDING,
        }
    }
}

fn is_same(at: Object, other: Object) -> bool
    ensures { result ≡ same_place (object_place at) (object_place other) }
{
    at.locale == other.locale && at.index == other.index
}

impl Machine {
    /// Takes the objects of a chain out of the hand, from top to tail, and counts them. Where the next words don't
    /// lead there the hand is left as it was.
    pub(crate) fn let_go(
        &mut self,
        seat: u32,
        top: Ptr,
        tail: Ptr,
        end: End,
    ) -> Result<u32, Illegal>
        requires { seat < length self.old.seats.items }
        ensures tells { (s : State) → IsShowing self.old s → is_among (place_of top) (s.seat seat).hand ≡ true →
            LetsGo s seat (led_in s.words (s.seat seat).hand (ends_at end) (place_of top) (place_of tail)) (place_of top) self.new result }
        ensures seats { length self.new.seats.items ≡ length self.old.seats.items }
    {
        let last = object_of(tail);
        let mut at = object_of(top);
        let locale = at.locale;
        let limit = self.seats[seat as usize].hand;
        for met in 0..limit {
            self.hand_to_none(seat, at);
            let word = self.next_of(at);
            let at_tail = is_same(at, last);
            if at_tail {
                if end.passes(word) {
                    return Ok(met + 1);
                }
                self.take_again(seat, top, met + 1);
                return Err(Illegal { need: 7, word });
            }
            if !self.leads_on(seat, locale, word) {
                self.take_again(seat, top, met + 1);
                return Err(Illegal { need: 7, word });
            }
            at = object_in(word);
        }
        Err(Illegal { need: 7, word: 0 })
    }

    /// Whether the word is that of a pointer to an object of the hand, of this locale, with its header's count.
    fn leads_on(&self, seat: u32, locale: u8, word: u64) -> bool
        requires { seat < length self.now.seats.items }
        ensures { (s : State) → IsShowing self.now s → result ≡ leads_into s.words locale (s.seat seat).hand word }
    {
        let at = object_in(word);
        if !self.is_inside(at) {
            return false;
        }
        if !self.is_kept(Role::Hand, seat, at) {
            return false;
        }
        at.locale == locale && u64::from(self.header_at(at).count) == word % (1 << 32)
    }

    /// Puts that many objects of a chain back into the hand, from top on.
    pub(crate) fn take_again(&mut self, seat: u32, top: Ptr, count: u32)
        requires { seat < length self.old.seats.items }
        ensures shown { (before : Machine) (s : State) → IsShowing before s →
            IsShowing self.old (hand_but s seat (path s.words (place_of top) count)) →
            IsWay s.words (s.seat seat).hand (place_of top) count → IsShowing self.new s }
        ensures seats { length self.new.seats.items ≡ length self.old.seats.items }
    {
        let mut at = object_of(top);
        for _met in 0..count {
            self.none_to_hand(seat, at);
            let word = self.next_of(at);
            at = object_in(word);
        }
    }
}
