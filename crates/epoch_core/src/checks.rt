ghost use Rattle.std.specs.Prelude.{◌≡◌, ◌<◌, ◌↔◌, ℕ, [], ◌∷◌, ◌++◌, length, IsTrue, OnOk, None};
ghost use Rattle.epoch_laws.specs.Needs.{has_count, in_phase, index_inside, inside, is_one_of, is_shown, not_deferred, not_reclaiming, pointer_inside, reclaims, stands, token_word_of, election_of_seat};
ghost use Rattle.epoch_laws.specs.Places.{is_among, place_of};
ghost use Rattle.epoch_laws.specs.StackSteps.{in_hand_of};
ghost use Rattle.epoch_laws.specs.States.{IsPlace, State};
ghost use Rattle.epoch_core.specs.Answers.{Checks, ChecksTest, Tells};
ghost use Rattle.epoch_core.specs.Marks.{list_of};
ghost use Rattle.epoch_core.specs.Objects.{object_place};
ghost use Rattle.epoch_core.specs.Phases.{phase_of};
ghost use Rattle.epoch_core.specs.Shown.{IsShowing};

use crate::machine::Machine;
use crate::marks::Role;
use crate::objects::{Object, object_of};
use crate::seats::Phase;
use epoch_laws::{Illegal, Token};
use pgas_base::Ptr;
use pool_core::State as HeaderState;

pub(crate) fn unmet(need: u8, word: u64) -> Result<(), Illegal>
    ensures { result ≡ Err (record { need = need; word = word }) }
{
    Err(Illegal { need, word })
}

impl Machine {
    pub(crate) fn seat_inside(&self, seat: u32) -> Result<(), Illegal>
        ensures checks { (s : State) → IsShowing self.now s → Checks (inside seat s.seats) result }
        ensures ok { OnOk result (seat < length self.now.seats.items) }
    {
        if (seat as usize) < self.seats.len() {
            Ok(())
        } else {
            unmet(1, u64::from(seat))
        }
    }

    pub(crate) fn locale_inside(&self, locale: u8) -> Result<(), Illegal>
        ensures checks { (s : State) → IsShowing self.now s → Checks (inside locale s.shape.locales) result }
        ensures ok { OnOk result (locale < self.now.shape.locales) }
    {
        if locale < self.shape.locales {
            Ok(())
        } else {
            unmet(1, u64::from(locale))
        }
    }

    pub(crate) fn number_inside(&self, number: u32) -> Result<(), Illegal>
        ensures checks { (s : State) → IsShowing self.now s → Checks (inside number s.shape.tokens) result }
        ensures ok { OnOk result (number < self.now.shape.tokens) }
    {
        if number < self.shape.tokens {
            Ok(())
        } else {
            unmet(1, u64::from(number))
        }
    }

    pub(crate) fn is_inside(&self, at: Object) -> bool
        ensures { IsTrue result ↔ IsPlace self.now.shape (object_place at) }
    {
        at.locale < self.shape.locales && at.index >= 1 && at.index <= self.shape.objects
    }

    pub(crate) fn index_inside(&self, at: Object) -> Result<(), Illegal>
        ensures checks { (s : State) → IsShowing self.now s → Checks (index_inside s at.locale at.index) result }
        ensures ok { OnOk result (IsPlace self.now.shape (object_place at)) }
    {
        if self.is_inside(at) {
            Ok(())
        } else {
            unmet(1, u64::from(at.index))
        }
    }

    pub(crate) fn pointer_inside(&self, ptr: Ptr) -> Result<(), Illegal>
        ensures checks { (s : State) → IsShowing self.now s → Checks (pointer_inside s ptr) result }
        ensures ok { OnOk result (IsPlace self.now.shape (place_of ptr)) }
    {
        if self.is_inside(object_of(ptr)) {
            Ok(())
        } else {
            unmet(1, ptr.word())
        }
    }

    /// The word of a seat's token, 0 where it is idle.
    #[tactic(auto, unfolding(epoch_laws::specs::Needs::token_word_of))]
    fn own_token_word(&self, seat: u32) -> u64
        requires { seat < length self.now.seats.items }
        ensures { (s : State) → IsShowing self.now s → result ≡ token_word_of s seat }
    {
        let own = &self.seats[seat as usize];
        if own.phase == Phase::Idle {
            return 0;
        }
        self.word_of_token(own.token)
    }

    /// The word of a seat's local election, 0 where it is idle.
    #[tactic(auto, unfolding(epoch_laws::specs::Needs::election_of_seat))]
    fn own_election_word(&self, seat: u32) -> u64
        requires { seat < length self.now.seats.items }
        ensures { (s : State) → IsShowing self.now s → result ≡ election_of_seat s seat }
    {
        let own = &self.seats[seat as usize];
        if own.phase == Phase::Idle {
            return 0;
        }
        self.election_of(own.token.locale)
    }

    /// The seat stands where its row says, and else its token's word is told.
    pub(crate) fn stands(&self, seat: u32, met: bool) -> Result<(), Illegal>
        requires { seat < length self.now.seats.items }
        ensures { (s : State) → IsShowing self.now s → ChecksTest met 2 (token_word_of s seat) result }
    {
        if met {
            return Ok(());
        }
        unmet(2, self.own_token_word(seat))
    }

    /// The same of a reclaim, and the word of the local election is told.
    pub(crate) fn reclaims(&self, seat: u32, met: bool) -> Result<(), Illegal>
        requires { seat < length self.now.seats.items }
        ensures { (s : State) → IsShowing self.now s → ChecksTest met 2 (election_of_seat s seat) result }
    {
        if met {
            return Ok(());
        }
        unmet(2, self.own_election_word(seat))
    }

    pub(crate) fn in_phase(&self, seat: u32, phase: Phase) -> Result<(), Illegal>
        requires { seat < length self.now.seats.items }
        ensures { (s : State) → IsShowing self.now s → Checks (in_phase s seat (phase_of phase)) result }
    {
        self.stands(seat, self.seats[seat as usize].phase.is(phase))
    }

    pub(crate) fn not_reclaiming(&self, seat: u32) -> Result<(), Illegal>
        requires { seat < length self.now.seats.items }
        ensures { (s : State) → IsShowing self.now s → Checks (not_reclaiming s seat) result }
    {
        self.stands(seat, !self.seats[seat as usize].phase.is_reclaiming())
    }

    pub(crate) fn has_count(&self, ptr: Ptr) -> Result<(), Illegal>
        ensures { (s : State) → IsShowing self.now s → IsPlace self.now.shape (place_of ptr) →
            Checks (has_count s ptr) result }
    {
        let at = object_of(ptr);
        if self.header_at(at).count == ptr.count() {
            return Ok(());
        }
        unmet(3, self.header_word_at(at))
    }

    pub(crate) fn is_shown(&self, ptr: Ptr) -> Result<(), Illegal>
        ensures { (s : State) → IsShowing self.now s → IsPlace self.now.shape (place_of ptr) →
            Checks (is_shown s ptr) result }
    {
        let at = object_of(ptr);
        let header = self.header_at(at);
        if header.count == ptr.count() && header.state == HeaderState::Shown {
            return Ok(());
        }
        unmet(3, self.header_word_at(at))
    }

    pub(crate) fn not_deferred(&self, ptr: Ptr) -> Result<(), Illegal>
        ensures { (s : State) → IsShowing self.now s → IsPlace self.now.shape (place_of ptr) →
            Checks (not_deferred s ptr) result }
    {
        match self.tag_of(object_of(ptr)) {
            None => Ok(()),
            Some(tag) => unmet(5, tag),
        }
    }

    /// The object is marked as one that the seat has for this.
    pub(crate) fn has_as(&self, role: Role, seat: u32, at: Object) -> Result<(), Illegal>
        requires { seat < length self.now.seats.items }
        ensures { (s : State) → IsShowing self.now s → IsPlace self.now.shape (object_place at) →
            Checks (is_one_of s (object_place at) (list_of role (s.seat seat))) result }
    {
        if self.is_kept(role, seat, at) {
            return Ok(());
        }
        unmet(4, self.header_word_at(at))
    }

    fn has_to_touch(&self, seat: u32, at: Object) -> bool
        requires { seat < length self.now.seats.items }
        ensures { (s : State) → IsShowing self.now s → IsPlace self.now.shape (object_place at) →
            result ≡ is_among (object_place at) ((s.seat seat).owned ++ (s.seat seat).held) }
    {
        if self.is_kept(Role::Owner, seat, at) {
            return true;
        }
        self.holds(seat, at)
    }

    pub(crate) fn owns_or_holds(&self, seat: u32, at: Object) -> Result<(), Illegal>
        requires { seat < length self.now.seats.items }
        ensures { (s : State) → IsShowing self.now s → IsPlace self.now.shape (object_place at) →
            Checks (is_one_of s (object_place at) ((s.seat seat).owned ++ (s.seat seat).held)) result }
    {
        if self.has_to_touch(seat, at) {
            return Ok(());
        }
        unmet(4, self.header_word_at(at))
    }

    pub(crate) fn in_hand_of_locale(&self, seat: u32, ptr: Ptr, locale: u8) -> Result<(), Illegal>
        requires { seat < length self.now.seats.items }
        ensures { (s : State) → IsShowing self.now s → IsPlace self.now.shape (place_of ptr) →
            Checks (in_hand_of s seat ptr locale) result }
    {
        let at = object_of(ptr);
        if self.is_kept(Role::Hand, seat, at) && at.locale == locale {
            return Ok(());
        }
        unmet(4, self.header_word_at(at))
    }

    /// Needs of a step of a seat in this phase.
    pub(crate) fn stands_in(&self, seat: u32, phase: Phase) -> Result<(), Illegal>
        ensures tells { (s : State) → IsShowing self.now s →
            Tells (inside seat s.seats ∷ in_phase s seat (phase_of phase) ∷ []) result }
        ensures ok { OnOk result (seat < length self.now.seats.items) }
    {
        self.seat_inside(seat)?;
        self.in_phase(seat, phase)?;
        Ok(())
    }
}
