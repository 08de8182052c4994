ghost use Rattle.std.specs.Prelude.{◌≡◌, ◌<◌, length, None, OnOk};
ghost use Rattle.epoch_laws.specs.States.{IsPlace, State};
ghost use Rattle.epoch_core.specs.Answers.{Checks, Makes, Tells};
ghost use Rattle.epoch_core.specs.Shown.{IsShowing};
ghost use Rattle.epoch_laws.specs.Needs.{stands};
ghost use Rattle.epoch_laws.specs.HomeSteps.{Waits, home_link, home_swap, home_take, home_walk};
ghost use Rattle.epoch_laws.specs.Places.{place_in, place_of};
ghost use Rattle.epoch_laws.specs.StackSteps.{in_hand_of};
ghost use Rattle.epoch_core.specs.ChainNeeds.{home_needs};
ghost use Rattle.epoch_core.specs.Fresh.{FreshIf};

use crate::machine::Machine;
use crate::objects::{object_in, object_named};
use crate::ways::End;
use crate::words::PENDING;
use epoch_laws::{Illegal, Seen};
use pgas_base::Ptr;

impl Machine {
    /// No chain that went home waits for its link.
    fn has_no_tail(&self, seat: u32) -> Result<(), Illegal>
        requires { seat < length self.now.seats.items }
        ensures { (s : State) → IsShowing self.now s → Checks (stands s seat ((s.seat seat).homing.tail ≡ None)) result }
    {
        let met = self.seats[seat as usize].has_no_tail();
        self.stands(seat, met)
    }

    /// The object is in the hand, and of the locale of another.
    fn in_hand_beside(&self, seat: u32, ptr: Ptr, top: Ptr) -> Result<(), Illegal>
        requires { seat < length self.now.seats.items }
        ensures { (s : State) → IsShowing self.now s → IsPlace self.now.shape (place_of ptr) →
            Checks (in_hand_of s seat ptr top.locale) result }
    {
        let locale = top.locale();
        self.in_hand_of_locale(seat, ptr, locale)
    }

    /// All needs but the last, that the next words lead from top to tail.
    fn home_swap_needs(&self, seat: u32, top: Ptr, tail: Ptr) -> Result<(), Illegal>
        ensures tells { (s : State) → IsShowing self.now s → Tells (home_needs s seat top tail) result }
        ensures ok { OnOk result (seat < length self.now.seats.items) }
        ensures top { OnOk result (IsPlace self.now.shape (place_of top)) }
        ensures tail { OnOk result (IsPlace self.now.shape (place_of tail)) }
    {
        self.seat_inside(seat)?;
        self.pointer_inside(top)?;
        self.pointer_inside(tail)?;
        self.has_no_tail(seat)?;
        self.has_count(top)?;
        self.has_count(tail)?;
        self.in_hand_beside(seat, top, top)?;
        self.in_hand_beside(seat, tail, top)?;
        Ok(())
    }

    pub(crate) fn home_swap(&mut self, seat: u32, top: Ptr, tail: Ptr) -> Result<Seen, Illegal>
        ensures { (s : State) → IsShowing self.old s → Makes s (home_swap s seat top tail) self.new result }
    {
        self.home_swap_needs(seat, top, tail)?;
        self.let_go(seat, top, tail, End::Pending)?;
        let locale = top.locale();
        let word = self.home_head(locale);
        let first = top.word();
        self.put_home_head(locale, first);
        let own = &mut self.seats[seat as usize];
        own.homing.tail = Some(tail);
        own.homing.old = word;
        Ok(Seen::Word { word })
    }

    fn waits(&self, seat: u32) -> Result<(), Illegal>
        requires { seat < length self.now.seats.items }
        ensures { (s : State) → IsShowing self.now s → Checks (stands s seat (Waits (s.seat seat).homing.tail)) result }
    {
        let met = self.seats[seat as usize].waits();
        self.stands(seat, met)
    }

    #[tactic(auto, unfolding(epoch_laws::specs::HomeSteps::home_link))]
    fn home_link_needs(&self, seat: u32) -> Result<(), Illegal>
        ensures tells { (s : State) → IsShowing self.now s → Tells ((home_link s seat).needs) result }
        ensures ok { OnOk result (seat < length self.now.seats.items) }
    {
        self.seat_inside(seat)?;
        self.waits(seat)?;
        Ok(())
    }

    #[tactic(auto, unfolding(epoch_laws::specs::HomeSteps::home_link))]
    pub(crate) fn home_link(&mut self, seat: u32) -> Result<Seen, Illegal>
        ensures { (s : State) → IsShowing self.old s → Makes s (home_link s seat) self.new result }
    {
        self.home_link_needs(seat)?;
        let homing = self.seats[seat as usize].homing;
        let at = object_named(homing.tail);
        self.put_next(at, homing.old);
        self.seats[seat as usize].homing.tail = None;
        Ok(Seen::Nothing)
    }

    #[tactic(auto, unfolding(epoch_laws::specs::HomeSteps::home_take))]
    fn home_take_needs(&self, seat: u32, locale: u8) -> Result<(), Illegal>
        ensures tells { (s : State) → IsShowing self.now s → Tells ((home_take s seat locale).needs) result }
        ensures ok { OnOk result (seat < length self.now.seats.items) }
        ensures locale { OnOk result (locale < self.now.shape.locales) }
    {
        self.seat_inside(seat)?;
        self.locale_inside(locale)?;
        let met = self.seats[seat as usize].may_take_home();
        self.stands(seat, met)?;
        Ok(())
    }

    #[tactic(auto, unfolding(epoch_laws::specs::HomeSteps::home_take))]
    pub(crate) fn home_take(&mut self, seat: u32, locale: u8) -> Result<Seen, Illegal>
        ensures { (s : State) → IsShowing self.old s → Makes s (home_take s seat locale) self.new result }
    {
        self.home_take_needs(seat, locale)?;
        let word = self.home_head(locale);
        self.put_home_head(locale, 0);
        self.seats[seat as usize].homing.chain = word;
        Ok(Seen::Word { word })
    }

    #[tactic(auto, unfolding(epoch_laws::specs::HomeSteps::home_walk))]
    fn home_walk_needs(&self, seat: u32) -> Result<(), Illegal>
        ensures tells { (s : State) → IsShowing self.now s → Tells ((home_walk s seat).needs) result }
        ensures ok { OnOk result (seat < length self.now.seats.items) }
    {
        self.seat_inside(seat)?;
        let met = self.seats[seat as usize].may_walk_home();
        self.stands(seat, met)?;
        Ok(())
    }

    #[tactic(auto, unfolding(epoch_laws::specs::HomeSteps::home_walk))]
    pub(crate) fn home_walk(&mut self, seat: u32) -> Result<Seen, Illegal>
        ensures { (s : State) → IsShowing self.old s → FreshIf s ((home_walk s seat).needs) (place_in (s.seat seat).homing.chain) →
            Makes s (home_walk s seat) self.new result }
    {
        self.home_walk_needs(seat)?;
        let at = object_in(self.seats[seat as usize].homing.chain);
        let word = self.next_of(at);
        if word == PENDING {
            return Ok(Seen::Word { word });
        }
        self.seats[seat as usize].homing.chain = word;
        self.none_to_hand(seat, at);
        Ok(Seen::Word { word })
    }
}
