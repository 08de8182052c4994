ghost use Rattle.std.specs.Prelude.{◌≡◌, ◌<◌, length, OnOk};
ghost use Rattle.epoch_laws.specs.States.{IsPlace, State};
ghost use Rattle.epoch_core.specs.Answers.{Checks, Makes, Tells};
ghost use Rattle.epoch_core.specs.Shown.{IsShowing};
ghost use Rattle.epoch_core.specs.Fresh.{FreshIf};
ghost use Rattle.epoch_laws.specs.Places.{place_in, place_of};
ghost use Rattle.std.specs.Prelude.{[]};
ghost use Rattle.epoch_laws.specs.Needs.{is_one_of, reclaims};
ghost use Rattle.epoch_laws.specs.ReclaimSteps.{IsBetweenLists, MayLeave, collect, leave, release, walk};
ghost use Rattle.epoch_laws.specs.Seats.{Advanced};

use crate::machine::Machine;
use crate::marks::Role;
use crate::objects::{object_in, object_of};
use crate::reclaims::raised;
use crate::seats::Phase;
use epoch_laws::{Illegal, Seen};
use pgas_base::Ptr;
use pool_core::State as HeaderState;

impl Machine {
    fn is_between(&self, seat: u32) -> Result<(), Illegal>
        requires { seat < length self.now.seats.items }
        ensures { (s : State) → IsShowing self.now s →
            Checks (reclaims s seat (((s.seat seat).phase ≡ Advanced) × IsBetweenLists s.shape.locales (s.seat seat).reclaim
            × ((s.seat seat).reclaim.collected < s.shape.locales))) result }
    {
        let met = self.seats[seat as usize].may_collect(self.shape.locales);
        self.reclaims(seat, met)
    }

    #[tactic(auto, unfolding(epoch_laws::specs::ReclaimSteps::collect))]
    fn collect_needs(&self, seat: u32) -> Result<(), Illegal>
        ensures tells { (s : State) → IsShowing self.now s → Tells ((collect s seat).needs) result }
        ensures ok { OnOk result (seat < length self.now.seats.items) }
    {
        self.seat_inside(seat)?;
        self.is_between(seat)?;
        Ok(())
    }

    #[tactic(auto, unfolding(epoch_laws::specs::ReclaimSteps::collect))]
    pub(crate) fn collect(&mut self, seat: u32) -> Result<Seen, Illegal>
        ensures { (s : State) → IsShowing self.old s → Makes s (collect s seat) self.new result }
    {
        self.collect_needs(seat)?;
        let reclaim = self.seats[seat as usize].reclaim;
        let list = raised(reclaim.epoch, 2);
        let word = self.list_head(reclaim.collected, list);
        self.put_list_head(reclaim.collected, list, 0);
        let own = &mut self.seats[seat as usize];
        own.reclaim.collected = own.reclaim.collected.saturating_add(1);
        own.reclaim.chain = word;
        Ok(Seen::Word { word })
    }

    #[tactic(auto, unfolding(epoch_laws::specs::ReclaimSteps::walk))]
    fn walk_needs(&self, seat: u32) -> Result<(), Illegal>
        ensures tells { (s : State) → IsShowing self.now s → Tells ((walk s seat).needs) result }
        ensures ok { OnOk result (seat < length self.now.seats.items) }
    {
        self.seat_inside(seat)?;
        let met = self.seats[seat as usize].may_walk();
        self.reclaims(seat, met)?;
        Ok(())
    }

    #[tactic(auto, unfolding(epoch_laws::specs::ReclaimSteps::walk))]
    pub(crate) fn walk(&mut self, seat: u32) -> Result<Seen, Illegal>
        ensures { (s : State) → IsShowing self.old s → FreshIf s ((walk s seat).needs) (place_in (s.seat seat).reclaim.chain) →
            Makes s (walk s seat) self.new result }
    {
        self.walk_needs(seat)?;
        let at = object_in(self.seats[seat as usize].reclaim.chain);
        let word = self.next_of(at);
        self.seats[seat as usize].reclaim.chain = word;
        self.none_to_walked(seat, at);
        Ok(Seen::Word { word })
    }

    fn has_walked(&self, seat: u32, ptr: Ptr) -> Result<(), Illegal>
        requires { seat < length self.now.seats.items }
        ensures { (s : State) → IsShowing self.now s → IsPlace self.now.shape (place_of ptr) →
            Checks (is_one_of s (place_of ptr) (s.seat seat).reclaim.walked) result }
    {
        self.has_as(Role::Walker, seat, object_of(ptr))
    }

    #[tactic(auto, unfolding(epoch_laws::specs::ReclaimSteps::release))]
    fn release_needs(&self, seat: u32, ptr: Ptr) -> Result<(), Illegal>
        ensures tells { (s : State) → IsShowing self.now s → Tells ((release s seat ptr).needs) result }
        ensures ok { OnOk result (seat < length self.now.seats.items) }
        ensures place { OnOk result (IsPlace self.now.shape (place_of ptr)) }
    {
        self.seat_inside(seat)?;
        self.pointer_inside(ptr)?;
        self.in_reclaim_phase(seat, Phase::Advanced)?;
        self.has_count(ptr)?;
        self.has_walked(seat, ptr)?;
        Ok(())
    }

    #[tactic(auto, unfolding(epoch_laws::specs::ReclaimSteps::release))]
    pub(crate) fn release(&mut self, seat: u32, ptr: Ptr) -> Result<Seen, Illegal>
        ensures { (s : State) → IsShowing self.old s → Makes s (release s seat ptr) self.new result }
    {
        self.release_needs(seat, ptr)?;
        let at = object_of(ptr);
        self.put_tag(at, None);
        match ptr.count().checked_add(1) {
            None => {
                self.put_header(at, ptr.count(), HeaderState::Worn);
                self.walked_to_none(seat, at);
            }
            Some(count) => {
                self.put_header(at, count, HeaderState::Free);
                self.walked_to_hand(seat, at);
            }
        }
        Ok(Seen::Nothing)
    }

    fn is_done(&self, seat: u32) -> Result<(), Illegal>
        requires { seat < length self.now.seats.items }
        ensures { (s : State) → IsShowing self.now s →
            Checks (reclaims s seat (MayLeave s.shape.locales (s.seat seat).phase (s.seat seat).reclaim × ((s.seat seat).hand ≡ []))) result }
    {
        let met = self.seats[seat as usize].may_leave(self.shape.locales);
        self.reclaims(seat, met)
    }

    #[tactic(auto, unfolding(epoch_laws::specs::ReclaimSteps::leave))]
    fn leave_needs(&self, seat: u32) -> Result<(), Illegal>
        ensures tells { (s : State) → IsShowing self.now s → Tells ((leave s seat).needs) result }
        ensures ok { OnOk result (seat < length self.now.seats.items) }
    {
        self.seat_inside(seat)?;
        self.is_done(seat)?;
        Ok(())
    }

    #[tactic(auto, unfolding(epoch_laws::specs::ReclaimSteps::leave))]
    pub(crate) fn leave(&mut self, seat: u32) -> Result<Seen, Illegal>
        ensures { (s : State) → IsShowing self.old s → Makes s (leave s seat) self.new result }
    {
        self.leave_needs(seat)?;
        let own = &mut self.seats[seat as usize];
        if own.phase.has_global() {
            own.phase = Phase::LeftGlobal;
            self.election = 0;
            return Ok(Seen::Nothing);
        }
        own.phase = Phase::Registered;
        let locale = own.token.locale;
        self.put_election_of(locale, 0);
        Ok(Seen::Nothing)
    }
}
