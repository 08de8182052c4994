ghost use Rattle.std.specs.Prelude.{◌≡◌, ◌<◌, length, OnOk};
ghost use Rattle.epoch_laws.specs.States.{IsPlace, State};
ghost use Rattle.epoch_core.specs.Answers.{Checks, Makes, Tells};
ghost use Rattle.epoch_core.specs.Shown.{IsShowing};
ghost use Rattle.epoch_laws.specs.DeferralSteps.{defer_look};
ghost use Rattle.epoch_laws.specs.HoldSteps.{hold, touch};
ghost use Rattle.epoch_laws.specs.Places.{is_among, place_of};
ghost use Rattle.epoch_core.specs.Objects.{object_place};

use crate::checks::unmet;
use crate::machine::Machine;
use crate::objects::{Object, object_of};
use crate::seats::{MOST_HELD, Phase};
use epoch_laws::{Illegal, Seen};
use pgas_base::Ptr;

impl Machine {
    pub(crate) fn holds(&self, seat: u32, at: Object) -> bool
        requires { seat < length self.now.seats.items }
        ensures { (s : State) → IsShowing self.now s → result ≡ is_among (object_place at) (s.seat seat).held }
    {
        self.seats[seat as usize].holds(at)
    }

    /// Needs of a deferral's look, and the first ones of a hold.
    #[tactic(auto, unfolding(epoch_laws::specs::DeferralSteps::defer_look))]
    pub(crate) fn reader_needs(&self, seat: u32, ptr: Ptr) -> Result<(), Illegal>
        ensures tells { (s : State) → IsShowing self.now s → Tells ((defer_look s seat ptr).needs) result }
        ensures ok { OnOk result (seat < length self.now.seats.items) }
        ensures place { OnOk result (IsPlace self.now.shape (place_of ptr)) }
    {
        self.seat_inside(seat)?;
        self.pointer_inside(ptr)?;
        self.in_phase(seat, Phase::Pinned)?;
        self.is_shown(ptr)?;
        self.not_deferred(ptr)?;
        Ok(())
    }

    fn has_room(&self, seat: u32) -> Result<(), Illegal>
        requires { seat < length self.now.seats.items }
        ensures { (s : State) → IsShowing self.now s →
            Checks (record { number = 6; met = length (s.seat seat).held < 4; word = 4 }) result }
    {
        if self.seats[seat as usize].held.len() < MOST_HELD {
            return Ok(());
        }
        unmet(6, 4)
    }

    #[tactic(auto, unfolding(epoch_laws::specs::HoldSteps::hold))]
    fn hold_needs(&self, seat: u32, ptr: Ptr) -> Result<(), Illegal>
        ensures tells { (s : State) → IsShowing self.now s → Tells ((hold s seat ptr).needs) result }
        ensures ok { OnOk result (seat < length self.now.seats.items) }
        ensures place { OnOk result (IsPlace self.now.shape (place_of ptr)) }
    {
        self.seat_inside(seat)?;
        self.pointer_inside(ptr)?;
        self.in_phase(seat, Phase::Pinned)?;
        self.is_shown(ptr)?;
        self.not_deferred(ptr)?;
        self.has_room(seat)?;
        Ok(())
    }

    #[tactic(auto, unfolding(epoch_laws::specs::HoldSteps::hold))]
    pub(crate) fn hold(&mut self, seat: u32, ptr: Ptr) -> Result<Seen, Illegal>
        ensures { (s : State) → IsShowing self.old s → Makes s (hold s seat ptr) self.new result }
    {
        self.hold_needs(seat, ptr)?;
        let word = ptr.word();
        if self.holds(seat, object_of(ptr)) {
            return Ok(Seen::Word { word });
        }
        let own = &mut self.seats[seat as usize];
        let _ = own.held.try_push(word);
        Ok(Seen::Word { word })
    }

    #[tactic(auto, unfolding(epoch_laws::specs::HoldSteps::touch))]
    fn touch_needs(&self, seat: u32, ptr: Ptr) -> Result<(), Illegal>
        ensures { (s : State) → IsShowing self.now s → Tells ((touch s seat ptr).needs) result }
    {
        self.seat_inside(seat)?;
        self.pointer_inside(ptr)?;
        self.not_reclaiming(seat)?;
        self.has_count(ptr)?;
        self.owns_or_holds(seat, object_of(ptr))?;
        Ok(())
    }

    #[tactic(auto, unfolding(epoch_laws::specs::HoldSteps::touch))]
    pub(crate) fn touch(&mut self, seat: u32, ptr: Ptr) -> Result<Seen, Illegal>
        ensures { (s : State) → IsShowing self.old s → Makes s (touch s seat ptr) self.new result }
    {
        self.touch_needs(seat, ptr)?;
        Ok(Seen::Nothing)
    }
}
