ghost use Rattle.std.specs.Prelude.{◌≡◌, ◌<◌, length, OnOk};
ghost use Rattle.epoch_laws.specs.States.{IsPlace, State};
ghost use Rattle.epoch_core.specs.Answers.{Checks, Makes, Tells};
ghost use Rattle.epoch_core.specs.Shown.{IsShowing};
ghost use Rattle.std.specs.Prelude.{false, Some, None, if◌then◌else◌};
ghost use Rattle.std.specs.Option.{option_map};
ghost use Rattle.epoch_laws.specs.Needs.{stands};
ghost use Rattle.epoch_laws.specs.Places.{place_of, pointer_at};
ghost use Rattle.epoch_laws.specs.Seats.{is_reclaiming};
ghost use Rattle.epoch_laws.specs.TakeSteps.{LookedAt, give_back, is_free, show, take_look, take_try};
ghost use Rattle.epoch_core.specs.Looks.{looked_pointer};
ghost use Rattle.epoch_core.specs.Objects.{object_place};

use crate::machine::Machine;
use crate::marks::Role;
use crate::objects::{Object, object_of};
use crate::seats::Looked;
use epoch_laws::{Illegal, Seen};
use pgas_base::Ptr;
use pool_core::{Header, State as HeaderState};

impl Machine {
    #[tactic(auto, unfolding(epoch_laws::specs::TakeSteps::take_look))]
    fn take_look_needs(&self, seat: u32, at: Object) -> Result<(), Illegal>
        ensures tells { (s : State) → IsShowing self.now s → Tells ((take_look s seat (object_place at)).needs) result }
        ensures ok { OnOk result (seat < length self.now.seats.items) }
        ensures place { OnOk result (IsPlace self.now.shape (object_place at)) }
    {
        self.seat_inside(seat)?;
        self.locale_inside(at.locale)?;
        self.index_inside(at)?;
        self.not_reclaiming(seat)?;
        Ok(())
    }

    #[tactic(auto, unfolding(epoch_laws::specs::TakeSteps::take_look))]
    pub(crate) fn take_look(&mut self, seat: u32, at: Object) -> Result<Seen, Illegal>
        ensures { (s : State) → IsShowing self.old s → Makes s (take_look s seat (object_place at)) self.new result }
    {
        self.take_look_needs(seat, at)?;
        let found = self.header_at(at);
        let word = self.header_word_at(at);
        self.seats[seat as usize].free_look = look_of(at, found);
        Ok(Seen::Word { word })
    }

    /// The last look was of this object and read free.
    fn has_looked(&self, seat: u32, at: Object) -> Result<(), Illegal>
        requires { seat < length self.now.seats.items }
        ensures { (s : State) → IsShowing self.now s →
            Checks (stands s seat ((is_reclaiming ((s.seat seat).phase) ≡ false) × LookedAt (s.seat seat).free_look (object_place at))) result }
    {
        let met = self.seats[seat as usize].may_try(at);
        self.stands(seat, met)
    }

    #[tactic(auto, unfolding(epoch_laws::specs::TakeSteps::take_try))]
    fn take_try_needs(&self, seat: u32, at: Object) -> Result<(), Illegal>
        ensures tells { (s : State) → IsShowing self.now s → Tells ((take_try s seat (object_place at)).needs) result }
        ensures ok { OnOk result (seat < length self.now.seats.items) }
        ensures place { OnOk result (IsPlace self.now.shape (object_place at)) }
    {
        self.seat_inside(seat)?;
        self.locale_inside(at.locale)?;
        self.index_inside(at)?;
        self.has_looked(seat, at)?;
        self.has_as(Role::Hand, seat, at)?;
        Ok(())
    }

    #[tactic(auto, unfolding(epoch_laws::specs::TakeSteps::take_try))]
    pub(crate) fn take_try(&mut self, seat: u32, at: Object) -> Result<Seen, Illegal>
        ensures { (s : State) → IsShowing self.old s → Makes s (take_try s seat (object_place at)) self.new result }
    {
        self.take_try_needs(seat, at)?;
        let found = self.header_at(at);
        if !self.seats[seat as usize].has_read(found) {
            let word = self.header_word_at(at);
            return Ok(Seen::Lost { word });
        }
        self.put_header(at, found.count, HeaderState::Own);
        self.hand_to_own(seat, at);
        Ok(Seen::Won)
    }

    /// Needs of a step on an object that the seat owns.
    #[tactic(auto, unfolding(epoch_laws::specs::TakeSteps::show))]
    fn owner_needs(&self, seat: u32, ptr: Ptr) -> Result<(), Illegal>
        ensures tells { (s : State) → IsShowing self.now s → Tells ((show s seat ptr).needs) result }
        ensures ok { OnOk result (seat < length self.now.seats.items) }
        ensures place { OnOk result (IsPlace self.now.shape (place_of ptr)) }
    {
        self.seat_inside(seat)?;
        self.pointer_inside(ptr)?;
        self.not_reclaiming(seat)?;
        self.has_count(ptr)?;
        self.has_as(Role::Owner, seat, object_of(ptr))?;
        Ok(())
    }

    #[tactic(auto, unfolding(epoch_laws::specs::TakeSteps::show))]
    pub(crate) fn show(&mut self, seat: u32, ptr: Ptr) -> Result<Seen, Illegal>
        ensures { (s : State) → IsShowing self.old s → Makes s (show s seat ptr) self.new result }
    {
        self.owner_needs(seat, ptr)?;
        let at = object_of(ptr);
        self.put_header(at, ptr.count(), HeaderState::Shown);
        self.own_to_none(seat, at);
        Ok(Seen::Nothing)
    }

    #[tactic(auto, unfolding(epoch_laws::specs::TakeSteps::give_back, epoch_laws::specs::TakeSteps::show))]
    pub(crate) fn give_back(&mut self, seat: u32, ptr: Ptr) -> Result<Seen, Illegal>
        ensures { (s : State) → IsShowing self.old s → Makes s (give_back s seat ptr) self.new result }
    {
        self.owner_needs(seat, ptr)?;
        let at = object_of(ptr);
        self.put_header(at, ptr.count(), HeaderState::Free);
        self.own_to_hand(seat, at);
        Ok(Seen::Nothing)
    }
}

/// What a look that read this header keeps of it.
#[tactic(auto, unfolding(epoch_laws::specs::TakeSteps::is_free))]
fn look_of(at: Object, found: Header) -> Option<Looked>
    ensures { option_map looked_pointer result ≡
        (if is_free found.state then Some (pointer_at (object_place at) found.count) else None) }
{
    match found.state {
        HeaderState::Free => Some(Looked {
            at,
            count: found.count,
        }),
        HeaderState::Own => None,
        HeaderState::Shown => None,
        HeaderState::Worn => None,
    }
}
