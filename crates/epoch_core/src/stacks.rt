ghost use Rattle.std.specs.Prelude.{◌≡◌, ◌<◌, length, OnOk};
ghost use Rattle.epoch_laws.specs.States.{IsPlace, State};
ghost use Rattle.epoch_core.specs.Answers.{Checks, Makes, Tells};
ghost use Rattle.epoch_core.specs.Shown.{IsShowing};
ghost use Rattle.std.specs.Prelude.{◌≤◌, ◌≢◌, ◌+◌, ◌^◌, true};
ghost use Rattle.epoch_laws.specs.Needs.{AllMet, stands};
ghost use Rattle.epoch_laws.specs.Places.{index_in, place_of};
ghost use Rattle.epoch_laws.specs.StackSteps.{in_hand_of, hand_link, looked_top, same_head, stack_look, stack_next, stack_pop, stack_put, with_no_look};
ghost use Rattle.epoch_core.specs.Fresh.{FreshIf, IsFresh, PopsFresh};
ghost use Rattle.epoch_core.specs.ChainNeeds.{MayPut, put_needs};
ghost use Rattle.epoch_core.specs.Objects.{object_place};

use crate::machine::Machine;
use crate::marks::Role;
use crate::objects::{Object, index_of, object_of};
use crate::seats::{StackLook, StackPhase};
use crate::ways::End;
use epoch_laws::{Illegal, Seen};
use pgas_base::Ptr;

impl Machine {
    #[tactic(auto, unfolding(epoch_laws::specs::StackSteps::stack_look))]
    fn stack_look_needs(&self, seat: u32, locale: u8) -> Result<(), Illegal>
        ensures tells { (s : State) → IsShowing self.now s → Tells ((stack_look s seat locale).needs) result }
        ensures ok { OnOk result (seat < length self.now.seats.items) }
        ensures locale { OnOk result (locale < self.now.shape.locales) }
    {
        self.seat_inside(seat)?;
        self.locale_inside(locale)?;
        self.not_reclaiming(seat)?;
        Ok(())
    }

    #[tactic(auto, unfolding(epoch_laws::specs::StackSteps::stack_look))]
    pub(crate) fn stack_look(&mut self, seat: u32, locale: u8) -> Result<Seen, Illegal>
        ensures { (s : State) → IsShowing self.old s → Makes s (stack_look s seat locale) self.new result }
    {
        self.stack_look_needs(seat, locale)?;
        let word = self.free_head_word_at(locale);
        let head = self.free_head_at(locale);
        self.seats[seat as usize].stack = StackLook {
            phase: StackPhase::Looked,
            locale,
            head,
            next: 0,
        };
        Ok(Seen::Word { word })
    }

    #[tactic(auto, unfolding(epoch_laws::specs::StackSteps::stack_next))]
    fn stack_next_needs(&self, seat: u32) -> Result<(), Illegal>
        ensures tells { (s : State) → IsShowing self.now s → Tells ((stack_next s seat).needs) result }
        ensures ok { OnOk result (seat < length self.now.seats.items) }
    {
        self.seat_inside(seat)?;
        let met = self.seats[seat as usize].may_read_next();
        self.stands(seat, met)?;
        Ok(())
    }

    #[tactic(auto, unfolding(epoch_laws::specs::StackSteps::stack_next))]
    pub(crate) fn stack_next(&mut self, seat: u32) -> Result<Seen, Illegal>
        ensures { (s : State) → IsShowing self.old s → Makes s (stack_next s seat) self.new result }
    {
        self.stack_next_needs(seat)?;
        let look = self.seats[seat as usize].stack;
        let word = self.next_of(top_of(look));
        let own = &mut self.seats[seat as usize];
        own.stack.phase = StackPhase::NextRead;
        own.stack.next = word;
        Ok(Seen::Word { word })
    }

    /// What a lost exchange leaves: the look allows nothing any more.
    fn lose(&mut self, seat: u32)
        requires { seat < length self.old.seats.items }
        ensures { (s : State) → IsShowing self.old s → IsShowing self.new (with_no_look s seat) }
    {
        self.seats[seat as usize].stack.phase = StackPhase::NoLook;
    }

    /// Whether the head of a stack is still what the seat read.
    fn stands_as_read(&self, look: StackLook) -> bool
        ensures { (s : State) → IsShowing self.now s → look.locale < self.now.shape.locales →
            result ≡ same_head (s.words.free_head look.locale) look.head }
    {
        let head = self.free_head_at(look.locale);
        head.count == look.head.count && head.index == look.head.index
    }

    #[tactic(auto, unfolding(epoch_laws::specs::StackSteps::stack_pop))]
    fn stack_pop_needs(&self, seat: u32) -> Result<(), Illegal>
        ensures tells { (s : State) → IsShowing self.now s → Tells ((stack_pop s seat).needs) result }
        ensures ok { OnOk result (seat < length self.now.seats.items) }
    {
        self.seat_inside(seat)?;
        let met = self.seats[seat as usize].may_pop();
        self.stands(seat, met)?;
        Ok(())
    }

    #[tactic(auto, unfolding(epoch_laws::specs::StackSteps::stack_pop))]
    pub(crate) fn stack_pop(&mut self, seat: u32) -> Result<Seen, Illegal>
        ensures { (s : State) → IsShowing self.old s → PopsFresh s seat → Makes s (stack_pop s seat) self.new result }
    {
        self.stack_pop_needs(seat)?;
        let look = self.seats[seat as usize].stack;
        if !self.stands_as_read(look) {
            let word = self.free_head_word_at(look.locale);
            self.lose(seat);
            return Ok(Seen::Lost { word });
        }
        let count = raised_count(look.head.count);
        let index = index_of(look.next);
        self.put_free_head(look.locale, count, index);
        let top = top_of(look);
        self.none_to_hand(seat, top);
        Ok(Seen::Won)
    }

    /// The seat has looked at a stack, and its head may rise.
    fn can_put(&self, seat: u32) -> Result<(), Illegal>
        requires { seat < length self.now.seats.items }
        ensures { (s : State) → IsShowing self.now s → Checks (stands s seat (MayPut (s.seat seat))) result }
    {
        let met = self.seats[seat as usize].may_put();
        self.stands(seat, met)
    }

    /// The object is in the hand, and of the locale that was looked at.
    fn in_looked_hand(&self, seat: u32, ptr: Ptr) -> Result<(), Illegal>
        requires { seat < length self.now.seats.items }
        ensures { (s : State) → IsShowing self.now s → IsPlace self.now.shape (place_of ptr) →
            Checks (in_hand_of s seat ptr (s.seat seat).stack.locale) result }
    {
        let locale = self.seats[seat as usize].stack.locale;
        self.in_hand_of_locale(seat, ptr, locale)
    }

    /// All needs but the last, that the next words lead from top to tail.
    fn stack_put_needs(&self, seat: u32, top: Ptr, tail: Ptr) -> Result<(), Illegal>
        ensures tells { (s : State) → IsShowing self.now s → Tells (put_needs s seat top tail) result }
        ensures ok { OnOk result (seat < length self.now.seats.items) }
        ensures place { OnOk result (IsPlace self.now.shape (place_of top)) }
    {
        self.seat_inside(seat)?;
        self.pointer_inside(top)?;
        self.pointer_inside(tail)?;
        self.can_put(seat)?;
        self.has_count(top)?;
        self.has_count(tail)?;
        self.in_looked_hand(seat, top)?;
        self.in_looked_hand(seat, tail)?;
        Ok(())
    }

    pub(crate) fn stack_put(&mut self, seat: u32, top: Ptr, tail: Ptr) -> Result<Seen, Illegal>
        ensures { (s : State) → IsShowing self.old s → Makes s (stack_put s seat top tail) self.new result }
    {
        self.stack_put_needs(seat, top, tail)?;
        let look = self.seats[seat as usize].stack;
        let index = look.head.index;
        let count = self.let_go(seat, top, tail, End::Index { index })?;
        if !self.stands_as_read(look) {
            self.take_again(seat, top, count);
            let word = self.free_head_word_at(look.locale);
            self.lose(seat);
            return Ok(Seen::Lost { word });
        }
        let next = raised_count(look.head.count);
        let first = top.index();
        self.put_free_head(look.locale, next, first);
        Ok(Seen::Won)
    }

    #[tactic(auto, unfolding(epoch_laws::specs::StackSteps::hand_link))]
    fn hand_link_needs(&self, seat: u32, ptr: Ptr, next: u64) -> Result<(), Illegal>
        ensures tells { (s : State) → IsShowing self.now s → Tells ((hand_link s seat ptr next).needs) result }
        ensures place { OnOk result (IsPlace self.now.shape (place_of ptr)) }
    {
        self.seat_inside(seat)?;
        self.pointer_inside(ptr)?;
        self.has_count(ptr)?;
        self.has_as(Role::Hand, seat, object_of(ptr))?;
        Ok(())
    }

    #[tactic(auto, unfolding(epoch_laws::specs::StackSteps::hand_link))]
    pub(crate) fn hand_link(&mut self, seat: u32, ptr: Ptr, next: u64) -> Result<Seen, Illegal>
        ensures { (s : State) → IsShowing self.old s → Makes s (hand_link s seat ptr next) self.new result }
    {
        self.hand_link_needs(seat, ptr, next)?;
        self.put_next(object_of(ptr), next);
        Ok(Seen::Nothing)
    }
}

/// The object that the look read on top.
fn top_of(look: StackLook) -> Object
    ensures locale { result.locale ≡ look.locale }
    ensures index { result.index ≡ look.head.index }
{
    Object {
        locale: look.locale,
        index: look.head.index,
    }
}

/// The next count of a stack's head.
fn raised_count(count: u64) -> u64
    ensures { count < 2 ^ 40 → result ≡ count + 1 }
{
    count.wrapping_add(1)
}
