//! How a caller is given an object.
//!
//! Free objects of a locale stand in a stack (Treiber 1986), and released ones in a chain of objects that came home.
//! A take pops from the stack, and where that is empty takes the whole chain: it keeps one object and puts the others
//! on the stack.
ghost use Rattle.std.specs.Prelude.{◌≡◌, ◌<◌, ◌^◌, ℕ, true, false, []};
ghost use Rattle.pool_core.specs.Headers.{header_word};
ghost use Rattle.pgas_base.specs.Pointers.{IsPointer, word_of};
ghost use Rattle.epoch_laws.specs.Places.{index_in, place_of};
ghost use Rattle.epoch_laws.specs.States.{IsPlace};
ghost use Rattle.epoch_laws.specs.Seats.{is_reclaiming};
ghost use Rattle.pass_table.specs.Passes.{IsSeatOf, view_of, me_of};
ghost use Rattle.epoch_manager.specs.Managers.{plan_of, shape_of, callers_of};
ghost use Rattle.epoch_manager.specs.Takes.{SaysFree};
ghost use Rattle.epoch_manager.specs.TakeSeats.{IsEmptyHanded, IsKnowing, HasOne, IsChained, HoldsChain, HoldsRest, Gets, GetsHead, Scans, Walks, WalksRest, GoesHome, OwnsOne};

use crate::gets::Get;
use crate::homes::PENDING;
use crate::links::linked;
use crate::managers::Manager;
use epoch_table::{Client, TableSeat};
use pass_table::pause;
use pgas_base::Ptr;
use pool_core::{State, free_word, of_free_word};
use std::sync::Wait;

/// The last count of a stack's head. No exchange is tried from there.
pub(crate) const LAST_COUNT: u64 = (1 << 40) - 1;

// The index of the object that a next word leads to, 0 where there is none.
#[tactic(auto, unfolding(epoch_laws::specs::Places::index_in))]
fn index_of(word: u64) -> u32
    ensures value { result ≡ index_in word }
    ensures bound { result < 2 ^ 24 }
{
    (word / (1 << 32) % (1 << 24)) as u32
}

// A next word that leads to the object of the locale with this index.
#[tactic(auto, unfolding(epoch_laws::specs::Places::index_in))]
fn link_to(index: u32) -> u64
    requires { index < 2 ^ 24 }
    ensures { index_in result ≡ index }
{
    u64::from(index) * (1 << 32)
}

// The count of a free object, by its header. The low three bits are the state.
fn count_in(header: u64) -> u32
    ensures { (count : ℕ) → count < 2 ^ 32 → header ≡ header_word count State.Free → result ≡ count }
{
    (header / 8 % (1 << 32)) as u32
}

// Whether a header says free. The low three bits are the state, and free is 0.
fn says_free(header: u64) -> bool
    ensures free { result ≡ true → SaysFree header }
    ensures other { result ≡ false → ¬ SaysFree header }
{
    header % 8 == 0
}

impl<C: Client> Manager<C> {
    // Takes the object on top of a locale's stack into the hand. After each lost exchange it looks again.
    #[inline]
    pub(crate) fn pop<R: Wait>(&self, rt: &R, seat: &mut TableSeat<C>, locale: u8) -> Get
        requires seat { IsSeatOf self.now.words.table seat.old }
        requires below { (view_of seat.old).number < callers_of self.now }
        requires locale { locale < (shape_of self.now).locales }
        requires phase { is_reclaiming (view_of seat.old).part.seat.phase ≡ false }
        requires empty { IsEmptyHanded (view_of seat.old).part }
        ensures seat { IsSeatOf self.now.words.table seat.new }
        ensures gets { GetsHead C.terms C.Object.opens C.Object.step (plan_of self.now) locale (me_of seat.old) (me_of seat.new) result }
    {
        for _ in rt.forever() {
            let head = of_free_word(self.words.stack_look(seat, locale));
            if head.count == LAST_COUNT {
                return Get::Spent;
            }
            if head.index == 0 {
                return Get::Empty;
            }
            let next = self.words.stack_next(seat, locale, head.index);
            let found = self.words.stack_pop(seat, locale, head, index_of(next));
            if found == free_word(head.count, head.index) {
                return Get::Got { index: head.index };
            }
        }
        unreachable!()
    }

    // Makes the object that is in the hand the caller's own.
    #[inline]
    pub(crate) fn own(&self, seat: &mut TableSeat<C>, locale: u8, index: u32) -> Ptr
        requires seat { IsSeatOf self.now.words.table seat.old }
        requires below { (view_of seat.old).number < callers_of self.now }
        requires phase { is_reclaiming (view_of seat.old).part.seat.phase ≡ false }
        requires one { HasOne (shape_of self.now) (view_of seat.old).part record { locale = locale; index = index } }
        requires allowed { C.terms.may_take (view_of seat.old).part.client (view_of seat.old).part.seat.owned }
        ensures seat { IsSeatOf self.now.words.table seat.new }
        ensures local { result.locale ≡ locale }
        ensures takes { OwnsOne C.terms C.Object.opens C.Object.step (plan_of self.now) (me_of seat.old) (me_of seat.new) result }
    {
        let header = self.words.take_look(seat, locale, index);
        let count = count_in(header);
        self.words.take_try(seat, locale, index, count);
        Ptr::new(locale, index, count)
    }

    // Looks at the header of each object of a locale. True if one said free.
    #[inline(never)]
    pub(crate) fn scan(&self, seat: &mut TableSeat<C>, locale: u8) -> bool
        requires seat { IsSeatOf self.now.words.table seat.old }
        requires below { (view_of seat.old).number < callers_of self.now }
        requires locale { locale < (shape_of self.now).locales }
        requires phase { is_reclaiming (view_of seat.old).part.seat.phase ≡ false }
        requires empty { IsEmptyHanded (view_of seat.old).part }
        requires known { IsKnowing (view_of seat.old).part }
        ensures seat { IsSeatOf self.now.words.table seat.new }
        ensures scans { Scans C.terms C.Object.opens C.Object.step (plan_of self.now) locale (shape_of self.now).objects (me_of seat.old) (me_of seat.new) result }
    {
        let mut free = false;
        for number in 0..self.shape.objects {
            let header = self.words.take_look(seat, locale, number + 1);
            free = free || says_free(header);
        }
        free
    }

    // Walks over an object of the taken chain, which comes into the hand. It looks again while the link is pending.
    #[inline(always)]
    fn walk<R: Wait>(&self, rt: &R, seat: &mut TableSeat<C>, ptr: Ptr) -> u64
        requires seat { IsSeatOf self.now.words.table seat.old }
        requires below { (view_of seat.old).number < callers_of self.now }
        requires phase { is_reclaiming (view_of seat.old).part.seat.phase ≡ false }
        requires place { IsPlace (shape_of self.now) (place_of ptr) }
        requires pointer { IsPointer ptr }
        requires chain { (view_of seat.old).part.seat.homing.chain ≡ word_of ptr }
        ensures seat { IsSeatOf self.now.words.table seat.new }
        ensures walks { Walks C.terms C.Object.opens C.Object.step (plan_of self.now) (me_of seat.old) (me_of seat.new) ptr result }
    {
        let mut yields = 1;
        for _ in rt.forever() {
            let next = self.words.home_walk(seat, ptr.locale(), ptr.index());
            if next != PENDING {
                return next;
            }
            yields = pause(yields);
        }
        unreachable!()
    }

    // Walks over what is left of the taken chain, from its next object on, and gives the last.
    fn walk_rest<R: Wait>(&self, rt: &R, seat: &mut TableSeat<C>, first: Ptr, top: Ptr) -> Ptr
        requires seat { IsSeatOf self.now.words.table seat.old }
        requires below { (view_of seat.old).number < callers_of self.now }
        requires phase { is_reclaiming (view_of seat.old).part.seat.phase ≡ false }
        requires place { IsPlace (shape_of self.now) (place_of top) }
        requires pointer { IsPointer top }
        requires local { top.locale ≡ first.locale }
        requires chain { (view_of seat.old).part.seat.homing.chain ≡ word_of top }
        requires chained { IsChained (shape_of self.now) (view_of seat.old).part first.locale first [] (word_of top) }
        ensures seat { IsSeatOf self.now.words.table seat.new }
        ensures walks { WalksRest C.terms C.Object.opens C.Object.step (plan_of self.now) first.locale first top result (me_of seat.old) (me_of seat.new) }
    {
        let mut tail = top;
        let mut word = self.walk(rt, seat, top);
        for _ in rt.forever() {
            let Some(next) = linked(word) else {
                return tail;
            };
            word = self.walk(rt, seat, next);
            tail = next;
        }
        unreachable!()
    }

    // Hands a chain of the hand home, from its first object to its last.
    #[inline(never)]
    fn hand_home(&self, seat: &mut TableSeat<C>, first: Ptr, tail: Ptr)
        requires seat { IsSeatOf self.now.words.table seat.old }
        requires below { (view_of seat.old).number < callers_of self.now }
        requires chain { HoldsChain (shape_of self.now) (view_of seat.old).part first tail }
        ensures seat { IsSeatOf self.now.words.table seat.new }
        ensures home { GoesHome C.terms C.Object.opens C.Object.step (plan_of self.now) first.locale (me_of seat.old) (me_of seat.new) }
    {
        self.words.hand_link(seat, tail, PENDING);
        self.chain_home(seat, first, tail);
    }

    // Puts what is in the hand beside the first object onto their locale's stack. After each lost exchange it looks
    // again. Where the stack's head has had its last count, all of the hand goes home.
    fn put_rest<R: Wait>(
        &self,
        rt: &R,
        seat: &mut TableSeat<C>,
        first: Ptr,
        top: Ptr,
        tail: Ptr,
    ) -> Get
        requires seat { IsSeatOf self.now.words.table seat.old }
        requires below { (view_of seat.old).number < callers_of self.now }
        requires phase { is_reclaiming (view_of seat.old).part.seat.phase ≡ false }
        requires locale { first.locale < (shape_of self.now).locales }
        requires chain { HoldsRest (shape_of self.now) (view_of seat.old).part first top tail }
        ensures seat { IsSeatOf self.now.words.table seat.new }
        ensures gets { Gets C.terms C.Object.opens C.Object.step (plan_of self.now) first.locale (me_of seat.old) (me_of seat.new) result }
    {
        for _ in rt.forever() {
            let head = of_free_word(self.words.stack_look(seat, first.locale()));
            if head.count == LAST_COUNT {
                self.hand_home(seat, first, tail);
                return Get::Spent;
            }
            let below = link_to(head.index);
            self.words.hand_link(seat, tail, below);
            let found = self.words.stack_put(seat, first.locale(), head, top, tail);
            if found == free_word(head.count, head.index) {
                return Get::Got {
                    index: first.index(),
                };
            }
        }
        unreachable!()
    }

    // Takes the locale's chain of objects that came home: one object stays in the hand, the others go onto the stack.
    #[inline(never)]
    pub(crate) fn take_home<R: Wait>(&self, rt: &R, seat: &mut TableSeat<C>, locale: u8) -> Get
        requires seat { IsSeatOf self.now.words.table seat.old }
        requires below { (view_of seat.old).number < callers_of self.now }
        requires locale { locale < (shape_of self.now).locales }
        requires phase { is_reclaiming (view_of seat.old).part.seat.phase ≡ false }
        requires empty { IsEmptyHanded (view_of seat.old).part }
        ensures seat { IsSeatOf self.now.words.table seat.new }
        ensures gets { Gets C.terms C.Object.opens C.Object.step (plan_of self.now) locale (me_of seat.old) (me_of seat.new) result }
    {
        let chain = self.words.home_take(seat, locale);
        let Some(first) = Ptr::of_word(chain) else {
            return Get::Empty;
        };
        let next = self.walk(rt, seat, first);
        let Some(top) = Ptr::of_word(next) else {
            return Get::Got {
                index: first.index(),
            };
        };
        let tail = self.walk_rest(rt, seat, first, top);
        self.put_rest(rt, seat, first, top, tail)
    }
}
