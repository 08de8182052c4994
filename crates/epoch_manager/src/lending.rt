//! How a caller is given an object of any locale.
//!
//! The pools of the locales lend to their neighbours: a take goes round the locales, beginning with the one that was
//! asked for, and the first object that it gets is its answer.
ghost use Rattle.std.specs.Prelude.{◌≡◌, ◌<◌, ◌≤◌, ℕ, ◌-◌, false, [], ◌∷◌, map, Err};
ghost use Rattle.std.specs.List.{range_with_len};
ghost use mathlib.Core.List.{IsPrefix};
ghost use Rattle.epoch_laws.specs.Places.{place_of};
ghost use Rattle.epoch_laws.specs.Seats.{is_reclaiming};
ghost use Rattle.pass_table.specs.Passes.{IsSeatOf, view_of, me_of};
ghost use Rattle.epoch_manager.specs.declared.faults.TakeFault.TheVariants.{Spent};
ghost use Rattle.epoch_manager.specs.Managers.{plan_of, opening_of, shape_of, callers_of, pass_opening, phase_of, caller_of, page, owned_by, held_by, knows, IsSamePass, change, ListsItems, ReadsWords};
ghost use Rattle.epoch_manager.specs.TakeCalls.{owned_then, knows_then, IsInside, IsTold, TakesSeat};
ghost use Rattle.epoch_manager.specs.Takes.{taken_items, CanSpend};
ghost use Rattle.epoch_manager.specs.Tours.{order_from, TakeReads};
ghost use Rattle.epoch_manager.specs.TakeSeats.{IsEmptyHanded, MayTry, GetsHead, Tries};

use crate::faults::TakeFault;
use crate::gets::{Get, Tried};
use crate::managers::{Manager, Pass};
use crate::taking::LAST_COUNT;
use epoch_table::{Client, TableSeat};
use pass_table::pause;
use pgas_base::Ptr;
use std::sync::Wait;

impl<C: Client> Manager<C> {
    // Gets an object of the locale into the hand: from its stack, and where that is empty from its chain of objects
    // that came home.
    fn get<R: Wait>(&self, rt: &R, seat: &mut TableSeat<C>, locale: u8) -> Get
        requires seat { IsSeatOf self.now.words.table seat.old }
        requires below { (view_of seat.old).number < callers_of self.now }
        requires locale { locale < (shape_of self.now).locales }
        requires phase { is_reclaiming (view_of seat.old).part.seat.phase ≡ false }
        requires empty { IsEmptyHanded (view_of seat.old).part }
        ensures seat { IsSeatOf self.now.words.table seat.new }
        ensures gets { GetsHead C.terms C.Object.opens C.Object.step (plan_of self.now) locale (me_of seat.old) (me_of seat.new) result }
    {
        let popped = self.pop(rt, seat, locale);
        match popped {
            Get::Empty => self.take_home(rt, seat, locale),
            Get::Got { index } => Get::Got { index },
            Get::Spent => Get::Spent,
        }
    }

    // Tries to take an object of the locale. Where its stack and its chain are empty, it looks at each header.
    #[inline(always)]
    fn try_locale<R: Wait>(&self, rt: &R, seat: &mut TableSeat<C>, locale: u8) -> Tried
        requires seat { IsSeatOf self.now.words.table seat.old }
        requires locale { locale < (shape_of self.now).locales }
        requires may { MayTry C.terms C.Object.opens C.Object.step (plan_of self.now) (view_of seat.old).number (view_of seat.old).part }
        ensures seat { IsSeatOf self.now.words.table seat.new }
        ensures tries { Tries C.terms C.Object.opens C.Object.step (plan_of self.now) (locale ∷ []) (me_of seat.old) (me_of seat.new) result }
    {
        let got = self.get(rt, seat, locale);
        match got {
            Get::Got { index } => {
                let ptr = self.own(seat, locale, index);
                Tried::Taken { ptr }
            }
            Get::Empty => {
                let free = self.scan(seat, locale);
                Tried::Missed { spent: false, free }
            }
            Get::Spent => Tried::Missed {
                spent: true,
                free: false,
            },
        }
    }

    // Tries the locales from the first up to the second, by rising number.
    #[inline(always)]
    fn try_range<R: Wait>(&self, rt: &R, seat: &mut TableSeat<C>, from: u8, to: u8) -> Tried
        requires seat { IsSeatOf self.now.words.table seat.old }
        requires order { from ≤ to }
        requires locales { to ≤ (shape_of self.now).locales }
        requires may { MayTry C.terms C.Object.opens C.Object.step (plan_of self.now) (view_of seat.old).number (view_of seat.old).part }
        ensures seat { IsSeatOf self.now.words.table seat.new }
        ensures tries { Tries C.terms C.Object.opens C.Object.step (plan_of self.now) (range_with_len from (to - from)) (me_of seat.old) (me_of seat.new) result }
    {
        let mut spent = false;
        let mut free = false;
        for locale in from..to {
            match self.try_locale(rt, seat, locale) {
                Tried::Taken { ptr } => return Tried::Taken { ptr },
                Tried::Missed {
                    spent: one_spent,
                    free: one_free,
                } => {
                    spent |= one_spent;
                    free |= one_free;
                }
            }
        }
        Tried::Missed { spent, free }
    }

    // Goes once round all locales, beginning with this one.
    fn try_round<R: Wait>(&self, rt: &R, seat: &mut TableSeat<C>, first: u8) -> Tried
        requires seat { IsSeatOf self.now.words.table seat.old }
        requires locale { first < (shape_of self.now).locales }
        requires may { MayTry C.terms C.Object.opens C.Object.step (plan_of self.now) (view_of seat.old).number (view_of seat.old).part }
        ensures seat { IsSeatOf self.now.words.table seat.new }
        ensures tries { Tries C.terms C.Object.opens C.Object.step (plan_of self.now) (order_from first (shape_of self.now).locales) (me_of seat.old) (me_of seat.new) result }
    {
        match self.try_range(rt, seat, first, self.shape.locales) {
            Tried::Taken { ptr } => Tried::Taken { ptr },
            Tried::Missed { spent, free } => match self.try_range(rt, seat, 0, first) {
                Tried::Taken { ptr } => Tried::Taken { ptr },
                Tried::Missed {
                    spent: later_spent,
                    free: later_free,
                } => Tried::Missed {
                    spent: spent | later_spent,
                    free: free | later_free,
                },
            },
        }
    }

    // Goes round all locales, beginning with this one, until an object is got or a round tells that there is none.
    fn take_seat<R: Wait>(
        &self,
        rt: &R,
        seat: &mut TableSeat<C>,
        locale: u8,
    ) -> Result<Ptr, TakeFault>
        requires seat { IsSeatOf self.now.words.table seat.old }
        requires locale { locale < (shape_of self.now).locales }
        requires may { MayTry C.terms C.Object.opens C.Object.step (plan_of self.now) (view_of seat.old).number (view_of seat.old).part }
        ensures seat { IsSeatOf self.now.words.table seat.new }
        ensures takes { TakesSeat C.terms C.Object.opens C.Object.step (plan_of self.now) locale (me_of seat.old) (me_of seat.new) result }
    {
        let mut yields = 1;
        for _ in rt.forever() {
            match self.try_round(rt, seat, locale) {
                Tried::Taken { ptr } => return Ok(ptr),
                Tried::Missed { spent, free } => {
                    if spent {
                        return Err(TakeFault::Spent { count: LAST_COUNT });
                    }
                    if !free {
                        return Err(TakeFault::NoRoom { locale });
                    }
                }
            }
            yields = pause(yields);
        }
        unreachable!()
    }

    /// Takes an object: it belongs to this pass then, and what stands in its row is left open until it is filled. The call
    /// goes round the locales, beginning with the one asked for, so the object may be of any locale. `NoRoom` comes exactly
    /// where this call found no stack's head with its last count, and for each object of every locale looked last at a
    /// header that didn't say free. `Spent` comes exactly where it found such a head and got no object. It waits for others
    /// that are in the middle of a step with an object that may be free.
    pub fn take<R: Wait>(&self, rt: &R, pass: &mut Pass<C>, locale: u8) -> Result<Ptr, TakeFault>
        requires opening { pass_opening pass.old ≡ opening_of self.now }
        requires locale { locale < (shape_of self.now).locales }
        requires allowed { C.terms.may_take (knows pass.old) (map place_of (owned_by pass.old)) }
        ensures pass { IsSamePass pass.old pass.new }
        ensures phase { phase_of pass.new ≡ phase_of pass.old }
        ensures owned { owned_by pass.new ≡ owned_then (owned_by pass.old) result }
        ensures inside { IsInside (shape_of self.now) result }
        ensures held { held_by pass.new ≡ held_by pass.old }
        ensures knows { knows pass.new ≡ knows_then C.terms (knows pass.old) result }
        ensures history { ListsItems C.terms C.Object.opens C.Object.step (plan_of self.now) (change pass.old pass.new) (taken_items (caller_of pass.old) result) }
        ensures grows { IsPrefix (page pass.old).seen (page pass.new).seen }
        ensures cause { ReadsWords C.terms C.Object.opens C.Object.step (plan_of self.now) (change pass.old pass.new) (TakeReads (shape_of self.now) locale result) }
        ensures tells { IsTold locale result }
        ensures spent { (count : ℕ) → result ≡ Err (Spent count) → CanSpend (plan_of self.now) (page pass.new).seen }
    {
        self.take_seat(rt, &mut pass.pass.seat, locale)
    }
}
