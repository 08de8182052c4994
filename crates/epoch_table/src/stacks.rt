//! The exchanges of the head of a stack of free objects.
//!
//! The count in the head rises with each, so that one which was read can't come back (Treiber 1986).
ghost use Rattle.std.specs.Prelude.{◌≡◌, ◌<◌, ◌^◌};
ghost use Rattle.epoch_laws.specs.Places.{index_in};
ghost use Rattle.epoch_laws.specs.StackSteps.{last_stack_count};
ghost use Rattle.pass_table.specs.Passes.{IsSeatOf, plan_of, view_of, me_of};
ghost use Rattle.epoch_table.specs.Kinds.{MayMake, Makes};

use crate::clients::Client;
use crate::layout::stack_at;
use crate::words::{TableSeat, Words};
use epoch_laws::Kind;
use pgas_base::Ptr;
use pool_core::{FreeWord, free_word};
use std::marker::Brand;

impl<C: Client> Words<C> {
    /// Compares and exchanges the head that was read to one that has the object below on top. The object that was on
    /// top goes into the hand.
    #[inline]
    pub fn stack_pop(&self, seat: &mut TableSeat<C>, locale: u8, head: FreeWord, below: u32) -> u64
        requires seat { IsSeatOf self.now.table seat.old }
        requires locale { (locale ≡ (view_of seat.old).part.seat.stack.locale) × (locale < self.now.shape.locales) }
        requires head { head ≡ (view_of seat.old).part.seat.stack.head }
        requires bounds { (head.count < last_stack_count) × (head.index < 2 ^ 24) }
        requires below { (below ≡ index_in (view_of seat.old).part.seat.stack.next) × (below < 2 ^ 24) }
        requires may { MayMake C.terms (plan_of self.now.table) (view_of seat.old).number Kind.StackPop (view_of seat.old).part }
        ensures seat { IsSeatOf self.now.table seat.new }
        ensures makes { Makes C.terms C.Object.opens C.Object.step (plan_of self.now.table) Kind.StackPop (me_of seat.old) result (me_of seat.new) }
    {
        let old = free_word(head.count, head.index);
        let new = free_word(head.count + 1, below);
        self.exchange::<Brand>(seat, stack_at(locale), old, new, Kind::StackPop)
    }

    /// Compares and exchanges the head that was read to a chain of the hand, which leaves the hand.
    #[inline]
    pub fn stack_put(
        &self,
        seat: &mut TableSeat<C>,
        locale: u8,
        head: FreeWord,
        top: Ptr,
        tail: Ptr,
    ) -> u64
        requires seat { IsSeatOf self.now.table seat.old }
        requires locale { (locale ≡ (view_of seat.old).part.seat.stack.locale) × (locale < self.now.shape.locales) }
        requires head { head ≡ (view_of seat.old).part.seat.stack.head }
        requires bounds { (head.count < last_stack_count) × (head.index < 2 ^ 24) }
        requires may { MayMake C.terms (plan_of self.now.table) (view_of seat.old).number (Kind.StackPut top tail) (view_of seat.old).part }
        ensures seat { IsSeatOf self.now.table seat.new }
        ensures makes { Makes C.terms C.Object.opens C.Object.step (plan_of self.now.table) (Kind.StackPut top tail) (me_of seat.old) result (me_of seat.new) }
    {
        let old = free_word(head.count, head.index);
        let new = free_word(head.count + 1, top.index());
        let kind = Kind::StackPut { top, tail };
        self.exchange::<Brand>(seat, stack_at(locale), old, new, kind)
    }
}
