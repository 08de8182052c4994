//! The steps of calls, each on one word. An object shows of each of its kinds of step what `Permits` says.
ghost use Rattle.std.specs.Prelude.{◌≡◌, ℕ, ◌+◌, ◌-◌, ◌%◌, ◌^◌, ◌<◌, ◌==◌, Some};
ghost use prog.Atomic.{either};
ghost use Rattle.pass_table.specs.Terms.{Permits};
ghost use Rattle.pass_table.specs.Steps.{Steps};
ghost use Rattle.pass_table.specs.Passes.{IsSeatOf, table_of, plan_of, view_of, carried_of, me_of};

use crate::clients::{Client, Kind, SeatOf};
use crate::plays::Step;
use crate::tables::PassTable;

impl<C: Client> PassTable<C> {
    /// Loads a word.
    #[inline]
    pub fn load<M: Kind<C>>(&self, seat: &mut SeatOf<C>, word: usize) -> u64
        requires seat { IsSeatOf self.now seat.old }
        requires word { word < (table_of self.now).words }
        requires permits { let plan = plan_of self.now in let v = view_of seat.old in
            Permits C.terms C.Object.opens C.Object.step plan (table_of self.now).slots v.number v.rests v.part (carried_of seat.old) word (λ n. n)
            (M.tells plan v.number v.part (carried_of seat.old)) }
        ensures seat { IsSeatOf self.now seat.new }
        ensures steps { let plan = plan_of self.now in let v = view_of seat.old in
            Steps C.terms C.Object.opens C.Object.step plan (M.tells plan v.number v.part (carried_of seat.old)) (me_of seat.old) result (me_of seat.new) }
    {
        self.table.shared.load::<Step<C, M>>(&mut seat.seat, word)
    }

    /// Stores a word.
    #[inline]
    pub fn store<M: Kind<C>>(&self, seat: &mut SeatOf<C>, word: usize, new: u64)
        requires seat { IsSeatOf self.now seat.old }
        requires word { word < (table_of self.now).words }
        requires permits { let plan = plan_of self.now in let v = view_of seat.old in
            Permits C.terms C.Object.opens C.Object.step plan (table_of self.now).slots v.number v.rests v.part (carried_of seat.old) word (λ _. new)
            (λ _. M.tells plan v.number v.part (carried_of seat.old) new) }
        ensures seat { IsSeatOf self.now seat.new }
        ensures steps { let plan = plan_of self.now in let v = view_of seat.old in
            Steps C.terms C.Object.opens C.Object.step plan (M.tells plan v.number v.part (carried_of seat.old)) (me_of seat.old) new (me_of seat.new) }
    {
        self.table
            .shared
            .store::<Step<C, M>>(&mut seat.seat, word, new);
    }

    /// Exchanges a word for another number, and gives the number that stood there.
    #[inline]
    pub fn swap<M: Kind<C>>(&self, seat: &mut SeatOf<C>, word: usize, new: u64) -> u64
        requires seat { IsSeatOf self.now seat.old }
        requires word { word < (table_of self.now).words }
        requires permits { let plan = plan_of self.now in let v = view_of seat.old in
            Permits C.terms C.Object.opens C.Object.step plan (table_of self.now).slots v.number v.rests v.part (carried_of seat.old) word (λ _. new)
            (M.tells plan v.number v.part (carried_of seat.old)) }
        ensures seat { IsSeatOf self.now seat.new }
        ensures steps { let plan = plan_of self.now in let v = view_of seat.old in
            Steps C.terms C.Object.opens C.Object.step plan (M.tells plan v.number v.part (carried_of seat.old)) (me_of seat.old) result (me_of seat.new) }
    {
        self.table
            .shared
            .swap::<Step<C, M>>(&mut seat.seat, word, new)
    }

    /// Exchanges a word from one number to another, where it is the one, and gives the number that stood there.
    #[inline]
    pub fn compare_exchange<M: Kind<C>>(
        &self,
        seat: &mut SeatOf<C>,
        word: usize,
        old: u64,
        new: u64,
    ) -> u64
        requires seat { IsSeatOf self.now seat.old }
        requires word { word < (table_of self.now).words }
        requires permits { let plan = plan_of self.now in let v = view_of seat.old in
            Permits C.terms C.Object.opens C.Object.step plan (table_of self.now).slots v.number v.rests v.part (carried_of seat.old) word (λ n. either (n == old) new n)
            (M.tells plan v.number v.part (carried_of seat.old)) }
        ensures seat { IsSeatOf self.now seat.new }
        ensures steps { let plan = plan_of self.now in let v = view_of seat.old in
            Steps C.terms C.Object.opens C.Object.step plan (M.tells plan v.number v.part (carried_of seat.old)) (me_of seat.old) result (me_of seat.new) }
    {
        self.table
            .shared
            .compare_exchange::<Step<C, M>>(&mut seat.seat, word, old, new)
    }

    /// Adds to a word, and gives the number that stood there.
    #[inline]
    pub fn fetch_add<M: Kind<C>>(&self, seat: &mut SeatOf<C>, word: usize, more: u64) -> u64
        requires seat { IsSeatOf self.now seat.old }
        requires word { word < (table_of self.now).words }
        requires permits { let plan = plan_of self.now in let v = view_of seat.old in
            Permits C.terms C.Object.opens C.Object.step plan (table_of self.now).slots v.number v.rests v.part (carried_of seat.old) word (λ n. (n + more) % 2 ^ 64)
            (M.tells plan v.number v.part (carried_of seat.old)) }
        ensures seat { IsSeatOf self.now seat.new }
        ensures steps { let plan = plan_of self.now in let v = view_of seat.old in
            Steps C.terms C.Object.opens C.Object.step plan (M.tells plan v.number v.part (carried_of seat.old)) (me_of seat.old) result (me_of seat.new) }
    {
        self.table
            .shared
            .fetch_add::<Step<C, M>>(&mut seat.seat, word, more)
    }

    /// Takes from a word, and gives the number that stood there.
    #[inline]
    pub fn fetch_sub<M: Kind<C>>(&self, seat: &mut SeatOf<C>, word: usize, fewer: u64) -> u64
        requires seat { IsSeatOf self.now seat.old }
        requires word { word < (table_of self.now).words }
        requires permits { let plan = plan_of self.now in let v = view_of seat.old in
            Permits C.terms C.Object.opens C.Object.step plan (table_of self.now).slots v.number v.rests v.part (carried_of seat.old) word (λ n. (n + (2 ^ 64 - fewer)) % 2 ^ 64)
            (M.tells plan v.number v.part (carried_of seat.old)) }
        ensures seat { IsSeatOf self.now seat.new }
        ensures steps { let plan = plan_of self.now in let v = view_of seat.old in
            Steps C.terms C.Object.opens C.Object.step plan (M.tells plan v.number v.part (carried_of seat.old)) (me_of seat.old) result (me_of seat.new) }
    {
        self.table
            .shared
            .fetch_sub::<Step<C, M>>(&mut seat.seat, word, fewer)
    }
}
