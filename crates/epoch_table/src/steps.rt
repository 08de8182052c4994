//! A step of the machine on one word of the table, of any kind.
ghost use Rattle.std.specs.Prelude.{◌≡◌};
ghost use Rattle.pass_table.specs.Passes.{IsSeatOf, plan_of, view_of, me_of};
ghost use Rattle.epoch_table.specs.Deeds.{deed};
ghost use Rattle.epoch_table.specs.Kinds.{LoadsAt, StoresAt, SwapsAt, ExchangesAt, MayMake, Makes};

use crate::clients::Client;
use crate::kinds::{Choice, Chosen};
use crate::words::{TableSeat, Words};
use epoch_laws::Kind;

impl<C: Client> Words<C> {
    // A load as a step of this kind. The kind tells the proof which it is.
    #[inline]
    pub(crate) fn load<W: Choice>(&self, seat: &mut TableSeat<C>, word: usize, kind: Kind) -> u64
        requires seat { IsSeatOf self.now.table seat.old }
        requires kind { W.kind ≡ kind }
        requires at { LoadsAt self.now.shape (deed (view_of seat.old).part.seat kind) word }
        requires may { MayMake C.terms (plan_of self.now.table) (view_of seat.old).number kind (view_of seat.old).part }
        ensures seat { IsSeatOf self.now.table seat.new }
        ensures makes { Makes C.terms C.Object.opens C.Object.step (plan_of self.now.table) kind (me_of seat.old) result (me_of seat.new) }
    {
        self.table.load::<Chosen<W>>(seat, word)
    }

    // A store, in the same way.
    #[inline]
    pub(crate) fn store<W: Choice>(
        &self,
        seat: &mut TableSeat<C>,
        word: usize,
        new: u64,
        kind: Kind,
    )
        requires seat { IsSeatOf self.now.table seat.old }
        requires kind { W.kind ≡ kind }
        requires at { StoresAt self.now.shape (deed (view_of seat.old).part.seat kind) word new }
        requires may { MayMake C.terms (plan_of self.now.table) (view_of seat.old).number kind (view_of seat.old).part }
        ensures seat { IsSeatOf self.now.table seat.new }
        ensures makes { Makes C.terms C.Object.opens C.Object.step (plan_of self.now.table) kind (me_of seat.old) new (me_of seat.new) }
    {
        self.table.store::<Chosen<W>>(seat, word, new);
    }

    // An exchange, in the same way.
    #[inline]
    pub(crate) fn swap<W: Choice>(
        &self,
        seat: &mut TableSeat<C>,
        word: usize,
        new: u64,
        kind: Kind,
    ) -> u64
        requires seat { IsSeatOf self.now.table seat.old }
        requires kind { W.kind ≡ kind }
        requires at { SwapsAt self.now.shape (deed (view_of seat.old).part.seat kind) word new }
        requires may { MayMake C.terms (plan_of self.now.table) (view_of seat.old).number kind (view_of seat.old).part }
        ensures seat { IsSeatOf self.now.table seat.new }
        ensures makes { Makes C.terms C.Object.opens C.Object.step (plan_of self.now.table) kind (me_of seat.old) result (me_of seat.new) }
    {
        self.table.swap::<Chosen<W>>(seat, word, new)
    }

    // An exchange where the word is this number, in the same way.
    #[inline]
    pub(crate) fn exchange<W: Choice>(
        &self,
        seat: &mut TableSeat<C>,
        word: usize,
        old: u64,
        new: u64,
        kind: Kind,
    ) -> u64
        requires seat { IsSeatOf self.now.table seat.old }
        requires kind { W.kind ≡ kind }
        requires at { ExchangesAt self.now.shape (deed (view_of seat.old).part.seat kind) word old new }
        requires may { MayMake C.terms (plan_of self.now.table) (view_of seat.old).number kind (view_of seat.old).part }
        ensures seat { IsSeatOf self.now.table seat.new }
        ensures makes { Makes C.terms C.Object.opens C.Object.step (plan_of self.now.table) kind (me_of seat.old) result (me_of seat.new) }
    {
        self.table
            .compare_exchange::<Chosen<W>>(seat, word, old, new)
    }
}
