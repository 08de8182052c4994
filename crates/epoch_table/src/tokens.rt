//! The steps on tokens.
ghost use Rattle.std.specs.Prelude.{◌≡◌, ◌+◌, ◌<◌, ◌≤◌};
ghost use Rattle.epoch_laws.specs.ReclaimSteps.{last_epoch};
ghost use Rattle.epoch_laws.specs.Timing.{IsToken};
ghost use Rattle.pass_table.specs.Passes.{IsSeatOf, plan_of, view_of, me_of};
ghost use Rattle.epoch_table.specs.Kinds.{MayMake, Makes};
ghost use Rattle.epoch_table.specs.Layout.{token_place};

use crate::clients::Client;
use crate::layout::epoch_at;
use crate::words::{TableSeat, Words};
use epoch_laws::{Kind, Token};
use std::marker::Brand;

impl<C: Client> Words<C> {
    /// Where the word of a token stands, which `pin_set` and `unpin` want to be told.
    #[inline]
    pub fn place_of_token(&self, token: Token) -> usize
        requires { IsToken self.now.shape.locales self.now.shape.tokens token }
        ensures { result ≡ token_place self.now.shape token }
    {
        self.shape.token_at(token)
    }

    /// Compares and exchanges a token, 0 to 1.
    #[inline]
    pub fn register(&self, seat: &mut TableSeat<C>, locale: u8, token: u32) -> u64
        requires seat { IsSeatOf self.now.table seat.old }
        requires token { IsToken self.now.shape.locales self.now.shape.tokens record { locale = locale; number = token } }
        requires may { MayMake C.terms (plan_of self.now.table) (view_of seat.old).number (Kind.Register locale token) (view_of seat.old).part }
        ensures seat { IsSeatOf self.now.table seat.new }
        ensures makes { Makes C.terms C.Object.opens C.Object.step (plan_of self.now.table) (Kind.Register locale token) (me_of seat.old) result (me_of seat.new) }
    {
        let at = self.shape.token_at(Token {
            locale,
            number: token,
        });
        self.exchange::<Brand>(seat, at, 0, 1, Kind::Register { locale, token })
    }

    /// Stores 0 in the seat's token.
    #[inline]
    pub fn unregister(&self, seat: &mut TableSeat<C>, token: Token)
        requires seat { IsSeatOf self.now.table seat.old }
        requires token { (token ≡ (view_of seat.old).part.seat.token) × IsToken self.now.shape.locales self.now.shape.tokens token }
        requires may { MayMake C.terms (plan_of self.now.table) (view_of seat.old).number Kind.Unregister (view_of seat.old).part }
        ensures seat { IsSeatOf self.now.table seat.new }
        ensures makes { Makes C.terms C.Object.opens C.Object.step (plan_of self.now.table) Kind.Unregister (me_of seat.old) 0 (me_of seat.new) }
    {
        self.store::<Brand>(seat, self.shape.token_at(token), 0, Kind::Unregister);
    }

    /// Loads the epoch of the seat's locale.
    #[inline]
    pub fn pin_look(&self, seat: &mut TableSeat<C>, locale: u8) -> u64
        requires seat { IsSeatOf self.now.table seat.old }
        requires locale { (locale ≡ (view_of seat.old).part.seat.token.locale) × (locale < self.now.shape.locales) }
        requires may { MayMake C.terms (plan_of self.now.table) (view_of seat.old).number Kind.PinLook (view_of seat.old).part }
        ensures seat { IsSeatOf self.now.table seat.new }
        ensures makes { Makes C.terms C.Object.opens C.Object.step (plan_of self.now.table) Kind.PinLook (me_of seat.old) result (me_of seat.new) }
    {
        self.load::<Brand>(seat, epoch_at(locale), Kind::PinLook)
    }

    /// Stores two more than the epoch that was read in the seat's token, which stands there.
    #[inline]
    pub fn pin_set(&self, seat: &mut TableSeat<C>, at: usize, epoch: u64)
        requires seat { IsSeatOf self.now.table seat.old }
        requires token { IsToken self.now.shape.locales self.now.shape.tokens (view_of seat.old).part.seat.token }
        requires at { at ≡ token_place self.now.shape (view_of seat.old).part.seat.token }
        requires epoch { (epoch ≡ (view_of seat.old).part.seat.announced) × (epoch ≤ last_epoch) }
        requires may { MayMake C.terms (plan_of self.now.table) (view_of seat.old).number Kind.PinSet (view_of seat.old).part }
        ensures seat { IsSeatOf self.now.table seat.new }
        ensures makes { Makes C.terms C.Object.opens C.Object.step (plan_of self.now.table) Kind.PinSet (me_of seat.old) (epoch + 2) (me_of seat.new) }
    {
        self.store::<Brand>(seat, at, epoch + 2, Kind::PinSet);
    }

    /// Stores 1 in the seat's token, which stands there. All holds end.
    #[inline]
    pub fn unpin(&self, seat: &mut TableSeat<C>, at: usize)
        requires seat { IsSeatOf self.now.table seat.old }
        requires token { IsToken self.now.shape.locales self.now.shape.tokens (view_of seat.old).part.seat.token }
        requires at { at ≡ token_place self.now.shape (view_of seat.old).part.seat.token }
        requires may { MayMake C.terms (plan_of self.now.table) (view_of seat.old).number Kind.Unpin (view_of seat.old).part }
        ensures seat { IsSeatOf self.now.table seat.new }
        ensures makes { Makes C.terms C.Object.opens C.Object.step (plan_of self.now.table) Kind.Unpin (me_of seat.old) 1 (me_of seat.new) }
    {
        self.store::<Brand>(seat, at, 1, Kind::Unpin);
    }
}
