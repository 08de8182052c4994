//! How a caller gets a token, pins it, and gives it up again.
ghost use Rattle.std.specs.Prelude.{◌≡◌, ◌<◌, [], ◌∷◌};
ghost use mathlib.Core.List.{IsPrefix};
ghost use Rattle.epoch_laws.specs.declared.tokens.Token.{Token};
ghost use Rattle.epoch_laws.specs.declared.events.EpochEvent.TheVariants.{Unregistered, Unpinned};
ghost use Rattle.epoch_laws.specs.Needs.{event};
ghost use Rattle.epoch_laws.specs.Seats.{Idle as IsIdle, Registered as IsRegistered};
ghost use Rattle.epoch_laws.specs.Timing.{IsToken};
ghost use Rattle.pass_table.specs.Passes.{IsSeatOf, view_of, me_of};
ghost use Rattle.epoch_table.specs.Layout.{token_place};
ghost use Rattle.epoch_manager.specs.Managers.{plan_of, opening_of, shape_of, callers_of, pass_opening, phase_of, caller_of, page, looked, owned_by, held_by, knows, IsSamePass, HasTheSame, change, ListsItems, ReadsWords};
ghost use Rattle.epoch_manager.specs.Tokens.{TakesToken, RegistersAs, registered_items, RegisterCause, Pins, PinsSeat};

use crate::faults::TokensFull;
use crate::managers::{Manager, Pass};
use crate::phases::Phase;
use epoch_laws::Token;
use epoch_table::{Client, TableSeat};

impl<C: Client> Manager<C> {
    // Tries the tokens of a locale by rising number, and takes the first that is nobody's.
    fn take_token(&self, seat: &mut TableSeat<C>, locale: u8) -> Option<u32>
        requires seat { IsSeatOf self.now.words.table seat.old }
        requires below { (view_of seat.old).number < callers_of self.now }
        requires idle { (view_of seat.old).part.seat.phase ≡ IsIdle }
        requires locale { locale < (shape_of self.now).locales }
        ensures seat { IsSeatOf self.now.words.table seat.new }
        ensures takes { TakesToken C.terms C.Object.opens C.Object.step (plan_of self.now) locale (me_of seat.old) (me_of seat.new) result }
    {
        for number in 0..self.shape.tokens {
            let found = self.words.register(seat, locale, number);
            let free = found == 0;
            if free {
                return Some(number);
            }
        }
        None
    }

    /// Gives the caller a token of the locale: the first, by rising number, that this call reads as nobody's. It is
    /// refused exactly where it reads each token of the locale as another's.
    pub fn register(&self, pass: &mut Pass<C>, locale: u8) -> Result<(), TokensFull>
        requires opening { pass_opening pass.old ≡ opening_of self.now }
        requires phase { phase_of pass.old ≡ Phase.Idle }
        requires locale { locale < (shape_of self.now).locales }
        ensures pass { IsSamePass pass.old pass.new }
        ensures same { HasTheSame pass.old pass.new }
        ensures phase { RegistersAs (shape_of self.now) locale (phase_of pass.new) result }
        ensures history { ListsItems C.terms C.Object.opens C.Object.step (plan_of self.now) (change pass.old pass.new) (registered_items (caller_of pass.old) (phase_of pass.new)) }
        ensures grows { IsPrefix (page pass.old).seen (page pass.new).seen }
        ensures cause { ReadsWords C.terms C.Object.opens C.Object.step (plan_of self.now) (change pass.old pass.new) (RegisterCause (shape_of self.now) locale (phase_of pass.new)) }
    {
        let taken = self.take_token(&mut pass.pass.seat, locale);
        let Some(number) = taken else {
            return Err(TokensFull {});
        };
        let token = Token { locale, number };
        pass.phase.now_registered(token);
        pass.place = self.words.place_of_token(token);
        Ok(())
    }

    /// Gives the caller's token up.
    pub fn unregister(&self, pass: &mut Pass<C>)
        requires opening { pass_opening pass.old ≡ opening_of self.now }
        requires phase { (token : Token) × (phase_of pass.old ≡ Phase.Registered token) }
        ensures pass { IsSamePass pass.old pass.new }
        ensures same { HasTheSame pass.old pass.new }
        ensures phase { phase_of pass.new ≡ Phase.Idle }
        ensures history { (token : Token) → phase_of pass.old ≡ Phase.Registered token → ListsItems C.terms C.Object.opens C.Object.step (plan_of self.now) (change pass.old pass.new) (event (caller_of pass.old) (Unregistered token)) }
        ensures grows { IsPrefix (page pass.old).seen (page pass.new).seen }
        ensures looked { looked pass.new ≡ looked pass.old }
    {
        let token = pass.phase.registered();
        self.words.unregister(&mut pass.pass.seat, token);
        pass.phase.now_idle();
    }

    // The two steps of a pin. It gives the epoch that is announced.
    #[inline]
    fn pin_seat(&self, seat: &mut TableSeat<C>, token: Token, place: usize) -> u64
        requires seat { IsSeatOf self.now.words.table seat.old }
        requires below { (view_of seat.old).number < callers_of self.now }
        requires registered { (view_of seat.old).part.seat.phase ≡ IsRegistered }
        requires token { (token ≡ (view_of seat.old).part.seat.token) × IsToken (shape_of self.now).locales (shape_of self.now).tokens token }
        requires place { place ≡ token_place (shape_of self.now) token }
        ensures seat { IsSeatOf self.now.words.table seat.new }
        ensures pins { PinsSeat C.terms C.Object.opens C.Object.step (plan_of self.now) token (me_of seat.old) result (me_of seat.new) }
    {
        let epoch = self.words.pin_look(seat, token.locale);
        self.words.pin_set(seat, place, epoch);
        epoch
    }

    /// Pins the caller's token: it announces the epoch that it reads as its locale's, with no second look. What is
    /// deferred from then on is released only after the caller has unpinned.
    pub fn pin(&self, pass: &mut Pass<C>)
        requires opening { pass_opening pass.old ≡ opening_of self.now }
        requires phase { (token : Token) × (phase_of pass.old ≡ Phase.Registered token) }
        ensures pass { IsSamePass pass.old pass.new }
        ensures same { HasTheSame pass.old pass.new }
        ensures none_held { held_by pass.new ≡ [] }
        ensures phase { (token : Token) → phase_of pass.old ≡ Phase.Registered token → phase_of pass.new ≡ Phase.Pinned token }
        ensures history { (token : Token) → phase_of pass.old ≡ Phase.Registered token → Pins C.terms C.Object.opens C.Object.step (plan_of self.now) (change pass.old pass.new) token }
        ensures grows { IsPrefix (page pass.old).seen (page pass.new).seen }
    {
        let token = pass.phase.registered();
        self.pin_seat(&mut pass.pass.seat, token, pass.place);
        pass.phase.now_pinned();
    }

    /// Unpins the caller's token. All holds end.
    pub fn unpin(&self, pass: &mut Pass<C>)
        requires opening { pass_opening pass.old ≡ opening_of self.now }
        requires phase { (token : Token) × (phase_of pass.old ≡ Phase.Pinned token) }
        ensures pass { IsSamePass pass.old pass.new }
        ensures owned { owned_by pass.new ≡ owned_by pass.old }
        ensures held { held_by pass.new ≡ [] }
        ensures knows { knows pass.new ≡ C.terms.unpinned (knows pass.old) }
        ensures phase { (token : Token) → phase_of pass.old ≡ Phase.Pinned token → phase_of pass.new ≡ Phase.Registered token }
        ensures history { (token : Token) → phase_of pass.old ≡ Phase.Pinned token → ListsItems C.terms C.Object.opens C.Object.step (plan_of self.now) (change pass.old pass.new) (event (caller_of pass.old) (Unpinned token)) }
        ensures grows { IsPrefix (page pass.old).seen (page pass.new).seen }
        ensures looked { looked pass.new ≡ looked pass.old }
    {
        self.words.unpin(&mut pass.pass.seat, pass.place);
        pass.held.clear();
        pass.phase.now_unpinned();
    }
}
