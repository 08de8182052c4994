//! How the epoch is advanced, and what may be released is released.
ghost use Rattle.std.specs.Prelude.{◌≡◌, ◌+◌, ◌*◌, ◌<◌, []};
ghost use mathlib.Core.List.{IsPrefix};
ghost use Rattle.epoch_laws.specs.declared.tokens.Token.{Token};
ghost use Rattle.epoch_laws.specs.ReclaimSteps.{last_epoch, passes};
ghost use Rattle.epoch_laws.specs.Seats.{Registered as IsRegistered, WonLocal, WonGlobal};
ghost use Rattle.pass_table.specs.Passes.{IsSeatOf, view_of, me_of};
ghost use Rattle.epoch_manager.specs.Managers.{plan_of, opening_of, shape_of, callers_of, pass_opening, phase_of, page, owned_by, held_by, knows, IsSamePass, change, ReadsWords};
ghost use Rattle.epoch_manager.specs.ReclaimCalls.{ReclaimCause, ListsReclaim};
ghost use Rattle.epoch_manager.specs.TakeSeats.{places};
ghost use Rattle.epoch_manager.specs.Reclaiming.{IsScanning, HasScanned, AdvancesTo, Scans, LooksAndScans, EntersGlobally, EntersReclaim};

use crate::faults::NotNow;
use crate::managers::{Manager, Pass};
use crate::phases::Phase;
use epoch_laws::Token;
use epoch_table::{Client, TableSeat};

// The last epoch, from which no advance is made.
const LAST_EPOCH: u64 = 1 << 62;

/// What a reclaim has done.
#[derive(Debug, Drop, Clone, Copy, PartialEq, Eq)]
pub struct Advanced {
    /// The new epoch, one more than the one before.
    pub epoch: u64,
    /// How many objects were freed.
    pub freed: u32,
}

// A token that stops a scan, and its word.
struct Stop {
    token: Token,
    word: u64,
}

// The word doesn't stop a reclaim of this epoch.
fn lets_pass(epoch: u64, word: u64) -> bool
    requires { epoch < last_epoch }
    ensures { result ≡ passes epoch word }
{
    word == 0 || word == 1 || word == epoch + 2
}

impl<C: Client> Manager<C> {
    // How many tokens all locales have.
    fn many_tokens(&self) -> u32
        ensures { result ≡ (shape_of self.now).locales * (shape_of self.now).tokens }
    {
        u32::from(self.shape.locales) * self.shape.tokens
    }

    // Loads the word of each token, by rising locale and then rising number, up to the first that stops a reclaim of this epoch.
    fn scan_tokens(&self, seat: &mut TableSeat<C>, epoch: u64) -> Option<Stop>
        requires seat { IsSeatOf self.now.words.table seat.old }
        requires below { (view_of seat.old).number < callers_of self.now }
        requires epoch { epoch < last_epoch }
        requires scanning { IsScanning (shape_of self.now).tokens epoch (view_of seat.old).part }
        ensures seat { IsSeatOf self.now.words.table seat.new }
        ensures scans { Scans C.terms C.Object.opens C.Object.step (plan_of self.now) epoch (me_of seat.old) (me_of seat.new) result }
    {
        for number in 0..self.many_tokens() {
            let token = Token {
                locale: (number / self.shape.tokens) as u8,
                number: number % self.shape.tokens,
            };
            let word = self.words.scan_token(seat, token);
            let passes = lets_pass(epoch, word);
            if !passes {
                return Some(Stop { token, word });
            }
        }
        None
    }

    // Loads the global epoch and scans the tokens.
    fn look_and_scan(&self, seat: &mut TableSeat<C>) -> Result<u64, NotNow>
        requires seat { IsSeatOf self.now.words.table seat.old }
        requires below { (view_of seat.old).number < callers_of self.now }
        requires won { (view_of seat.old).part.seat.phase ≡ WonGlobal }
        ensures seat { IsSeatOf self.now.words.table seat.new }
        ensures looks { LooksAndScans C.terms C.Object.opens C.Object.step (plan_of self.now) (me_of seat.old) (me_of seat.new) result }
    {
        let epoch = self.words.epoch_look(seat);
        let last = epoch == LAST_EPOCH;
        if last {
            return Err(NotNow::EpochsSpent);
        }
        let stop = self.scan_tokens(seat, epoch);
        match stop {
            None => Ok(epoch),
            Some(Stop { token, word }) => Err(NotNow::Held {
                locale: token.locale,
                token: token.number,
                word,
            }),
        }
    }

    // Elects globally, looks and scans. Where that is refused it leaves the election again.
    fn enter_globally(&self, seat: &mut TableSeat<C>) -> Result<u64, NotNow>
        requires seat { IsSeatOf self.now.words.table seat.old }
        requires below { (view_of seat.old).number < callers_of self.now }
        requires won { (view_of seat.old).part.seat.phase ≡ WonLocal }
        requires hand { (view_of seat.old).part.seat.hand ≡ [] }
        ensures seat { IsSeatOf self.now.words.table seat.new }
        ensures enters { EntersGlobally C.terms C.Object.opens C.Object.step (plan_of self.now) (me_of seat.old) (me_of seat.new) result }
    {
        let found = self.words.elect_global(seat);
        let free = found == 0;
        if !free {
            return Err(NotNow::GlobalBusy);
        }
        let looked = self.look_and_scan(seat);
        match looked {
            Ok(epoch) => Ok(epoch),
            Err(fault) => {
                self.words.leave_global(seat);
                Err(fault)
            }
        }
    }

    // Elects in the seat's locale and globally, looks and scans. Where that is refused it leaves what it has won.
    pub(crate) fn enter(&self, seat: &mut TableSeat<C>, locale: u8) -> Result<u64, NotNow>
        requires seat { IsSeatOf self.now.words.table seat.old }
        requires below { (view_of seat.old).number < callers_of self.now }
        requires registered { (view_of seat.old).part.seat.phase ≡ IsRegistered }
        requires locale { (locale ≡ (view_of seat.old).part.seat.token.locale) × (locale < (shape_of self.now).locales) }
        requires hand { (view_of seat.old).part.seat.hand ≡ [] }
        requires allowed { C.terms.may_reclaim (view_of seat.old).part.client (view_of seat.old).part.seat.owned }
        ensures seat { IsSeatOf self.now.words.table seat.new }
        ensures enters { EntersReclaim C.terms C.Object.opens C.Object.step (plan_of self.now) (me_of seat.old) (me_of seat.new) result }
    {
        let found = self.words.elect_local(seat, locale);
        let free = found == 0;
        if !free {
            return Err(NotNow::LocalBusy);
        }
        let entered = self.enter_globally(seat);
        match entered {
            Ok(epoch) => Ok(epoch),
            Err(fault) => {
                self.words.leave_local(seat, locale);
                Err(fault)
            }
        }
    }

    // Advances the epoch, and spreads it to all locales.
    pub(crate) fn advance_all(&self, seat: &mut TableSeat<C>, epoch: u64)
        requires seat { IsSeatOf self.now.words.table seat.old }
        requires below { (view_of seat.old).number < callers_of self.now }
        requires epoch { epoch < last_epoch }
        requires scanned { HasScanned (shape_of self.now).locales epoch (view_of seat.old).part }
        ensures seat { IsSeatOf self.now.words.table seat.new }
        ensures advances { AdvancesTo C.terms C.Object.opens C.Object.step (plan_of self.now) (epoch + 1) (shape_of self.now).locales (me_of seat.old) (me_of seat.new) }
    {
        self.words.advance(seat, epoch);
        for locale in 0..self.shape.locales {
            self.words.spread(seat, locale, epoch);
        }
    }

    /// Advances the epoch where no token is pinned with an older one, and frees what was deferred in the locales long
    /// enough ago. A freed object has one count more and goes home to its locale, but one that has had its last count is
    /// worn. Who advances has won two elections, that of its locale and the global one, which keep others out of the
    /// whole reclaim (epochs as in Fraser 2004). A refused reclaim changes nothing, and leaves what it had won.
    pub fn try_reclaim(&self, pass: &mut Pass<C>) -> Result<Advanced, NotNow>
        requires opening { pass_opening pass.old ≡ opening_of self.now }
        requires phase { (token : Token) × (phase_of pass.old ≡ Phase.Registered token) }
        requires allowed { C.terms.may_reclaim (knows pass.old) (places (owned_by pass.old)) }
        ensures pass { IsSamePass pass.old pass.new }
        ensures phase { phase_of pass.new ≡ phase_of pass.old }
        ensures owned { owned_by pass.new ≡ owned_by pass.old }
        ensures held { held_by pass.new ≡ held_by pass.old }
        ensures history { ListsReclaim C.terms C.Object.opens C.Object.step (plan_of self.now) (change pass.old pass.new) (knows pass.old) (knows pass.new) result }
        ensures grows { IsPrefix (page pass.old).seen (page pass.new).seen }
        ensures read { (token : Token) → phase_of pass.old ≡ Phase.Registered token → ReadsWords C.terms C.Object.opens C.Object.step (plan_of self.now) (change pass.old pass.new) (ReclaimCause (shape_of self.now) token.locale result) }
    {
        let token = pass.phase.registered();
        self.reclaim_seat(&mut pass.pass.seat, token.locale)
    }
}
