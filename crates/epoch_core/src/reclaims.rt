ghost use Rattle.std.specs.Prelude.{◌≡◌, ◌<◌, ◌≤◌, length, OnOk};
ghost use Rattle.epoch_laws.specs.States.{IsPlace, State};
ghost use Rattle.epoch_core.specs.Answers.{Checks, Makes, Tells};
ghost use Rattle.epoch_core.specs.Shown.{IsShowing};
ghost use Rattle.std.specs.Prelude.{[], ◌∷◌, ◌+◌, ◌^◌, ltb, if◌then◌else◌};
ghost use Rattle.epoch_laws.specs.Needs.{inside, reclaims};
ghost use Rattle.epoch_laws.specs.ReclaimSteps.{last_epoch, advance, elect_global, elect_local, epoch_look, passes, scan_token, spread, token_after};
ghost use Rattle.epoch_laws.specs.Seats.{Advanced, DeferLooked, DeferSwapped, Scanning, Stopped};
ghost use Rattle.epoch_core.specs.Phases.{phase_of};

use crate::machine::Machine;
use crate::seats::{Phase, Reclaim};
use epoch_laws::{Illegal, Seen, Token};

/// The epoch from which no advance is made.
const LAST_EPOCH: u64 = 1 << 62;

impl Machine {
    pub(crate) fn in_reclaim_phase(&self, seat: u32, phase: Phase) -> Result<(), Illegal>
        requires { seat < length self.now.seats.items }
        ensures { (s : State) → IsShowing self.now s → Checks (reclaims s seat ((s.seat seat).phase ≡ phase_of phase)) result }
    {
        let met = self.seats[seat as usize].phase.is(phase);
        self.reclaims(seat, met)
    }

    /// Needs of a step of a reclaim of a seat in this phase.
    pub(crate) fn reclaims_in(&self, seat: u32, phase: Phase) -> Result<(), Illegal>
        ensures tells { (s : State) → IsShowing self.now s →
            Tells (inside seat s.seats ∷ reclaims s seat ((s.seat seat).phase ≡ phase_of phase) ∷ []) result }
        ensures ok { OnOk result (seat < length self.now.seats.items) }
    {
        self.seat_inside(seat)?;
        self.in_reclaim_phase(seat, phase)?;
        Ok(())
    }

    #[tactic(auto, unfolding(epoch_laws::specs::ReclaimSteps::elect_local))]
    pub(crate) fn elect_local(&mut self, seat: u32) -> Result<Seen, Illegal>
        ensures { (s : State) → IsShowing self.old s → Makes s (elect_local s seat) self.new result }
    {
        self.reclaims_in(seat, Phase::Registered)?;
        let locale = self.seats[seat as usize].token.locale;
        let word = self.election_of(locale);
        if word != 0 {
            return Ok(Seen::Lost { word });
        }
        self.put_election_of(locale, 1);
        self.seats[seat as usize].phase = Phase::WonLocal;
        Ok(Seen::Won)
    }

    #[tactic(auto, unfolding(epoch_laws::specs::ReclaimSteps::elect_global))]
    pub(crate) fn elect_global(&mut self, seat: u32) -> Result<Seen, Illegal>
        ensures { (s : State) → IsShowing self.old s → Makes s (elect_global s seat) self.new result }
    {
        self.reclaims_in(seat, Phase::WonLocal)?;
        let word = self.election;
        let own = &mut self.seats[seat as usize];
        if word != 0 {
            own.phase = Phase::LostGlobal;
            return Ok(Seen::Lost { word });
        }
        own.phase = Phase::WonGlobal;
        self.election = 1;
        Ok(Seen::Won)
    }

    #[tactic(auto, unfolding(epoch_laws::specs::ReclaimSteps::epoch_look))]
    pub(crate) fn epoch_look(&mut self, seat: u32) -> Result<Seen, Illegal>
        ensures { (s : State) → IsShowing self.old s → Makes s (epoch_look s seat) self.new result }
    {
        self.reclaims_in(seat, Phase::WonGlobal)?;
        let word = self.epoch;
        let own = &mut self.seats[seat as usize];
        own.phase = phase_at(word);
        own.reclaim.epoch = word;
        own.reclaim.scan = Token {
            locale: 0,
            number: 0,
        };
        Ok(Seen::Word { word })
    }

    #[tactic(auto, unfolding(epoch_laws::specs::ReclaimSteps::scan_token))]
    fn scan_needs(&self, seat: u32) -> Result<(), Illegal>
        ensures tells { (s : State) → IsShowing self.now s → Tells ((scan_token s seat).needs) result }
        ensures ok { OnOk result (seat < length self.now.seats.items) }
    {
        self.seat_inside(seat)?;
        let met = self.seats[seat as usize].may_scan(self.shape.locales);
        self.reclaims(seat, met)?;
        Ok(())
    }

    #[tactic(auto, unfolding(epoch_laws::specs::ReclaimSteps::scan_token))]
    pub(crate) fn scan_token(&mut self, seat: u32) -> Result<Seen, Illegal>
        ensures { (s : State) → IsShowing self.old s → Makes s (scan_token s seat) self.new result }
    {
        self.scan_needs(seat)?;
        let reclaim = self.seats[seat as usize].reclaim;
        let word = self.word_of_token(reclaim.scan);
        let after = token_behind(self.shape.tokens, reclaim.scan);
        let own = &mut self.seats[seat as usize];
        if lets_pass(reclaim.epoch, word) {
            own.reclaim.scan = after;
        } else {
            own.phase = Phase::Stopped;
        }
        Ok(Seen::Word { word })
    }

    #[tactic(auto, unfolding(epoch_laws::specs::ReclaimSteps::advance))]
    fn advance_needs(&self, seat: u32) -> Result<(), Illegal>
        ensures tells { (s : State) → IsShowing self.now s → Tells ((advance s seat).needs) result }
        ensures ok { OnOk result (seat < length self.now.seats.items) }
    {
        self.seat_inside(seat)?;
        let met = self.seats[seat as usize].has_scanned(self.shape.locales);
        self.reclaims(seat, met)?;
        Ok(())
    }

    #[tactic(auto, unfolding(epoch_laws::specs::ReclaimSteps::advance))]
    pub(crate) fn advance(&mut self, seat: u32) -> Result<Seen, Illegal>
        ensures { (s : State) → IsShowing self.old s → Makes s (advance s seat) self.new result }
    {
        self.advance_needs(seat)?;
        let own = &mut self.seats[seat as usize];
        own.phase = Phase::Advanced;
        own.reclaim.spread = 0;
        own.reclaim.collected = 0;
        own.reclaim.chain = 0;
        self.epoch = raised(own.reclaim.epoch, 1);
        Ok(Seen::Nothing)
    }

    #[tactic(auto, unfolding(epoch_laws::specs::ReclaimSteps::spread))]
    fn spread_needs(&self, seat: u32) -> Result<(), Illegal>
        ensures tells { (s : State) → IsShowing self.now s → Tells ((spread s seat).needs) result }
        ensures ok { OnOk result (seat < length self.now.seats.items) }
    {
        self.seat_inside(seat)?;
        let met = self.seats[seat as usize].may_spread(self.shape.locales);
        self.reclaims(seat, met)?;
        Ok(())
    }

    #[tactic(auto, unfolding(epoch_laws::specs::ReclaimSteps::spread))]
    pub(crate) fn spread(&mut self, seat: u32) -> Result<Seen, Illegal>
        ensures { (s : State) → IsShowing self.old s → Makes s (spread s seat) self.new result }
    {
        self.spread_needs(seat)?;
        let reclaim = self.seats[seat as usize].reclaim;
        let epoch = raised(reclaim.epoch, 1);
        self.put_epoch_of(reclaim.spread, epoch);
        let own = &mut self.seats[seat as usize];
        own.reclaim.spread = own.reclaim.spread.saturating_add(1);
        Ok(Seen::Nothing)
    }
}

/// Where a reclaim that read this epoch stands.
fn phase_at(epoch: u64) -> Phase
    ensures phase { phase_of result ≡ (if ltb epoch last_epoch then Scanning else Stopped) }
    ensures low { phase_of result ≡ Scanning → epoch < 2 ^ 62 }
    ensures no_deferral { (phase_of result ≡ DeferLooked → ⊥) × (phase_of result ≡ DeferSwapped → ⊥) × (phase_of result ≡ Advanced → ⊥) }
{
    if epoch < LAST_EPOCH {
        Phase::Scanning
    } else {
        Phase::Stopped
    }
}

/// An epoch so many later. Epochs end long before the numbers do.
pub(crate) fn raised(epoch: u64, by: u64) -> u64
    ensures { epoch ≤ 2 ^ 62 → by ≤ 2 → result ≡ epoch + by }
{
    epoch.wrapping_add(by)
}

/// Whether the word doesn't stop the scan of a reclaim that read this epoch.
fn lets_pass(epoch: u64, word: u64) -> bool
    ensures { epoch ≤ 2 ^ 62 → result ≡ passes epoch word }
{
    word == 0 || word == 1 || word == raised(epoch, 2)
}

/// The token after this one, by rising locale and then rising number.
fn token_behind(tokens: u32, token: Token) -> Token
    ensures { token.number < tokens → token.locale < 255 → result ≡ token_after tokens token }
{
    let number = token.number.saturating_add(1);
    if number < tokens {
        Token {
            locale: token.locale,
            number,
        }
    } else {
        Token {
            locale: token.locale.saturating_add(1),
            number: 0,
        }
    }
}
