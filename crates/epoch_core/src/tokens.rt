ghost use Rattle.epoch_laws.specs.States.{State};
ghost use Rattle.epoch_laws.specs.TokenSteps.{pin_look, pin_set, register, unpin, unregister};
ghost use Rattle.epoch_core.specs.Answers.{Makes, Tells};
ghost use Rattle.epoch_core.specs.Shown.{IsShowing};
ghost use Rattle.epoch_core.specs.Tables.{IsToken};
ghost use Rattle.std.specs.Prelude.{◌≡◌, ◌<◌, ◌+◌, length, OnOk};

use crate::machine::Machine;
use crate::seats::Phase;
use epoch_laws::{Illegal, Seen, Token};

impl Machine {
    #[tactic(auto, unfolding(epoch_laws::specs::TokenSteps::register))]
    fn register_needs(&self, seat: u32, token: Token) -> Result<(), Illegal>
        ensures tells { (s : State) → IsShowing self.now s → Tells ((register s seat token).needs) result }
        ensures ok { OnOk result (seat < length self.now.seats.items) }
        ensures token { OnOk result (IsToken self.now.shape token) }
    {
        self.seat_inside(seat)?;
        self.locale_inside(token.locale)?;
        self.number_inside(token.number)?;
        self.in_phase(seat, Phase::Idle)?;
        Ok(())
    }

    #[tactic(auto, unfolding(epoch_laws::specs::TokenSteps::register))]
    pub(crate) fn register(&mut self, seat: u32, token: Token) -> Result<Seen, Illegal>
        ensures { (s : State) → IsShowing self.old s → Makes s (register s seat token) self.new result }
    {
        self.register_needs(seat, token)?;
        let word = self.word_of_token(token);
        if word != 0 {
            return Ok(Seen::Lost { word });
        }
        self.put_token(token, 1);
        let own = &mut self.seats[seat as usize];
        own.phase = Phase::Registered;
        own.token = token;
        Ok(Seen::Won)
    }

    #[tactic(auto, unfolding(epoch_laws::specs::TokenSteps::unregister))]
    pub(crate) fn unregister(&mut self, seat: u32) -> Result<Seen, Illegal>
        ensures { (s : State) → IsShowing self.old s → Makes s (unregister s seat) self.new result }
    {
        self.stands_in(seat, Phase::Registered)?;
        let token = self.seats[seat as usize].token;
        self.put_token(token, 0);
        self.seats[seat as usize].phase = Phase::Idle;
        Ok(Seen::Nothing)
    }

    #[tactic(auto, unfolding(epoch_laws::specs::TokenSteps::pin_look))]
    pub(crate) fn pin_look(&mut self, seat: u32) -> Result<Seen, Illegal>
        ensures { (s : State) → IsShowing self.old s → Makes s (pin_look s seat) self.new result }
    {
        self.stands_in(seat, Phase::Registered)?;
        let word = self.epoch_of(self.seats[seat as usize].token.locale);
        let own = &mut self.seats[seat as usize];
        own.phase = Phase::PinLooked;
        own.announced = word;
        Ok(Seen::Word { word })
    }

    /// The word of a token pinned at the epoch that the seat's last PinLook read.
    fn pin_word(&self, seat: u32) -> u64
        requires { seat < length self.now.seats.items }
        ensures { (s : State) → IsShowing self.now s → result ≡ (s.seat seat).announced + 2 }
    {
        self.seats[seat as usize].announced.wrapping_add(2)
    }

    #[tactic(auto, unfolding(epoch_laws::specs::TokenSteps::pin_set))]
    pub(crate) fn pin_set(&mut self, seat: u32) -> Result<Seen, Illegal>
        ensures { (s : State) → IsShowing self.old s → Makes s (pin_set s seat) self.new result }
    {
        self.stands_in(seat, Phase::PinLooked)?;
        let token = self.seats[seat as usize].token;
        let word = self.pin_word(seat);
        self.put_token(token, word);
        self.seats[seat as usize].phase = Phase::Pinned;
        Ok(Seen::Nothing)
    }

    #[tactic(auto, unfolding(epoch_laws::specs::TokenSteps::unpin))]
    pub(crate) fn unpin(&mut self, seat: u32) -> Result<Seen, Illegal>
        ensures { (s : State) → IsShowing self.old s → Makes s (unpin s seat) self.new result }
    {
        self.stands_in(seat, Phase::Pinned)?;
        let token = self.seats[seat as usize].token;
        self.put_token(token, 1);
        let own = &mut self.seats[seat as usize];
        own.phase = Phase::Registered;
        own.held.clear();
        Ok(Seen::Nothing)
    }
}
