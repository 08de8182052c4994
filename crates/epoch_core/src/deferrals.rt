ghost use Rattle.std.specs.Prelude.{◌≡◌, ◌<◌, length, OnOk};
ghost use Rattle.epoch_laws.specs.States.{IsPlace, State};
ghost use Rattle.epoch_core.specs.Answers.{Checks, Makes, Tells};
ghost use Rattle.epoch_core.specs.Shown.{IsShowing};
ghost use Rattle.epoch_laws.specs.DeferralSteps.{defer_link, defer_look, defer_swap};

use crate::machine::Machine;
use crate::objects::{object_named, object_of, word_named};
use crate::seats::{Deferral, Phase};
use epoch_laws::{Illegal, Seen};
use pgas_base::Ptr;

impl Machine {
    #[tactic(auto, unfolding(epoch_laws::specs::DeferralSteps::defer_look))]
    pub(crate) fn defer_look(&mut self, seat: u32, ptr: Ptr) -> Result<Seen, Illegal>
        ensures { (s : State) → IsShowing self.old s → Makes s (defer_look s seat ptr) self.new result }
    {
        self.reader_needs(seat, ptr)?;
        let tag = self.epoch_of(self.seats[seat as usize].token.locale);
        let at = object_of(ptr);
        self.put_tag(at, Some(tag));
        let own = &mut self.seats[seat as usize];
        own.phase = Phase::DeferLooked;
        own.deferral = Deferral {
            pointer: Some(ptr),
            tag,
            old: 0,
        };
        Ok(Seen::Word { word: tag })
    }

    #[tactic(auto, unfolding(epoch_laws::specs::DeferralSteps::defer_swap))]
    pub(crate) fn defer_swap(&mut self, seat: u32) -> Result<Seen, Illegal>
        ensures { (s : State) → IsShowing self.old s → Makes s (defer_swap s seat) self.new result }
    {
        self.stands_in(seat, Phase::DeferLooked)?;
        let own = &self.seats[seat as usize];
        let locale = own.token.locale;
        let deferral = own.deferral;
        let word = self.list_head(locale, deferral.tag);
        let pointer = word_named(deferral.pointer);
        self.put_list_head(locale, deferral.tag, pointer);
        let own = &mut self.seats[seat as usize];
        own.phase = Phase::DeferSwapped;
        own.deferral.old = word;
        Ok(Seen::Word { word })
    }

    #[tactic(auto, unfolding(epoch_laws::specs::DeferralSteps::defer_link))]
    pub(crate) fn defer_link(&mut self, seat: u32) -> Result<Seen, Illegal>
        ensures { (s : State) → IsShowing self.old s → Makes s (defer_link s seat) self.new result }
    {
        self.stands_in(seat, Phase::DeferSwapped)?;
        let deferral = self.seats[seat as usize].deferral;
        let at = object_named(deferral.pointer);
        self.put_next(at, deferral.old);
        self.seats[seat as usize].phase = Phase::Pinned;
        Ok(Seen::Nothing)
    }
}
