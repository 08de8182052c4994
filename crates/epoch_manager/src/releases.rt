//! What a reclaim releases, list by list, and how it goes home.
ghost use Rattle.std.specs.Prelude.{◌≡◌, ◌<◌, ◌*◌, [], None};
ghost use Rattle.pgas_base.specs.Pointers.{IsPointer, word_of};
ghost use Rattle.epoch_laws.specs.Places.{place_of};
ghost use Rattle.epoch_laws.specs.ReclaimSteps.{last_epoch, IsDone};
ghost use Rattle.epoch_laws.specs.Seats.{Advanced as HasAdvanced, Registered as IsRegistered};
ghost use Rattle.epoch_laws.specs.States.{IsPlace};
ghost use Rattle.pass_table.specs.Passes.{IsSeatOf, view_of, me_of};
ghost use Rattle.epoch_manager.specs.Managers.{plan_of, shape_of, callers_of};
ghost use Rattle.epoch_manager.specs.Gathering.{Gathers, HasFree, GathersOn, no_chains};
ghost use Rattle.epoch_manager.specs.HomeChains.{chain_of, AreBut};
ghost use Rattle.epoch_manager.specs.Reclaiming.{HasScanned};
ghost use Rattle.epoch_manager.specs.Releasing.{IsWalking, IsReleasing, HasFreed, ReleasesOne, ReleasesList, ReleasesAll, LeavesBoth, Reclaims};

use crate::faults::NotNow;
use crate::homes::Homes;
use crate::links::linked;
use crate::managers::Manager;
use crate::reclaims::Advanced;
use epoch_table::{Client, TableSeat};
use pgas_base::{MOST_LOCALES, Ptr};

impl<C: Client> Manager<C> {
    // Links an object that was freed to those of its home. Where they are as many as go home together, they do.
    fn gather(&self, seat: &mut TableSeat<C>, homes: &mut Homes, ptr: Ptr)
        requires seat { IsSeatOf self.now.words.table seat.old }
        requires below { (view_of seat.old).number < callers_of self.now }
        requires free { HasFree (shape_of self.now) (view_of seat.old).part ptr (chain_of homes.old.chains) }
        ensures seat { IsSeatOf self.now.words.table seat.new }
        ensures gathers { GathersOn C.terms C.Object.opens C.Object.step (plan_of self.now) (chain_of homes.new.chains) (me_of seat.old) (me_of seat.new) }
    {
        let below = homes.below(ptr.locale());
        self.words.hand_link(seat, ptr, below);
        let full = homes.join(ptr);
        if let Some(chain) = full {
            self.chain_home(seat, chain.top, chain.tail);
        }
    }

    // Hands home what was freed of a locale.
    fn hand_over(&self, seat: &mut TableSeat<C>, homes: &mut Homes, locale: u8)
        requires seat { IsSeatOf self.now.words.table seat.old }
        requires below { (view_of seat.old).number < callers_of self.now }
        requires locale { locale < 16 }
        requires gathers { Gathers (shape_of self.now) (view_of seat.old).part.seat.hand (view_of seat.old).part.facts (chain_of homes.old.chains) }
        requires tail { (view_of seat.old).part.seat.homing.tail ≡ None }
        ensures seat { IsSeatOf self.now.words.table seat.new }
        ensures gathers { GathersOn C.terms C.Object.opens C.Object.step (plan_of self.now) (chain_of homes.new.chains) (me_of seat.old) (me_of seat.new) }
        ensures rest { AreBut locale None (chain_of homes.old.chains) (chain_of homes.new.chains) }
    {
        let chain = homes.take(locale);
        if let Some(chain) = chain {
            self.chain_home(seat, chain.top, chain.tail);
        }
    }

    // Hands home what was freed of all locales.
    fn hand_over_all(&self, seat: &mut TableSeat<C>, mut homes: Homes)
        requires seat { IsSeatOf self.now.words.table seat.old }
        requires below { (view_of seat.old).number < callers_of self.now }
        requires gathers { Gathers (shape_of self.now) (view_of seat.old).part.seat.hand (view_of seat.old).part.facts (chain_of homes.chains) }
        requires tail { (view_of seat.old).part.seat.homing.tail ≡ None }
        ensures seat { IsSeatOf self.now.words.table seat.new }
        ensures gathers { GathersOn C.terms C.Object.opens C.Object.step (plan_of self.now) no_chains (me_of seat.old) (me_of seat.new) }
    {
        for locale in 0..MOST_LOCALES {
            self.hand_over(seat, &mut homes, locale);
        }
    }

    // Walks over the chain's next object and releases it. Where it became free it is gathered. Gives the word that leads on.
    fn release_next(&self, seat: &mut TableSeat<C>, homes: &mut Homes, ptr: Ptr) -> u64
        requires seat { IsSeatOf self.now.words.table seat.old }
        requires below { (view_of seat.old).number < callers_of self.now }
        requires walking { IsWalking (shape_of self.now) (chain_of homes.old.chains) (view_of seat.old).part }
        requires pointer { IsPointer ptr }
        requires place { IsPlace (shape_of self.now) (place_of ptr) }
        requires chain { (view_of seat.old).part.seat.reclaim.chain ≡ word_of ptr }
        ensures seat { IsSeatOf self.now.words.table seat.new }
        ensures releases { ReleasesOne C.terms C.Object.opens C.Object.step (plan_of self.now) ptr result (chain_of homes.new.chains) (me_of seat.old) (me_of seat.new) }
    {
        let next = self.words.walk(seat, ptr.locale(), ptr.index());
        self.words.release(seat, ptr);
        let worn = ptr.count() == u32::MAX;
        if worn {
            return next;
        }
        let free = Ptr::new(ptr.locale(), ptr.index(), ptr.count() + 1);
        self.gather(seat, homes, free);
        next
    }

    // How many objects all locales have.
    fn many_objects(&self) -> u32
        ensures { result ≡ (shape_of self.now).locales * (shape_of self.now).objects }
    {
        u32::from(self.shape.locales) * self.shape.objects
    }

    // Collects the list of a locale whose objects may be released, and releases them. Gives how many were freed, with
    // those before. A list has no more objects than there are.
    fn release_list(
        &self,
        seat: &mut TableSeat<C>,
        homes: &mut Homes,
        locale: u8,
        epoch: u64,
        freed: u32,
    ) -> u32
        requires seat { IsSeatOf self.now.words.table seat.old }
        requires below { (view_of seat.old).number < callers_of self.now }
        requires locale { locale < (shape_of self.now).locales }
        requires epoch { epoch < last_epoch }
        requires releasing { IsReleasing (shape_of self.now) epoch locale 0 (chain_of homes.old.chains) (view_of seat.old).part }
        requires freed { HasFreed C.terms C.Object.opens C.Object.step (plan_of self.now) (me_of seat.old) freed }
        ensures seat { IsSeatOf self.now.words.table seat.new }
        ensures releases { ReleasesList C.terms C.Object.opens C.Object.step (plan_of self.now) epoch locale freed 0 result (chain_of homes.new.chains) (me_of seat.old) (me_of seat.new) }
    {
        let mut word = self.words.collect(seat, locale, epoch);
        let mut count = freed;
        for _ in 0..self.many_objects() + 1 {
            let Some(ptr) = linked(word) else {
                return count;
            };
            word = self.release_next(seat, homes, ptr);
            count += 1;
        }
        unreachable!()
    }

    // Advances the epoch, and releases of every locale what may then be released. Gives how many were freed.
    fn release_all(&self, seat: &mut TableSeat<C>, epoch: u64) -> u32
        requires seat { IsSeatOf self.now.words.table seat.old }
        requires below { (view_of seat.old).number < callers_of self.now }
        requires epoch { epoch < last_epoch }
        requires scanned { HasScanned (shape_of self.now).locales epoch (view_of seat.old).part }
        requires hand { (view_of seat.old).part.seat.hand ≡ [] }
        requires tail { (view_of seat.old).part.seat.homing.tail ≡ None }
        ensures seat { IsSeatOf self.now.words.table seat.new }
        ensures releases { ReleasesAll C.terms C.Object.opens C.Object.step (plan_of self.now) epoch (shape_of self.now).locales result no_chains (me_of seat.old) (me_of seat.new) }
    {
        self.advance_all(seat, epoch);
        let mut homes = Homes::none();
        let mut freed = 0;
        for locale in 0..self.shape.locales {
            freed = self.release_list(seat, &mut homes, locale, epoch, freed);
        }
        self.hand_over_all(seat, homes);
        freed
    }

    // Leaves the global election and then the local one.
    fn leave_both(&self, seat: &mut TableSeat<C>, locale: u8)
        requires seat { IsSeatOf self.now.words.table seat.old }
        requires below { (view_of seat.old).number < callers_of self.now }
        requires locale { (locale ≡ (view_of seat.old).part.seat.token.locale) × (locale < (shape_of self.now).locales) }
        requires phase { (view_of seat.old).part.seat.phase ≡ HasAdvanced }
        requires done { IsDone (shape_of self.now).locales (view_of seat.old).part.seat.reclaim }
        requires hand { (view_of seat.old).part.seat.hand ≡ [] }
        ensures seat { IsSeatOf self.now.words.table seat.new }
        ensures leaves { LeavesBoth C.terms C.Object.opens C.Object.step (plan_of self.now) (me_of seat.old) (me_of seat.new) }
    {
        self.words.leave_global(seat);
        self.words.leave_local(seat, locale);
    }

    // A whole reclaim of a seat at this locale.
    pub(crate) fn reclaim_seat(
        &self,
        seat: &mut TableSeat<C>,
        locale: u8,
    ) -> Result<Advanced, NotNow>
        requires seat { IsSeatOf self.now.words.table seat.old }
        requires below { (view_of seat.old).number < callers_of self.now }
        requires registered { (view_of seat.old).part.seat.phase ≡ IsRegistered }
        requires locale { (locale ≡ (view_of seat.old).part.seat.token.locale) × (locale < (shape_of self.now).locales) }
        requires hand { (view_of seat.old).part.seat.hand ≡ [] }
        requires tail { (view_of seat.old).part.seat.homing.tail ≡ None }
        requires allowed { C.terms.may_reclaim (view_of seat.old).part.client (view_of seat.old).part.seat.owned }
        ensures seat { IsSeatOf self.now.words.table seat.new }
        ensures reclaims { Reclaims C.terms C.Object.opens C.Object.step (plan_of self.now) (me_of seat.old) (me_of seat.new) result }
    {
        let entered = self.enter(seat, locale);
        match entered {
            Ok(epoch) => {
                let freed = self.release_all(seat, epoch);
                self.leave_both(seat, locale);
                Ok(Advanced {
                    epoch: epoch + 1,
                    freed,
                })
            }
            Err(fault) => Err(fault),
        }
    }
}
