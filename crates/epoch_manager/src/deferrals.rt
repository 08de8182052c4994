//! How an object that no link names any more is deferred, to be released later.
ghost use Rattle.std.specs.Prelude.{◌≡◌, ◌<◌};
ghost use mathlib.Core.List.{IsPrefix};
ghost use Rattle.epoch_laws.specs.declared.tokens.Token.{Token};
ghost use Rattle.epoch_laws.specs.Seats.{Pinned as IsPinned};
ghost use Rattle.pass_table.specs.Passes.{IsSeatOf, view_of, me_of};
ghost use Rattle.epoch_table.specs.Clients.{Defers};
ghost use Rattle.epoch_manager.specs.Managers.{plan_of, opening_of, shape_of, callers_of, pass_opening, phase_of, page, owned_by, held_by, knows, IsSamePass, change};
ghost use Rattle.epoch_manager.specs.Deferring.{DefersSeat, DefersObject};

use crate::managers::{Manager, Pass};
use crate::phases::Phase;
use epoch_table::{Client, TableSeat};
use pgas_base::Ptr;

impl<C: Client> Manager<C> {
    // The three steps of a deferral. It gives the tag.
    #[inline]
    fn defer_seat(&self, seat: &mut TableSeat<C>, locale: u8, ptr: Ptr) -> u64
        requires seat { IsSeatOf self.now.words.table seat.old }
        requires below { (view_of seat.old).number < callers_of self.now }
        requires pinned { (view_of seat.old).part.seat.phase ≡ IsPinned }
        requires locale { (locale ≡ (view_of seat.old).part.seat.token.locale) × (locale < (shape_of self.now).locales) }
        requires may { C.terms.may (view_of seat.old).part.client (Defers ptr) }
        ensures seat { IsSeatOf self.now.words.table seat.new }
        ensures defers { DefersSeat C.terms C.Object.opens C.Object.step (plan_of self.now) ptr (me_of seat.old) result (me_of seat.new) }
    {
        let tag = self.words.defer_look(seat, locale, ptr);
        let old = self.words.defer_swap(seat, locale, tag, ptr);
        self.words.defer_link(seat, ptr, old);
        tag
    }

    /// Defers the release of an object that the caller has cut out of its last link and not deferred: the object is
    /// released once every token that is pinned now was unpinned. The tag of the deferral is the epoch that this call
    /// reads as that of its token's locale, and the object goes into the list of that locale which the tag names
    /// (Fraser 2004).
    pub fn defer_delete(&self, pass: &mut Pass<C>, ptr: Ptr)
        requires opening { pass_opening pass.old ≡ opening_of self.now }
        requires phase { (token : Token) × (phase_of pass.old ≡ Phase.Pinned token) }
        requires may { C.terms.may (knows pass.old) (Defers ptr) }
        ensures pass { IsSamePass pass.old pass.new }
        ensures owned { owned_by pass.new ≡ owned_by pass.old }
        ensures held { held_by pass.new ≡ held_by pass.old }
        ensures knows { knows pass.new ≡ C.terms.after (knows pass.old) (Defers ptr) 0 }
        ensures phase { phase_of pass.new ≡ phase_of pass.old }
        ensures history { (token : Token) → phase_of pass.old ≡ Phase.Pinned token → DefersObject C.terms C.Object.opens C.Object.step (plan_of self.now) (change pass.old pass.new) token ptr }
        ensures grows { IsPrefix (page pass.old).seen (page pass.new).seen }
    {
        let token = pass.phase.pinned();
        self.defer_seat(&mut pass.pass.seat, token.locale, ptr);
    }
}
