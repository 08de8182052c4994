//! How an object is opened: its words and slots, and a pass for each caller.
ghost use Rattle.std.specs.Prelude.{◌≡◌, ℕ, ◌<◌, [], length, map, IfOk, true, vec_len, vec_capacity};
ghost use mathlib.Core.Option.{some};
ghost use Rattle.pass_table.specs.Views.{opener as first_view};
ghost use Rattle.pass_table.specs.Passes.{table_of, plan_of};
ghost use Rattle.pass_table.specs.Openings.{IsOpened, IsNewPass, AreInOrder, AreOfOpening};

use crate::clients::{Client, PassOf, ViewOf};
use crate::passes::{CallerSeat, Pass};
use crate::plays::NextPass;
use crate::tables::PassTable;
use crate::views::Law;
use atomic_table::{Seat, Table};
use std::alloc::{AllocError, Global};

type TableOf<C> = Table<<C as Client>::Slot, ViewOf<C>, <C as Client>::Plan, Law<C>, Global>;

impl<C: Client> PassTable<C> {
    /// Opens an object with these words and slots, for so many callers. The passes come in order of the callers'
    /// numbers. All memory is there before the first pass is made.
    pub fn open(
        alloc: Global,
        words: &[u64],
        slots: Vec<C::Slot>,
        plan: &C::Plan,
        callers: u32,
    ) -> Result<(PassTable<C>, Vec<PassOf<C>>), AllocError>
        requires some_word { 0 < length words.now }
        requires callers { callers ≡ C.terms.callers plan.now }
        requires rests { C.terms.rests C.terms.first ≡ true }
        requires opens { C.Object.opens (C.terms.start plan.now) }
        requires rule { C.terms.holds plan.now record { words = words.now; homes = map some slots.items; history = []; parts = λ _. C.terms.first } }
        ensures { IfOk result (λ r. IsOpened C.terms r.0 plan.now (length words.now) (length slots.items) r.1.items) }
    {
        let mut passes = Vec::with_capacity(alloc, callers as usize)?;
        let opened: Result<(TableOf<C>, Seat<C::Slot, ViewOf<C>>), AllocError> = match Table::new(
            alloc, words, slots, plan,
        ) {
            Ok(opened) => Ok(opened),
            Err(_) => Err(AllocError),
        };
        let (table, opener) = opened?;
        let table = PassTable { table };
        table.make_passes(opener, callers, &mut passes);
        Ok((table, passes))
    }

    fn make_passes(
        &self,
        mut opener: Seat<C::Slot, ViewOf<C>>,
        callers: u32,
        passes: &mut Vec<PassOf<C>>,
    )
        requires table { (opener.table_id ≡ table_of self.now) × (opener.id ≡ 0) }
        requires view { opener.me ≡ (first_view C.terms (plan_of self.now), []) }
        requires callers { callers ≡ C.terms.callers (plan_of self.now) }
        requires rests { C.terms.rests C.terms.first ≡ true }
        requires room { (passes.old.items ≡ []) × (vec_len passes.old ≡ 0) × (vec_capacity passes.old ≡ callers) }
        ensures count { length passes.new.items ≡ callers }
        ensures each { AreInOrder (IsNewPass C.terms self.now) passes.new.items }
        ensures opening { AreOfOpening C.terms self.now passes.new.items }
    {
        for caller in 0..callers {
            let seat = self.table.shared.split_seat::<NextPass<C>>(&mut opener);
            let seat = CallerSeat { seat, caller };
            passes.push_reserved(Pass { seat });
        }
    }
}
