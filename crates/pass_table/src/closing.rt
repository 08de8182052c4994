//! How an object is closed: one seat takes in the seats of all passes, and the table shows its last state.
ghost use Rattle.std.specs.Prelude.{◌≡◌, ◌<◌, length, map, All, vec_len};
ghost use Rattle.std.specs.Slots.{slots_items, slots_len, IsFull};
ghost use Rattle.pass_table.specs.declared.views.Role.TheVariants.{Caller};
ghost use Rattle.pass_table.specs.Passes.{table_of, plan_of, caller_of};
ghost use Rattle.pass_table.specs.Openings.{AreOfOpening};
ghost use Rattle.pass_table.specs.Closings.{Gathered, ClosesWith};
ghost use Rattle.pass_table.specs.Views.{numbers_of};

use crate::clients::{Client, PassOf, ViewOf};
use crate::passes::{CallerSeat, Pass};
use crate::plays::TakePass;
use crate::tables::PassTable;
use atomic_table::{Closed, Seat};
use std::alloc::Global;

impl<C: Client> PassTable<C> {
    // One seat, which has taken in the seats of all passes.
    fn gather(&self, mut passes: Vec<PassOf<C>>) -> Seat<C::Slot, ViewOf<C>>
        requires some { 0 < vec_len passes }
        requires opening { AreOfOpening C.terms self.now passes.items }
        ensures table { result.table_id ≡ table_of self.now }
        ensures view { result.me.0.role ≡ Caller }
        ensures gathered { All (λ p. Gathered result.me.0 p) passes.items }
        ensures numbers { map (λ p. caller_of p) passes.items ≡ numbers_of result.me.0 }
    {
        let Some(first) = passes.pop() else {
            unreachable!()
        };
        let Pass { seat } = first;
        let CallerSeat {
            seat: mut all,
            caller: _,
        } = seat;
        while let Some(pass) = passes.pop() {
            let Pass { seat } = pass;
            let CallerSeat { seat, caller: _ } = seat;
            self.table.shared.join_seat::<TakePass<C>>(&mut all, seat);
        }
        all
    }

    /// Closes the object, with as many passes of its opening as it has callers: they are those of all callers. The book of its history is then whole, and its words
    /// and slots are those that the object's rule says of it.
    pub fn close(self, passes: Vec<PassOf<C>>) -> Closed<C::Slot, Global>
        requires some { 0 < C.terms.callers (plan_of self) }
        requires opening { AreOfOpening C.terms self passes.items }
        requires count { length passes.items ≡ C.terms.callers (plan_of self) }
        ensures counts { (slots_len result.words ≡ (table_of self).words) × (slots_len result.slots ≡ (table_of self).slots) }
        ensures full { IsFull result.words × IsFull result.slots }
        ensures closes { ClosesWith C.terms C.Object.opens C.Object.step self passes.items (slots_items result.words) (slots_items result.slots) }
    {
        let seat = self.gather(passes);
        let PassTable { table } = self;
        table.close_with(seat)
    }
}
