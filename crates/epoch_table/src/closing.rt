//! How a manager's table is closed.
ghost use Rattle.std.specs.Prelude.{◌≡◌, ◌<◌, length};
ghost use Rattle.std.specs.Slots.{slots_items, slots_len, IsFull};
ghost use Rattle.pass_table.specs.Passes.{plan_of};
ghost use Rattle.pass_table.specs.Openings.{AreOfOpening};
ghost use Rattle.pass_table.specs.Closings.{ClosesWith};
ghost use Rattle.epoch_table.specs.Layout.{table_words};
ghost use Rattle.epoch_table.specs.Events.{PastOpens, PastSteps};
ghost use Rattle.epoch_table.specs.Rule.{manager_terms};

use crate::clients::Client;
use crate::words::{TablePass, Words};
use atomic_table::Closed;
use std::alloc::Global;

impl<C: Client> Words<C> {
    /// Closes the table, with as many passes of its opening as it has callers: they are those of all callers. Its history
    /// is then known whole, and its last words with it.
    pub fn close(self, passes: Vec<TablePass<C>>) -> (C, Closed<(), Global>)
        requires some { 0 < (plan_of self.table).callers }
        requires opening { AreOfOpening (manager_terms C.terms) self.table passes.items }
        requires count { length passes.items ≡ (plan_of self.table).callers }
        ensures client { result.0 ≡ self.client }
        ensures full { IsFull result.1.words × (slots_len result.1.words ≡ table_words self.shape (plan_of self.table).own) × (slots_len result.1.slots ≡ 0) }
        ensures closes { ClosesWith (manager_terms C.terms) (PastOpens C.Object.opens) (PastSteps C.Object.step) self.table passes.items (slots_items result.1.words) (slots_items result.1.slots) }
    {
        let Words {
            table,
            shape: _,
            client,
        } = self;
        (client, table.close(passes))
    }
}
