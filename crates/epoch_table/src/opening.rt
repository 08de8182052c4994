//! How a manager's table is opened.
ghost use Rattle.std.specs.Prelude.{◌≡◌, ◌<◌, IfOk};
ghost use Rattle.pgas_base.specs.Shapes.{IsShape};
ghost use Rattle.pgas_base.specs.Starts.{IsStart};
ghost use Rattle.pass_table.specs.Passes.{plan_of};
ghost use Rattle.pass_table.specs.Openings.{IsOpened};
ghost use Rattle.epoch_table.specs.Layout.{table_words};
ghost use Rattle.epoch_table.specs.Rule.{manager_terms};

use crate::clients::Client;
use crate::layout::Layout;
use crate::opening_words::opening_words;
use crate::parts::Plan;
use crate::words::{TablePass, Words};
use pass_table::PassTable;
use pgas_base::{Shape, Start};
use std::alloc::{AllocError, Global};

impl<C: Client> Words<C> {
    /// Opens the table of a manager of this shape, with a pass for each caller, in order of number. All memory is
    /// there before the first pass is made.
    pub fn open(
        alloc: Global,
        shape: Shape,
        start: Start,
        callers: u32,
        client: C,
    ) -> Result<(Words<C>, Vec<TablePass<C>>), AllocError>
        requires shape { IsShape shape }
        requires start { IsStart start }
        ensures { IfOk result (λ r. (r.0.client ≡ client) × (r.0.shape ≡ shape)
            × IsOpened (manager_terms C.terms) r.0.table record { shape = shape; start = start; callers = callers; client = client; own = C.terms.own client } (table_words shape (C.terms.own client)) 0 r.1.items) }
    {
        // Read here, so that its range is known.
        let _count = start.count;
        let own = client.words();
        let words = opening_words(alloc, &shape, &start, own)?;
        let plan = Plan {
            shape,
            start,
            callers,
            client,
            own,
        };
        let (table, passes) = PassTable::open(
            alloc,
            words.as_slice(),
            Vec::new(alloc),
            &plan,
            callers,
        )?;
        let Plan { client, .. } = plan;
        Ok((
            Words {
                table,
                shape: Layout::of(shape),
                client,
            },
            passes,
        ))
    }
}
