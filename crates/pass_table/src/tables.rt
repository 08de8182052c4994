//! The table of an object, as its callers share it.
ghost use Rattle.std.specs.Prelude.{◌<◌};

use crate::clients::{Client, ViewOf};
use crate::views::Law;
use atomic_table::Table;
use std::alloc::Global;

/// The words and slots of an object, which its callers share.
#[derive(Drop)]
pub struct PassTable<C: Client> {
    pub(crate) table: Table<C::Slot, ViewOf<C>, C::Plan, Law<C>, Global>,
    ghost some_word: { 0 < table.shared.table_id.words },
}
