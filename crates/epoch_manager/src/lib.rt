//! A manager of rows of memory that are reclaimed by epochs: what callers of it do in whole calls, each made of steps
//! of `epoch_table`.
//!
//! There are the opening with its refusals, the calls on tokens (register, unregister, pin, unpin), a take of an object of
//! any locale, the calls on an object that the caller owns (fill, show, give_back) or has cut out (defer_delete), the
//! reclaim that frees what was deferred (try_reclaim), holds of links, steps on the client's words and on rows (look, put,
//! switch, trade, raise), reads, notes and the close, for any client; and `Cells`, a client whose links are a row of cells.
#![tactic(auto)]

mod cells;
mod closing;
mod deferrals;
mod faults;
mod gets;
mod held;
mod holds;
mod homes;
mod lending;
mod links;
mod managers;
mod notes;
mod objects;
mod opening;
mod passes;
mod phases;
mod plain_cells;
mod reads;
mod reclaims;
mod releases;
mod returns;
mod sizes;
mod spots;
mod stances;
mod taking;
mod tokens;

pub use cells::{Cells, CellsView};
pub use closing::{Closed, ManagerBack};
pub use faults::{NotNow, OpenFault, TakeFault, TokensFull};
pub use held::MOST_HELD;
pub use managers::{ClientPass, Manager, Note, Pass};
pub use phases::Phase;
pub use plain_cells::{CellCall, PlainCells};
pub use reclaims::Advanced;
