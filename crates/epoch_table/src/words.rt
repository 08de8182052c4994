//! The words of a manager, which its callers share.
ghost use Rattle.std.specs.Prelude.{◌≡◌};
ghost use Rattle.pgas_base.specs.Shapes.{IsShape};
ghost use Rattle.pass_table.specs.Passes.{table_of, plan_of};
ghost use Rattle.epoch_table.specs.Layout.{table_words};

use crate::clients::Client;
use crate::events::Happens;
use crate::layout::Layout;
use crate::parts::{Name, Part, Plan};
use crate::tables::Manages;
use pass_book::Object;
use pass_table::{CallerSeat, Note, Pass, PassTable};

/// A call of the client's object.
pub type CallOf<C> = <<C as Client>::Object as Object>::Call;

/// A reply of the client's object.
pub type ReplyOf<C> = <<C as Client>::Object as Object>::Reply;

/// A seat with its view, with which the steps are made.
pub type TableSeat<C> = CallerSeat<
    (),
    Happens<CallOf<C>, ReplyOf<C>>,
    (),
    Plan<C>,
    Part<<C as Client>::View>,
    Name,
>;

/// A pass with its seat, between two calls.
pub type TablePass<C> = Pass<
    (),
    Happens<CallOf<C>, ReplyOf<C>>,
    (),
    Plan<C>,
    Part<<C as Client>::View>,
    Name,
>;

/// A note of what a pass has seen.
pub type TableNote<C> = Note<
    (),
    Happens<CallOf<C>, ReplyOf<C>>,
    (),
    Plan<C>,
    Part<<C as Client>::View>,
    Name,
>;

/// The table of a manager with its rule.
#[derive(Drop)]
pub struct Words<C: Client> {
    pub(crate) table: PassTable<Manages<C>>,
    pub(crate) shape: Layout,
    pub(crate) client: C,
    ghost planned: { (plan_of table).shape ≡ shape },
    ghost of_client: { (plan_of table).client ≡ client },
    ghost shaped: { IsShape shape },
    ghost no_slot: { (table_of table).slots ≡ 0 },
    ghost wide: { (table_of table).words ≡ table_words shape (plan_of table).own },
}
