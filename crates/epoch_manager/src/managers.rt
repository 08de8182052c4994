//! A manager as its callers share it, and their passes.
ghost use Rattle.std.specs.Prelude.{◌≡◌, ◌<◌, true, map};
ghost use Rattle.std.specs.Option.{ForSome};
ghost use Rattle.pass_table.specs.Passes.{plan_of, pass_view};
ghost use Rattle.epoch_manager.specs.Fits.{PassFits, is_placed};
ghost use Rattle.epoch_manager.specs.HeldNumbers.{number_of};

use crate::held::HeldList;
use crate::stances::Stance;
use epoch_table::{CallOf, Client, Happens, Name, Part, Plan, ReplyOf, TableNote, Words};
use pgas_base::Shape;
use std::alloc::Global;

/// One caller's pass to a manager, by the manager's client and what that knows, calls and replies. A pass that is
/// dropped is given up: its token stays registered, what it owns stays owned, and its entries stand in the history.
#[derive(Drop)]
pub struct ClientPass<K, V, Q, R> {
    pub(crate) pass: pass_table::Pass<(), Happens<Q, R>, (), Plan<K>, Part<V>, Name>,
    pub(crate) phase: Stance,
    // Where the word of its token stands: worked out once, so that a pin and an unpin wait for no product.
    pub(crate) place: usize,
    pub(crate) held: HeldList,
    ghost fits: { ForSome (pass_view pass).plan (λ plan. PassFits plan (pass_view pass) phase) },
    ghost placed: { ForSome (pass_view pass).plan (λ plan. is_placed plan.shape phase place ≡ true) },
    ghost holds: { held ≡ map number_of (pass_view pass).part.seat.held },
}

/// One caller's pass to a manager.
pub type Pass<C> = ClientPass<C, <C as Client>::View, CallOf<C>, ReplyOf<C>>;

/// A copy of what a caller of a manager has seen, which another may take in.
pub type Note<C> = TableNote<C>;

/// Objects of a shape, which many callers use at once, and the words of a client whose parts they are. Each caller
/// has a pass of its own.
#[derive(Drop)]
pub struct Manager<C: Client> {
    pub(crate) words: Words<C>,
    pub(crate) shape: Shape,
    pub(crate) own: u32,
    pub(crate) alloc: Global,
    ghost planned: { (plan_of words.table).shape ≡ shape },
    ghost owns: { (plan_of words.table).own ≡ own },
    ghost some_caller: { 0 < (plan_of words.table).callers },
}
