//! The table of a manager.

use crate::clients::Client;
use crate::events::History;
use crate::parts::{Name, Part, Plan};
use std::marker::PhantomData;

/// A manager as a client of its table.
pub struct Manages<C> {
    marker: PhantomData<C>,
}

impl<C: Client> pass_table::Client for Manages<C> {
    ghost use Rattle.epoch_table.specs.Rule.{manager_terms};

    type Object = History<C::Object>;

    type Slot = ();

    type Plan = Plan<C>;

    type Part = Part<C::View>;

    type Name = Name;

    ghost terms = { manager_terms C.terms };

    #[inline]
    fn items_in(first: u64) -> u64 {
        first
    }
}
