//! The slots that a caller has in hand.
ghost use Rattle.std.specs.Prelude.{◌≡◌, ◌∷◌};
ghost use Rattle.atomic_table.specs.Table.{rest};
ghost use Rattle.pass_table.specs.Passes.{IsSeatOf, view_of, carried_of, me_of};

use crate::clients::{Client, SeatOf};
use crate::tables::PassTable;

impl<C: Client> PassTable<C> {
    /// Moves a value into the slot that was taken last, and gives what stood there. It is no step: nobody else
    /// sees that slot.
    #[inline]
    pub fn exchange(&self, seat: &mut SeatOf<C>, slot: usize, new: C::Slot) -> C::Slot
        requires seat { IsSeatOf self.now seat.old }
        requires out { (old : C.Slot) × (carried_of seat.old ≡ (slot, old) ∷ rest (carried_of seat.old)) }
        ensures seat { IsSeatOf self.now seat.new }
        ensures out { carried_of seat.old ≡ (slot, result) ∷ rest (carried_of seat.old) }
        ensures back { me_of seat.new ≡ (view_of seat.old, (slot, new) ∷ rest (carried_of seat.old)) }
    {
        self.table.shared.exchange(&mut seat.seat, slot, new)
    }
}
