//! What each caller of an object has: its pass, and the notes that it makes.
ghost use Rattle.std.specs.Prelude.{◌≡◌, [], true};
ghost use Rattle.pass_table.specs.declared.views.Role.TheVariants.{Caller, Note as NoteRole};

use crate::views::View;
use atomic_table::Seat;

/// A caller's seat at the table, also in the middle of a call. The steps of its object's calls are made with it.
#[derive(Drop)]
pub struct CallerSeat<S, C, R, P, T, N> {
    pub(crate) seat: Seat<S, View<C, R, P, T, N>>,
    pub(crate) caller: u32,
    ghost role: { seat.me.0.role ≡ Caller },
    ghost number: { seat.me.0.number ≡ caller },
    ghost single: { seat.me.0.merged ≡ [] },
}

impl<S, C, R, P, T, N> CallerSeat<S, C, R, P, T, N> {
    /// The caller's number, from 0.
    #[inline]
    pub fn caller(&self) -> u32
        ensures { result ≡ self.now.seat.me.0.number }
    {
        self.caller
    }
}

/// One caller's pass to an object, between two calls. A pass that is dropped is given up: its entries stand in the
/// history.
#[derive(Drop)]
pub struct Pass<S, C, R, P, T, N> {
    /// Its seat, for the object's own steps.
    pub seat: CallerSeat<S, C, R, P, T, N>,
    ghost rests: { seat.seat.me.0.rests ≡ true },
    ghost empty_handed: { seat.seat.me.1 ≡ [] },
}

impl<S, C, R, P, T, N> Pass<S, C, R, P, T, N> {
    /// The caller's number, from 0.
    #[inline]
    pub fn caller(&self) -> u32
        ensures { result ≡ self.now.seat.seat.me.0.number }
    {
        self.seat.caller
    }
}

/// A copy of what a caller has seen, which another may take in. A note that is dropped loses nothing.
#[derive(Drop)]
pub struct Note<S, C, R, P, T, N> {
    pub(crate) seat: Seat<S, View<C, R, P, T, N>>,
    ghost role: { seat.me.0.role ≡ NoteRole },
    ghost empty_handed: { seat.me.1 ≡ [] },
}
