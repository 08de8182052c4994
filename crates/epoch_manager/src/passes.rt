//! What a pass tells of itself.
ghost use Rattle.std.specs.Prelude.{◌≡◌, length};
ghost use Rattle.epoch_manager.specs.Managers.{phase_of, caller_of, held_by};

use crate::managers::ClientPass;
use crate::phases::Phase;

impl<K, V, Q, R> ClientPass<K, V, Q, R> {
    /// Where the caller stands.
    #[inline]
    pub fn phase(&self) -> Phase
        ensures { result ≡ phase_of self.now }
    {
        self.phase.phase()
    }

    /// The caller's number, from 0.
    #[inline]
    pub fn caller(&self) -> u32
        ensures { result ≡ caller_of self.now }
    {
        self.pass.caller()
    }

    /// How many objects the caller holds. One that it has held several times counts once.
    #[inline]
    pub fn held(&self) -> u32
        ensures { result ≡ length (held_by self.now) }
    {
        self.held.len()
    }
}
