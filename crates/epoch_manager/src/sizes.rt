//! What a manager tells of itself.
ghost use Rattle.std.specs.Prelude.{◌≡◌};
ghost use Rattle.epoch_manager.specs.Managers.{shape_of};

use crate::managers::Manager;
use epoch_table::Client;
use pgas_base::Shape;

impl<C: Client> Manager<C> {
    /// How many locales there are, how many tokens and objects in each of them, and how many words in each row.
    #[inline]
    pub fn shape(&self) -> Shape
        ensures { result ≡ shape_of self.now }
    {
        self.shape
    }
}
