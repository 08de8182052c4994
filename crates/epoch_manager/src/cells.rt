//! A client of a manager: a row of cells, each of which is empty or names an object.
ghost use Rattle.std.specs.Prelude.{◌≡◌, ◌≤◌};

use crate::plain_cells::PlainCells;
use epoch_table::Client;
use std::collections::LinkedList;
use std::marker::Model;

/// What a pass knows of the cells, as words of pointers: the objects that it has shown and that have been in no cell
/// since, and those that it has cut out of their cell and not deferred. No value of it is made.
pub struct CellsView {
    pub shown: LinkedList<u64>,
    pub cut: LinkedList<u64>,
}

/// A row of 1 to 64 cells on a manager. Each is empty, or names an object that is shown and not deferred, and no
/// two name the same. A switch of a cell to empty, or to an object that the same pass has shown and nobody has put
/// into a cell, cuts what stood there, and the pass that made it may defer that.
#[derive(Clone, Copy, Debug, PartialEq, Eq)]
pub struct Cells {
    cells: u32,
}

impl Model for Cells {
    ghost use Rattle.std.specs.Prelude.{ℕ, ◌≤◌};

    ghost Value = { ℕ };

    ghost view = { λ c. c.cells };

    ghost invariant = { λ c. (1 ≤ c.cells) × (c.cells ≤ 64) };

    ghost inverse = { λ n. record { cells = n } };
}

impl Cells {
    pub fn new(cells: u32) -> Cells
        requires some { 1 ≤ cells }
        requires most { cells ≤ 64 }
        ensures { result ≡ cells }
    {
        Cells { cells }
    }
}

impl Client for Cells {
    ghost use Rattle.epoch_manager.specs.Cells.{cells_terms};
    ghost use Rattle.epoch_manager.specs.CellLaws.{object_opens, opens, links, takes, shows, returns, deferrals, frees, fills, holds, steps, unpins};

    type Object = PlainCells;

    type View = CellsView;

    ghost terms = { cells_terms };

    fn words(&self) -> u32 {
        self.cells
    }

    ghost object_opens = { object_opens };

    ghost opens = { opens };

    ghost links = { links };

    ghost kept_by_takes = { takes };

    ghost kept_by_shows = { shows };

    ghost kept_by_returns = { returns };

    ghost kept_by_deferrals = { deferrals };

    ghost kept_by_frees = { frees };

    ghost kept_by_fills = { fills };

    ghost kept_by_holds = { holds };

    ghost kept_by_steps = { steps };

    ghost kept_by_unpins = { unpins };
}
