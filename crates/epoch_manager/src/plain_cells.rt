//! A row of cells as one thread knows it.

use pass_book::Object;
use std::collections::LinkedList;

/// What a row of cells can be asked. The reply to either call is the word that stood in the cell.
#[derive(Clone, Copy, Debug, PartialEq, Eq)]
pub enum CellCall {
    /// Stores the word.
    Put { cell: u32, word: u64 },
    Look { cell: u32 },
}

/// A row of cells, each of which holds a word. It opens with each word 0, which means none. No value of it is made.
pub struct PlainCells;

impl Object for PlainCells {
    ghost use Rattle.epoch_manager.specs.PlainCells.{CellsOpen, CellsStep};

    type Call = CellCall;

    type Reply = u64;

    type State = LinkedList<u64>;

    ghost opens = { CellsOpen };

    ghost step = { CellsStep };
}
