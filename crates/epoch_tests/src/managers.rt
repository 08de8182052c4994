//! A manager of rows: its limits, steps on the words of a client, and scripts of calls on a row of cells.
ghost use Rattle.std.specs.Prelude.{◌≡◌};

mod borrowing;
mod callers;
mod calls;
mod closings;
mod crowds;
mod homes;
mod one_cell;
mod own_words;
mod rows;
mod scripts;
mod vectors;

use epoch_manager::{Cells, Manager, OpenFault};
use epoch_table::Client;
use pgas_base::{Shape, ShapeFault, Start};

pub(crate) fn shape(tokens: u32) -> Shape
    ensures { result ≡ record { locales = 2; tokens = tokens; objects = 3; width = 2 } }
{
    Shape {
        locales: 2,
        tokens,
        objects: 3,
        width: 2,
    }
}

#[test]
fn a_row_of_cells_has_a_word_for_each(rt: HostRuntime) {
    fn words_of<C: Client>(client: &C) -> u32 {
        client.words()
    }
    assert_eq!(rt; words_of(&Cells::new(5)), 5);
}

#[test]
fn the_first_limit_that_is_broken_is_told(rt: HostRuntime) {
    let start = Start::usual();
    let late = Start {
        epoch: 4_611_686_018_427_387_905,
        ..start
    };
    let full = Start {
        stack: 1 << 40,
        ..start
    };
    let bad = OpenFault::BadShape {
        fault: ShapeFault::Tokens,
    };
    let rows = [
        (shape(0), late, 0, bad),
        (shape(1), late, 0, OpenFault::BadStart),
        (shape(1), full, 1, OpenFault::BadStart),
        (shape(1), start, 0, OpenFault::Callers),
        (shape(1), start, 1025, OpenFault::Callers),
    ];
    for (shape, start, callers, fault) in rows {
        let opened = Manager::open(rt.alloc(), shape, start, callers, Cells::new(1));
        assert_eq!(rt; opened.err(), Some(fault), "{shape:?} {start:?} {callers}");
    }
}
