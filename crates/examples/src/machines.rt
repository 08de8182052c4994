//! The machine of reclamation by epochs, as data: a step is made where its definition allows it.
use epoch_core::{Illegal, Kind, Machine, Seen, Step};
use pgas_base::{Shape, Start};
use std::alloc::{AllocError, Global};

/// What a seat is told that unpins before it has a token, and then registers one.
pub fn unpin_and_register(
    alloc: Global,
) -> Result<(Result<Seen, Illegal>, Result<Seen, Illegal>), AllocError> {
    let shape = Shape {
        locales: 1,
        tokens: 1,
        objects: 1,
        width: 2,
    };
    let mut machine = Machine::open(alloc, shape, Start::usual(), 1)?;
    let unpinned = machine.step(Step {
        seat: 0,
        kind: Kind::Unpin,
    });
    let registered = machine.step(Step {
        seat: 0,
        kind: Kind::Register {
            locale: 0,
            token: 0,
        },
    });
    Ok((unpinned, registered))
}
