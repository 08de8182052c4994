//! What a closed manager shows.
ghost use Rattle.std.specs.Prelude.{◌≡◌};

use super::calls::Call::*;
use super::calls::Reply::*;
use super::calls::Turn;
use super::scripts::{callers_with, close_all, first_other, open_again, usual_object};
use pgas_base::Ptr;
use std::test::Fail;

const ONE_PUT_AND_ONE_IN_HAND: [Turn; 9] = [
    (0, Register(1), Registered),
    (0, Take(1), Took(1, 1, 0)),
    (0, Fill(0, 7), Filled),
    (0, Fill(1, 8), Filled),
    (0, Pin, Pinned),
    (0, Put(3), WasNone),
    (0, Unpin, Unpinned),
    (0, Take(0), Took(0, 1, 0)),
    (0, Fill(1, 9), Filled),
];

// Each object's header and next word stand in the table beside its row, and are no 0.
#[test]
fn a_closed_manager_gives_its_words_and_rows(rt: HostRuntime) -> Result<(), Fail> {
    let object = usual_object(2, 1, 3, 5, 2);
    let (manager, passes) = open_again(rt.alloc(), &object)?;
    let mut callers = callers_with(rt.alloc(), &manager, passes, object.cells)?;
    let other = first_other(
        &rt,
        &manager,
        callers.as_mut_slice(),
        &ONE_PUT_AND_ONE_IN_HAND,
    );
    assert_eq!(rt; other, None);
    let closed = close_all(rt.alloc(), manager, callers)?;
    let put = Ptr::new(1, 1, 0).word();
    assert_eq!(rt; closed.words.as_slice(), [0, 0, 0, put, 0].as_slice());
    assert_eq!(rt;
        closed.rows.as_slice(),
        [0, 9, 0, 0, 0, 0, 7, 8, 0, 0, 0, 0].as_slice()
    );
    Ok(())
}
