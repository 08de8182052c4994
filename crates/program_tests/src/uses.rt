//! The uses of the library by example.

use edge_text::{Edge, EdgeList};
use epoch_core::{Illegal, Seen};
use examples::{
    Even, add_numbers, check_text, half_of_first, hand_on, hand_over, has_pushed, levels_of_road,
    levels_of_text, neighbours, pop_last, push_even, push_numbers, read_while_replaced, relay,
    replies_to, unpin_and_register,
};
use seq_objects::{AnyItem, DequeReply};
use shared_bag::Bag;
use shared_deque::Deque;
use shared_io::SureSource;
use std::alloc::{AllocError, Global};
use std::test::Fail;

// A source of this text.
fn source_of(alloc: Global, text: &str) -> Result<SureSource, AllocError> {
    Ok(SureSource::new(Vec::from_slice(alloc, text.as_bytes())?))
}

#[test]
fn callers_in_threads_push_and_add(rt: HostRuntime) -> Result<(), Fail> {
    let mut pushed = push_numbers(&rt, rt.alloc(), 3)?;
    pushed.sort()?;
    assert_eq!(rt; pushed.as_slice(), [0, 1, 2].as_slice());
    let mut added = add_numbers(&rt, rt.alloc(), 3)?;
    added.sort()?;
    assert_eq!(rt; added.as_slice(), [0, 1, 2].as_slice());
    let mut even = push_even(&rt, rt.alloc(), 3)?;
    even.sort()?;
    assert_eq!(rt; even.as_slice(), [0, 2, 4].as_slice());
    Ok(())
}

#[test]
fn items_go_from_caller_to_caller(rt: HostRuntime) -> Result<(), Fail> {
    let (deque, mut passes) = Deque::open(rt.alloc(), 2, 4, 2, AnyItem)?;
    let [giver, taker] = passes.as_mut_slice() else {
        return Err("passes".into());
    };
    let taken = hand_over(&rt, &deque, giver, taker);
    assert!(rt; matches!(taken, None | Some(7)));
    let (bag, mut passes) = Bag::open(rt.alloc(), 2, 1, 4, 2, AnyItem)?;
    let [giver, taker] = passes.as_mut_slice() else {
        return Err("passes".into());
    };
    assert_eq!(rt; hand_on(&rt, &bag, giver, taker), Some(7));
    Ok(())
}

#[test]
fn a_row_is_whole_while_another_takes_its_place(rt: HostRuntime) -> Result<(), Fail> {
    let (whole, words) = read_while_replaced(&rt, rt.alloc(), 1000)?;
    assert_eq!(rt; (whole, words.len()), (true, 128));
    Ok(())
}

#[test]
fn a_keeper_is_kept(rt: HostRuntime) -> Result<(), Fail> {
    let (deque, mut passes) = Deque::open(rt.alloc(), 1, 4, 1, Even)?;
    let [pass] = passes.as_mut_slice() else {
        return Err("passes".into());
    };
    assert_eq!(rt; deque.try_push_back(pass, 6), Ok(()));
    assert_eq!(rt; half_of_first(&rt, &deque, pass), Some(3));
    assert_eq!(rt; half_of_first(&rt, &deque, pass), None);
    Ok(())
}

#[test]
fn what_three_callers_hand_on_is_even(rt: HostRuntime) -> Result<(), Fail> {
    let (taken, left) = relay(&rt, rt.alloc())?;
    let many = left.len() + usize::from(taken.is_some());
    assert_eq!(rt; many, 2);
    Ok(())
}

#[test]
fn what_was_pushed_is_an_entry(rt: HostRuntime) -> Result<(), Fail> {
    let (deque, mut passes) = Deque::open(rt.alloc(), 1, 1, 1, AnyItem)?;
    let [pass] = passes.as_mut_slice() else {
        return Err("passes".into());
    };
    assert!(rt; has_pushed(&deque, pass, 1));
    assert!(rt; !has_pushed(&deque, pass, 2));
    Ok(())
}

#[test]
fn a_plain_deque_replies(rt: HostRuntime) -> Result<(), Fail> {
    assert_eq!(rt; pop_last(rt.alloc())?, DequeReply::Took { item: 1 });
    Ok(())
}

#[test]
fn graphs_have_levels_and_rows(rt: HostRuntime) -> Result<(), Fail> {
    assert_eq!(rt;
        levels_of_road(rt.alloc())?.as_slice(),
        [0, 1, 2].as_slice()
    );
    let mut source = source_of(rt.alloc(), "# two\n0 1\n0 2\n")?;
    let levels = levels_of_text(rt.alloc(), &mut source)?;
    assert_eq!(rt; levels.as_slice(), [0, 1, 1].as_slice());
    let mut list = EdgeList {
        edges: Vec::new(rt.alloc()),
        both: false,
    };
    list.edges.push(Edge {
        from: 0,
        to: 1,
        weight: 1,
    })?;
    let next = neighbours(&rt, rt.alloc(), &list, 1)?;
    assert_eq!(rt; next.as_slice(), [0].as_slice());
    Ok(())
}

#[test]
fn scripts_are_answered(rt: HostRuntime) -> Result<(), Fail> {
    let text = "pgas 1\nobject deque 1 2\ncallers 1\ncaller 0\npush_back 1\npop_back\nend\n";
    let mut source = source_of(rt.alloc(), text)?;
    let replies = replies_to(&rt, rt.alloc(), &mut source)?;
    assert_eq!(rt; replies.as_str(), "caller 0\npushed\ntook 1\nleft\n");
    Ok(())
}

#[test]
fn runs_are_made_and_checked(rt: HostRuntime) -> Result<(), Fail> {
    let refused = Err(Illegal { need: 2, word: 0 });
    assert_eq!(rt; unpin_and_register(rt.alloc())?, (refused, Ok(Seen::Won)));
    let text = "pgas-run 1\nshape 1 1 1 2\nstart 1 0 0\nseats 1\n0 register 0 0\nend\n";
    let mut source = source_of(rt.alloc(), text)?;
    let checked = check_text(rt.alloc(), &mut source)?;
    assert_eq!(rt; checked.as_str(), "0 registered 0.0\n# run 1\n");
    Ok(())
}
