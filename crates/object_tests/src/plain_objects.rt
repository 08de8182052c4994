use pass_book::{entry_added, list_is_sublist, note_taken, shorter_begins_longer};
use seq_objects::{
    BagCall, BagReply, DequeCall, DequeReply, ListCall, ListReply, PlainBag, PlainDeque, PlainList,
};
use std::test::Fail;

#[test]
fn answers_calls_in_turn(rt: HostRuntime) -> Result<(), Fail> {
    let mut list = PlainList::open(rt.alloc(), 2)?;
    let rows = [
        (ListCall::Write { at: 1, value: 7 }, ListReply::Wrote),
        (ListCall::Grow { to: 3 }, ListReply::Len { len: 4 }),
        (ListCall::Read { at: 1 }, ListReply::Value { value: 7 }),
        (ListCall::Read { at: 3 }, ListReply::Value { value: 0 }),
        (ListCall::Read { at: 4 }, ListReply::Range { len: 4 }),
        (
            ListCall::Swap {
                at: 0,
                old: 0,
                new: 9,
            },
            ListReply::Was { value: 0 },
        ),
        (
            ListCall::Swap {
                at: 0,
                old: 0,
                new: 8,
            },
            ListReply::Was { value: 9 },
        ),
        (
            ListCall::Add {
                at: 0,
                value: u64::MAX,
            },
            ListReply::Was { value: 9 },
        ),
        (ListCall::Len, ListReply::Len { len: 4 }),
    ];
    for (call, want) in rows {
        assert!(rt; call.is_defined(2));
        assert_eq!(rt; list.act(call)?, want, "{call:?}");
    }
    assert!(rt; !ListCall::Grow { to: 5 }.is_defined(2));
    assert_eq!(rt; list.items(), [8, 7, 0, 0].as_slice());
    Ok(())
}

#[test]
fn grows_in_whole_widths_and_doubles(rt: HostRuntime) -> Result<(), Fail> {
    let rows = [
        (4, 5, 8),
        (4, 9, 12),
        (8, 9, 16),
        (12, 13, 16),
        (16, 16, 16),
    ];
    for (len, to, want) in rows {
        let mut list = PlainList::open(rt.alloc(), 4)?;
        let first = ListCall::Grow { to: len };
        let second = ListCall::Grow { to };
        assert!(rt; first.is_defined(4) && second.is_defined(4));
        assert_eq!(rt; list.act(first)?, ListReply::Len { len });
        assert_eq!(rt; list.act(second)?, ListReply::Len { len: want });
    }
    Ok(())
}

#[test]
fn takes_the_newest_item(rt: HostRuntime) -> Result<(), Fail> {
    let mut bag = PlainBag::open(rt.alloc());
    let rows = [
        (BagCall::Remove, BagReply::Empty),
        (BagCall::Add { item: 5 }, BagReply::Added),
        (BagCall::Add { item: 6 }, BagReply::Added),
        (BagCall::Add { item: 7 }, BagReply::Added),
        (BagCall::Remove, BagReply::Took { item: 7 }),
    ];
    for (call, want) in rows {
        assert_eq!(rt; bag.act(call)?, want, "{call:?}");
    }
    assert_eq!(rt; bag.items(), [5, 6].as_slice());
    Ok(())
}

#[test]
fn is_full_and_empty(rt: HostRuntime) -> Result<(), Fail> {
    let mut deque = PlainDeque::open(rt.alloc(), 1);
    let rows = [
        (DequeCall::PushBack { item: 1 }, DequeReply::Pushed),
        (DequeCall::PushFront { item: 2 }, DequeReply::Full),
        (DequeCall::PopBack, DequeReply::Took { item: 1 }),
        (DequeCall::PopBack, DequeReply::Empty),
    ];
    for (call, want) in rows {
        assert_eq!(rt; deque.act(call)?, want, "{call:?}");
    }
    assert!(rt; deque.items().is_empty());
    Ok(())
}

// Each turn leaves one item more, and the items travel from the one end to the other.
#[test]
fn makes_many_calls_in_little_time(rt: HostRuntime) -> Result<(), Fail> {
    let mut deque = PlainDeque::open(rt.alloc(), 0x10_0000);
    for item in 0..209_715 {
        let rows = [
            (DequeCall::PushBack { item }, DequeReply::Pushed),
            (DequeCall::PushBack { item }, DequeReply::Pushed),
            (DequeCall::PopFront, DequeReply::Took { item: item / 2 }),
            (DequeCall::PushFront { item }, DequeReply::Pushed),
            (DequeCall::PopFront, DequeReply::Took { item }),
        ];
        for (call, want) in rows {
            assert_eq!(rt; deque.act(call)?, want);
        }
    }
    assert_eq!(rt; deque.items().len(), 209_715);
    Ok(())
}

#[test]
fn the_laws_of_histories_hold_of_each_object() {
    entry_added::<PlainList>();
    entry_added::<PlainBag>();
    entry_added::<PlainDeque>();
    note_taken::<PlainDeque>();
    shorter_begins_longer::<PlainDeque>();
    list_is_sublist::<PlainDeque>();
}
