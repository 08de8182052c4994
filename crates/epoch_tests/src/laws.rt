use epoch_laws::{
    EpochEvent, Illegal, Item, Kind, Seen, Step, Token, events_are_legal, objects_are_apart,
    release_is_exact, states_are_sound, steps_leave_others,
};
use pgas_base::Ptr;

#[test]
fn the_laws_hold() {
    events_are_legal();
    release_is_exact();
    states_are_sound();
    objects_are_apart();
    steps_leave_others();
}

#[test]
fn values_are_equal_where_all_their_parts_are(rt: HostRuntime) {
    let ptr = Ptr::new(0, 1, 2);
    let token = Token {
        locale: 0,
        number: 1,
    };
    assert_eq!(rt; Kind::Hold { ptr }, Kind::Hold { ptr });
    assert_ne!(rt; Kind::Hold { ptr }, Kind::Touch { ptr });
    assert_ne!(rt;
        Kind::HandLink { ptr, next: 1 },
        Kind::HandLink { ptr, next: 2 }
    );
    let step = Step {
        seat: 3,
        kind: Kind::Advance,
    };
    assert_ne!(rt;
        step,
        Step {
            seat: 4,
            kind: Kind::Advance
        }
    );
    let deferred = Item::Event {
        seat: 3,
        event: EpochEvent::Deferred { token, ptr },
        tag: 7,
    };
    let untagged = Item::Event {
        seat: 3,
        event: EpochEvent::Deferred { token, ptr },
        tag: 0,
    };
    assert_ne!(rt; deferred, untagged);
    assert_ne!(rt; Seen::Won, Seen::Word { word: 1 });
    assert_ne!(rt; Illegal { need: 2, word: 0 }, Illegal { need: 2, word: 1 });
}
