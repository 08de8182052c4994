//! The words of headers and of heads of stacks.

use pool_core::{
    FreeWord, Header, State, free_word, header, of_free_word, of_header, released, returned, shown,
    taken,
};

#[test]
fn headers_have_these_words(rt: HostRuntime) {
    let rows = [
        (0, State::Free, 0),
        (7, State::Shown, 58),
        (u32::MAX, State::Worn, 34_359_738_363),
    ];
    for (count, state, word) in rows {
        assert_eq!(rt; header(count, state), word);
        assert_eq!(rt; of_header(word), Some(Header { count, state }));
    }
    for word in [4, 7, 1 << 35, u64::MAX] {
        assert_eq!(rt; of_header(word), None, "{word}");
    }
}

#[test]
fn a_worn_object_had_the_last_count(rt: HostRuntime) {
    let count = 4;
    assert_eq!(rt;
        taken(Header {
            count,
            state: State::Free
        }),
        33
    );
    assert_eq!(rt;
        shown(Header {
            count,
            state: State::Own
        }),
        34
    );
    assert_eq!(rt;
        returned(Header {
            count,
            state: State::Own
        }),
        32
    );
    assert_eq!(rt;
        released(Header {
            count,
            state: State::Shown
        }),
        40
    );
    let last = Header {
        count: u32::MAX,
        state: State::Shown,
    };
    assert_eq!(rt; released(last), 34_359_738_363);
}

#[test]
fn free_heads_have_these_words(rt: HostRuntime) {
    assert_eq!(rt; free_word(5, 3), 83_886_083);
    assert_eq!(rt; of_free_word(83_886_083), FreeWord { count: 5, index: 3 });
    assert_eq!(rt;
        of_free_word(u64::MAX),
        FreeWord {
            count: (1 << 40) - 1,
            index: 0xff_ffff
        }
    );
}
