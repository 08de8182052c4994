use edge_text::{Edge, EdgeFault, EdgeList, read_edges, write_edge, write_weighted};
use shared_io::{SureSource, TextSource, TooKind};
use std::alloc::{AllocError, Global};
use std::test::Fail;

fn read_whole(alloc: Global, text: &[u8]) -> Result<Result<EdgeList, EdgeFault>, AllocError> {
    let mut source = SureSource::new(text.to_vec(alloc)?);
    Ok(read_edges(alloc, &mut source))
}

fn read_by_bytes(alloc: Global, text: &[u8]) -> Result<Result<EdgeList, EdgeFault>, AllocError> {
    let mut source = TextSource::new(text.to_vec(alloc)?, Vec::new(alloc), 1);
    Ok(read_edges(alloc, &mut source))
}

// Texts, whether their edges lead both ways, and their edges.
const ACCEPTED: [(&[u8], bool, &[Edge]); 9] = [
    (b"", false, &[]),
    (b"\n \t\r\n# c 1 x\n  #\n", false, &[]),
    (
        b"# c\r\n0\t3\r\n 3  0 \n\n0 0",
        false,
        &[
            Edge {
                from: 0,
                to: 3,
                weight: 1,
            },
            Edge {
                from: 3,
                to: 0,
                weight: 1,
            },
            Edge {
                from: 0,
                to: 0,
                weight: 1,
            },
        ],
    ),
    (
        b"0016777215 00000000000000000000000000007\n",
        false,
        &[Edge {
            from: 16777215,
            to: 7,
            weight: 1,
        }],
    ),
    (
        b"%pgas 2 both\n1 0 7\n",
        true,
        &[Edge {
            from: 1,
            to: 0,
            weight: 7,
        }],
    ),
    (
        b"%pgas \t 2  directed \r\n\n1 0 4294967295\n2 2\n",
        false,
        &[
            Edge {
                from: 1,
                to: 0,
                weight: 4294967295,
            },
            Edge {
                from: 2,
                to: 2,
                weight: 1,
            },
        ],
    ),
    (b"%pgas 2 both", true, &[]),
    (
        b"1 2\n",
        false,
        &[Edge {
            from: 1,
            to: 2,
            weight: 1,
        }],
    ),
    (
        b"1 2 ",
        false,
        &[Edge {
            from: 1,
            to: 2,
            weight: 1,
        }],
    ),
];

#[test]
fn accepted_texts_give_their_edges_and_their_direction(rt: HostRuntime) -> Result<(), Fail> {
    for (text, both, want) in ACCEPTED {
        let whole = read_whole(rt.alloc(), text)??;
        assert_eq!(rt; whole.edges.as_slice(), want, "for {text:?}");
        assert_eq!(rt; whole.both, both, "for {text:?}");
        let dripped = read_by_bytes(rt.alloc(), text)??;
        assert_eq!(rt;
            dripped.edges.as_slice(),
            want,
            "for {text:?}, byte by byte"
        );
        assert_eq!(rt; dripped.both, both, "for {text:?}, byte by byte");
    }
    Ok(())
}

#[test]
fn other_texts_are_refused_at_their_first_byte(rt: HostRuntime) -> Result<(), Fail> {
    let bad = |line: u64| EdgeFault::BadLine { line };
    let large = |kind: TooKind, line: u64| EdgeFault::TooLarge { kind, line };
    let rows: [(&'static [u8], EdgeFault); 30] = [
        (b"1", bad(1)),
        (b"1 ", bad(1)),
        (b"1,2", bad(1)),
        (b"-1 2", bad(1)),
        (b"+1 2", bad(1)),
        (b"1 2 3", bad(1)),
        (b"1 2#", bad(1)),
        (b"%", bad(1)),
        (b"\x00", bad(1)),
        (b"\xff", bad(1)),
        (b"x 16777216\n", bad(1)),
        (b"0 1\n1 x\n", bad(2)),
        (b"0 1\n1\n", bad(2)),
        (b"0 1\n\n# c\n1\r\n2 3\n", bad(4)),
        (b"0 16777216\n", large(TooKind::Id, 1)),
        (b"16777216", large(TooKind::Id, 1)),
        (b"\n99999999999999999999999 x\n", large(TooKind::Id, 2)),
        (b" %pgas 2 both\n", bad(1)),
        (b"%pgas 3 directed\n", bad(1)),
        (b"%pgas 2 bothx\n", bad(1)),
        (b"%pgas 2 bot\n", bad(1)),
        (b"%pgas 2\n", bad(1)),
        (b"%pgas 2 both 1\n", bad(1)),
        (b"\n%pgas 2 both\n", bad(2)),
        (b"0 1\n%pgas 2 both\n", bad(2)),
        (
            b"%pgas 2 directed\n0 1 4294967296\n",
            large(TooKind::Weight, 2),
        ),
        (
            b"%pgas 2 directed\n0 1 42949672950\n",
            large(TooKind::Weight, 2),
        ),
        (b"%pgas 2 directed\n0 1 2 3\n", bad(2)),
        (b"%pgas 2 directed\n%pgas 2 directed\n", bad(2)),
        (b"0 1\r2\n", bad(1)),
    ];
    for (text, want) in rows {
        let whole = read_whole(rt.alloc(), text)?;
        assert_eq!(rt; whole.err(), Some(want), "for {text:?}");
        let dripped = read_by_bytes(rt.alloc(), text)?;
        assert_eq!(rt; dripped.err(), Some(want), "for {text:?}, byte by byte");
    }
    Ok(())
}

#[test]
fn a_failed_read_is_told_unless_a_refusal_came_before(rt: HostRuntime) -> Result<(), Fail> {
    // The fifth byte is the `x`; the call that fails is counted from 1.
    let rows = [
        (5, EdgeFault::ReadFault),
        (6, EdgeFault::BadLine { line: 2 }),
    ];
    for (fails, want) in rows {
        let bytes = b"0 1\nx".to_vec(rt.alloc())?;
        let mut source = TextSource::new(bytes, vec![in rt.alloc(); fails]?, 1);
        let answer = read_edges(rt.alloc(), &mut source);
        assert_eq!(rt; answer.err(), Some(want), "failing at call {fails}");
    }
    Ok(())
}

#[test]
fn a_line_may_lie_across_pieces(rt: HostRuntime) -> Result<(), Fail> {
    let one = Edge {
        from: 1234,
        to: 567,
        weight: 1,
    };
    let mut text = Vec::new(rt.alloc());
    for _ in 0..10000 {
        text.extend_from_slice(write_edge(one).as_bytes())?;
    }
    let list = read_edges(rt.alloc(), &mut SureSource::new(text))?;
    assert_eq!(rt; list.edges.len(), 10000);
    assert!(rt; list.edges.iter().all(|edge| *edge == one));
    Ok(())
}

#[test]
fn an_edge_is_written_with_its_weight(rt: HostRuntime) -> Result<(), Fail> {
    let longest = Edge {
        from: 16777215,
        to: 16777215,
        weight: 4294967295,
    };
    let line = write_weighted(longest);
    assert_eq!(rt; line.as_str(), "16777215 16777215 4294967295\n");
    let least = Edge {
        from: 0,
        to: 7,
        weight: 0,
    };
    assert_eq!(rt; write_weighted(least).as_str(), "0 7 0\n");
    let mut text = b"%pgas 2 both\n".to_vec(rt.alloc())?;
    text.extend_from_slice(line.as_bytes())?;
    text.extend_from_slice(write_weighted(least).as_bytes())?;
    let list = read_edges(rt.alloc(), &mut SureSource::new(text))?;
    assert!(rt; list.both);
    assert_eq!(rt; list.edges.as_slice(), [longest, least].as_slice());
    Ok(())
}
