//! The program over sources and sinks in memory, also such as fail at chosen calls, and over a reader
//! and a writer that fail.

use pgas_top::{Status, report, run};
use shared_io::{
    OpenGate, ReadSource, Sink, Source, SureSink, SureSource, TextSink, TextSource, TooKind,
    WriteSink,
};
use std::io;
use std::io::{ErrorKind, Read, Write};
use std::process::Abort;
use std::sync::Wait;
use std::test::Fail;
use std::thread::Threads;

/// A reader that fails behind its bytes.
#[derive(Drop)]
struct Torn<'a> {
    bytes: &'a [u8],
}

impl Read for Torn<'_> {
    fn read(&mut self, buf: &mut [u8]) -> io::Result<usize> {
        if self.bytes.is_empty() {
            return Err(io::Error::from(ErrorKind::BrokenPipe));
        }
        let count = buf.len().min(self.bytes.len());
        buf[..count].copy_from_slice(&self.bytes[..count]);
        self.bytes = &self.bytes[count..];
        Ok(count)
    }
}

/// A writer that takes so many bytes, and then fails for this cause.
#[derive(Drop)]
struct Cut {
    room: usize,
    cause: ErrorKind,
}

impl Write for Cut {
    fn write(&mut self, buf: &[u8]) -> io::Result<usize> {
        if self.room == 0 {
            return Err(io::Error::from(self.cause));
        }
        let count = buf.len().min(self.room);
        self.room -= count;
        Ok(count)
    }

    fn flush(&mut self) -> io::Result<()> {
        Ok(())
    }
}

/// Runs the words, and answers the status and the line on the sink for faults.
fn run_words<R: AllocGlobal + Threads + Wait + Sync, S: Source, K: Sink>(
    rt: &R,
    words: &[&str],
    source: &mut S,
    sink: &mut K,
) -> Result<(Status, String), Fail> {
    let mut owned = Vec::new(rt.alloc());
    for word in words {
        owned.push(String::from_str(rt.alloc(), word)?)?;
    }
    let mut faults = SureSink::new(rt.alloc());
    let status = run(
        rt,
        rt.alloc(),
        owned.as_slice(),
        source,
        sink,
        &mut faults,
        &OpenGate,
    );
    let line = String::from_utf8_lossy(rt.alloc(), faults.taken())?;
    Ok((status, line))
}

const PATH: &str = "0 1\n1 2\n0 2\n";

const PATH_LEVELS: &str = "0 0\n1 1\n2 1\n# reached 3 depth 1\n";

const DEQUE: &str =
    "pgas 1\nobject deque 1 1\ncallers 1\ncaller 0\npush_back 1\npush_front 2\npop_back\ntry pop_back\nend\n";

const DEQUE_REPLIES: &str = "caller 0\npushed\nfull\ntook 1\nempty\nleft\n";

const LIST: &str =
    "pgas 1\nobject list 1 4 2\ncallers 1\ncaller 0\nwrite 1 7\ngrow 3\nread 1\nread 3\nread 4\ngrow 5\nswap 0 0 9\nswap 0 0 8\nadd 0 18446744073709551615\nend\n";

const LIST_REPLIES: &str =
    "caller 0\nwrote\nlen 4\nvalue 7\nvalue 0\nrange 4\ntoo long\nwas 0\nwas 9\nwas 9\nleft 8 7 0 0\n";

const BAG: &str =
    "  pgas\t1 \r\n# a bag\r\n\r\nobject bag 1 1 2\ncallers 1\ncaller 0\nadd 6\nadd 5\nround\ncaller 0\nremove\nend";

const BAG_REPLIES: &str = "caller 0\nadded\nadded\ntook 5\nleft 6\n";

// Words, what comes in, and what is written.
const WRITTEN: [(&[&str], &str, &str); 13] = [
    (&["plain", "0"], PATH, PATH_LEVELS),
    (&["plain", "0"], "", "0 0\n# reached 1 depth 0\n"),
    (&["plain", "5"], "0 1\n", "5 0\n# reached 1 depth 0\n"),
    (
        &["plain", "0"],
        "%pgas 2 both\n1 0 7\n",
        "0 0\n1 1\n# reached 2 depth 1\n",
    ),
    (
        &["plain", "0"],
        "# c\r\n0\t3\r\n3 0\r\n0 3\r\n0 0",
        "0 0\n3 1\n# reached 2 depth 1\n",
    ),
    (
        &["plain", "0,3"],
        "0 1\n3 2\n2 1\n",
        "0 0\n1 1\n2 1\n3 0\n# reached 4 depth 1\n",
    ),
    (
        &["plain", "1,0,1"],
        "0 1\n",
        "0 0\n1 0\n# reached 2 depth 0\n",
    ),
    (
        &["make", "--edges=3", "--seed", "0", "--vertices=010"],
        "",
        "1 4\n6 7\n1 3\n",
    ),
    (
        &[
            "make",
            "--vertices=1",
            "--edges",
            "01",
            "--seed",
            "18446744073709551615",
        ],
        "",
        "0 0\n",
    ),
    (
        &["make", "--vertices=16777216", "--edges=0", "--seed=0"],
        "",
        "",
    ),
    (&["run"], DEQUE, DEQUE_REPLIES),
    (&["run"], LIST, LIST_REPLIES),
    (&["run"], BAG, BAG_REPLIES),
];

#[test]
fn texts_are_written(rt: HostRuntime) -> Result<(), Fail> {
    for (words, input, text) in WRITTEN {
        for piece in [1, 1000] {
            let bytes = Vec::from_slice(rt.alloc(), input.as_bytes())?;
            let mut source = TextSource::new(bytes, Vec::new(rt.alloc()), piece);
            let mut sink = TextSink::new(rt.alloc(), Vec::new(rt.alloc()), piece);
            let (status, line) = run_words(&rt, words, &mut source, &mut sink)?;
            assert_eq!(rt; status, Status::Done, "for {input:?}");
            assert_eq!(rt; line.as_str(), "");
            assert_eq!(rt; sink.taken(), text.as_bytes());
        }
    }
    Ok(())
}

// Words, what comes in, and the line on its first bad line.
const BAD_LINES: [(&[&str], &str, &str); 11] = [
    (&["plain", "0"], "0 1\n1 x\n", "pgas: bad line 2\n"),
    (&["plain", "0"], "0 1\n1\n", "pgas: bad line 2\n"),
    (&["plain", "0"], "x 16777216\n", "pgas: bad line 1\n"),
    (&["plain", "0"], "%pgas 3 directed\n", "pgas: bad line 1\n"),
    (&["plain", "0"], "0 1\n%pgas 2 both\n", "pgas: bad line 2\n"),
    (
        &["run"],
        "pgas 1\nobject deque 1 1\ncallers 1\n",
        "pgas: bad line 4\n",
    ),
    (&["run"], "", "pgas: bad line 1\n"),
    (
        &["run"],
        "# a list\npgas 1\nobject list 1 1 2\n",
        "pgas: bad line 3\n",
    ),
    (
        &["run"],
        "pgas 1\nobject list 1 2 2\ncallers 2\nend\n",
        "pgas: bad line 3\n",
    ),
    (
        &["run"],
        "pgas 1\nobject epochs 1 1 1 1\ncallers 1\nend\n",
        "pgas: bad line 2\n",
    ),
    (
        &["run"],
        "pgas 1\nobject bag 1 1 1\ncallers 1\nadd 1\nend\n",
        "pgas: bad line 4\n",
    ),
];

#[test]
fn bad_lines_are_told(rt: HostRuntime) -> Result<(), Fail> {
    for (words, input, told) in BAD_LINES {
        let mut source = SureSource::new(Vec::from_slice(rt.alloc(), input.as_bytes())?);
        let mut sink = SureSink::new(rt.alloc());
        let (status, line) = run_words(&rt, words, &mut source, &mut sink)?;
        assert_eq!(rt; status.number(), 3);
        assert_eq!(rt; line.as_str(), told);
        assert_eq!(rt; sink.taken(), b"".as_slice());
    }
    Ok(())
}

// Words, parted by spaces, that are no command.
const BAD_WORDS: [&str; 42] = [
    "",
    "plain",
    "plain 16777216",
    "plain -1",
    "plain +1",
    "plain 0 0",
    "plain 0,",
    "plain ,0",
    "plain 0,,1",
    "plain -h",
    "plain --help",
    "plain -- 0",
    "plain 0 --",
    "plain --",
    "plain -",
    "plan 0",
    "run x",
    "run --help",
    "make",
    "make --seed 0 --vertices 1",
    "make --seed 0 --vertices 1 --edges",
    "make --seed 0 --vertices 1 --edges 0 0",
    "make --seed 0 --vertices 1 --edges 0 --help",
    "make --seed 0 --vertices 1 --edges 0 --",
    "make --seed 0 --seed 0 --vertices 1 --edges 0",
    "make --seed 1 --seed 2 --edges 0",
    "make --seed 18446744073709551616 --vertices 1 --edges 0",
    "make --seed 0 --vertices 0 --edges 0",
    "make --seed 0 --vertices 16777217 --edges 0",
    "make --seed 0 --vertices 1 --edges 33554433",
    "make --seed 0 --vertices 1 --edges +1",
    "make --seed -0 --vertices 1 --edges 1",
    "make --seed 0 --vertices 1 --edge 0",
    "make --seed 0 --vertices 1 -edges 0",
    "make --seed= --vertices 1 --edges 0",
    "make --seed=0 --seed=0 --vertices=1 --edges=0",
    "make --seed=0 --vertices=1 --edges=0 --",
    "make --s 0 --vertices 1 --edges 0",
    "make --seed 0 --vertices 1 --edges -",
    "make --seed 0 --vertices --edges 1 0",
    "make 0 1 0",
    "make --help",
];

#[test]
fn bad_words_are_told(rt: HostRuntime) -> Result<(), Fail> {
    for text in BAD_WORDS {
        check_bad_words(&rt, text)?;
    }
    Ok(())
}

/// The words of the text, parted by spaces, are bad words, and nothing is read or written.
fn check_bad_words<R: AllocGlobal + Abort + Threads + Wait + Sync>(
    rt: &R,
    text: &str,
) -> Result<(), Fail> {
    let mut words = Vec::new(rt.alloc());
    for word in text.split(' ') {
        words.push(word)?;
    }
    let mut source = SureSource::new(Vec::from_slice(rt.alloc(), b"0 1\n")?);
    let mut sink = SureSink::new(rt.alloc());
    let (status, line) = run_words(rt, words.as_slice(), &mut source, &mut sink)?;
    assert_eq!(rt; status.number(), 2, "for {text:?}");
    assert_eq!(rt; line.as_str(), "pgas: bad words\n");
    assert_eq!(rt; sink.taken(), b"".as_slice());
    let mut rest = [0u8; 8];
    assert_eq!(rt; source.read(&mut rest), Ok(4), "nothing was read");
    Ok(())
}

#[test]
fn no_words_and_65_sources_are_bad_words(rt: HostRuntime) -> Result<(), Fail> {
    let mut source = SureSource::new(Vec::new(rt.alloc()));
    let mut sink = SureSink::new(rt.alloc());
    let (status, _) = run_words(&rt, &[], &mut source, &mut sink)?;
    assert_eq!(rt; status, Status::BadWords);
    let mut list = String::from_str(rt.alloc(), "0")?;
    for _ in 1..64 {
        list.push_str(",0")?;
    }
    let (status, _) = run_words(&rt, &["plain", list.as_str()], &mut source, &mut sink)?;
    assert_eq!(rt; status, Status::Done);
    list.push_str(",0")?;
    let (status, _) = run_words(&rt, &["plain", list.as_str()], &mut source, &mut sink)?;
    assert_eq!(rt; status, Status::BadWords);
    Ok(())
}

#[test]
fn the_greatest_source_is_a_vertex(rt: HostRuntime) -> Result<(), Fail> {
    let mut source = SureSource::new(Vec::new(rt.alloc()));
    let mut sink = SureSink::new(rt.alloc());
    let (status, _) = run_words(&rt, &["plain", "0016777215"], &mut source, &mut sink)?;
    assert_eq!(rt; status, Status::Done);
    let text = b"16777215 0\n# reached 1 depth 0\n";
    assert_eq!(rt; sink.taken(), text.as_slice());
    Ok(())
}

/// A made list is written in pieces of at most 4,096 bytes, and a write that fails leaves a front of it.
#[test]
fn a_made_list_that_is_not_taken_has_its_front_written(rt: HostRuntime) -> Result<(), Fail> {
    let words = ["make", "--seed=7", "--vertices=16777216", "--edges=1000"];
    let mut source = SureSource::new(Vec::new(rt.alloc()));
    let mut whole = SureSink::new(rt.alloc());
    let (status, _) = run_words(&rt, &words, &mut source, &mut whole)?;
    assert_eq!(rt; status, Status::Done);
    let mut sink = TextSink::new(rt.alloc(), Vec::from_slice(rt.alloc(), &[3])?, usize::MAX);
    let (status, line) = run_words(&rt, &words, &mut source, &mut sink)?;
    assert_eq!(rt; status, Status::WriteFault);
    assert_eq!(rt; line.as_str(), "pgas: write failed\n");
    let taken = sink.taken().len();
    assert!(rt; 0 < taken && taken <= 2 * 4096);
    assert!(rt; whole.taken().starts_with(sink.taken()));
    Ok(())
}

/// Each read fails in turn, and that one alone: what comes behind it isn't asked for. The list of two
/// lines is read a byte at a time, so its end is the ninth read.
#[test]
fn each_read_that_fails_is_told(rt: HostRuntime) -> Result<(), Fail> {
    for call in 1..=10 {
        let bytes = Vec::from_slice(rt.alloc(), b"0 1\n1 2\n")?;
        let mut source = TextSource::new(bytes, Vec::from_slice(rt.alloc(), &[call])?, 1);
        let mut sink = SureSink::new(rt.alloc());
        let (status, line) = run_words(&rt, &["plain", "0"], &mut source, &mut sink)?;
        if call < 10 {
            assert_eq!(rt; status.number(), 4, "at read {call}");
            assert_eq!(rt; line.as_str(), "pgas: read failed\n");
            assert_eq!(rt; sink.taken(), b"".as_slice());
        } else {
            assert_eq!(rt; status, Status::Done);
        }
    }
    Ok(())
}

/// Each write fails in turn, and that one alone: the sink has what it took before, three bytes at a
/// time. The text has 32 bytes, so a twelfth write isn't made.
#[test]
fn each_write_that_fails_is_told(rt: HostRuntime) -> Result<(), Fail> {
    for call in 1..=12u64 {
        let mut source = ReadSource::new(PATH.as_bytes());
        let mut sink = TextSink::new(rt.alloc(), Vec::from_slice(rt.alloc(), &[call])?, 3);
        let (status, line) = run_words(&rt, &["plain", "0"], &mut source, &mut sink)?;
        if call < 12 {
            let taken = call as usize * 3 - 3;
            assert_eq!(rt; status.number(), 5, "at write {call}");
            assert_eq!(rt; line.as_str(), "pgas: write failed\n");
            assert_eq!(rt; sink.taken(), &PATH_LEVELS.as_bytes()[..taken]);
        } else {
            assert_eq!(rt; status, Status::Done);
            assert_eq!(rt; sink.taken(), PATH_LEVELS.as_bytes());
        }
    }
    Ok(())
}

#[test]
fn a_sink_that_takes_nothing_is_told(rt: HostRuntime) -> Result<(), Fail> {
    let mut source = ReadSource::new(DEQUE.as_bytes());
    let mut sink = TextSink::new(rt.alloc(), Vec::new(rt.alloc()), 0);
    let (status, line) = run_words(&rt, &["run"], &mut source, &mut sink)?;
    assert_eq!(rt; status.number(), 5);
    assert_eq!(rt; line.as_str(), "pgas: write failed\n");
    assert_eq!(rt; sink.taken(), b"".as_slice());
    Ok(())
}

#[test]
fn readers_and_writers_that_fail_are_told(rt: HostRuntime) -> Result<(), Fail> {
    let mut source = ReadSource::new(Torn {
        bytes: b"pgas 1\nobject",
    });
    let mut sink = SureSink::new(rt.alloc());
    let (status, _) = run_words(&rt, &["run"], &mut source, &mut sink)?;
    assert_eq!(rt; status, Status::ReadFault);
    let cases = [
        (ErrorKind::BrokenPipe, Status::WriteFault),
        (ErrorKind::OutOfMemory, Status::OutOfMemory),
    ];
    for (cause, want) in cases {
        let mut source = ReadSource::new(PATH.as_bytes());
        let mut sink = WriteSink::new(Cut { room: 3, cause });
        let (status, _) = run_words(&rt, &["plain", "0"], &mut source, &mut sink)?;
        assert_eq!(rt; status, want);
    }
    Ok(())
}

#[test]
fn a_script_ends_at_its_end_line(rt: HostRuntime) -> Result<(), Fail> {
    let mut input = String::from_str(rt.alloc(), DEQUE)?;
    input.push_str("pop_back\n")?;
    let mut source = TextSource::new(input.into_bytes(), Vec::new(rt.alloc()), 1);
    let mut sink = SureSink::new(rt.alloc());
    let (status, _) = run_words(&rt, &["run"], &mut source, &mut sink)?;
    assert_eq!(rt; status, Status::Done);
    let mut rest = [0u8; 1];
    assert_eq!(rt; source.read(&mut rest), Ok(1));
    assert_eq!(rt; rest, *b"p", "the line behind it is left");
    Ok(())
}

#[test]
fn inputs_past_a_limit_are_told(rt: HostRuntime) -> Result<(), Fail> {
    let cases = [
        ("0 16777216\n", "pgas: too large at line 1: id\n"),
        (
            "%pgas 2 directed\n0 1 4294967296\n",
            "pgas: too large at line 2: weight\n",
        ),
    ];
    for (input, told) in cases {
        let mut source = SureSource::new(Vec::from_slice(rt.alloc(), input.as_bytes())?);
        let mut sink = SureSink::new(rt.alloc());
        let (status, line) = run_words(&rt, &["plain", "0"], &mut source, &mut sink)?;
        assert_eq!(rt; status.number(), 7);
        assert_eq!(rt; line.as_str(), told);
        assert_eq!(rt; sink.taken(), b"".as_slice());
    }
    Ok(())
}

#[test]
fn limits_are_named(rt: HostRuntime) -> Result<(), Fail> {
    let cases = [
        (TooKind::Id, "pgas: too large at line 7: id\n"),
        (TooKind::Edges, "pgas: too large at line 7: edges\n"),
        (TooKind::Bytes, "pgas: too large at line 7: bytes\n"),
        (TooKind::Weight, "pgas: too large at line 7: weight\n"),
        (TooKind::Calls, "pgas: too large at line 7: calls\n"),
        (TooKind::Steps, "pgas: too large at line 7: steps\n"),
    ];
    for (kind, want) in cases {
        let mut faults = SureSink::new(rt.alloc());
        let status = report(Status::TooLarge { kind, line: 7 }, &mut faults);
        assert_eq!(rt; status.number(), 7);
        assert_eq!(rt; faults.taken(), want.as_bytes());
    }
    Ok(())
}
