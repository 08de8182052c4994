ghost use Rattle.std.specs.Prelude.{IfOk};
ghost use Rattle.script_text.specs.Scripts.{IsValid, plain_script};

use script_text::{
    Call, Left, ObjectLine, Replies, Reply, Script, ScriptFault, inputs_mean_one, read_script,
    write_replies, write_script,
};
use shared_io::{SureSource, TextSource, TooKind};
use std::alloc::Global;
use std::test::Fail;

const ROW: &[u8] =
    b"pgas 1\nobject deque 1 1\ncallers 1\ncaller 0\npush_back 1\npush_front 2\npop_back\ntry pop_back\nend\n";

fn read(alloc: Global, text: &[u8]) -> Result<Script, ScriptFault>
    ensures { IfOk result (λ script. IsValid (plain_script script)) }
{
    let mut source = SureSource::new(Vec::from_slice(alloc, text)?);
    read_script(alloc, &mut source)
}

fn bad(line: u64) -> ScriptFault {
    ScriptFault::BadLine { line }
}

const DEQUE: &[u8] = b"pgas 1\nobject deque 1 1\ncallers 1\ncaller 0\n";

const BAG: &[u8] = b"pgas 1\nobject bag 1 1 1\ncallers 1\ncaller 0\n";

const LIST: &[u8] = b"pgas 1\nobject list 1 2 2\ncallers 1\ncaller 0\n";

// Texts that are refused, and at which line: something is wrong of each line of the grammar.
const REFUSED: [(&[u8], &[u8], u64); 54] = [
    (b"", b"", 1),
    (b"", b"\n", 2),
    (b"", b"# c", 1),
    (b"", b"pgaz", 1),
    (b"", b"pgas", 1),
    (b"", b"pgas \n", 1),
    (b"", b"pgas 2", 1),
    (b"", b"pgas 01", 1),
    (b"", b"pgas 1 1", 1),
    (b"", b"pgas 1 #", 1),
    (b"", b"pgas 1\n", 2),
    (b"", b"pgas 1\npgas 1\n", 2),
    (b"", b"pgas 1\nobject\n", 2),
    (b"", b"pgas 1\nobject epochs", 2),
    (b"", b"pgas 1\nobject list 0\n", 2),
    (b"", b"pgas 1\nobject list 17", 2),
    (b"", b"pgas 1\nobject list 1 1\n", 2),
    (b"", b"pgas 1\nobject list 1 1048577", 2),
    (b"", b"pgas 1\nobject list 16 524289", 2),
    (b"", b"pgas 1\nobject list 16 524288 1", 2),
    (b"", b"pgas 1\nobject list 16 524288 3", 2),
    (b"", b"pgas 1\nobject list 1 2 1\n", 2),
    (b"", b"pgas 1\nobject list 1 2 4097", 2),
    (b"", b"pgas 1\nobject list 1 2 2 2", 2),
    (b"", b"pgas 1\nobject bag 1 65", 2),
    (b"", b"pgas 1\nobject bag 1 64 16777217", 2),
    (b"", b"pgas 1\nobject bag 1 64 0\n", 2),
    (b"", b"pgas 1\nobject deque 1 16777217", 2),
    (b"", b"pgas 1\nobject deque 1\n", 2),
    (b"", b"pgas 1\nobject deque 1 1\ncallers 0\n", 3),
    (b"", b"pgas 1\nobject deque 1 1\ncallers 65", 3),
    (b"", b"pgas 1\nobject list 1 2 2\ncallers 2", 3),
    (b"", b"pgas 1\nobject bag 1 1 1\ncallers 65", 3),
    (b"", b"pgas 1\nobject deque 1 1\ncallers 2\ncaller 2", 4),
    (
        b"",
        b"pgas 1\nobject deque 1 1\ncallers 2\ncaller 0\ntry",
        5,
    ),
    (b"", b"pgas 1\nobject deque 1 1\ncallers 1\n", 4),
    (b"", b"pgas 1\nobject deque 1 1\ncallers 1\npop_back", 4),
    (b"", b"pgas 1\nobject deque 1 1\ncallers 1\ncaller 1", 4),
    (DEQUE, b"# c\nadd", 6),
    (DEQUE, b"push_back\n", 5),
    (DEQUE, b"push_back 18446744073709551616", 5),
    (DEQUE, b"push_back 1 2", 5),
    (DEQUE, b"try round", 5),
    (DEQUE, b"try\n", 5),
    (DEQUE, b"round\npop_back", 6),
    (DEQUE, b"push_back 1\nend x", 6),
    (BAG, b"remove 1", 5),
    (BAG, b"len", 5),
    (LIST, b"read\n", 5),
    (LIST, b"write 1\n", 5),
    (LIST, b"swap 1 2\n", 5),
    (LIST, b"add 1\n", 5),
    (LIST, b"grow x", 5),
    (LIST, b"len 1", 5),
];

#[test]
fn refuses_lines(rt: HostRuntime) -> Result<(), Fail> {
    for (head, rest, line) in REFUSED {
        let mut text = Vec::from_slice(rt.alloc(), head)?;
        text.extend_from_slice(rest)?;
        assert_eq!(rt; read(rt.alloc(), &text).err(), Some(bad(line)));
    }
    Ok(())
}

#[test]
fn reads_each_call(rt: HostRuntime) -> Result<(), Fail> {
    let text =
        b"\t# c\n\r\n  pgas\t1 \r\nobject list 01 002 2\ncallers 1\n# x\ncaller 0\nread 1\nwrite 1 2\nswap 1 2 3\nadd 1 18446744073709551615\ncaller 00\ngrow 4\n\nlen\nround\ncaller 0\n len \nend#";
    assert_eq!(rt; read(rt.alloc(), text).err(), Some(bad(19)));
    let script = read(rt.alloc(), &text[..text.len() - 1])?;
    assert_eq!(rt;
        script.object,
        ObjectLine::List {
            locales: 1,
            objects: 2,
            width: 2
        }
    );
    assert_eq!(rt; script.rounds.len(), 2);
    assert_eq!(rt; script.rounds[0].calls.len(), 1);
    assert_eq!(rt; script.rounds[0].calls[0].len(), 6);
    Ok(())
}

// Cut anywhere before its last LF a script is refused at the line where it was cut.
#[test]
fn refuses_a_script_that_is_cut(rt: HostRuntime) -> Result<(), Fail> {
    let mut line = 1u64;
    for end in 0..ROW.len() {
        if end + 1 < ROW.len() {
            assert_eq!(rt; read(rt.alloc(), &ROW[..end]).err(), Some(bad(line)));
        } else {
            assert!(rt; read(rt.alloc(), &ROW[..end]).is_ok());
        }
        if ROW[end] == b'\n' {
            line = line.saturating_add(1);
        }
    }
    assert!(rt; read(rt.alloc(), ROW).is_ok());
    Ok(())
}

#[test]
fn writes_replies(rt: HostRuntime) -> Result<(), Fail> {
    let replies = Replies {
        callers: vec![in rt.alloc();
            vec![in rt.alloc();
                Reply::Pushed,
                Reply::Full,
                Reply::Took { item: 1 },
                Reply::Empty
            ]?,
        ]?,
        left: Left::Items {
            items: vec![in rt.alloc(); 8, 7]?,
        },
    };
    let text = write_replies(rt.alloc(), &replies)?;
    assert_eq!(rt;
        text.as_str(),
        "caller 0\npushed\nfull\ntook 1\nempty\nleft 8 7\n"
    );
    Ok(())
}

// The written form of a script that is written so already is the same text.
#[test]
fn writes_what_it_reads(rt: HostRuntime) -> Result<(), Fail> {
    let rows: [&[u8]; 5] = [
        ROW,
        b"pgas 1\nobject list 1 4 2\ncallers 1\ncaller 0\nwrite 1 7\ngrow 3\nread 1\nread 3\nread 4\ngrow 5\nswap 0 0 9\nswap 0 0 8\nadd 0 18446744073709551615\nend\n",
        b"pgas 1\nobject bag 1 1 2\ncallers 1\ncaller 0\nadd 5\nadd 6\nadd 7\ntry remove\nround\nround\ncaller 0\ntry add 1\nremove\nend\n",
        b"pgas 1\nobject deque 16 16777216\ncallers 1\nend\n",
        b"pgas 1\nobject deque 2 4\ncallers 64\ncaller 0\npush_back 1\ncaller 63\npop_front\nround\ncaller 63\npush_front 2\nend\n",
    ];
    for text in rows {
        let script = read(rt.alloc(), text)?;
        let written = write_script(rt.alloc(), &script)?;
        assert_eq!(rt; written.as_bytes(), text);
    }
    Ok(())
}

fn many_calls(alloc: Global, calls: u32) -> Result<Vec<u8>, Fail> {
    let mut text = Vec::from_slice(alloc, b"pgas 1\nobject list 1 2 2\ncallers 1\ncaller 0\n")?;
    for _ in 0..calls {
        text.extend_from_slice(b"len\n")?;
    }
    text.extend_from_slice(b"end\n")?;
    Ok(text)
}

#[test]
fn counts_calls(rt: HostRuntime) -> Result<(), Fail> {
    let script = read(rt.alloc(), &many_calls(rt.alloc(), 1 << 20)?)?;
    assert_eq!(rt; script.rounds.len(), 1);
    let many = read(rt.alloc(), &many_calls(rt.alloc(), (1 << 20) + 1)?);
    assert_eq!(rt;
        many.err(),
        Some(ScriptFault::TooLarge {
            kind: TooKind::Calls,
            line: (1 << 20) + 5
        })
    );
    Ok(())
}

#[test]
fn the_law_of_inputs_holds() {
    inputs_mean_one();
}

// Of a script of 9 lines in pieces of 16 bytes each read fails in turn, once only, and is told; behind the
// line `end` no read is made.
#[test]
fn a_failed_read_is_told_once(rt: HostRuntime) -> Result<(), Fail> {
    let calls = ROW.len().div_ceil(16) as u64;
    for fails in 1..=calls {
        let fail = vec![in rt.alloc(); fails]?;
        let mut source = TextSource::new(ROW.to_vec(rt.alloc())?, fail, 16);
        let answer = read_script(rt.alloc(), &mut source);
        assert_eq!(rt;
            answer.err(),
            Some(ScriptFault::ReadFault),
            "failing at call {fails}"
        );
    }
    let fail = vec![in rt.alloc(); calls + 1]?;
    let mut source = TextSource::new(ROW.to_vec(rt.alloc())?, fail, 16);
    assert!(rt; read_script(rt.alloc(), &mut source).is_ok());
    Ok(())
}

// Each number at its limit may stand, and one past it is refused at its line.
#[test]
fn numbers_have_limits(rt: HostRuntime) -> Result<(), Fail> {
    let rows: [(&[u8], &[u8], u64); 7] = [
        (b"object list 16 524288 2", b"object list 16 524289", 2),
        (b"object list 1 8192 4094", b"object list 1 8192 4095", 2),
        (b"object bag 16 64 16777216", b"object bag 17", 2),
        (b"object deque 16 16777216", b"object deque 16 16777217", 2),
        (
            b"object bag 1 1 1\ncallers 64",
            b"object bag 1 1 1\ncallers 65",
            3,
        ),
        (
            b"object list 1 2 2\ncallers 1",
            b"object list 1 2 2\ncallers 2",
            3,
        ),
        (
            b"object deque 1 1\ncallers 2\ncaller 1",
            b"object deque 1 1\ncallers 2\ncaller 2",
            4,
        ),
    ];
    for (within, past, line) in rows {
        for (text, want) in [(within, None), (past, Some(bad(line)))] {
            let mut bytes = Vec::from_slice(rt.alloc(), b"pgas 1\n")?;
            bytes.extend_from_slice(text)?;
            bytes.extend_from_slice(b"\n?")?;
            let refused = text.iter().filter(|byte| **byte == b'\n').count() as u64;
            let fault = read(rt.alloc(), &bytes).err();
            assert_eq!(rt; fault, want.or(Some(bad(refused.saturating_add(3)))));
        }
    }
    Ok(())
}
