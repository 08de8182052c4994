//! Scripts from their text to that of their replies.
ghost use Rattle.std.specs.Prelude.{IfOk};
ghost use Rattle.script_text.specs.Scripts.{IsValid, plain_script};

use script_engine::{answers_once, run_alone, run_script};
use script_text::{Script, ScriptFault, read_script, write_replies};
use shared_io::{Gate, OpenGate, Point, SureSource};
use std::alloc::Global;
use std::sync::Wait;
use std::sync::atomic::{AtomicU32, Ordering};
use std::test::Fail;
use std::thread;
use std::thread::Threads;

fn read(alloc: Global, text: &str) -> Result<Script, ScriptFault>
    ensures { IfOk result (λ script. IsValid (plain_script script)) }
{
    let Ok(bytes) = Vec::from_slice(alloc, text.as_bytes()) else {
        return Err(ScriptFault::OutOfMemory);
    };
    read_script(alloc, &mut SureSource::new(bytes))
}

// The text of the replies to the script.
fn replies(alloc: Global, text: &str) -> Result<String, Fail> {
    let Ok(script) = read(alloc, text) else {
        return Err("the script is not read".into());
    };
    if script.callers != 1 {
        return Err("the script has several callers".into());
    }
    let replies = run_alone(alloc, &script)?;
    Ok(write_replies(alloc, &replies)?)
}

#[test]
fn each_object_answers_its_calls(rt: HostRuntime) -> Result<(), Fail> {
    let rows = [
        (
            "pgas 1\nobject deque 1 1\ncallers 1\ncaller 0\npush_back 1\npush_front 2\npop_back\ntry pop_back\nend\n",
            "caller 0\npushed\nfull\ntook 1\nempty\nleft\n",
        ),
        (
            "pgas 1\nobject list 1 4 2\ncallers 1\ncaller 0\nwrite 1 7\ngrow 3\nread 1\nread 3\nread 4\ngrow 5\nswap 0 0 9\nswap 0 0 8\nadd 0 18446744073709551615\nend\n",
            "caller 0\nwrote\nlen 4\nvalue 7\nvalue 0\nrange 4\ntoo long\nwas 0\nwas 9\nwas 9\nleft 8 7 0 0\n",
        ),
        (
            "pgas 1\nobject bag 1 1 2\ncallers 1\ncaller 0\nremove\nadd 7\nadd 5\nadd 6\ntry remove\nend\n",
            "caller 0\nempty\nadded\nadded\nadded\ntook 6\nleft 5 7\n",
        ),
    ];
    for (script, want) in rows {
        assert_eq!(rt; replies(rt.alloc(), script)?.as_str(), want);
    }
    Ok(())
}

#[test]
fn rounds_go_on_where_the_last_one_ended(rt: HostRuntime) -> Result<(), Fail> {
    let rows = [
        (
            "pgas 1\nobject bag 1 1 1\ncallers 1\nend",
            "caller 0\nleft\n",
        ),
        (
            "pgas 1\nobject deque 2 2\ncallers 1\nround\ncaller 0\npush_back 1\nround\nround\ncaller 0\npush_front 2\ncaller 0\npop_back\nend\n",
            "caller 0\npushed\npushed\ntook 1\nleft 2\n",
        ),
    ];
    for (script, want) in rows {
        assert_eq!(rt; replies(rt.alloc(), script)?.as_str(), want);
    }
    Ok(())
}

// The same of the script on the objects that callers share, whose callers pass this gate.
fn gated_replies<R: Threads + Wait + Sync, G: Gate>(
    rt: &R,
    alloc: Global,
    text: &str,
    gate: &G,
) -> Result<String, Fail> {
    let Ok(script) = read(alloc, text) else {
        return Err("the script is not read".into());
    };
    let replies = run_script(rt, alloc, &script, gate)?;
    Ok(write_replies(alloc, &replies)?)
}

fn shared_replies<R: Threads + Wait + Sync>(
    rt: &R,
    alloc: Global,
    text: &str,
) -> Result<String, Fail> {
    gated_replies(rt, alloc, text, &OpenGate)
}

// How often a caller looks whether the others are there.
const LOOKS: u32 = 1 << 22;

// Holds each caller behind its first call until so many others have made theirs, and counts those that waited in vain.
#[derive(Drop)]
struct Meeting {
    callers: u32,
    arrived: AtomicU32,
    missed: AtomicU32,
}

impl Gate for Meeting {
    fn pass<R: Wait>(&self, _rt: &R, _worker: u32, point: Point) {
        if point != (Point::After { call: 0 }) {
            return;
        }
        self.arrived.fetch_add(1, Ordering::SeqCst);
        for _ in 0..LOOKS {
            if self.arrived.load(Ordering::SeqCst) >= self.callers {
                return;
            }
            thread::yield_now();
        }
        self.missed.fetch_add(1, Ordering::SeqCst);
    }
}

#[test]
fn a_shared_deque_answers_a_single_caller_as_the_plain_one(rt: HostRuntime) -> Result<(), Fail> {
    let rows = [
        "pgas 1\nobject deque 1 1\ncallers 1\ncaller 0\npush_back 1\npush_front 2\npop_back\ntry pop_back\nend\n",
        "pgas 1\nobject deque 2 2\ncallers 1\nround\ncaller 0\npush_back 1\nround\nround\ncaller 0\npush_front 2\ntry push_back 3\ncaller 0\npop_back\nend\n",
    ];
    for script in rows {
        let plain = replies(rt.alloc(), script)?;
        assert_eq!(rt;
            shared_replies(&rt, rt.alloc(), script)?.as_str(),
            plain.as_str()
        );
    }
    Ok(())
}

// A plain bag would take the third item.
#[test]
fn a_shared_bag_of_one_caller_is_full_where_its_segments_are(rt: HostRuntime) -> Result<(), Fail> {
    let rows = [
        (
            "pgas 1\nobject bag 1 1 2\ncallers 1\ncaller 0\nadd 5\nadd 6\nadd 7\ntry remove\nend\n",
            "caller 0\nadded\nadded\nfull\ntook 6\nleft 5\n",
        ),
        (
            "pgas 1\nobject bag 2 2 1\ncallers 1\ncaller 0\nremove\nadd 5\ntry add 4\ntry add 7\nremove\nadd 9\nend\n",
            "caller 0\nempty\nadded\nadded\nfull\ntook 5\nadded\nleft 4 9\n",
        ),
    ];
    for (script, want) in rows {
        assert_eq!(rt; shared_replies(&rt, rt.alloc(), script)?.as_str(), want);
    }
    Ok(())
}

// The second caller finds its own segment empty, and takes half of the other one.
#[test]
fn a_removal_steals_half_of_another_segment(rt: HostRuntime) -> Result<(), Fail> {
    let text =
        "pgas 1\nobject bag 2 1 8\ncallers 2\ncaller 0\nadd 1\nadd 2\nadd 3\nadd 4\nround\ncaller 1\nremove\nremove\nremove\nend\n";
    assert_eq!(rt;
        shared_replies(&rt, rt.alloc(), text)?.as_str(),
        "caller 0\nadded\nadded\nadded\nadded\ncaller 1\ntook 2\ntook 1\ntook 3\nleft 4\n"
    );
    Ok(())
}

// How often a line stands in a text.
fn count_lines(text: &str, line: &str) -> u32 {
    let mut count = 0u32;
    for found in text.lines() {
        if found == line {
            count = count.saturating_add(1);
        }
    }
    count
}

// Four items go in, and six removals of two callers take each once and find nothing twice.
#[test]
fn two_callers_take_each_item_of_a_bag_once(rt: HostRuntime) -> Result<(), Fail> {
    let text =
        "pgas 1\nobject bag 2 1 8\ncallers 2\ncaller 0\nadd 1\nadd 2\ncaller 1\nadd 3\nadd 4\nround\ncaller 0\nremove\nremove\nremove\ncaller 1\nremove\nremove\nremove\nend\n";
    for _ in 0..100 {
        let told = shared_replies(&rt, rt.alloc(), text)?;
        for (line, count) in [
            ("took 1", 1),
            ("took 2", 1),
            ("took 3", 1),
            ("took 4", 1),
            ("empty", 2),
            ("added", 4),
            ("left", 1),
        ] {
            assert_eq!(rt; count_lines(told.as_str(), line), count);
        }
    }
    Ok(())
}

// A script of 64 callers with 100 calls each: in the first 50 each adds items or pushes them, then it takes as many.
fn busy_script(alloc: Global, object: &str, gives: &str, takes: &str) -> Result<String, Fail> {
    let mut text = String::new(alloc);
    text.push_str("pgas 1\nobject ")?;
    text.push_str(object)?;
    text.push_str("\ncallers 64\n")?;
    for (call, in_next) in [(gives, true), (takes, false)] {
        for caller in 0..64u32 {
            text.push_str("caller ")?;
            text.push_str(caller.to_string(alloc)?.as_str())?;
            text.push_str("\n")?;
            for _ in 0..50 {
                text.push_str(call)?;
                text.push_str("\n")?;
            }
        }
        if in_next {
            text.push_str("round\n")?;
        }
    }
    text.push_str("end\n")?;
    Ok(text)
}

#[test]
fn sixty_four_callers_lose_and_double_nothing(rt: HostRuntime) -> Result<(), Fail> {
    let rows = [
        ("bag 16 4 50", "add 7", "remove", "added"),
        ("deque 4 3200", "push_back 7", "pop_front", "pushed"),
    ];
    for (object, gives, takes, given) in rows {
        let text = busy_script(rt.alloc(), object, gives, takes)?;
        let told = shared_replies(&rt, rt.alloc(), text.as_str())?;
        assert_eq!(rt; count_lines(told.as_str(), given), 3200);
        assert_eq!(rt; count_lines(told.as_str(), "took 7"), 3200);
        assert_eq!(rt; count_lines(told.as_str(), "left"), 1);
    }
    Ok(())
}

#[test]
fn a_later_round_comes_after(rt: HostRuntime) -> Result<(), Fail> {
    let text =
        "pgas 1\nobject deque 2 1\ncallers 3\ncaller 2\npush_back 7\nround\ncaller 0\npush_back 8\nround\ncaller 1\npop_front\nround\ncaller 2\npop_front\nend\n";
    assert_eq!(rt;
        shared_replies(&rt, rt.alloc(), text)?.as_str(),
        "caller 0\nfull\ncaller 1\ntook 7\ncaller 2\npushed\nempty\nleft\n"
    );
    Ok(())
}

// Which of two callers is first in a round is open, and every other answer is wrong.
#[test]
fn two_callers_push_in_one_round(rt: HostRuntime) -> Result<(), Fail> {
    let text =
        "pgas 1\nobject deque 1 4\ncallers 2\ncaller 0\npush_back 1\ncaller 1\npush_back 2\nround\ncaller 0\npop_front\npop_front\nend\n";
    for _ in 0..100 {
        let told = shared_replies(&rt, rt.alloc(), text)?;
        assert!(rt;
            told.as_str() == "caller 0\npushed\ntook 1\ntook 2\ncaller 1\npushed\nleft\n"
                || told.as_str() == "caller 0\npushed\ntook 2\ntook 1\ncaller 1\npushed\nleft\n"
        );
    }
    Ok(())
}

#[test]
fn the_callers_of_a_round_run_at_once(rt: HostRuntime) -> Result<(), Fail> {
    let rows = [
        (
            2,
            "pgas 1\nobject deque 1 4\ncallers 2\ncaller 0\npush_back 1\ncaller 1\npush_back 2\nround\ncaller 0\npop_front\nend\n",
        ),
        (
            2,
            "pgas 1\nobject bag 2 1 4\ncallers 2\ncaller 0\nadd 1\ncaller 1\nadd 2\nend\n",
        ),
        (
            3,
            "pgas 1\nobject deque 2 8\ncallers 4\ncaller 0\npush_back 1\ncaller 1\npush_back 2\ncaller 3\npush_back 3\nend\n",
        ),
    ];
    for (callers, script) in rows {
        let gate = Meeting {
            callers,
            arrived: AtomicU32::new(0),
            missed: AtomicU32::new(0),
        };
        gated_replies(&rt, rt.alloc(), script, &gate)?;
        assert_eq!(rt; gate.missed.load(Ordering::SeqCst), 0);
    }
    Ok(())
}

#[test]
fn the_law_of_answers_holds() {
    answers_once();
}
