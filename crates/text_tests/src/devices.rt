//! A gate through its bound, and a writer that wants memory.

use shared_io::{Gate, OpenGate, Point, Sink, SinkFault, WriteSink, write_whole};
use std::io;
use std::io::{ErrorKind, Write};
use std::sync::Wait;

fn pass_all<G: Gate, R: Wait>(rt: &R, gate: &G) {
    let points = [
        Point::Removed { vertex: 0 },
        Point::Worked { vertex: 0 },
        Point::Before { call: 1 },
        Point::After { call: 1 },
    ];
    for point in points {
        gate.pass(rt, 0, point);
    }
}

/// A writer that wants memory after its first byte.
#[derive(Drop)]
struct Full {
    room: usize,
}

impl Write for Full {
    fn write(&mut self, buf: &[u8]) -> io::Result<usize> {
        if self.room == 0 {
            return Err(io::Error::from(ErrorKind::OutOfMemory));
        }
        let count = buf.len().min(self.room);
        self.room -= count;
        Ok(count)
    }

    fn flush(&mut self) -> io::Result<()> {
        Ok(())
    }
}

#[test]
fn an_open_gate_holds_nobody(rt: HostRuntime) {
    pass_all(&rt, &OpenGate);
}

#[test]
fn want_of_memory_is_no_failure(rt: HostRuntime) {
    let mut sink = WriteSink::new(Full { room: 1 });
    assert_eq!(rt; write_whole(&mut sink, b"ab"), Err(SinkFault::Memory));
    assert_eq!(rt; sink.write(b""), Err(SinkFault::Memory));
}
