//! The program `pgas`: hands its words and the standard streams to `run`, and ends with the status.
#![tactic(auto)]

mod words;

use crate::words::words;
use pgas_top::{report, run};
use shared_io::{OpenGate, ReadSource, WriteSink};
use std::process::ExitCode;

fn main(rt: HostRuntime) -> ExitCode {
    let mut source = ReadSource::new(rt.stdin());
    let mut sink = WriteSink::new(rt.stdout());
    let mut faults = WriteSink::new(rt.stderr());
    let status = match words(&rt, rt.alloc()) {
        Ok(words) => run(
            &rt,
            rt.alloc(),
            words.as_slice(),
            &mut source,
            &mut sink,
            &mut faults,
            &OpenGate,
        ),
        Err(status) => report(status, &mut faults),
    };
    ExitCode::from(status.number())
}
