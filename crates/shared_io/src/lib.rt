//! Where bytes come from, where they go, which limits they keep, and where a worker may be held.
//!
//! A `Source` and a `Sink` tell contracts which bytes they have left and which they took, where they
//! know it, and count their own failures. So a caller can promise that it reports a failure only
//! where one happened. A `Gate` is a point that a worker passes, for tests that need two threads to
//! be at work at once.
#![tactic(auto)]

mod gates;
mod limits;
mod sinks;
mod sources;
mod text_sink;
mod text_source;

pub use gates::{Gate, OpenGate, Point};
pub use limits::TooKind;
pub use sinks::{Sink, SinkFault, SureSink, WriteSink, write_whole};
pub use sources::{Failed, ReadSource, Source, SureSource};
pub use text_sink::TextSink;
pub use text_source::TextSource;
