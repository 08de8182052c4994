ghost use Rattle.std.specs.Prelude.{◌≡◌, ℕ, ◌≤◌, ◌<◌, List, [], Option, Some, OnOk, IfOk, OnErr, MatchResult, ◌⊎◌, length, take};
ghost use Rattle.std.specs.Io.{WritesAtMost};
ghost use Rattle.std.specs.Io.KnownBytes.{Appends, WriteAppends};
ghost use Rattle.shared_io.specs.Counts.{Rose, counted};

use std::alloc::Global;
use std::io::{ErrorKind, Write};
use std::marker::Model;
use thiserror::Error;

/// Why a sink took nothing.
#[derive(Clone, Copy, Debug, PartialEq, Eq, Error)]
pub enum SinkFault {
    #[error("the sink failed")]
    Failed,
    #[error("the sink had no memory")]
    Memory,
}

/// Where bytes are written to.
pub trait Sink {
    /// The bytes that it took, where it tells them.
    ghost taken: { Self → Option (List ℕ) };

    /// How often it has failed. The count never falls, and stands still at 2^64 - 1.
    ghost faults: { Self → ℕ };

    /// How often it has wanted memory. The count never falls, and stands still at 2^64 - 1.
    ghost refusals: { Self → ℕ };

    /// Takes bytes from the front of the piece, and answers how many. To take none of a piece that
    /// isn't empty is a failure of the sink, and counted as one. A write that takes bytes counts
    /// neither a failure nor want of memory.
    fn write(&mut self, piece: &[u8]) -> Result<usize, SinkFault>
        ensures bound { WritesAtMost result piece.now }
        ensures bytes { WriteAppends (taken self.old) (taken self.new) result piece.now }
        ensures faults { faults self.old ≤ faults self.new }
        ensures refusals { refusals self.old ≤ refusals self.new }
        ensures kept { IfOk result (λ count. 0 < count → faults self.new ≡ faults self.old) }
        ensures unrefused { OnOk result (refusals self.new ≡ refusals self.old) }
        ensures failed { result ≡ Err SinkFault.Failed → Rose (faults self.old) (faults self.new) }
        ensures memory { result ≡ Err SinkFault.Memory → Rose (refusals self.old) (refusals self.new) }
        ensures nothing { result ≡ Ok 0 → 0 < length piece.now → Rose (faults self.old) (faults self.new) };
}

/// Writes all the bytes, piece after piece. After an error the sink has taken some bytes from the
/// front and no others, and no error is passed over.
pub fn write_whole<K: Sink>(sink: &mut K, bytes: &[u8]) -> Result<(), SinkFault>
    ensures whole { OnOk result (Appends (K.taken sink.old) (K.taken sink.new) bytes.now) }
    ensures front { (count : ℕ) × (count ≤ length bytes.now) × Appends (K.taken sink.old) (K.taken sink.new) (take count bytes.now) }
    ensures faults { K.faults sink.old ≤ K.faults sink.new }
    ensures refusals { K.refusals sink.old ≤ K.refusals sink.new }
    ensures kept { OnOk result ((K.faults sink.new ≡ K.faults sink.old) × (K.refusals sink.new ≡ K.refusals sink.old)) }
    ensures failed { result ≡ Err SinkFault.Failed → Rose (K.faults sink.old) (K.faults sink.new) }
    ensures memory { result ≡ Err SinkFault.Memory → Rose (K.refusals sink.old) (K.refusals sink.new) }
{
    let mut done = 0;
    while done < bytes.len() {
        match sink.write(&bytes[done..])? {
            0 => return Err(SinkFault::Failed),
            count => done += count,
        }
    }
    Ok(())
}

/// A sink over a writer of std. A write that wants memory is a refusal, and every other error, and a
/// write that takes nothing, is a failure.
#[derive(Debug, Drop)]
pub struct WriteSink<W> {
    writer: W,
    faults: u64,
    refusals: u64,
}

impl<W: Write> WriteSink<W> {
    pub fn new(writer: W) -> Self
        ensures writer { result.writer ≡ writer }
        ensures faults { result.faults ≡ 0 }
        ensures refusals { result.refusals ≡ 0 }
    {
        WriteSink {
            writer,
            faults: 0,
            refusals: 0,
        }
    }
}

impl<W: Write> Sink for WriteSink<W> {
    ghost taken = { λ s. W.contents s.writer };

    ghost faults = { λ s. s.faults };

    ghost refusals = { λ s. s.refusals };

    fn write(&mut self, piece: &[u8]) -> Result<usize, SinkFault>
        ensures bound { WritesAtMost result piece.now }
        ensures bytes { WriteAppends (W.contents self.old.writer) (W.contents self.new.writer) result piece.now }
        ensures faults { self.old.faults ≤ self.new.faults }
        ensures refusals { self.old.refusals ≤ self.new.refusals }
        ensures taken { IfOk result (λ count. (0 < count ⊎ (length piece.now ≡ 0)) → self.new.faults ≡ self.old.faults) }
        ensures unrefused { OnOk result (self.new.refusals ≡ self.old.refusals) }
        ensures failed { result ≡ Err SinkFault.Failed → Rose self.old.faults self.new.faults × (self.new.refusals ≡ self.old.refusals) }
        ensures memory { result ≡ Err SinkFault.Memory → Rose self.old.refusals self.new.refusals × (self.new.faults ≡ self.old.faults) }
        ensures nothing { result ≡ Ok 0 → 0 < length piece.now → Rose self.old.faults self.new.faults }
    {
        match self.writer.write(piece) {
            Ok(count) => {
                if count == 0 && !piece.is_empty() {
                    self.faults = self.faults.saturating_add(1);
                }
                Ok(count)
            }
            Err(error) => {
                if error.kind() == ErrorKind::OutOfMemory {
                    self.refusals = self.refusals.saturating_add(1);
                    Err(SinkFault::Memory)
                } else {
                    self.faults = self.faults.saturating_add(1);
                    Err(SinkFault::Failed)
                }
            }
        }
    }
}

/// A sink in memory, which fails only for want of memory. Contracts see the bytes that it took and
/// how often it has wanted memory.
#[derive(Debug, Drop)]
pub struct SureSink {
    bytes: Vec<u8>,
    refusals: u64,
}

impl Model for SureSink {
    ghost use Rattle.shared_io.specs.Collected.{Collected};

    ghost Value = { Collected };

    ghost view = { λ s. record { bytes = s.bytes.items; refusals = s.refusals } };
}

impl SureSink {
    pub fn new(alloc: Global) -> Self
        ensures bytes { result.bytes ≡ [] }
        ensures refusals { result.refusals ≡ 0 }
    {
        SureSink {
            bytes: Vec::new(alloc),
            refusals: 0,
        }
    }

    /// The bytes that it took.
    pub fn taken(&self) -> &[u8]
        ensures { result.now ≡ self.now.bytes }
    {
        self.bytes.as_slice()
    }
}

impl Sink for SureSink {
    ghost taken = { λ s. Some s.bytes };

    ghost faults = { λ _. 0 };

    ghost refusals = { λ s. s.refusals };

    fn write(&mut self, piece: &[u8]) -> Result<usize, SinkFault>
        ensures bytes { WriteAppends (Some self.old.bytes) (Some self.new.bytes) result piece.now }
        ensures answer { MatchResult result (λ count. count ≡ length piece.now) (λ fault. fault ≡ SinkFault.Memory) }
        ensures refusals { self.old.refusals ≤ self.new.refusals }
        ensures unrefused { OnOk result (self.new.refusals ≡ self.old.refusals) }
        ensures refused { OnErr result (self.new.refusals ≡ counted self.old.refusals) }
    {
        match self.bytes.extend_from_slice(piece) {
            Ok(()) => Ok(piece.len()),
            Err(_) => {
                self.refusals = self.refusals.saturating_add(1);
                Err(SinkFault::Memory)
            }
        }
    }
}
