ghost use Rattle.std.specs.Prelude.{◌≡◌, ◌≤◌, ◌<◌, [], Some, true, false, IfOk, OnOk, MatchResult, length, min};
ghost use Rattle.std.specs.Io.{WritesAtMost};
ghost use Rattle.std.specs.Io.KnownBytes.{WriteAppends};
ghost use Rattle.shared_io.specs.Counts.{Rose, counted};
ghost use Rattle.shared_io.specs.Chosen.{is_chosen};

use crate::sinks::{Sink, SinkFault, SureSink};
use crate::text_source::fails_at;
use std::alloc::Global;
use std::marker::Model;

/// A sink in memory that fails at chosen calls, and takes at most so many bytes at once. Contracts see
/// the bytes that it took, how often it was called, has failed and has wanted memory.
#[derive(Debug, Drop)]
pub struct TextSink {
    bytes: SureSink,
    fails: Vec<u64>,
    piece: usize,
    calls: u64,
    faults: u64,
}

impl Model for TextSink {
    ghost use Rattle.shared_io.specs.Chosen.{ChosenSink};

    ghost Value = { ChosenSink };

    ghost view = { λ s. record {
      taken = s.bytes;
      fails = s.fails.items;
      piece = s.piece;
      calls = s.calls;
      faults = s.faults;
    } };
}

impl TextSink {
    /// The calls are counted from 1, and those whose numbers are listed fail. With a piece of 0 it
    /// takes nothing.
    pub fn new(alloc: Global, fails: Vec<u64>, piece: usize) -> Self
        ensures { result ≡ record {
          taken = record { bytes = []; refusals = 0 };
          fails = fails.items;
          piece = piece;
          calls = 0;
          faults = 0;
        } }
    {
        TextSink {
            bytes: SureSink::new(alloc),
            fails,
            piece,
            calls: 0,
            faults: 0,
        }
    }

    /// The bytes that it took.
    pub fn taken(&self) -> &[u8]
        ensures { result.now ≡ self.now.taken.bytes }
    {
        self.bytes.taken()
    }
}

impl Sink for TextSink {
    ghost taken = { λ s. Some s.taken.bytes };

    ghost faults = { λ s. s.faults };

    ghost refusals = { λ s. s.taken.refusals };

    fn write(&mut self, piece: &[u8]) -> Result<usize, SinkFault>
        ensures bound { WritesAtMost result piece.now }
        ensures bytes { WriteAppends (Some self.old.taken.bytes) (Some self.new.taken.bytes) result piece.now }
        ensures chosen { is_chosen self.old.fails (counted self.old.calls) ≡ true → result ≡ Err SinkFault.Failed }
        ensures others { is_chosen self.old.fails (counted self.old.calls) ≡ false
            → MatchResult result (λ count. count ≡ min (length piece.now) self.old.piece) (λ fault. fault ≡ SinkFault.Memory) }
        ensures calls { self.new.calls ≡ counted self.old.calls }
        ensures faults { self.old.faults ≤ self.new.faults }
        ensures refusals { self.old.taken.refusals ≤ self.new.taken.refusals }
        ensures kept { IfOk result (λ count. 0 < count → self.new.faults ≡ self.old.faults) }
        ensures unrefused { OnOk result (self.new.taken.refusals ≡ self.old.taken.refusals) }
        ensures failed { result ≡ Err SinkFault.Failed → Rose self.old.faults self.new.faults }
        ensures memory { result ≡ Err SinkFault.Memory → Rose self.old.taken.refusals self.new.taken.refusals }
        ensures nothing { result ≡ Ok 0 → 0 < length piece.now → Rose self.old.faults self.new.faults }
        ensures fails { self.new.fails ≡ self.old.fails }
        ensures piece { self.new.piece ≡ self.old.piece }
    {
        self.calls = self.calls.saturating_add(1);
        if fails_at(&self.fails, self.calls) {
            self.faults = self.faults.saturating_add(1);
            return Err(SinkFault::Failed);
        }
        let count = piece.len().min(self.piece);
        if count == 0 && !piece.is_empty() {
            self.faults = self.faults.saturating_add(1);
            return Ok(0);
        }
        self.bytes.write(&piece[..count])
    }
}
