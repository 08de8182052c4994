ghost use Rattle.std.specs.Prelude.{◌≡◌, ◌≤◌, ◌<◌, Some, OnErr, OnOk, IfOk, length, min, is_err};
ghost use Rattle.std.specs.Io.{ReadsAtMost};
ghost use Rattle.std.specs.Io.KnownBytes.{ReadConsumes};
ghost use Rattle.shared_io.specs.Counts.{counted};
ghost use Rattle.shared_io.specs.Chosen.{is_chosen};

use crate::sources::{Failed, Source, SureSource};
use std::marker::Model;

/// A source in memory that fails at chosen calls, and gives at most so many bytes at once. Contracts
/// see the bytes that it has left, how often it was called and how often it has failed.
#[derive(Debug, Drop)]
pub struct TextSource {
    bytes: SureSource,
    fails: Vec<u64>,
    piece: usize,
    calls: u64,
    faults: u64,
}

impl Model for TextSource {
    ghost use Rattle.std.specs.Prelude.{◌<◌};
    ghost use Rattle.shared_io.specs.Chosen.{ChosenSource};

    ghost Value = { ChosenSource };

    ghost view = { λ s. record {
      left = s.bytes;
      fails = s.fails.items;
      piece = s.piece;
      calls = s.calls;
      faults = s.faults;
    } };

    ghost invariant = { λ s. 0 < s.piece };
}

impl TextSource {
    /// The calls are counted from 1, and those whose numbers are listed fail.
    pub fn new(bytes: Vec<u8>, fails: Vec<u64>, piece: usize) -> Self
        requires { 0 < piece }
        ensures { result ≡ record {
          left = bytes.items;
          fails = fails.items;
          piece = piece;
          calls = 0;
          faults = 0;
        } }
    {
        TextSource {
            bytes: SureSource::new(bytes),
            fails,
            piece,
            calls: 0,
            faults: 0,
        }
    }
}

/// Whether the call is one of those that fail.
pub fn fails_at(fails: &[u64], call: u64) -> bool
    ensures { result ≡ is_chosen fails.now call }
{
    fails.contains(&call)
}

impl Source for TextSource {
    ghost left = { λ s. Some s.left };

    ghost faults = { λ s. s.faults };

    fn read(&mut self, into: &mut [u8]) -> Result<usize, Failed>
        ensures bound { ReadsAtMost result into.new }
        ensures bytes { ReadConsumes (Some self.old.left) (Some self.new.left) result into.new }
        ensures chosen { is_err result ≡ is_chosen self.old.fails (counted self.old.calls) }
        ensures given { IfOk result (λ count. count ≡ min (min (length into.new) self.old.piece) (length self.old.left)) }
        ensures calls { self.new.calls ≡ counted self.old.calls }
        ensures count { self.old.faults ≤ self.new.faults }
        ensures kept { OnOk result (self.new.faults ≡ self.old.faults) }
        ensures failed { OnErr result (self.new.faults ≡ counted self.old.faults) }
        ensures fails { self.new.fails ≡ self.old.fails }
        ensures piece { self.new.piece ≡ self.old.piece }
    {
        self.calls = self.calls.saturating_add(1);
        if fails_at(&self.fails, self.calls) {
            self.faults = self.faults.saturating_add(1);
            return Err(Failed);
        }
        let room = into.len().min(self.piece);
        self.bytes.read(&mut into[..room])
    }
}
