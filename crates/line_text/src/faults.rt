ghost use Rattle.std.specs.Prelude.{◌≡◌};
ghost use Rattle.line_text.specs.declared.faults.TextFault.TheVariants.{OutOfMemory, ReadFault};

use shared_io::{Failed, TooKind};
use std::alloc::{AllocError, AllocFailed};
use thiserror::Error;

/// Why a text was not read. Lines are counted from 1.
#[derive(Clone, Copy, Debug, PartialEq, Eq, Error)]
pub enum TextFault {
    /// The line has a byte with which no line can go on in its place, or it ends too early, or the
    /// input ends where the text doesn't.
    #[error("bad line {line}")]
    BadLine { line: u64 },
    /// At the line the input exceeds a limit.
    #[error("too large at line {line}")]
    TooLarge { kind: TooKind, line: u64 },
    /// The source failed, and nothing that was read before is refused.
    #[error("read failed")]
    ReadFault,
    #[error("out of memory")]
    OutOfMemory,
}

impl From<Failed> for TextFault {
    ghost from_gives = { λ _ fault. fault ≡ ReadFault };

    fn from(_: Failed) -> Self {
        TextFault::ReadFault
    }
}

impl From<AllocError> for TextFault {
    ghost from_gives = { λ _ fault. fault ≡ OutOfMemory };

    fn from(_: AllocError) -> Self {
        TextFault::OutOfMemory
    }
}

impl<T: Drop> From<AllocFailed<T>> for TextFault {
    ghost from_gives = { λ _ fault. fault ≡ OutOfMemory };

    fn from(_: AllocFailed<T>) -> Self {
        TextFault::OutOfMemory
    }
}
