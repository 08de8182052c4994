ghost use Rattle.std.specs.Prelude.{◌≡◌, ℕ, ◌≤◌, take, length};
ghost use Rattle.std.specs.Io.KnownBytes.{Appends};
ghost use Rattle.pgas_top.specs.Devices.{sink_change};
ghost use Rattle.pgas_top.specs.Statuses.{number_of, line_of, limit_name, IsTold};

use arrayvec::ArrayString;
use itoa::Buffer;
use line_text::TextFault;
use shared_io::{Sink, SinkFault, TooKind, write_whole};
use std::alloc::AllocError;

/// How a run of the program ended.
#[derive(Clone, Copy, Debug, PartialEq, Eq)]
pub enum Status {
    /// The whole text was written.
    Done,
    /// The words name no command. Nothing was read or written.
    BadWords,
    /// The line of the input can't be one of the command's form. Lines are counted from 1.
    BadInput { line: u64 },
    /// The source failed. Nothing was written.
    ReadFault,
    /// The sink failed, and has taken the front of the text.
    WriteFault,
    /// Memory ran out. The sink has taken nothing, or the front of the text.
    OutOfMemory,
    /// The line of the input is the first that exceeds a limit.
    TooLarge { kind: TooKind, line: u64 },
}

impl Status {
    /// The program's exit status.
    pub fn number(self) -> u8
        ensures { result ≡ number_of self }
    {
        match self {
            Status::Done => 0,
            Status::BadWords => 2,
            Status::BadInput { line: _ } => 3,
            Status::ReadFault => 4,
            Status::WriteFault => 5,
            Status::OutOfMemory => 6,
            Status::TooLarge { .. } => 7,
        }
    }

    /// The line that says it on the sink for faults, with its LF. `Done` has none.
    fn line(self) -> ArrayString<64>
        ensures { result.bytes ≡ line_of self }
    {
        let mut text = ArrayString::new();
        match self {
            Status::Done => {}
            Status::BadWords => text.push_str("pgas: bad words\n"),
            Status::BadInput { line } => {
                text.push_str("pgas: bad line ");
                text.push_str(Buffer::new().format(line));
                text.push('\n');
            }
            Status::ReadFault => text.push_str("pgas: read failed\n"),
            Status::WriteFault => text.push_str("pgas: write failed\n"),
            Status::OutOfMemory => text.push_str("pgas: out of memory\n"),
            Status::TooLarge { kind, line } => {
                text.push_str("pgas: too large at line ");
                text.push_str(Buffer::new().format(line));
                text.push_str(": ");
                text.push_str(name_of(kind));
                text.push('\n');
            }
        }
        text
    }
}

impl From<TextFault> for Status {
    ghost use Rattle.std.specs.Prelude.{◌≡◌};
    ghost use Rattle.pgas_top.specs.Statuses.{text_status};

    ghost from_gives = { λ fault status. status ≡ text_status fault };

    fn from(fault: TextFault) -> Status {
        match fault {
            TextFault::BadLine { line } => Status::BadInput { line },
            TextFault::TooLarge { kind, line } => Status::TooLarge { kind, line },
            TextFault::ReadFault => Status::ReadFault,
            TextFault::OutOfMemory => Status::OutOfMemory,
        }
    }
}

impl From<AllocError> for Status {
    ghost use Rattle.std.specs.Prelude.{◌≡◌};
    ghost use Rattle.pgas_top.specs.declared.statuses.Status.TheVariants.{OutOfMemory};

    ghost from_gives = { λ _ status. status ≡ OutOfMemory };

    fn from(_: AllocError) -> Status {
        Status::OutOfMemory
    }
}

impl From<SinkFault> for Status {
    ghost use Rattle.std.specs.Prelude.{◌≡◌};
    ghost use Rattle.pgas_top.specs.Statuses.{sink_status};

    ghost from_gives = { λ fault status. status ≡ sink_status fault };

    fn from(fault: SinkFault) -> Status {
        match fault {
            SinkFault::Failed => Status::WriteFault,
            SinkFault::Memory => Status::OutOfMemory,
        }
    }
}

/// The limit's name, as it is printed.
fn name_of(kind: TooKind) -> &'static str
    ensures { result.now ≡ limit_name kind }
{
    match kind {
        TooKind::Id => "id",
        TooKind::Edges => "edges",
        TooKind::Bytes => "bytes",
        TooKind::Weight => "weight",
        TooKind::Calls => "calls",
        TooKind::Steps => "steps",
    }
}

/// Writes the status's line on the sink for faults, and answers the status. The line is whole, unless
/// the sink refuses a write: then a front of it stands there.
pub fn report<F: Sink>(status: Status, faults: &mut F) -> Status
    ensures status { result ≡ status }
    ensures told { IsTold (sink_change F.taken F.faults F.refusals faults.old faults.new) (line_of status) }
{
    let line = status.line();
    let _ = write_whole(faults, line.as_bytes());
    status
}
