//! How a run ends.

ghost use Rattle.std.specs.Prelude.{◌≡◌};
ghost use Rattle.salt_promise.specs.Status.{ends_between, number_of};

use salt_place::{PlaceKind, Shape};
use std::fmt;

/// How a run ends, and with which number as the program's exit status.
#[derive(Clone, Copy, Debug, PartialEq, Eq)]
pub enum Status {
    /// 0: the script was read to its end, and all was written.
    Done,
    /// 1: memory ran out.
    Memory,
    /// 2: the words are no command, nor `audit`; nothing was read or written.
    Usage,
    /// 3: the source failed.
    ReadFault,
    /// 4: the sink failed.
    WriteFault,
    /// 5: the devices failed while they were opened.
    DiskFault,
    /// 6: the bytes of this device are not a database's.
    NotSalt(u32),
    /// 7: this device is full.
    DeviceFull(u32),
    /// 8: another shape stands on the devices than the one asked for.
    OtherShape { kept: Shape, asked: Shape },
    /// 9: the script has more than 16,777,216 bytes.
    ScriptTooLong,
    /// 10: the boot or the decision number is at least 2^63.
    NumbersSpent { boot: u64, decisions: u64 },
    /// 11: the transcript breaks a law.
    Broken,
    /// 12: the transcript is no text of a formed story.
    Unread,
    /// 13: the transcript has more than 67,108,864 bytes.
    TranscriptTooLong,
}

impl Status {
    /// Whether a run ends so between two lines: it is done, its source failed, or its script is too long.
    pub fn is_between(self) -> bool
        ensures { result ≡ ends_between self }
    {
        matches!(
            self,
            Status::Done | Status::ReadFault | Status::ScriptTooLong
        )
    }

    /// The exit status of the program.
    pub fn number(self) -> u8
        ensures { result ≡ number_of self }
    {
        match self {
            Status::Done => 0,
            Status::Memory => 1,
            Status::Usage => 2,
            Status::ReadFault => 3,
            Status::WriteFault => 4,
            Status::DiskFault => 5,
            Status::NotSalt(_) => 6,
            Status::DeviceFull(_) => 7,
            Status::OtherShape { .. } => 8,
            Status::ScriptTooLong => 9,
            Status::NumbersSpent { .. } => 10,
            Status::Broken => 11,
            Status::Unread => 12,
            Status::TranscriptTooLong => 13,
        }
    }
}

/// The name of how rows are spread.
fn kind_name(kind: PlaceKind) -> &'static str {
    match kind {
        PlaceKind::Remainder => "remainder",
        PlaceKind::Bands => "bands",
    }
}

/// Why the run ended, as it is told on standard error.
impl fmt::Display for Status {
    fn fmt<W: fmt::Write>(&self, f: &mut fmt::Formatter<W>) -> fmt::Result {
        match self {
            Status::Done => write!(f, "done"),
            Status::Memory => write!(f, "no memory"),
            Status::Usage => write!(
                f,
                "usage: salt run [--parts N] [--dir PATH] [--place KIND] or salt load N"
            ),
            Status::ReadFault => write!(f, "the script could not be read"),
            Status::WriteFault => write!(f, "the output could not be written"),
            Status::DiskFault => write!(f, "a disk failed while opening"),
            Status::NotSalt(device) => write!(f, "device {device} is not a Salt device"),
            Status::DeviceFull(device) => write!(f, "device {device} is full"),
            Status::OtherShape { kept, asked } => write!(
                f,
                "the database has {} parts by {}, asked were {} parts by {}",
                kept.parts,
                kind_name(kept.kind),
                asked.parts,
                kind_name(asked.kind)
            ),
            Status::ScriptTooLong => write!(f, "the script is longer than 16777216 bytes"),
            Status::NumbersSpent { boot, decisions } => {
                write!(f, "numbers are spent: boot {boot}, decisions {decisions}")
            }
            Status::Broken => write!(f, "a law is broken"),
            Status::Unread => write!(f, "not a transcript"),
            Status::TranscriptTooLong => {
                write!(f, "the transcript is longer than 67108864 bytes")
            }
        }
    }
}
