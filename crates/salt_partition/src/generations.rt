//! Which log of a pair counts.

ghost use Rattle.salt_partition.specs.Choices.{IsChosen};
ghost use Rattle.salt_partition.specs.Contents.{content_seen};
ghost use Rattle.salt_stands.specs.PartitionLog.{partition_generation};
ghost use Rattle.std.specs.Prelude.{◌≡◌};

use crate::contents::{LogContent, ReadLog};
use salt_gatelog::follows;

/// A log of a pair.
#[derive(Clone, Copy, Debug, PartialEq, Eq)]
pub enum Side {
    A,
    B,
}

/// Of two logs, the one whose generation is the next after the other's.
fn later_of(a: ReadLog, b: ReadLog) -> Result<(Side, ReadLog), Side>
    ensures { IsChosen (LogContent.Read a) (LogContent.Read b) result }
{
    if follows(a.header.generation, b.header.generation) {
        Ok((Side::B, b))
    } else if follows(b.header.generation, a.header.generation) {
        Ok((Side::A, a))
    } else {
        Err(Side::B)
    }
}

/// The log of a pair that counts, or the log that the pair's fault counts against.
pub fn counting_log(a: LogContent, b: LogContent) -> Result<(Side, ReadLog), Side>
    ensures { IsChosen a b result }
{
    match (a, b) {
        (LogContent::Outside, _) => Err(Side::A),
        (_, LogContent::Outside) => Err(Side::B),
        (LogContent::Blank, LogContent::Blank) => Err(Side::B),
        (LogContent::Blank, LogContent::Read(b)) => Ok((Side::B, b)),
        (LogContent::Read(a), LogContent::Blank) => Ok((Side::A, a)),
        (LogContent::Read(a), LogContent::Read(b)) => later_of(a, b),
    }
}
