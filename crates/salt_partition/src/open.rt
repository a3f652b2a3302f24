//! A partition is opened from the bytes of its devices.

ghost use Rattle.salt_disk.specs.Disks.{HasCause, IsSettled, KeepsAll, OnlyFails};
ghost use Rattle.salt_gatelog.specs.Pair.{pair_err};
ghost use Rattle.salt_partition.specs.Openings.{HasChosen, IsPairWhy, IsWhy, OpensAs, has_pages};
ghost use Rattle.salt_partition.specs.Contents.{log_of};
ghost use Rattle.salt_stands.specs.Partition.{pages_device, part_device};
ghost use Rattle.std.specs.Prelude.{IfErr, IfOk, IsTrue, ◌+◌, ◌<◌, ◌≡◌};

use crate::contents::{ReadLog, content_of};
use crate::devices::{log_a, log_of, pages_of};
use crate::generations::{Side, counting_log};
use crate::known::is_known_log;
use crate::partition::Partition;
use crate::rows::rows_of;
use salt_codec::has_nulls;
use salt_disk::Disks;
use salt_gatelog::PairErr;
use salt_values::{Id, Ids};
use std::alloc::Global;

/// The log of the partition's pair that counts. `NotSalt` exactly of the device that a fault of the pair counts against.
pub fn chosen_log<D: Disks>(
    alloc: Global,
    disks: &mut D,
    part: u8,
) -> Result<(Side, ReadLog), PairErr>
    requires known { pages_device part < (D.view disks.old).count }
    requires settled_a { IsSettled (D.view disks.old) (part_device part) }
    requires settled_b { IsSettled (D.view disks.old) (part_device part + 1) }
    ensures chosen { IfOk result (λ chosen. HasChosen (D.view disks.old) (D.view disks.new) part chosen.0 chosen.1) }
    ensures why { IsTrue (D.view disks.old).told → IfErr result (IsPairWhy (D.view disks.old).bytes part) }
    ensures kept { KeepsAll (D.view disks.old) (D.view disks.new) (pair_err result) }
    ensures cause { HasCause (D.view disks.old) (D.view disks.new) (pair_err result) }
    ensures answers { OnlyFails (pair_err result) }
{
    let a = content_of(alloc, disks, log_a(part), part)?;
    let b = content_of(alloc, disks, log_a(part) + 1, part)?;
    match counting_log(a, b) {
        Ok(chosen) => Ok(chosen),
        Err(side) => Err(PairErr::NotSalt(log_of(part, side))),
    }
}

fn has_pages(log: &ReadLog) -> bool
    ensures { result ≡ has_pages (log_of log.now) }
{
    !log.header.sides.is_empty()
}

/// Opens a partition on whose logs nothing is pending, under a coordinator of this boot that has decided these units with the
/// partition's bit: their changes are its rows, and units that are not decided leave nothing in them. It writes nothing.
///
/// `NotSalt` exactly of the device that a fault counts against: of the pair of logs, of a log that names a later boot or lacks
/// a decided unit, or of the pages where a log names some, which are not read yet.
pub fn open_partition<D: Disks>(
    alloc: Global,
    disks: &mut D,
    part: u8,
    boot: u64,
    decided: &Ids,
) -> Result<Partition, PairErr>
    requires known { pages_device part < (D.view disks.old).count }
    requires settled_a { IsSettled (D.view disks.old) (part_device part) }
    requires settled_b { IsSettled (D.view disks.old) (part_device part + 1) }
    ensures opens { IfOk result (λ x. OpensAs (D.view disks.old) (D.view disks.new) x boot decided.now part) }
    ensures why { IsTrue (D.view disks.old).told → IfErr result (IsWhy (D.view disks.old).bytes boot decided.now part) }
    ensures kept { KeepsAll (D.view disks.old) (D.view disks.new) (pair_err result) }
    ensures cause { HasCause (D.view disks.old) (D.view disks.new) (pair_err result) }
    ensures answers { OnlyFails (pair_err result) }
{
    let (side, found) = chosen_log(alloc, disks, part)?;
    let known = is_known_log(alloc, boot, decided.as_slice(), &found)?;
    if !known {
        return Err(PairErr::NotSalt(log_of(part, side)));
    }
    if has_pages(&found) {
        return Err(PairErr::NotSalt(pages_of(part)));
    }
    let ReadLog { log, header, units } = found;
    let (rows, last) = rows_of(alloc, decided.as_slice(), units)?;
    Ok(Partition {
        alloc,
        part,
        nulls: has_nulls(header.format),
        log,
        last,
        rows,
    })
}
