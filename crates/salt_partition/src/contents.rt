//! What a device of a partition's pair of logs holds.

ghost use Rattle.salt_disk.specs.Disks.{HasCause, IsSettled, KeepsAll, OnlyFails};
ghost use Rattle.salt_gatelog.specs.Log.{IsLog, device_of};
ghost use Rattle.salt_partition.specs.Contents.{HasContent, IsContent};
ghost use Rattle.std.specs.Prelude.{IfOk, List, length, ℕ, ◌<◌, ◌≡◌};
ghost use Rattle.std.specs.Result.{result_err};

use crate::units::{header_at, read_units};
use salt_codec::{Header, PreparedUnit, has_nulls};
use salt_disk::{DiskErr, Disks};
use salt_gatelog::{GateLog, LogErr, open_log};
use std::alloc::Global;

/// A log that was read whole.
#[derive(Drop)]
pub struct ReadLog {
    pub log: GateLog,
    pub header: Header,
    pub units: Vec<PreparedUnit>,
}

/// What a device of the pair holds.
#[derive(Drop)]
pub enum LogContent {
    /// No entry.
    Blank,
    /// A log of this partition.
    Read(ReadLog),
    /// Bytes that are neither.
    Outside,
}

/// The log of a device, read whole, where it is one of this partition.
fn read_log<D: Disks>(
    alloc: Global,
    disks: &mut D,
    mut log: GateLog,
    part: u8,
) -> Result<LogContent, DiskErr>
    requires { (entries : List (List ℕ)) × (IsLog (D.view disks.old) log entries × (0 < length entries)) }
    ensures content { IfOk result (λ content. (entries : List (List ℕ)) → IsLog (D.view disks.old) log entries → 0 < length entries → HasContent (D.view disks.new) part (device_of log) entries content) }
    ensures kept { KeepsAll (D.view disks.old) (D.view disks.new) (result_err result) }
    ensures cause { HasCause (D.view disks.old) (D.view disks.new) (result_err result) }
    ensures answers { OnlyFails (result_err result) }
{
    let Some(header) = header_at(alloc, disks, &mut log)? else {
        return Ok(LogContent::Outside);
    };
    if header.part != part {
        return Ok(LogContent::Outside);
    }
    match read_units(alloc, disks, &mut log, has_nulls(header.format))? {
        Some(units) => Ok(LogContent::Read(ReadLog { log, header, units })),
        None => Ok(LogContent::Outside),
    }
}

/// What the device holds, on which nothing is pending. It writes nothing.
pub fn content_of<D: Disks>(
    alloc: Global,
    disks: &mut D,
    dev: u32,
    part: u8,
) -> Result<LogContent, DiskErr>
    requires known { dev < (D.view disks.old).count }
    requires settled { IsSettled (D.view disks.old) dev }
    ensures content { IfOk result (IsContent (D.view disks.old) (D.view disks.new) part dev) }
    ensures kept { KeepsAll (D.view disks.old) (D.view disks.new) (result_err result) }
    ensures cause { HasCause (D.view disks.old) (D.view disks.new) (result_err result) }
    ensures answers { OnlyFails (result_err result) }
{
    match open_log(alloc, disks, dev) {
        Ok(log) => read_log(alloc, disks, log, part),
        Err(LogErr::Blank) => Ok(LogContent::Blank),
        Err(LogErr::NotLog) => Ok(LogContent::Outside),
        Err(LogErr::Disk(e)) => Err(e),
    }
}
