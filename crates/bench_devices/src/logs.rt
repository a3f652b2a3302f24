//! Logs of one device.

ghost use Rattle.salt_disk.specs.Disks.{IsSettled};
ghost use Rattle.salt_disk.specs.MemDisks.{seen};
ghost use Rattle.salt_gatelog.specs.Log.{IsLog};
ghost use Rattle.std.specs.Prelude.{List, OnOk, ℕ, ◌<◌, ◌≡◌};

use salt_disk::{DiskErr, Disks, MemDisks};
use salt_gatelog::{GateLog, LogErr, create, open_log};
use std::alloc::{AllocError, Global};

/// No device is too short.
const LIMIT: u64 = 1 << 40;

/// Appends so many entries, each its own number.
fn append_numbers(
    alloc: Global,
    disks: &mut MemDisks,
    log: &mut GateLog,
    count: u32,
) -> Result<(), DiskErr>
    requires { (entries : List (List ℕ)) × IsLog (seen disks.old) log.old entries }
    ensures { (seen disks.new).count ≡ (seen disks.old).count }
{
    for i in 0..count {
        log.append(alloc, disks, &i.to_be_bytes())?;
    }
    Ok(())
}

/// One log of so many entries on disks of its own, and how many it has.
fn log_of(alloc: Global, disks: &mut MemDisks, count: u32) -> Result<u64, DiskErr>
    requires known { 0 < (seen disks.old).count }
    requires settled { IsSettled (seen disks.old) 0 }
    ensures { (seen disks.new).count ≡ (seen disks.old).count }
{
    let mut log = create(disks, 0)?;
    append_numbers(alloc, disks, &mut log, count)?;
    Ok(log.count())
}

/// So often appends so many entries to a new log.
pub fn appended(alloc: Global, count: u32, times: u32) -> Result<u64, DiskErr> {
    let mut entries: u64 = 0;
    for _time in 0..times {
        let mut disks = MemDisks::new(alloc, 1, LIMIT)?;
        let made = log_of(alloc, &mut disks, count)?;
        entries = entries.saturating_add(made);
    }
    Ok(entries)
}

fn count_in(alloc: Global, disks: &mut MemDisks) -> Result<u64, DiskErr>
    requires known { 0 < (seen disks.old).count }
    requires settled { IsSettled (seen disks.old) 0 }
    ensures { OnOk result ((seen disks.new).count ≡ (seen disks.old).count) }
{
    match open_log(alloc, disks, 0) {
        Ok(log) => Ok(log.count()),
        Err(LogErr::Disk(e)) => Err(e),
        Err(LogErr::Blank | LogErr::NotLog) => Ok(0),
    }
}

/// So often opens a log of so many entries.
pub fn opened(alloc: Global, count: u32, times: u32) -> Result<u64, DiskErr> {
    let mut disks = MemDisks::new(alloc, 1, LIMIT)?;
    log_of(alloc, &mut disks, count)?;
    let mut entries: u64 = 0;
    for _time in 0..times {
        disks.restart();
        let found = count_in(alloc, &mut disks)?;
        entries = entries.saturating_add(found);
    }
    Ok(entries)
}
