//! A log of ten entries on a device that is a file: the entries that stand after a restart, each on a line; what other disks over the same folder are
//! answered while these hold it, and how many entries stand for them once they don't. Then how long the device's file is; what a device that was not
//! used is opened as; and what is answered in a folder that is a file, in one whose own folder is missing, in one with no name, and of a write past
//! the limit.
#![tactic(auto)]

ghost use Rattle.std.specs.Prelude.{◌≡◌, ◌<◌, List, ℕ};
ghost use Rattle.salt_disk.specs.Disks.{IsSettled};
ghost use Rattle.salt_gatelog.specs.Log.{IsLog};

use salt_disk::{DiskErr, Disks};
use salt_files::FileDisks;
use salt_gatelog::{GateLog, LogErr, create, open_log};
use std::alloc::{AllocError, Global};
use std::io::Write;
use std::{fs, io};

const FOLDER: &str = "disks";

/// The device that the log is on.
const DEVICE: u32 = 3;

/// The payloads of the ten entries.
const PAYLOADS: [&str; 10] = [
    "",
    "one",
    "2",
    "three",
    "4 is four",
    "five",
    "",
    "seven",
    "8",
    "nine and the last",
];

/// The limit of each device.
const LIMIT: u64 = 1 << 40;

/// Appends the payloads one after the other.
fn append_all<D: Disks>(alloc: Global, disks: &mut D, log: &mut GateLog) -> Result<(), DiskErr>
    requires { (entries : List (List ℕ)) × IsLog (D.view disks.old) log.old entries }
    ensures { (D.view disks.new).count ≡ (D.view disks.old).count }
{
    for payload in PAYLOADS {
        log.append(alloc, disks, payload.as_bytes())?;
    }
    Ok(())
}

/// The payloads of a log's entries, each on a line.
fn lines_of<D: Disks>(alloc: Global, disks: &mut D, log: &mut GateLog) -> Result<Vec<u8>, DiskErr>
    requires { (entries : List (List ℕ)) × IsLog (D.view disks.old) log.old entries }
{
    let mut lines = Vec::new(alloc);
    for i in 0..log.count() {
        log.entry(alloc, disks, i, &mut lines)?;
        lines.push(b'\n')?;
    }
    Ok(lines)
}

/// A log is made and filled.
fn make_log<D: Disks>(alloc: Global, disks: &mut D, dev: u32) -> Result<(), DiskErr>
    requires known { dev < (D.view disks.old).count }
    requires settled { IsSettled (D.view disks.old) dev }
    ensures { (D.view disks.new).count ≡ (D.view disks.old).count }
{
    let mut log = create(disks, dev)?;
    append_all(alloc, disks, &mut log)
}

/// The lines of a log that is made, filled, and opened again after a restart.
fn made_lines<D: Disks>(alloc: Global, disks: &mut D, dev: u32) -> Result<Vec<u8>, LogErr>
    requires known { dev < (D.view disks.old).count }
    requires settled { IsSettled (D.view disks.old) dev }
{
    make_log(alloc, disks, dev)?;
    disks.restart();
    let mut log = open_log(alloc, disks, dev)?;
    Ok(lines_of(alloc, disks, &mut log)?)
}

/// What a device is opened as.
fn opened_as<D: Disks>(alloc: Global, disks: &mut D, dev: u32) -> Result<String, AllocError>
    requires known { dev < (D.view disks.old).count }
    requires settled { IsSettled (D.view disks.old) dev }
{
    match open_log(alloc, disks, dev) {
        Ok(log) => format!(in alloc; "{} entries", log.count()),
        Err(why) => word_of(why).to_string(alloc),
    }
}

fn word_of(why: LogErr) -> &'static str {
    match why {
        LogErr::Blank => "blank",
        LogErr::NotLog => "not a log",
        LogErr::Disk(why) => word_of_disk(why),
    }
}

fn word_of_disk(why: DiskErr) -> &'static str {
    match why {
        DiskErr::Failed => "failed",
        DiskErr::Stopped => "stopped",
        DiskErr::Full(_) => "full",
        DiskErr::Memory => "no memory",
    }
}

/// What the first device is opened as in a folder.
fn first_opened_as(rt: &HostRuntime, folder: &str) -> Result<String, AllocError> {
    let mut disks = FileDisks::new(rt.clone()?, folder)?;
    opened_as(rt.alloc(), &mut disks, 0)
}

/// What is answered to a write past the limit.
fn past_limit(rt: &HostRuntime) -> Result<&'static str, AllocError> {
    let mut disks = FileDisks::new(rt.clone()?, FOLDER)?;
    match disks.write_at(0, LIMIT, b"x") {
        Ok(()) => Ok("written"),
        Err(why) => Ok(word_of_disk(why)),
    }
}

fn main(rt: HostRuntime) -> io::Result<()> {
    let mut disks = FileDisks::new(rt.clone()?, FOLDER)?;
    match made_lines(rt.alloc(), &mut disks, DEVICE) {
        Ok(lines) => io::writer(&rt).write_all(&lines)?,
        Err(why) => println!(rt; "{}", word_of(why))?,
    }
    let mut again = FileDisks::new(rt.clone()?, FOLDER)?;
    let held = opened_as(rt.alloc(), &mut again, DEVICE)?;
    println!(rt; "{held}")?;
    drop(disks);
    let same = opened_as(rt.alloc(), &mut again, DEVICE)?;
    println!(rt; "{same}")?;
    let length = fs::metadata(&rt, "disks/3")?.len();
    println!(rt; "{length} bytes")?;
    let unused = opened_as(rt.alloc(), &mut again, 25)?;
    println!(rt; "{unused}")?;
    for folder in ["disks/3", "missing/deeper", ""] {
        let answer = first_opened_as(&rt, folder)?;
        println!(rt; "{answer}")?;
    }
    let full = past_limit(&rt)?;
    println!(rt; "{full}")
}
