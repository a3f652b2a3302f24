//! Appends ten entries to a log on disks in memory, of which a call stops, and tells how many entries stand after it: a line for
//! each pick, and in it a letter for each call, those of the creation first. Then what each of some devices is opened as; the bytes that one entry
//! leaves where it does not fit by a byte (`full`), and where it does; and how many of 20,000 entries stand that were appended to one log.
//!
//! | Letter | What it tells |
//! |---|---|
//! | `0` to `9`, `A` | so many entries stand, each as it was appended |
//! | `b` | the device is blank |
//! | `n` | it is neither blank nor a log |
//! | `?` | anything else |
#![tactic(auto)]

ghost use Rattle.std.specs.Prelude.{◌≡◌, ◌≤◌, List, ℕ};
ghost use Rattle.salt_disk.specs.MemDisks.{seen};
ghost use Rattle.salt_gatelog.specs.Log.{IsLog};

use salt_disk::{DiskErr, Disks, MemDisks};
use salt_gatelog::{GateLog, LogErr, create, open_log};
use std::alloc::{AllocError, Global};
use std::io;

/// The payloads of the ten entries.
const PAYLOADS: [&[u8]; 10] = [
    b"",
    b"1",
    b"\x01\x01",
    b"three",
    b"\0\0\0\0",
    b"five and more",
    b"\x01",
    b"",
    b"8",
    b"nine",
];

/// The calls of a creation and of ten appends, and one more, at which nothing stops.
const CALLS: u64 = 43;

/// Blank devices, logs, and devices that are neither.
const DEVICES: [&[u8]; 14] = [
    b"",
    b"\x01",
    b"\0",
    b"\x02\0\0\0\0\0\0\0\0\0",
    b"\x01\0",
    b"\x01\0\0\0\0\0\0\0",
    b"\x01\0\0\0\0\0\0\0\0",
    b"\x01\0\0\0\0\0\0\0\x02hi\0",
    b"\x01\0\0\0\0\0\0\0\0\x01",
    b"\x01\0\0\0\0\0\0\0\x02hi\x02\x01",
    b"\x01\0\0\0\0\0\0\0\x02h\0",
    b"\x01\x80\0\0\0\0\0\0\0\0\0",
    b"\x01\xff\xff\xff\xff\xff\xff\xff\xff\0\0",
    b"\x01\0\0\0\0\0\0\0\0\x01\0\0\0\0\0\0\0\x01x\0",
];

const ENTRIES: u64 = 20_000;

const DIGITS: [u8; 16] = *b"0123456789abcdef";

/// Appends the payloads one after the other, up to the first call that does not do what it is asked to.
fn append_all(alloc: Global, disks: &mut MemDisks, log: &mut GateLog) -> Result<(), DiskErr>
    requires { (entries : List (List ℕ)) × IsLog (seen disks.old) log.old entries }
    ensures { (seen disks.new).count ≡ (seen disks.old).count }
{
    for payload in PAYLOADS {
        log.append(alloc, disks, payload)?;
    }
    Ok(())
}

/// Whether each entry is the payload of its number.
fn has_payloads(alloc: Global, disks: &mut MemDisks, log: &mut GateLog) -> Result<bool, DiskErr>
    requires { (entries : List (List ℕ)) × IsLog (seen disks.old) log.old entries }
{
    let mut payload = Vec::new(alloc);
    for i in 0..log.count() {
        payload.clear();
        log.entry(alloc, disks, i, &mut payload)?;
        if PAYLOADS.get(i as usize).copied() != Some(payload.as_slice()) {
            return Ok(false);
        }
    }
    Ok(true)
}

fn letter_of(count: u64) -> char {
    match count {
        0..=9 => char::from(b'0' + count as u8),
        10 => 'A',
        _ => '?',
    }
}

fn letter_of_none(why: LogErr) -> char {
    match why {
        LogErr::Blank => 'b',
        LogErr::NotLog => 'n',
        LogErr::Disk(_) => '?',
    }
}

/// What stands of the ten entries after a stop.
fn after_stop(alloc: Global, calls: u64, pick: u8) -> Result<char, AllocError>
    requires { pick ≤ 4 }
{
    let mut disks = MemDisks::new(alloc, 1, 1000)?;
    disks.arm(calls, pick)?;
    if let Ok(mut log) = create(&mut disks, 0) {
        let _stopped = append_all(alloc, &mut disks, &mut log);
    }
    disks.restart();
    match open_log(alloc, &mut disks, 0) {
        Ok(mut log) => {
            let letter = letter_of(log.count());
            match has_payloads(alloc, &mut disks, &mut log) {
                Ok(true) => Ok(letter),
                _ => Ok('?'),
            }
        }
        Err(why) => Ok(letter_of_none(why)),
    }
}

/// What a device with these bytes is opened as, which leaves the bytes.
fn opened_as(alloc: Global, bytes: &[u8]) -> Result<char, AllocError> {
    let mut disks = MemDisks::new(alloc, 1, 1000)?;
    disks.set_bytes(0, bytes)?;
    let letter = match open_log(alloc, &mut disks, 0) {
        Ok(log) => letter_of(log.count()),
        Err(why) => letter_of_none(why),
    };
    Ok(if disks.bytes(0) == bytes { letter } else { '?' })
}

/// The bytes in hexadecimal digits.
fn digits_of(alloc: Global, bytes: &[u8]) -> Result<String, AllocError> {
    let mut digits = String::new(alloc);
    for byte in bytes {
        digits.push(char::from(DIGITS[(*byte / 16) as usize]))?;
        digits.push(char::from(DIGITS[(*byte % 16) as usize]))?;
    }
    Ok(digits)
}

/// What a log of one short entry leaves on a device of this limit.
fn one_entry(alloc: Global, limit: u64) -> Result<String, AllocError> {
    let mut disks = MemDisks::new(alloc, 1, limit)?;
    if let Ok(mut log) = create(&mut disks, 0) {
        if log.append(alloc, &mut disks, b"hi") == Err(DiskErr::Full(0)) {
            return "full".to_string(alloc);
        }
    }
    digits_of(alloc, disks.bytes(0))
}

/// A row of letters, one for each call that a stop can fall on.
fn row_of(alloc: Global, pick: u8) -> Result<String, AllocError>
    requires { pick ≤ 4 }
{
    let mut row = String::new(alloc);
    for calls in 1..=CALLS {
        row.push(after_stop(alloc, calls, pick)?)?;
    }
    Ok(row)
}

fn devices_row(alloc: Global) -> Result<String, AllocError> {
    let mut row = String::new(alloc);
    for bytes in DEVICES {
        row.push(opened_as(alloc, bytes)?)?;
    }
    Ok(row)
}

/// Appends so many entries, each its own number.
fn append_numbers(
    alloc: Global,
    disks: &mut MemDisks,
    log: &mut GateLog,
    count: u64,
) -> Result<(), DiskErr>
    requires { (entries : List (List ℕ)) × IsLog (seen disks.old) log.old entries }
    ensures { (seen disks.new).count ≡ (seen disks.old).count }
{
    for i in 0..count {
        log.append(alloc, disks, &i.to_be_bytes())?;
    }
    Ok(())
}

/// How many entries stand from the first on that are their own numbers.
fn numbers_in(alloc: Global, disks: &mut MemDisks, log: &mut GateLog) -> Result<u64, DiskErr>
    requires { (entries : List (List ℕ)) × IsLog (seen disks.old) log.old entries }
{
    let mut payload = Vec::new(alloc);
    for i in 0..log.count() {
        payload.clear();
        log.entry(alloc, disks, i, &mut payload)?;
        if payload.as_slice() != i.to_be_bytes().as_slice() {
            return Ok(i);
        }
    }
    Ok(log.count())
}

/// How many of so many entries stand in a log that is opened again.
fn long_log(alloc: Global, count: u64) -> Result<u64, AllocError> {
    let mut disks = MemDisks::new(alloc, 1, 1 << 24)?;
    if let Ok(mut log) = create(&mut disks, 0) {
        let _stopped = append_numbers(alloc, &mut disks, &mut log, count);
    }
    disks.restart();
    match open_log(alloc, &mut disks, 0) {
        Ok(mut log) => Ok(numbers_in(alloc, &mut disks, &mut log).unwrap_or(0)),
        Err(_) => Ok(0),
    }
}

fn main(rt: HostRuntime) -> io::Result<()> {
    for pick in 0..5u8 {
        let row = row_of(rt.alloc(), pick)?;
        println!(rt; "{row}")?;
    }
    let row = devices_row(rt.alloc())?;
    println!(rt; "{row}")?;
    for limit in 11..13u64 {
        let digits = one_entry(rt.alloc(), limit)?;
        println!(rt; "{digits}")?;
    }
    let count = long_log(rt.alloc(), ENTRIES)?;
    println!(rt; "{count}")
}
