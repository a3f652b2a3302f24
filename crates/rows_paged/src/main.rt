//! Takes a partition on pages of devices in memory into a third generation, where a call of that stops or fails, and opens it again: a line for each
//! pick of what a stop leaves, and in it a letter for each call of the checkpoint; then one for each write or sync of it that fails; then one for each
//! read that fails, from the beginning on; and one for each of some limits of the devices.
//!
//! | Letter | What it tells |
//! |---|---|
//! | `a`, `b` | the row is as the last unit left it, and this log counts |
//! | `m`, `o` | the partition could not be made, or could not be opened again |
//! | `f` | a device is full |
//! | `n` | a device is at fault |
//! | `?` | anything else |
#![tactic(auto)]

mod generations;

ghost use Rattle.std.specs.Prelude.{◌≤◌};

use generations::{after_failed_call, after_failed_read, after_stop, letter_of, within};
use std::alloc::{AllocError, Global};
use std::io;

/// The calls of the last checkpoint, and one more, at which nothing stops.
const CALLS: u64 = 9;

/// The calls before it.
const BEFORE: u64 = 22;

/// The reads of a run, and one more, at which nothing fails.
const READS: u64 = 13;

/// Of the page of the second generation, of both its sides, and one byte less of each.
const LIMITS: [u64; 4] = [8191, 8192, 16383, 16384];

/// A letter for each call that a stop can fall on.
fn stops_row(alloc: Global, pick: u8) -> Result<String, AllocError>
    requires { pick ≤ 4 }
{
    let mut row = String::new(alloc);
    for calls in 1..=CALLS {
        row.push(letter_of(after_stop(alloc, calls, pick)))?;
    }
    Ok(row)
}

/// A letter for each write or sync that fails.
fn calls_row(alloc: Global) -> Result<String, AllocError> {
    let mut row = String::new(alloc);
    for call in 1..=CALLS {
        row.push(after_failed_call(alloc, BEFORE + call)?)?;
    }
    Ok(row)
}

/// A letter for each read that fails.
fn reads_row(alloc: Global) -> Result<String, AllocError> {
    let mut row = String::new(alloc);
    for read in 1..=READS {
        row.push(after_failed_read(alloc, read)?)?;
    }
    Ok(row)
}

/// A letter for each limit.
fn limits_row(alloc: Global) -> Result<String, AllocError> {
    let mut row = String::new(alloc);
    for limit in LIMITS {
        row.push(letter_of(within(alloc, limit)))?;
    }
    Ok(row)
}

fn main(rt: HostRuntime) -> io::Result<()> {
    let alloc = rt.alloc();
    for pick in 0..5u8 {
        let row = stops_row(alloc, pick)?;
        println!(rt; "{row}")?;
    }
    let row = calls_row(alloc)?;
    println!(rt; "{row}")?;
    let row = reads_row(alloc)?;
    println!(rt; "{row}")?;
    let row = limits_row(alloc)?;
    println!(rt; "{row}")
}
