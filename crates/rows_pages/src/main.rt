//! Keeps rows on the pages of a device in memory, of which a call stops or fails, and tells which rows stand: a line for each pick of what a stop
//! leaves, and in it a letter for each call of the second header's pages; then of how many long rows each is found by its key, and how many
//! come in order; then a letter for each read that fails; for limits of the device; and for devices that are opened.
//!
//! | Letter | What it tells |
//! |---|---|
//! | `1`, `2` | the rows of the first or of the second header stand |
//! | `b`, `o`, `r` | the first opening failed, another one, a read of a row |
//! | `f` | the device is full |
//! | `n` | a side spells no page, or two rows stand at one place |
//! | `u` | a row is not sound |
//! | `?` | anything else |
#![tactic(auto)]

mod changes;
mod frames;
mod stands;
mod steps;

ghost use Rattle.std.specs.Prelude.{◌≤◌};

use frames::ends_again;
use salt_directory::AnyRow;
use salt_disk::MemDisks;
use salt_rows::{RowsErr, open_rows};
use stands::{after_failed_read, after_stop, devices_row, letter_of, limits_row, reopened};
use std::alloc::{AllocError, Global};
use std::io;
use steps::{long_rows, name_all, rows_in_order, rows_of_keys};

/// The calls of the second header's pages, and one more, at which nothing stops.
const CALLS: u64 = 10;

/// The reads of two openings and of a row, and one more, at which nothing fails.
const READS: u64 = 5;

/// How many long rows there are: on 70 pages, while 64 have a frame.
const ROWS: i64 = 490;

/// The read by which a page without a frame comes, and one that is never made.
const LAST_READS: [u64; 2] = [133, 134];

/// A letter for each call that a stop can fall on.
fn stops_row(alloc: Global, pick: u8) -> Result<String, AllocError>
    requires { pick ≤ 4 }
{
    let mut row = String::new(alloc);
    for calls in 1..=CALLS {
        row.push(letter_of(after_stop(alloc, calls, pick)))?;
    }
    Ok(row)
}

/// A letter for each read that fails.
fn reads_row(alloc: Global) -> Result<String, AllocError> {
    let mut row = String::new(alloc);
    for read in 1..=READS {
        row.push(after_failed_read(alloc, read)?)?;
    }
    Ok(row)
}

/// How many pages long rows take, how many of them are found by their keys, and how many come in order.
fn many_rows(alloc: Global) -> Result<(usize, u64, u64), RowsErr> {
    let mut disks = MemDisks::new(alloc, 1, 1 << 24)?;
    let mut store = open_rows(alloc, &mut disks, 0, true, &[], &AnyRow)?;
    long_rows(alloc, &mut disks, &mut store, 0, ROWS)?;
    let sides = name_all(&mut disks, &mut store)?;
    let mut again = reopened(alloc, &mut disks, &sides)?;
    let found = rows_of_keys(&mut disks, &mut again, ROWS)?;
    let ordered = rows_in_order(alloc, &mut disks, &mut again, 1000)?;
    Ok((again.page_count(), found, ordered))
}

/// A letter for each of these reads, where it fails.
fn frames_row(alloc: Global) -> Result<String, AllocError> {
    let mut row = String::new(alloc);
    for read in LAST_READS {
        row.push(letter_of(ends_again(alloc, read)))?;
    }
    Ok(row)
}

fn main(rt: HostRuntime) -> io::Result<()> {
    let alloc = rt.alloc();
    for pick in 0..5u8 {
        let row = stops_row(alloc, pick)?;
        println!(rt; "{row}")?;
    }
    let (pages, found, ordered) = many_rows(alloc).unwrap_or((0, 0, 0));
    println!(rt; "{pages} pages, {found} rows by their keys, {ordered} in order")?;
    let row = reads_row(alloc)?;
    println!(rt; "{row}")?;
    let row = frames_row(alloc)?;
    println!(rt; "{row}")?;
    let row = limits_row(alloc)?;
    println!(rt; "{row}")?;
    let row = devices_row(alloc)?;
    println!(rt; "{row}")
}
