//! A database of an older format in which two programs are open: they are accepted, and have a part to come. A unit is prepared and not decided.

ghost use Rattle.std.specs.Prelude.{◌<◌};

use crate::devices::{DEVICES, Devices};
use crate::older::in_format;
use std::alloc::{AllocError, Global};

/// Numbers, as they are spelled.
const ONE: &[u8] = b"\0\0\0\0\0\0\0\x01";

const TWO: &[u8] = b"\0\0\0\0\0\0\0\x02";

const THREE: &[u8] = b"\0\0\0\0\0\0\0\x03";

const FOUR: &[u8] = b"\0\0\0\0\0\0\0\x04";

const FIVE: &[u8] = b"\0\0\0\0\0\0\0\x05";

const SIX: &[u8] = b"\0\0\0\0\0\0\0\x06";

const SEVEN: &[u8] = b"\0\0\0\0\0\0\0\x07";

/// Rows: a key, and what is there.
const ROW_1_100: &[u8] = b"\x02\x01\0\0\0\0\0\0\0\x01\x01\0\0\0\0\0\0\0\x64";

const ROW_2_100: &[u8] = b"\x02\x01\0\0\0\0\0\0\0\x02\x01\0\0\0\0\0\0\0\x64";

const ROW_2_70: &[u8] = b"\x02\x01\0\0\0\0\0\0\0\x02\x01\0\0\0\0\0\0\0\x46";

const ROW_2_50: &[u8] = b"\x02\x01\0\0\0\0\0\0\0\x02\x01\0\0\0\0\0\0\0\x32";

const ROW_3_990: &[u8] = b"\x02\x01\0\0\0\0\0\0\0\x03\x01\0\0\0\0\0\0\x03\xde";

const ROW_4_7: &[u8] = b"\x02\x01\0\0\0\0\0\0\0\x04\x01\0\0\0\0\0\0\0\x07";

const ROW_5_7: &[u8] = b"\x02\x01\0\0\0\0\0\0\0\x05\x01\0\0\0\0\0\0\0\x07";

/// The units u1.5 and u1.6, up to the one row that each puts in a partition.
const DECIDED: &[u8] = b"\x01\0\0\0\0\0\0\0\x01\0\0\0\0\0\0\0\x05\0\0\0\0\0\0\0\x01\0\0\x01";

const UNDECIDED: &[u8] = b"\x01\0\0\0\0\0\0\0\x01\0\0\0\0\0\0\0\x06\0\0\0\0\0\0\0\x01\0\0\x01";

/// A table and a program, each behind its number and its length, and how many they are.
const DEFINITIONS: &[u8] = b"\0\0\0\0\0\0\0\x02\
\0\0\0\0\0\0\0\x01\0\0\0\0\0\0\0\x4dcreate table acct (id int key, bal int, check ((bal >= 0) and (bal <= 1000)))\
\0\0\0\0\0\0\0\x02\0\0\0\0\0\0\x01\x04program pay(a int, b int, amt int) base part { update acct set bal = (bal - :amt) where key = :a } part { update acct set bal = (bal + :amt) where key = :b } then end on failure go 3 part { update acct set bal = (bal + :amt) where key = :a } on failure end end";

/// The continuation of b1.1: accepted by decision 6, of pay(2, 1, 30), before its part 2. No tries are spelled.
const FIRST: &[u8] =
    b"\0\0\0\0\0\0\0\x01\0\0\0\0\0\0\0\x01\0\0\0\0\0\0\0\x06\x03pay\x03\x01\0\0\0\0\0\0\0\x02\x01\0\0\0\0\0\0\0\x01\x01\0\0\0\0\0\0\0\x1e\0\0\0\0\x02";

/// The continuation of b1.2: accepted by decision 7, of pay(2, 3, 20), before its part 2.
const SECOND: &[u8] =
    b"\0\0\0\0\0\0\0\x01\0\0\0\0\0\0\0\x02\0\0\0\0\0\0\0\x07\x03pay\x03\x01\0\0\0\0\0\0\0\x02\x01\0\0\0\0\0\0\0\x03\x01\0\0\0\0\0\0\0\x14\0\0\0\0\x02";

/// What was told before, but for u1.6, which was to insert 4 and 5, and was not decided when a stop came.
pub const BEFORE: &str = "\
opened 1 0
ready
defined 1 create table acct (id int key, bal int, check ((bal >= 0) and (bal <= 1000)))
defined 2 program pay(a int, b int, amt int) base part { update acct set bal = (bal - :amt) where key = :a } part { update acct set bal = (bal + :amt) where key = :b } then end on failure go 3 part { update acct set bal = (bal + :amt) where key = :a } on failure end end
u1.1 began @1
u1.1 did insert into acct values (1, 100) -> count 1
u1.1 committed 3
u1.2 began @1
u1.2 did insert into acct values (2, 100) -> count 1
u1.2 committed 4
u1.3 began @1
u1.3 did insert into acct values (3, 990) -> count 1
u1.3 committed 5
u1.4 began @1 b1.1 part 1 of pay(2, 1, 30)
u1.4 did update acct set bal = (bal - :amt) where key = :a -> count 1
u1.4 committed 6
b1.1 accepted
u1.5 began @1 b1.2 part 1 of pay(2, 3, 20)
u1.5 did update acct set bal = (bal - :amt) where key = :a -> count 1
u1.5 committed 7
b1.2 accepted
down stopped
";

/// Of each log the payloads of its entries, in format 1. Log A of each pair counts: it is of generation 3, from behind decision 6, by which
/// b1.1 is accepted. Log B is of generation 2, from behind decision 5. By decision 7 b1.2 is accepted, in u1.5.
const LOGS: [(u32, &[&[&[u8]]]); 6] = [
    (
        0,
        &[
            &[
                b"SALTC\x01",
                THREE,
                b"\x02\0",
                ONE,
                SIX,
                DEFINITIONS,
                ONE,
                FIRST,
            ],
            &[
                b"\x03",
                SEVEN,
                ONE,
                FIVE,
                b"\x01",
                b"\0\0\0\0\0\0\0\x3e",
                b"\x01",
                SECOND,
            ],
        ],
    ),
    (
        1,
        &[&[
            b"SALTC\x01",
            TWO,
            b"\x02\0",
            ONE,
            FIVE,
            DEFINITIONS,
            b"\0\0\0\0\0\0\0\0",
        ]],
    ),
    (
        2,
        &[
            &[b"SALTP\x01", THREE, b"\0\0\0\0\x01\x01"],
            &[DECIDED, ROW_2_50],
            &[UNDECIDED, ROW_4_7],
        ],
    ),
    (3, &[&[b"SALTP\x01", TWO, b"\0\0\0\0\x01\0"]]),
    (
        5,
        &[
            &[b"SALTP\x01", THREE, b"\x01\0\0\0\x01\0"],
            &[UNDECIDED, ROW_5_7],
        ],
    ),
    (6, &[&[b"SALTP\x01", TWO, b"\x01\0\0\0\x01\0"]]),
];

/// What stands on each side of a page, up to its zeros: key 2 before b1.1 and behind its first part, and keys 1 and 3.
const PAGES: [(u32, &[&[&[u8]]]); 2] = [
    (
        4,
        &[&[b"\0\x01\0\0", ROW_2_100], &[b"\0\x01\0\0", ROW_2_70]],
    ),
    (7, &[&[b"\0\x02\0\0", ROW_1_100, b"\0\0", ROW_3_990]]),
];

/// How the other log of each pair begins when the database is in the newest formats: of generation 4, with both continuations, which have
/// no tries left. Partition 0 has written its page on side 0.
const NEWEST: [(u32, &[&[&[u8]]]); 3] = [
    (
        1,
        &[&[
            b"SALTC\x03",
            FOUR,
            b"\x02\0",
            ONE,
            SEVEN,
            DEFINITIONS,
            TWO,
            FIRST,
            b"\0",
            SECOND,
            b"\0",
        ]],
    ),
    (3, &[&[b"SALTP\x02", FOUR, b"\0\0\0\0\x01\0"]]),
    (6, &[&[b"SALTP\x02", FOUR, b"\x01\0\0\0\x01\0"]]),
];

/// The bytes of a side of a page.
const SIDE: usize = 8_192;

/// These pieces, one behind another.
fn joined(alloc: Global, pieces: &[&[u8]]) -> Result<Vec<u8>, AllocError> {
    let mut whole = Vec::new(alloc);
    for piece in pieces {
        whole.extend_from_slice(piece)?;
    }
    Ok(whole)
}

/// A log up to its closed gate: each entry behind an open gate and its length.
fn log_of(alloc: Global, entries: &[&[&[u8]]]) -> Result<Vec<u8>, AllocError> {
    let mut log = Vec::new(alloc);
    for pieces in entries {
        let payload = joined(alloc, pieces)?;
        log.push(1)?;
        log.extend_from_slice(&(payload.len() as u64).to_be_bytes())?;
        log.extend_from_slice(&payload)?;
    }
    Ok(log)
}

/// Adds the side of a page: its rows, and then zeros.
fn add_side(alloc: Global, pages: &mut Vec<u8>, rows: &[&[u8]]) -> Result<(), AllocError> {
    let rows = joined(alloc, rows)?;
    pages.extend_from_slice(&rows)?;
    for _ in rows.len()..SIDE {
        pages.push(0)?;
    }
    Ok(())
}

/// The bytes of a device with pages.
fn pages_of(alloc: Global, sides: &[&[&[u8]]]) -> Result<Vec<u8>, AllocError> {
    let mut pages = Vec::new(alloc);
    for rows in sides {
        add_side(alloc, &mut pages, rows)?;
    }
    Ok(pages)
}

/// Puts the logs on their devices, in this format.
fn put_logs(alloc: Global, devices: &mut Devices, format: u8) -> Result<(), AllocError> {
    for (dev, entries) in LOGS {
        let mut log = log_of(alloc, entries)?;
        log.push(0)?;
        if dev < DEVICES {
            devices.set_bytes(dev, &in_format(alloc, &log, format)?)?;
        }
    }
    Ok(())
}

/// Puts the pages on their devices.
fn put_pages(alloc: Global, devices: &mut Devices) -> Result<(), AllocError> {
    for (dev, sides) in PAGES {
        if dev < DEVICES {
            devices.set_bytes(dev, &pages_of(alloc, sides)?)?;
        }
    }
    Ok(())
}

/// The devices of the database, in formats of this number.
pub fn open_database(alloc: Global, format: u8) -> Result<Devices, AllocError> {
    let mut devices = Devices::new(alloc)?;
    put_logs(alloc, &mut devices, format)?;
    put_pages(alloc, &mut devices)?;
    Ok(devices)
}

/// Whether the logs begin as they must in the newest formats.
pub fn are_newest(alloc: Global, devices: &Devices) -> Result<bool, AllocError> {
    for (dev, entries) in NEWEST {
        let log = log_of(alloc, entries)?;
        if dev < DEVICES && !devices.bytes(dev).starts_with(&log) {
            return Ok(false);
        }
    }
    Ok(true)
}
