//! Runs over devices that fail twice, are or become full, or hold other bytes than a database's or numbers that are all but spent.

ghost use Rattle.std.specs.Prelude.{◌<◌};

use crate::devices::{Devices, ROOM};
use crate::older::with_older_row;
use crate::outcome::Outcome;
use salt_model::Flight;
use salt_run::Status;
use std::alloc::{AllocError, Global};

const TABLE: &str = "create table t (id int key, v int)\n";

const ROWS: &str = "create table t (id int key, v int)
@1 insert into t values (5, -3)
@1 select * from t where key = 5
@1 insert into t values (5, 0)
";

/// A log without entries, whose gate is cut short.
const CUT: &[u8] = b"\x01\0";

/// A log of one entry: the header of a coordinator of two partitions, whose boot is 2^63.
const SPENT: &[u8] =
    b"\x01\0\0\0\0\0\0\0\x30SALTC\x03\0\0\0\0\0\0\0\x01\x02\0\x80\0\0\0\0\0\0\0\0\0\0\0\0\0\0\0\0\0\0\0\0\0\0\0\0\0\0\0\0\0\0\0\0";

/// The same, but for its boot, which is 2^63 - 1.
const LAST_BOOT: &[u8] =
    b"\x01\0\0\0\0\0\0\0\x30SALTC\x03\0\0\0\0\0\0\0\x01\x02\0\x7f\xff\xff\xff\xff\xff\xff\xff\0\0\0\0\0\0\0\0\0\0\0\0\0\0\0\0\0\0\0\0\0\0\0\0\0";

/// The same, where the boot is 1, and the last decision 2^63 - 1.
const LAST_DECISION: &[u8] =
    b"\x01\0\0\0\0\0\0\0\x30SALTC\x03\0\0\0\0\0\0\0\x01\x02\0\0\0\0\0\0\0\0\x01\x7f\xff\xff\xff\xff\xff\xff\xff\0\0\0\0\0\0\0\0\0\0\0\0\0\0\0\0\0";

/// The devices on which a run begins.
#[derive(Clone, Copy)]
enum Start {
    /// New ones, of which these writes and syncs fail.
    Failing(&'static [u64]),
    /// New ones, where no byte has room on a partition's device.
    NoRoom,
    /// New ones, where the coordinator's log is this one.
    Coordinator(&'static [u8]),
    /// Those of a database with a row.
    Kept,
    /// The same, in formats 1.
    Older,
    /// The same, where the coordinator's other device has room for so many bytes. Its next header is of 98.
    OlderWithin(u64),
    /// Those of a database with a row that is spread by bands.
    Bands,
    /// Those of a database with a row, where the coordinator's log has lost its last byte.
    Shorter,
    /// The same, where a partition's log is this one.
    Partition(&'static [u8]),
    /// The same, where the coordinator's device has room for so many bytes. Its log has 223, and a gate: a header of 57, a boot of 18, a
    /// definition of 60, and two decisions of 44 each. An entry that is appended is 9 bytes longer than its payload, and needs a gate behind it.
    CoordinatorWithin(u64),
    /// The same, where the device of the partition with the row has room for so many bytes. Its log has 84, and a gate: a header of 28, and a
    /// unit of 56.
    PartitionWithin(u64),
    /// Those of a database that keeps nothing, where the coordinator's log is this one.
    Empty(&'static [u8]),
}

/// A run over such devices.
#[derive(Clone, Copy)]
struct Case {
    name: &'static str,
    start: Start,
    words: &'static [&'static str],
    script: &'static str,
}

const RUN: &[&str] = &["run"];

const BANDS: &[&str] = &["run", "--place", "bands"];

/// A definition of 27 bytes: an entry of 53, behind a boot.
const DEFINITION: &str = "create table w (id int key)\n";

/// A row of the partition of device 5: a unit of 56 bytes there, and a decision of 44, behind a boot.
const ROW: &str = "@1 insert into t values (7, 1)\n";

const CASES: [Case; 27] = [
    Case {
        name: "write 30 fails",
        start: Start::Failing(&[30]),
        words: RUN,
        script: TABLE,
    },
    Case {
        name: "write 32 fails",
        start: Start::Failing(&[32]),
        words: RUN,
        script: TABLE,
    },
    Case {
        name: "writes 30 and 31 fail",
        start: Start::Failing(&[30, 31]),
        words: RUN,
        script: TABLE,
    },
    Case {
        name: "a coordinator that is cut",
        start: Start::Coordinator(CUT),
        words: RUN,
        script: TABLE,
    },
    Case {
        name: "no room on device 2",
        start: Start::NoRoom,
        words: RUN,
        script: TABLE,
    },
    Case {
        name: "boots are spent",
        start: Start::Coordinator(SPENT),
        words: RUN,
        script: TABLE,
    },
    Case {
        name: "another shape",
        start: Start::Kept,
        words: &["run", "--parts", "3"],
        script: "",
    },
    Case {
        name: "bands, and no word of them",
        start: Start::Bands,
        words: RUN,
        script: "",
    },
    Case {
        name: "bands of no database",
        start: Start::Kept,
        words: BANDS,
        script: "",
    },
    Case {
        name: "bands",
        start: Start::Bands,
        words: BANDS,
        script: "",
    },
    Case {
        name: "the same shape",
        start: Start::Kept,
        words: RUN,
        script: "",
    },
    Case {
        name: "formats 1",
        start: Start::Older,
        words: RUN,
        script: "@1 insert into t values (6, 1)\n",
    },
    Case {
        name: "no room for the newest format",
        start: Start::OlderWithin(107),
        words: RUN,
        script: "",
    },
    Case {
        name: "room for it, and for no boot",
        start: Start::OlderWithin(125),
        words: RUN,
        script: "",
    },
    Case {
        name: "a byte of the coordinator is cut off",
        start: Start::Shorter,
        words: RUN,
        script: ROWS,
    },
    Case {
        name: "a partition is cut",
        start: Start::Partition(CUT),
        words: RUN,
        script: ROWS,
    },
    Case {
        name: "no room for a boot",
        start: Start::CoordinatorWithin(241),
        words: RUN,
        script: "",
    },
    Case {
        name: "no room for a definition",
        start: Start::CoordinatorWithin(294),
        words: RUN,
        script: DEFINITION,
    },
    Case {
        name: "room for a definition",
        start: Start::CoordinatorWithin(295),
        words: RUN,
        script: DEFINITION,
    },
    Case {
        name: "no room for a unit",
        start: Start::PartitionWithin(140),
        words: RUN,
        script: ROW,
    },
    Case {
        name: "room for a unit",
        start: Start::PartitionWithin(141),
        words: RUN,
        script: ROW,
    },
    Case {
        name: "no room for a decision",
        start: Start::CoordinatorWithin(285),
        words: RUN,
        script: ROW,
    },
    Case {
        name: "room for a decision",
        start: Start::CoordinatorWithin(286),
        words: RUN,
        script: ROW,
    },
    Case {
        name: "boots are spent behind a stop",
        start: Start::Empty(LAST_BOOT),
        words: RUN,
        script: "crash 1 0\ncreate table t (id int key, v int)\n",
    },
    Case {
        name: "decisions are spent behind a stop",
        start: Start::Empty(LAST_DECISION),
        words: RUN,
        script: "create table t (id int key, v int)\ncrash 1 0\n@1 insert into t values (5, -3)\n",
    },
    Case {
        name: "a definition in flight that stands spends decisions",
        start: Start::Empty(LAST_DECISION),
        words: RUN,
        script: "crash 3 1\ncreate table t (id int key, v int)\n",
    },
    Case {
        name: "one that does not stand spends none",
        start: Start::Empty(LAST_DECISION),
        words: RUN,
        script: "crash 3 0\ncreate table t (id int key, v int)\n",
    },
];

/// New devices, of which these writes and syncs fail.
fn failing(alloc: Global, calls: &[u64]) -> Result<Devices, AllocError> {
    let mut devices = Devices::new(alloc)?;
    devices.fail_writes(calls)?;
    Ok(devices)
}

/// New devices, where no byte has room on a partition's.
fn with_no_room(alloc: Global) -> Result<Devices, AllocError> {
    let mut devices = Devices::new(alloc)?;
    devices.limit(2, 0);
    Ok(devices)
}

/// The devices of a database with a row.
pub fn with_row(alloc: Global) -> Result<Devices, AllocError> {
    let mut devices = Devices::new(alloc)?;
    let _outcome = devices.run(alloc, ROWS.as_bytes())?;
    Ok(devices)
}

/// The devices of a database with a row that is spread by bands.
fn with_row_by_bands(alloc: Global) -> Result<Devices, AllocError> {
    let mut devices = Devices::new(alloc)?;
    let _outcome = devices.run_within(alloc, ROOM, BANDS, ROWS.as_bytes())?;
    Ok(devices)
}

/// The devices, where one holds these bytes.
fn holding(
    devices: Result<Devices, AllocError>,
    dev: u32,
    bytes: &[u8],
) -> Result<Devices, AllocError>
    requires { dev < 26 }
{
    let mut devices = devices?;
    devices.set_bytes(dev, bytes)?;
    Ok(devices)
}

/// The devices of a database that keeps nothing.
fn with_nothing(alloc: Global) -> Result<Devices, AllocError> {
    let mut devices = Devices::new(alloc)?;
    let _outcome = devices.run(alloc, b"")?;
    Ok(devices)
}

/// The devices, where one has room for so many bytes.
fn within(devices: Result<Devices, AllocError>, dev: u32, limit: u64) -> Result<Devices, AllocError>
    requires { dev < 26 }
{
    let mut devices = devices?;
    devices.limit(dev, limit);
    Ok(devices)
}

/// The devices of a database with a row, where the coordinator's log has lost its last byte.
fn with_row_but_a_byte(alloc: Global) -> Result<Devices, AllocError> {
    let devices = with_row(alloc)?;
    let bytes = devices.bytes(0);
    let length = bytes.len().saturating_sub(1);
    holding(
        devices.copied(alloc),
        0,
        bytes.get(..length).unwrap_or_default(),
    )
}

/// The devices on which a run begins.
fn devices_of(alloc: Global, start: Start) -> Result<Devices, AllocError> {
    match start {
        Start::Failing(calls) => failing(alloc, calls),
        Start::NoRoom => with_no_room(alloc),
        Start::Coordinator(bytes) => holding(Devices::new(alloc), 0, bytes),
        Start::Kept => with_row(alloc),
        Start::Older => with_older_row(alloc),
        Start::OlderWithin(limit) => within(with_older_row(alloc), 1, limit),
        Start::Bands => with_row_by_bands(alloc),
        Start::Shorter => with_row_but_a_byte(alloc),
        Start::Partition(bytes) => holding(with_row(alloc), 2, bytes),
        Start::CoordinatorWithin(limit) => within(with_row(alloc), 0, limit),
        Start::PartitionWithin(limit) => within(with_row(alloc), 5, limit),
        Start::Empty(bytes) => holding(with_nothing(alloc), 0, bytes),
    }
}

/// The line that tells of what was in flight; nothing where nothing was.
fn flight_text(alloc: Global, flight: &Option<Flight>) -> Result<Vec<u8>, AllocError> {
    let mut text = Vec::new(alloc);
    match flight {
        Some(Flight::Definition(definition)) => {
            text.extend_from_slice(b"in flight: ")?;
            text.extend_from_slice(definition.as_slice())?;
            text.push(b'\n')?;
        }
        Some(Flight::Unit(unit)) => {
            let line = format!(in alloc; "in flight: u{}.{}\n", unit.boot, unit.seq)?;
            text.extend_from_slice(line.as_bytes())?;
        }
        None => {}
    }
    Ok(text)
}

/// The lines that tell an outcome.
fn outcome_text(alloc: Global, name: &str, outcome: &Outcome) -> Result<Vec<u8>, AllocError> {
    let mut text = format!(in alloc; "{name}: {}\n", outcome.status())?.into_bytes();
    text.extend_from_slice(outcome.text())?;
    text.extend_from_slice(flight_text(alloc, outcome.flight())?.as_slice())?;
    Ok(text)
}

/// The line that tells that a run which was refused what stands on its devices has changed it; else nothing.
fn change_text(status: Status, before: &Devices, after: &Devices) -> &'static [u8] {
    let is_refused = matches!(status, Status::NotSalt(_) | Status::OtherShape { .. });
    if is_refused && !before.are_as(after) {
        b"its devices have changed\n"
    } else {
        b""
    }
}

/// What a run tells, how it ends, and whether it has changed what it must not.
fn told_by(alloc: Global, case: Case) -> Result<Vec<u8>, AllocError> {
    let mut devices = devices_of(alloc, case.start)?;
    let before = devices.copied(alloc)?;
    let outcome = devices.run_within(alloc, ROOM, case.words, case.script.as_bytes())?;
    let mut text = outcome_text(alloc, case.name, &outcome)?;
    text.extend_from_slice(change_text(outcome.status(), &before, &devices))?;
    Ok(text)
}

/// What each of these runs tells.
pub fn by_devices(alloc: Global) -> Result<Vec<u8>, AllocError> {
    let mut text = Vec::new(alloc);
    for case in CASES {
        text.extend_from_slice(told_by(alloc, case)?.as_slice())?;
    }
    Ok(text)
}
