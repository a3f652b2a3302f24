//! Tables of runs that stop, fail or find a device full while logs that are full begin new generations.

ghost use Rattle.std.specs.Prelude.{◌≤◌};

use crate::devices::{DEVICES, Devices, Failing};
use crate::outcome::Outcome;
use crate::tables::{ROWS, STOPPED, Table};
use salt_run::Status;
use std::alloc::{AllocError, Global};

/// A row in each partition. Behind them the coordinator's log has four entries behind its header: a boot, the table and two units.
const START: &str = "create table acct (id int key, bal int)
@1 insert into acct values (1, 100)
@1 insert into acct values (2, 100)
";

/// A unit of partition 0. It makes 8 calls, and so many that make room before them.
const UNIT: &str = "@1 update acct set bal = bal + 1 where key = 2\n";

/// A unit that changes nothing, and is in the coordinator's log alone.
const COUNT: &str = "@1 select count(*) from acct\n";

/// The most bytes of the story of a database that is filled.
const FILLED: usize = 262_144;

/// More reads than such a run makes.
const READS: u64 = 60;

/// A database with full logs, over whose devices a run does one unit of partition 0.
#[derive(Clone, Copy)]
struct Full {
    name: &'static str,
    /// How many units of partition 0 stand behind the rows, and then how many that change nothing.
    units: u64,
    counts: u64,
    /// How many writes and syncs the run makes in its opening, up to the last log that begins anew, and in all.
    opening: u64,
    begun: u64,
    calls: u64,
    /// How many an opening makes where the last log was not begun.
    again: u64,
    /// Where writes of the run end, each of which goes further on its device than those before it.
    ends: &'static [(u32, u64)],
}

/// The logs that begin anew in such a run. The coordinator's has 57 bytes of a header, 18 of a boot, 65 of the table and 44 of each unit; behind a
/// snapshot its header has 112. A partition's has 29 of a header that names a page, and 56 of each unit. Each needs a gate behind it. An
/// entry makes 4 calls. A checkpoint makes one of its page, where that was changed, one of the pages' sync, two where the other log is
/// open, which is so from the second one on, and 4 of its header.
const FULL: [Full; 3] = [
    // 256 units, and 4 + 255 entries: behind the boot the unit begins log B of its partition
    Full {
        name: "where a partition's log begins anew",
        units: 255,
        counts: 0,
        opening: 4,
        begun: 10,
        calls: 18,
        again: 4,
        ends: &[(0, 11_467), (4, 8_192), (3, 30), (3, 86), (0, 11_511)],
    },
    // 256 units in the third generation, and 1,023 entries: behind the boot the unit begins log B of its partition, and then log A again, log
    // B of the other one, and log B of the coordinator
    Full {
        name: "where all logs begin anew",
        units: 767,
        counts: 252,
        opening: 4,
        begun: 29,
        calls: 37,
        again: 22,
        ends: &[
            (0, 45_083),
            (4, 8_192),
            (3, 30),
            (2, 30),
            (7, 8_192),
            (6, 30),
            (1, 113),
            (2, 86),
            (1, 157),
        ],
    },
    // 256 units in the third generation, and 1,024 entries: the boot begins log B of each
    Full {
        name: "where all logs begin anew in an opening",
        units: 767,
        counts: 253,
        opening: 22,
        begun: 18,
        calls: 30,
        again: 22,
        ends: &[
            (4, 8_192),
            (3, 30),
            (7, 8_192),
            (6, 30),
            (1, 113),
            (1, 131),
            (3, 86),
            (1, 175),
        ],
    },
];

/// A table of runs.
#[derive(Clone, Copy)]
enum Hostile {
    Stop,
    TwoStops,
    WriteFails,
    WritesFail,
    ReadFails,
    NoRoom,
}

const HOSTILE: [Hostile; 6] = [
    Hostile::Stop,
    Hostile::TwoStops,
    Hostile::WriteFails,
    Hostile::WritesFail,
    Hostile::ReadFails,
    Hostile::NoRoom,
];

impl Hostile {
    fn name(self) -> &'static str {
        match self {
            Hostile::Stop => "a stop",
            Hostile::TwoStops => "a stop in the opening behind another",
            Hostile::WriteFails => "a write that fails",
            Hostile::WritesFail => "writes that fail from one on",
            Hostile::ReadFails => "a read that fails",
            Hostile::NoRoom => "a device that is full",
        }
    }

    fn table(self, alloc: Global, full: Full, devices: &Devices) -> Result<Table, AllocError> {
        match self {
            Hostile::Stop => each_stop(alloc, full, devices),
            Hostile::TwoStops => two_stops(alloc, full, devices),
            Hostile::WriteFails => each_write(alloc, full, devices, false),
            Hostile::WritesFail => each_write(alloc, full, devices, true),
            Hostile::ReadFails => each_read(alloc, full, devices),
            Hostile::NoRoom => each_end(alloc, full, devices),
        }
    }
}

/// Adds a line so often.
fn add_lines(script: &mut Vec<u8>, line: &str, times: u64) -> Result<(), AllocError> {
    for _ in 0..times {
        script.extend_from_slice(line.as_bytes())?;
    }
    Ok(())
}

/// The devices of the database.
fn filled(alloc: Global, full: Full) -> Result<Devices, AllocError> {
    let mut script = Vec::from_slice(alloc, START.as_bytes())?;
    add_lines(&mut script, UNIT, full.units)?;
    add_lines(&mut script, COUNT, full.counts)?;
    let mut devices = Devices::new(alloc)?;
    let _outcome = devices.run_within(alloc, FILLED, &["run"], &script)?;
    Ok(devices)
}

/// Whether a run finds the database with so many units behind those that it was filled with: by the number of its decisions, and by the row.
fn has_units(alloc: Global, full: Full, found: &Outcome, units: u64) -> Result<bool, AllocError> {
    let units = full.units.saturating_add(units);
    let decisions = units.saturating_add(full.counts).saturating_add(3);
    let numbers = format!(in alloc; " {decisions}\nready\n")?;
    let rows = format!(in alloc; "rows (1, 100) (2, {})", units.saturating_add(100))?;
    Ok(
        found.is(Status::Done)
            && found.count(numbers.as_bytes()) == 1
            && found.last_behind(b"did select * from acct -> ") == rows.as_bytes(),
    )
}

/// Whether the database stands behind a run as it must: with the unit or without it, as is asked, else with it where that was told.
fn stands(
    alloc: Global,
    full: Full,
    devices: &Devices,
    outcome: &Outcome,
    asked: Option<bool>,
) -> Result<bool, AllocError> {
    let found = devices.copied(alloc)?.run(alloc, ROWS.as_bytes())?;
    let is_with = has_units(alloc, full, &found, 1)?;
    let is_without = has_units(alloc, full, &found, 0)?;
    let is_told = outcome.count(b" committed ") == 1;
    Ok(match asked {
        Some(true) => is_with,
        Some(false) => is_without && !is_told,
        None => is_with || is_without && !is_told,
    })
}

/// Whether the gate of the unit's decision is open behind a stop: at its write or at the sync behind it, as the pick leaves it.
fn is_decided(full: Full, call: u64, pick: u8) -> bool {
    full.calls < call || full.calls.saturating_sub(2) < call && (pick == 1 || pick == 3)
}

/// A stop. In the opening it is another one that ends, and the unit is done behind that.
fn stops_well(
    alloc: Global,
    full: Full,
    devices: &Devices,
    call: u64,
    pick: u8,
) -> Result<bool, AllocError>
    requires { pick ≤ 4 }
{
    let mut devices = devices.copied(alloc)?;
    devices.arm(call, pick)?;
    let outcome = devices.run(alloc, UNIT.as_bytes())?;
    let stops = if call <= full.calls { 1 } else { 0 };
    let is_stopped = outcome.is(Status::Done) && outcome.count(STOPPED) == stops;
    let is_kept = call <= full.opening || is_decided(full, call, pick);
    Ok(is_stopped && stands(alloc, full, &devices, &outcome, Some(is_kept))?)
}

/// A stop with each pick.
fn each_pick(
    alloc: Global,
    full: Full,
    devices: &Devices,
    table: &mut Table,
    call: u64,
) -> Result<(), AllocError> {
    for pick in 0..5 {
        table.add(stops_well(alloc, full, devices, call, pick)?);
    }
    Ok(())
}

/// A stop at each call, and at one that does not come any more.
fn each_stop(alloc: Global, full: Full, devices: &Devices) -> Result<Table, AllocError> {
    let mut table = Table::new();
    for call in 1..full.calls.saturating_add(2) {
        each_pick(alloc, full, devices, &mut table, call)?;
    }
    Ok(table)
}

/// A stop that leaves the last log as it was, and another in the opening behind it. Where the first one was in the unit, it is not done.
fn stops_again(
    alloc: Global,
    full: Full,
    devices: &Devices,
    call: u64,
    pick: u8,
) -> Result<bool, AllocError>
    requires { pick ≤ 4 }
{
    let mut devices = devices.copied(alloc)?;
    devices.arm(full.begun, 0)?;
    devices.arm(call, pick)?;
    let outcome = devices.run(alloc, UNIT.as_bytes())?;
    let is_stopped = outcome.is(Status::Done) && outcome.count(STOPPED) == 2;
    let is_kept = Some(full.begun <= full.opening);
    Ok(is_stopped && stands(alloc, full, &devices, &outcome, is_kept)?)
}

/// Such stops, at each call of the opening and with each pick.
fn two_stops(alloc: Global, full: Full, devices: &Devices) -> Result<Table, AllocError> {
    let mut table = Table::new();
    for call in 1..full.again.saturating_add(1) {
        for pick in 0..5 {
            table.add(stops_again(alloc, full, devices, call, pick)?);
        }
    }
    Ok(table)
}

/// Calls fail: the run ends well, or in an opening.
fn fails_well(
    alloc: Global,
    full: Full,
    devices: &Devices,
    failing: Failing,
    asked: Option<bool>,
) -> Result<bool, AllocError> {
    let mut devices = devices.copied(alloc)?;
    devices.fail(failing)?;
    let outcome = devices.run(alloc, UNIT.as_bytes())?;
    let is_ended = outcome.is(Status::Done) || outcome.is(Status::DiskFault);
    Ok(is_ended && stands(alloc, full, &devices, &outcome, asked)?)
}

/// Each write or sync fails in turn, or all from each one on. Behind the last one, a sync, the unit is decided.
fn each_write(
    alloc: Global,
    full: Full,
    devices: &Devices,
    is_on: bool,
) -> Result<Table, AllocError> {
    let mut table = Table::new();
    for call in 1..full.calls.saturating_add(2) {
        let failing = if is_on {
            Failing::From(call)
        } else {
            Failing::Write(call)
        };
        let is_kept = Some(full.calls <= call);
        table.add(fails_well(alloc, full, devices, failing, is_kept)?);
    }
    Ok(table)
}

/// Each read fails in turn.
fn each_read(alloc: Global, full: Full, devices: &Devices) -> Result<Table, AllocError> {
    let mut table = Table::new();
    for call in 1..READS {
        table.add(fails_well(alloc, full, devices, Failing::Read(call), None)?);
    }
    Ok(table)
}

/// The devices, where each of these has room for so many bytes.
fn within(alloc: Global, devices: &Devices, ends: &[(u32, u64)]) -> Result<Devices, AllocError> {
    let mut devices = devices.copied(alloc)?;
    for (dev, end) in ends {
        if *dev < DEVICES {
            devices.limit(*dev, *end);
        }
    }
    Ok(devices)
}

/// A device has a byte too few for a write: it is told to be full, and the unit is not done.
fn is_full(
    alloc: Global,
    full: Full,
    devices: &Devices,
    dev: u32,
    end: u64,
) -> Result<bool, AllocError> {
    let mut devices = within(alloc, devices, &[(dev, end.saturating_sub(1))])?;
    let outcome = devices.run(alloc, UNIT.as_bytes())?;
    let is_told = outcome.is(Status::DeviceFull(dev));
    Ok(is_told && stands(alloc, full, &devices, &outcome, Some(false))?)
}

/// Each device has room up to its last end: the unit is done.
fn has_room(alloc: Global, full: Full, devices: &Devices) -> Result<bool, AllocError> {
    let mut devices = within(alloc, devices, full.ends)?;
    let outcome = devices.run(alloc, UNIT.as_bytes())?;
    let is_done = outcome.is(Status::Done);
    Ok(is_done && stands(alloc, full, &devices, &outcome, Some(true))?)
}

/// A byte too few for each write that no other passes, and then enough for all.
fn each_end(alloc: Global, full: Full, devices: &Devices) -> Result<Table, AllocError> {
    let mut table = Table::new();
    for (dev, end) in full.ends {
        table.add(is_full(alloc, full, devices, *dev, *end)?);
    }
    table.add(has_room(alloc, full, devices)?);
    Ok(table)
}

/// The lines of a database's tables.
fn lines_over(alloc: Global, text: &mut Vec<u8>, full: Full) -> Result<(), AllocError> {
    let devices = filled(alloc, full)?;
    for hostile in HOSTILE {
        let Table { runs, right } = hostile.table(alloc, full, &devices)?;
        let (name, what) = (full.name, hostile.name());
        let line = format!(in alloc; "{name}: {what}: {right} of {runs}\n")?;
        text.extend_from_slice(line.as_bytes())?;
    }
    Ok(())
}

/// How many runs of each table end as they must.
pub fn full_logs(alloc: Global) -> Result<Vec<u8>, AllocError> {
    let mut text = Vec::new(alloc);
    for full in FULL {
        lines_over(alloc, &mut text, full)?;
    }
    Ok(text)
}
