//! Runs that stop or fail where a database of an older format is opened in which programs are open.

ghost use Rattle.std.specs.Prelude.{◌<◌, ◌≤◌};

use crate::audits::is_sound;
use crate::devices::{DEVICES, Devices, Failing, ROOM};
use crate::open_database::{BEFORE, are_newest, open_database};
use crate::outcome::Outcome;
use crate::tables::{ROWS, STOPPED, TURNS, Table};
use salt_run::Status;
use std::alloc::{AllocError, Global};

/// Each of these is told once: the first program ends behind its second part; that of the second one fails, and its third ends it.
const PATH: [&[u8]; 3] = [
    b" committed 8\nb1.1 finished\n",
    b" branched 9 check\n",
    b" committed 10\nb1.2 finished\n",
];

const ENDS: &[u8] = b"rows (1, 130) (2, 70) (3, 990)";

const ANSWER: &[u8] = b"did select * from acct -> ";

/// How many writes and syncs are made before both programs are finished: the checkpoint of partition 0 makes 8, with its page, that of
/// partition 1 7, and the snapshot 6; then the boot 4, a part that ends 8, one that fails 4, and another that ends 8.
const CALLS: u64 = 45;

/// The one at which the snapshot's gate is opened, and how many an opening makes that follows a stop there, and all behind it: 4 for its
/// header, and then the same.
const BEGUN: u64 = 20;

const AGAIN: u64 = 28;

/// More reads than such a run makes.
const READS: u64 = 60;

/// Where writes of a run end, each of which goes further on its device than those before it: a side of a page, the headers, and then entries: a
/// boot of 18 bytes, units of 56, decisions by which a program ends of 60, and one of 106 by which it goes on.
const FULL_AT: [(u32, u64); 10] = [
    (4, 8_192),
    (3, 30),
    (6, 30),
    (1, 551),
    (1, 569),
    (6, 86),
    (1, 629),
    (1, 735),
    (3, 86),
    (1, 795),
];

/// A database, and how a run over it goes.
#[derive(Clone, Copy)]
struct Older {
    name: &'static str,
    format: u8,
    words: &'static [&'static str],
    script: &'static str,
    /// How many of its calls are made in the opening.
    opening: u64,
}

const OLDER: [Older; 4] = [
    Older {
        name: "where programs go on from formats 1",
        format: 1,
        words: &["run"],
        script: "",
        opening: CALLS,
    },
    Older {
        name: "where programs go on from formats 2",
        format: 2,
        words: &["run"],
        script: "",
        opening: CALLS,
    },
    Older {
        name: "where programs go on from formats 1 behind early openings",
        format: 1,
        words: &["run", "--early"],
        script: TURNS,
        opening: 25,
    },
    Older {
        name: "where programs go on from formats 2 behind early openings",
        format: 2,
        words: &["run", "--early"],
        script: TURNS,
        opening: 25,
    },
];

/// A table of runs.
#[derive(Clone, Copy)]
enum Hostile {
    Stop,
    TwoStops,
    ThreeStops,
    WriteFails,
    WritesFail,
    ReadFails,
    NoRoom,
    Shorter,
}

const HOSTILE: [Hostile; 8] = [
    Hostile::Stop,
    Hostile::TwoStops,
    Hostile::ThreeStops,
    Hostile::WriteFails,
    Hostile::WritesFail,
    Hostile::ReadFails,
    Hostile::NoRoom,
    Hostile::Shorter,
];

impl Hostile {
    fn name(self) -> &'static str {
        match self {
            Hostile::Stop => "a stop",
            Hostile::TwoStops => "a stop in the opening behind another",
            Hostile::ThreeStops => "a stop, and two in the openings behind it",
            Hostile::WriteFails => "a write that fails",
            Hostile::WritesFail => "writes that fail from one on",
            Hostile::ReadFails => "a read that fails",
            Hostile::NoRoom => "a device that is full",
            Hostile::Shorter => "a device without its last byte",
        }
    }

    fn table(self, alloc: Global, older: Older, devices: &Devices) -> Result<Table, AllocError> {
        match self {
            Hostile::Stop => each_stop(alloc, older, devices),
            Hostile::TwoStops => two_stops(alloc, older, devices),
            Hostile::ThreeStops => three_stops(alloc, older, devices),
            Hostile::WriteFails => each_write(alloc, older, devices),
            Hostile::WritesFail => writes_from_each(alloc, older, devices),
            Hostile::ReadFails => each_read(alloc, older, devices),
            Hostile::NoRoom => each_end(alloc, older, devices),
            Hostile::Shorter => each_shorter(alloc, older, devices),
        }
    }
}

/// Whether a run behind another finds both programs finished, or finishes them: by the rows, by the number of its decision, and in the
/// newest formats.
fn are_finished(alloc: Global, devices: &Devices) -> Result<bool, AllocError> {
    let mut devices = devices.copied(alloc)?;
    let found = devices.run(alloc, ROWS.as_bytes())?;
    Ok(
        found.is(Status::Done)
            && found.last_behind(ANSWER) == ENDS
            && found.text().ends_with(b" committed 11\n")
            && are_newest(alloc, &devices)?,
    )
}

/// Whether what a run has told goes on with what was told before it.
fn goes_on(alloc: Global, outcome: &Outcome) -> Result<bool, AllocError> {
    let mut story = Vec::from_slice(alloc, BEFORE.as_bytes())?;
    story.extend_from_slice(outcome.text())?;
    is_sound(alloc, &story)
}

/// Whether each step of the programs is told once.
fn goes_its_path(outcome: &Outcome) -> bool {
    for step in PATH {
        if outcome.count(step) != 1 {
            return false;
        }
    }
    true
}

fn run(alloc: Global, older: Older, devices: &mut Devices) -> Result<Outcome, AllocError> {
    devices.run_within(alloc, ROOM, older.words, older.script.as_bytes())
}

/// Whether a run ends with both programs finished, behind so many stops.
fn ends_well(
    alloc: Global,
    older: Older,
    devices: &mut Devices,
    stops: u64,
) -> Result<bool, AllocError> {
    let outcome = run(alloc, older, devices)?;
    Ok(
        outcome.is(Status::Done)
            && outcome.count(STOPPED) == stops
            && goes_its_path(&outcome)
            && goes_on(alloc, &outcome)?
            && are_finished(alloc, devices)?,
    )
}

fn stops_well(
    alloc: Global,
    older: Older,
    devices: &Devices,
    call: u64,
    pick: u8,
) -> Result<bool, AllocError>
    requires { pick ≤ 4 }
{
    let mut devices = devices.copied(alloc)?;
    devices.arm(call, pick)?;
    let stops = if call <= CALLS { 1 } else { 0 };
    ends_well(alloc, older, &mut devices, stops)
}

/// A stop at each call with each pick, and at one that does not come any more.
fn each_stop(alloc: Global, older: Older, devices: &Devices) -> Result<Table, AllocError> {
    let mut table = Table::new();
    for call in 1..CALLS.saturating_add(2) {
        for pick in 0..5 {
            table.add(stops_well(alloc, older, devices, call, pick)?);
        }
    }
    Ok(table)
}

/// A stop that leaves the snapshot's gate closed, and another in the opening behind it.
fn stops_again(
    alloc: Global,
    older: Older,
    devices: &Devices,
    call: u64,
    pick: u8,
) -> Result<bool, AllocError>
    requires { pick ≤ 4 }
{
    let mut devices = devices.copied(alloc)?;
    devices.arm(BEGUN, 0)?;
    devices.arm(call, pick)?;
    let stops = if call <= AGAIN { 2 } else { 1 };
    ends_well(alloc, older, &mut devices, stops)
}

/// Such stops, at each call behind the first one and with each pick.
fn two_stops(alloc: Global, older: Older, devices: &Devices) -> Result<Table, AllocError> {
    let mut table = Table::new();
    for call in 1..AGAIN.saturating_add(2) {
        for pick in 0..5 {
            table.add(stops_again(alloc, older, devices, call, pick)?);
        }
    }
    Ok(table)
}

/// A stop, another at one of the first five calls behind it, and another at one of the first five behind that.
fn stops_thrice(
    alloc: Global,
    older: Older,
    devices: &Devices,
    call: u64,
    pick: u8,
) -> Result<bool, AllocError>
    requires { pick ≤ 4 }
{
    let mut devices = devices.copied(alloc)?;
    devices.arm(call, pick)?;
    devices.arm(u64::from(pick).saturating_add(1), pick)?;
    devices.arm(5_u64.saturating_sub(u64::from(pick)), pick)?;
    ends_well(alloc, older, &mut devices, 3)
}

/// Such stops, the first at each call, and with each pick.
fn three_stops(alloc: Global, older: Older, devices: &Devices) -> Result<Table, AllocError> {
    let mut table = Table::new();
    for call in 1..CALLS.saturating_add(1) {
        for pick in 0..5 {
            table.add(stops_thrice(alloc, older, devices, call, pick)?);
        }
    }
    Ok(table)
}

/// Calls fail: the run ends so, where that is asked, else well or in an opening. A run behind it finishes the programs.
fn fails_well(
    alloc: Global,
    older: Older,
    devices: &Devices,
    failing: Failing,
    asked: Option<Status>,
) -> Result<bool, AllocError> {
    let mut devices = devices.copied(alloc)?;
    devices.fail(failing)?;
    let outcome = run(alloc, older, &mut devices)?;
    let is_ended = match asked {
        Some(status) => outcome.is(status),
        None => outcome.is(Status::Done) || outcome.is(Status::DiskFault),
    };
    Ok(is_ended && goes_on(alloc, &outcome)? && are_finished(alloc, &devices)?)
}

/// How a run ends of which calls fail: in an opening, where these do.
fn status_of(is_opening: bool) -> Option<Status> {
    Some(if is_opening {
        Status::DiskFault
    } else {
        Status::Done
    })
}

/// Each write or sync fails in turn, and then one that does not come any more.
fn each_write(alloc: Global, older: Older, devices: &Devices) -> Result<Table, AllocError> {
    let mut table = Table::new();
    for call in 1..CALLS.saturating_add(2) {
        let asked = status_of(call <= older.opening);
        let failing = Failing::Write(call);
        table.add(fails_well(alloc, older, devices, failing, asked)?);
    }
    Ok(table)
}

/// From each write or sync on all fail, and then from one that does not come any more.
fn writes_from_each(alloc: Global, older: Older, devices: &Devices) -> Result<Table, AllocError> {
    let mut table = Table::new();
    for call in 1..CALLS.saturating_add(2) {
        let asked = status_of(call <= CALLS);
        let failing = Failing::From(call);
        table.add(fails_well(alloc, older, devices, failing, asked)?);
    }
    Ok(table)
}

/// Each read fails in turn.
fn each_read(alloc: Global, older: Older, devices: &Devices) -> Result<Table, AllocError> {
    let mut table = Table::new();
    for call in 1..READS {
        let failing = Failing::Read(call);
        table.add(fails_well(alloc, older, devices, failing, None)?);
    }
    Ok(table)
}

/// A device has room for so many bytes: the run ends so.
fn fits(
    alloc: Global,
    older: Older,
    devices: &Devices,
    dev: u32,
    limit: u64,
    asked: Status,
) -> Result<bool, AllocError> {
    let mut devices = devices.copied(alloc)?;
    if dev < DEVICES {
        devices.limit(dev, limit);
    }
    let outcome = run(alloc, older, &mut devices)?;
    let is_ended = outcome.is(asked);
    Ok(is_ended && goes_on(alloc, &outcome)? && are_finished(alloc, &devices)?)
}

/// A byte too few for each write that no other passes: the device is told to be full.
fn each_end(alloc: Global, older: Older, devices: &Devices) -> Result<Table, AllocError> {
    let mut table = Table::new();
    for (dev, end) in FULL_AT {
        let asked = Status::DeviceFull(dev);
        let limit = end.saturating_sub(1);
        table.add(fits(alloc, older, devices, dev, limit, asked)?);
    }
    Ok(table)
}

/// A device holds these bytes: it is refused, nothing is told, and nothing is changed.
fn is_refused(
    alloc: Global,
    older: Older,
    devices: &Devices,
    dev: u32,
    bytes: &[u8],
) -> Result<bool, AllocError>
    requires { dev < 26 }
{
    let mut before = devices.copied(alloc)?;
    before.set_bytes(dev, bytes)?;
    let mut after = before.copied(alloc)?;
    let outcome = run(alloc, older, &mut after)?;
    Ok(outcome.is_told(Status::NotSalt(dev), b"") && before.are_as(&after))
}

/// Each device loses its last byte: a gate, or a byte of a page that counts.
fn each_shorter(alloc: Global, older: Older, devices: &Devices) -> Result<Table, AllocError> {
    let mut table = Table::new();
    for dev in 0..DEVICES {
        if let [bytes @ .., _last] = devices.bytes(dev) {
            table.add(is_refused(alloc, older, devices, dev, bytes)?);
        }
    }
    Ok(table)
}

/// The lines of a database's tables.
fn lines_over(alloc: Global, text: &mut Vec<u8>, older: Older) -> Result<(), AllocError> {
    let devices = open_database(alloc, older.format)?;
    for hostile in HOSTILE {
        let Table { runs, right } = hostile.table(alloc, older, &devices)?;
        let (name, what) = (older.name, hostile.name());
        let line = format!(in alloc; "{name}: {what}: {right} of {runs}\n")?;
        text.extend_from_slice(line.as_bytes())?;
    }
    Ok(())
}

/// How many runs of each table end as they must.
pub fn open_programs(alloc: Global) -> Result<Vec<u8>, AllocError> {
    let mut text = Vec::new(alloc);
    for older in OLDER {
        lines_over(alloc, &mut text, older)?;
    }
    Ok(text)
}
