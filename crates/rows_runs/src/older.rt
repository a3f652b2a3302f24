//! Runs over the devices of a database of formats 1, whose opening stops or fails.

ghost use Rattle.std.specs.Prelude.{◌<◌, ◌≤◌};

use crate::devices::{Devices, Failing};
use crate::others::with_row;
use crate::outcome::Outcome;
use crate::tables::{STOPPED, Table};
use salt_run::Status;
use std::alloc::{AllocError, Global};

const ASKED: &str = "@1 select * from t where key = 5\n";

/// What the line tells, up to its answer.
const ANSWER: &[u8] = b"did select * from t where key = 5 -> ";

const ROW: &[u8] = b"rows (5, -3)";

/// Where the format of a header stands in its log: behind a gate, a length and five letters.
const FORMAT_AT: usize = 14;

/// How many writes and syncs are made before the boot has ended: partition 0 is checkpointed without a page, and partition 1 with one, the
/// coordinator's log gets a snapshot, and the boot is appended.
const CALLS: u64 = 19;

/// A log with its header in this format.
pub fn in_format(alloc: Global, bytes: &[u8], format: u8) -> Result<Vec<u8>, AllocError> {
    let mut older = Vec::new(alloc);
    for (place, byte) in bytes.iter().enumerate() {
        older.push(if place == FORMAT_AT { format } else { *byte })?;
    }
    Ok(older)
}

/// The log of a device is taken back to format 1.
fn take_back(alloc: Global, devices: &mut Devices, dev: u32) -> Result<(), AllocError>
    requires { dev < 26 }
{
    let older = in_format(alloc, devices.bytes(dev), 1)?;
    devices.set_bytes(dev, &older)
}

/// The devices of a database with a row, in formats 1.
pub fn with_older_row(alloc: Global) -> Result<Devices, AllocError> {
    let mut devices = with_row(alloc)?;
    take_back(alloc, &mut devices, 0)?;
    take_back(alloc, &mut devices, 2)?;
    take_back(alloc, &mut devices, 5)?;
    Ok(devices)
}

/// The run ends well, and tells the row.
fn tells_row(outcome: &Outcome) -> bool {
    outcome.is(Status::Done) && outcome.last_behind(ANSWER) == ROW
}

/// An opening that stops is told, the next one is ready, and the row is there, then and in a second run.
fn stays_behind_stop(
    alloc: Global,
    older: &Devices,
    call: u64,
    pick: u8,
) -> Result<bool, AllocError>
    requires { pick ≤ 4 }
{
    let mut devices = older.copied(alloc)?;
    devices.arm(call, pick)?;
    let first = devices.run(alloc, ASKED.as_bytes())?;
    let second = devices.run(alloc, ASKED.as_bytes())?;
    Ok(first.count(STOPPED) == 1 && tells_row(&first) && tells_row(&second))
}

/// A stop at each call of the opening, with each pick.
pub fn older_stops(alloc: Global) -> Result<Table, AllocError> {
    let older = with_older_row(alloc)?;
    let mut table = Table::new();
    for call in 1..CALLS.saturating_add(1) {
        for pick in 0..5 {
            table.add(stays_behind_stop(alloc, &older, call, pick)?);
        }
    }
    Ok(table)
}

/// The opening fails, or an opening behind it is ready; a run over what it leaves tells the row.
fn stays_behind_fault(alloc: Global, older: &Devices, call: u64) -> Result<bool, AllocError> {
    let mut devices = older.copied(alloc)?;
    devices.fail(Failing::Write(call))?;
    let first = devices.run(alloc, ASKED.as_bytes())?;
    let second = devices.copied(alloc)?.run(alloc, ASKED.as_bytes())?;
    Ok((first.is(Status::DiskFault) || tells_row(&first)) && tells_row(&second))
}

/// Each write or sync of the opening fails in turn.
pub fn older_fails(alloc: Global) -> Result<Table, AllocError> {
    let older = with_older_row(alloc)?;
    let mut table = Table::new();
    for call in 1..CALLS.saturating_add(1) {
        table.add(stays_behind_fault(alloc, &older, call)?);
    }
    Ok(table)
}
