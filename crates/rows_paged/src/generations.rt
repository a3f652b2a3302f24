//! A partition on pages that begins one generation after another.

ghost use Rattle.rows_paged.specs.Stages.{AreSettled, StandsEmpty};
ghost use Rattle.salt_bytes.specs.Changes.{are_in_order};
ghost use Rattle.salt_bytes.specs.Spellable.{Every};
ghost use Rattle.salt_codec.specs.Entries.{CanBePut};
ghost use Rattle.salt_disk.specs.MemDisks.{seen};
ghost use Rattle.salt_paged.specs.Partitions.{StandsOnDevices};
ghost use Rattle.std.specs.Prelude.{IfOk, OnOk, true, ◌<◌, ◌≡◌, ◌≤◌};

use salt_disk::{DiskErr, Disks, MemDisks};
use salt_gatelog::PairErr;
use salt_paged::{Partition, create_partition, open_partition};
use salt_values::{Change, Changes, Id, Ids, Row, Value};
use sqlite_items::Items;
use std::alloc::{AllocError, Global};

/// The devices of the coordinator, and of partition 0.
const DEVICES: u32 = 5;

const LIMIT: u64 = 1 << 20;

/// The key of the row.
const KEY: i64 = 7;

const UNITS: [Id; 2] = [Id { boot: 1, seq: 1 }, Id { boot: 1, seq: 2 }];

/// The changes of a unit: the row has this value from now on.
fn changes(alloc: Global, value: i64) -> Result<Changes, AllocError>
    ensures ordered { IfOk result (λ made. are_in_order made ≡ true) }
    ensures put { IfOk result (Every (CanBePut true)) }
{
    let mut row = Items::new(alloc);
    row.push(Value::Int(KEY))?;
    row.push(Value::Int(value))?;
    let mut made = Items::new(alloc);
    made.push(Change {
        table: 0,
        key: Value::Int(KEY),
        row: Some(row),
    })?;
    Ok(made)
}

/// A unit is prepared and applied that gives the row this value.
fn commit(
    alloc: Global,
    disks: &mut MemDisks,
    part: &mut Partition,
    unit: Id,
    value: i64,
) -> Result<(), DiskErr>
    requires { StandsEmpty (seen disks.old) part.old }
    ensures stands { OnOk result (StandsOnDevices (seen disks.new) part.new) }
    ensures count { (seen disks.new).count ≡ (seen disks.old).count }
{
    let changes = changes(alloc, value)?;
    part.prepare(disks, unit, &changes)?;
    part.apply(disks, unit)
}

/// A partition that has begun its second generation, and has a unit behind that header.
fn begun(alloc: Global, disks: &mut MemDisks) -> Result<Partition, DiskErr>
    requires known { 4 < (seen disks.old).count }
    requires settled { AreSettled (seen disks.old) }
    ensures stands { IfOk result (StandsOnDevices (seen disks.new)) }
    ensures count { (seen disks.new).count ≡ (seen disks.old).count }
{
    let mut part = create_partition(alloc, disks, 0)?;
    commit(alloc, disks, &mut part, UNITS[0], 1)?;
    part.checkpoint(disks)?;
    commit(alloc, disks, &mut part, UNITS[1], 2)?;
    Ok(part)
}

/// Both units are decided.
fn decided(alloc: Global) -> Result<Ids, AllocError> {
    let mut units = Items::new(alloc);
    units.push(UNITS[0])?;
    units.push(UNITS[1])?;
    Ok(units)
}

/// The value in a row of a key and a value.
fn value_in(row: &Option<Row>) -> Option<i64> {
    match row.as_ref()?.get(1) {
        Some(Value::Int(value)) => Some(*value),
        _ => None,
    }
}

/// The letter of the log that counts, where the row has the last unit's value.
fn letter_of_log(value: Option<i64>, device: u32) -> char {
    match (value, device) {
        (Some(2), 2) => 'a',
        (Some(2), 3) => 'b',
        _ => '?',
    }
}

/// What the partition is opened as.
fn found(alloc: Global, disks: &mut MemDisks) -> Result<char, PairErr>
    requires known { 4 < (seen disks.old).count }
    requires settled { AreSettled (seen disks.old) }
{
    let decided = decided(alloc)?;
    let mut part = open_partition(alloc, disks, 0, 1, &decided)?;
    let row = part.get(disks, 0, &Value::Int(KEY))?;
    Ok(letter_of_log(value_in(&row), part.device()))
}

/// What it is opened as behind a checkpoint, whatever that has answered.
fn checkpointed(alloc: Global, disks: &mut MemDisks, part: Partition) -> Result<char, PairErr>
    requires known { 4 < (seen disks.old).count }
    requires stands { StandsOnDevices (seen disks.old) part }
{
    let mut part = part;
    let _ended = part.checkpoint(disks);
    disks.restart();
    found(alloc, disks)
}

/// The letter of what was found.
pub fn letter_of(found: Result<char, PairErr>) -> char {
    match found {
        Ok(letter) => letter,
        Err(PairErr::NotSalt(_)) => 'n',
        Err(PairErr::Disk(DiskErr::Full(_))) => 'f',
        Err(_) => '?',
    }
}

/// What stands after a stop of the last checkpoint.
pub fn after_stop(alloc: Global, calls: u64, pick: u8) -> Result<char, PairErr>
    requires { pick ≤ 4 }
{
    let mut disks = MemDisks::new(alloc, DEVICES, LIMIT)?;
    let part = begun(alloc, &mut disks)?;
    disks.arm(calls, pick)?;
    checkpointed(alloc, &mut disks, part)
}

/// What stands where a call fails.
fn after_failure(alloc: Global, disks: &mut MemDisks) -> char
    requires known { 4 < (seen disks.old).count }
    requires settled { AreSettled (seen disks.old) }
{
    let Ok(part) = begun(alloc, disks) else {
        return 'm';
    };
    checkpointed(alloc, disks, part).unwrap_or('o')
}

/// What stands after that write or sync fails.
pub fn after_failed_call(alloc: Global, call: u64) -> Result<char, AllocError> {
    let mut disks = MemDisks::new(alloc, DEVICES, LIMIT)?;
    disks.fail_write(call)?;
    Ok(after_failure(alloc, &mut disks))
}

/// What stands after that read fails.
pub fn after_failed_read(alloc: Global, read: u64) -> Result<char, AllocError> {
    let mut disks = MemDisks::new(alloc, DEVICES, LIMIT)?;
    disks.fail_read(read)?;
    Ok(after_failure(alloc, &mut disks))
}

/// What stands on devices of this limit.
pub fn within(alloc: Global, limit: u64) -> Result<char, PairErr> {
    let mut disks = MemDisks::new(alloc, DEVICES, limit)?;
    let part = begun(alloc, &mut disks)?;
    checkpointed(alloc, &mut disks, part)
}
