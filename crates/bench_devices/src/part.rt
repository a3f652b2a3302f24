//! A partition whose log has units of a hundred rows each.

ghost use Rattle.salt_bytes.specs.Spellable.{Every};
ghost use Rattle.salt_disk.specs.Disks.{IsSettled};
ghost use Rattle.salt_disk.specs.MemDisks.{seen};
ghost use Rattle.salt_codec.specs.Entries.{HasRow};
ghost use Rattle.salt_gatelog.specs.Log.{IsLog};
ghost use Rattle.salt_partition.specs.Partitions.{StandsOnDevices};
ghost use Rattle.std.specs.Prelude.{IfOk, List, OnOk, ℕ, ◌<◌, ◌≡◌};

use salt_codec::{Header, spell_header, with_prepared};
use salt_disk::{DiskErr, Disks, MemDisks};
use salt_gatelog::{GateLog, PairErr, create};
use salt_partition::{Partition, open_partition};
use salt_values::{Change, Id, Ids, Row, Value};
use sqlite_items::Items;
use std::alloc::{AllocError, Global};

/// No device is too short.
const LIMIT: u64 = 1 << 40;

const ROWS_OF_UNIT: u32 = 100;

fn unit_id(number: u32) -> Id {
    Id {
        boot: 1,
        seq: u64::from(number),
    }
}

/// Row (key, 1) is put into table 0.
fn put_of(alloc: Global, key: u32) -> Result<Change, AllocError>
    ensures { IfOk result HasRow }
{
    let mut row = Row::new(alloc);
    row.push(Value::Int(i64::from(key)))?;
    row.push(Value::Int(1))?;
    Ok(Change {
        table: 0,
        key: Value::Int(i64::from(key)),
        row: Some(row),
    })
}

fn unit_changes(alloc: Global, number: u32) -> Result<Vec<Change>, AllocError>
    ensures { IfOk result (λ made. Every HasRow made.items) }
{
    let mut changes = Vec::new(alloc);
    for i in 0..ROWS_OF_UNIT {
        let key = number.saturating_mul(ROWS_OF_UNIT).saturating_add(i);
        changes.push(put_of(alloc, key)?)?;
    }
    Ok(changes)
}

fn unit_entry(alloc: Global, number: u32) -> Result<Vec<u8>, AllocError> {
    let changes = unit_changes(alloc, number)?;
    with_prepared(Vec::new(alloc), unit_id(number), &changes)
}

fn header_entry(alloc: Global) -> Result<Vec<u8>, AllocError> {
    let header = Header {
        format: 2,
        generation: 1,
        part: 0,
        sides: Items::new(alloc),
    };
    spell_header(alloc, &header)
}

fn append_units(
    alloc: Global,
    disks: &mut MemDisks,
    log: &mut GateLog,
    units: u32,
) -> Result<(), DiskErr>
    requires { (entries : List (List ℕ)) × IsLog (seen disks.old) log.old entries }
    ensures { (seen disks.new).count ≡ (seen disks.old).count }
{
    for number in 0..units {
        let entry = unit_entry(alloc, number)?;
        log.append(alloc, disks, &entry)?;
    }
    Ok(())
}

fn make_log(alloc: Global, disks: &mut MemDisks, units: u32) -> Result<(), DiskErr>
    requires known { 2 < (seen disks.old).count }
    requires settled { IsSettled (seen disks.old) 2 }
    ensures { (seen disks.new).count ≡ (seen disks.old).count }
{
    let header = header_entry(alloc)?;
    let mut log = create(disks, 2)?;
    log.append(alloc, disks, &header)?;
    append_units(alloc, disks, &mut log, units)
}

fn decided(alloc: Global, units: u32) -> Result<Ids, AllocError> {
    let mut ids = Items::new(alloc);
    for number in 0..units {
        ids.push(unit_id(number))?;
    }
    Ok(ids)
}

/// So often opens a partition of so many rows.
pub fn read(alloc: Global, rows: u32, times: u32) -> Result<u64, PairErr> {
    let units = rows / ROWS_OF_UNIT;
    let mut disks = MemDisks::new(alloc, 5, LIMIT)?;
    make_log(alloc, &mut disks, units)?;
    let ids = decided(alloc, units)?;
    let mut opened: u64 = 0;
    for _time in 0..times {
        disks.restart();
        let _part = open_partition(alloc, &mut disks, 0, 1, &ids)?;
        opened = opened.saturating_add(u64::from(rows));
    }
    Ok(opened)
}

/// How many of the rows are there.
fn found(part: &mut Partition, disks: &mut MemDisks, rows: u32) -> Result<u64, DiskErr>
    requires { StandsOnDevices (seen disks.old) part.old }
    ensures { OnOk result (StandsOnDevices (seen disks.new) part.new) }
{
    let mut count: u64 = 0;
    for key in 0..rows {
        if part.get(disks, 0, &Value::Int(i64::from(key)))?.is_some() {
            count = count.saturating_add(1);
        }
    }
    Ok(count)
}

/// So often reads each row of a partition by its key.
pub fn gotten(alloc: Global, rows: u32, times: u32) -> Result<u64, PairErr> {
    let units = rows / ROWS_OF_UNIT;
    let mut disks = MemDisks::new(alloc, 5, LIMIT)?;
    make_log(alloc, &mut disks, units)?;
    disks.restart();
    let ids = decided(alloc, units)?;
    let mut part = open_partition(alloc, &mut disks, 0, 1, &ids)?;
    let mut met: u64 = 0;
    for _time in 0..times {
        met = met.saturating_add(found(&mut part, &mut disks, rows)?);
    }
    Ok(met)
}
