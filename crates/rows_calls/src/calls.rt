//! What is asked of the devices by each step: of one log, of the coordinator's log, and of a partition.

ghost use Rattle.salt_disk.specs.Disks.{IsSettled};
ghost use Rattle.salt_disk.specs.MemDisks.{seen};
ghost use Rattle.salt_partition.specs.Partitions.{StandsFor};
ghost use Rattle.salt_values.specs.declared.value.Value.TheVariants.{Int};
ghost use Rattle.std.specs.Prelude.{IfOk, None, Some, [], pos, ◌<◌, ◌∷◌, ◌≡◌};

use crate::recorder::Recorder;
use salt_decisions::{OpenErr, open_decisions};
use salt_disk::DiskErr;
use salt_gatelog::create;
use salt_partition::{Partition, create_partition};
use salt_place::{PlaceKind, Shape};
use salt_values::{Change, Changes, Id, Value};
use sqlite_items::Items;
use std::alloc::{AllocError, Global};

const SHAPE: Shape = Shape {
    parts: 2,
    kind: PlaceKind::Bands,
};

const UNIT: Id = Id { boot: 1, seq: 3 };

/// A log is created on a device with these bytes, and gets an entry.
pub fn log_calls(alloc: Global, step: &str, bytes: &[u8]) -> Result<Recorder, DiskErr> {
    let mut disks = Recorder::new(alloc, 1, 100)?;
    disks.set_bytes(0, bytes)?;
    disks.begin(step);
    let mut log = create(&mut disks, 0)?;
    disks.begin("append hi");
    log.append(alloc, &mut disks, b"hi")?;
    Ok(disks)
}

/// The coordinator's log is begun on blank devices, and opened again, and gets an entry of each kind.
fn make_decisions(alloc: Global, disks: &mut Recorder) -> Result<(), OpenErr>
    requires known { 1 < (seen disks.old.disks).count }
    requires settled_a { IsSettled (seen disks.old.disks) 0 }
    requires settled_b { IsSettled (seen disks.old.disks) 1 }
{
    disks.begin("a first opening of the coordinator's log");
    let (mut log, _kept) = open_decisions(alloc, disks, SHAPE)?;
    disks.begin("boot");
    log.boot(alloc, disks)?;
    disks.begin("define");
    log.define(alloc, disks, b"create table t (id int key)")?;
    disks.begin("decide");
    log.decide(alloc, disks, UNIT, 3, &[0])?;
    Ok(())
}

pub fn decision_calls(alloc: Global) -> Result<Recorder, OpenErr> {
    let mut disks = Recorder::new(alloc, 2, 1000)?;
    make_decisions(alloc, &mut disks)?;
    Ok(disks)
}

/// Row (7, 9) is put into table 0, and that of key 8 removed.
fn two_changes(alloc: Global) -> Result<Changes, AllocError>
    ensures { IfOk result (λ changes. changes ≡ record { table = 0; key = Int (pos 7); row = Some (Int (pos 7) ∷ Int (pos 9) ∷ []) } ∷ record { table = 0; key = Int (pos 8); row = None } ∷ []) }
{
    let mut row = Items::new(alloc);
    row.push(Value::Int(7))?;
    row.push(Value::Int(9))?;
    let mut changes = Items::new(alloc);
    changes.push(Change {
        table: 0,
        key: Value::Int(7),
        row: Some(row),
    })?;
    changes.push(Change {
        table: 0,
        key: Value::Int(8),
        row: None,
    })?;
    Ok(changes)
}

fn commit(
    part: &mut Partition,
    disks: &mut Recorder,
    unit: Id,
    changes: &Changes,
) -> Result<(), DiskErr>
    requires { StandsFor (seen disks.old.disks) part.old unit changes.now }
{
    disks.begin("prepare");
    part.prepare(disks, unit, changes)?;
    disks.begin("apply");
    part.apply(disks, unit)
}

/// A partition is made, and a unit prepared in it and applied.
pub fn part_calls(alloc: Global) -> Result<Recorder, DiskErr> {
    let mut disks = Recorder::new(alloc, 5, 1000)?;
    disks.begin("a new partition");
    let mut part = create_partition(alloc, &mut disks, 0)?;
    let changes = two_changes(alloc)?;
    commit(&mut part, &mut disks, UNIT, &changes)?;
    Ok(disks)
}
