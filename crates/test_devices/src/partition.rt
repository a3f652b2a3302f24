ghost use Rattle.salt_disk.specs.MemDisks.{seen};
ghost use Rattle.salt_disk.specs.Disks.{IsSettled, KeepsAll};
ghost use Rattle.salt_partition.specs.Partitions.{IsPartition, MayPrepare, StandsFor, prepared};
ghost use Rattle.salt_stands.specs.Pieces.{PartView, with_prepared_unit};
ghost use Rattle.salt_values.specs.declared.id.Id.{Id};
ghost use Rattle.salt_values.specs.declared.value.Value.TheVariants.{Int};
ghost use Rattle.std.specs.Prelude.{IfOk, List, None, OnOk, Some, [], pos, ℕ, ◌++◌, ◌<◌, ◌∷◌, ◌≡◌};

use salt_disk::{DiskErr, MemDisks};
use salt_gatelog::PairErr;
use salt_partition::{Partition, create_partition, open_partition};
use salt_values::{Change, Changes, Id, Ids, Value};
use sqlite_items::Items;
use std::alloc::{AllocError, Global};
use std::test::Fail;

const UNIT: Id = Id { boot: 1, seq: 1 };

/// Log A of partition 0 after one unit: its header, the unit's entry, and a closed gate.
const LOG: &[u8] = b"\x01\0\0\0\0\0\0\0\x13SALTP\x02\0\0\0\0\0\0\0\x01\0\0\0\0\0\
\x01\0\0\0\0\0\0\0\x2f\x01\0\0\0\0\0\0\0\x01\0\0\0\0\0\0\0\x01\0\0\0\0\0\0\0\x01\
\0\x03\x01\x02\x01\0\0\0\0\0\0\0\x07\x01\0\0\0\0\0\0\0\x09\0";

/// Row (7, 9) is put into table 3.
fn one_row(alloc: Global) -> Result<Changes, AllocError>
    ensures { IfOk result (λ changes. changes ≡ record { table = 3; key = Int (pos 7); row = Some (Int (pos 7) ∷ Int (pos 9) ∷ []) } ∷ []) }
{
    let mut row = Items::new(alloc);
    row.push(Value::Int(7))?;
    row.push(Value::Int(9))?;
    let mut changes = Items::new(alloc);
    changes.push(Change {
        table: 3,
        key: Value::Int(7),
        row: Some(row),
    })?;
    Ok(changes)
}

/// Prepares a unit, and applies it.
fn commit(
    part: &mut Partition,
    disks: &mut MemDisks,
    unit: Id,
    changes: &Changes,
) -> Result<(), DiskErr>
    requires { StandsFor (seen disks.old) part.old unit changes.now }
    ensures { (p : ℕ) (v : PartView) (applied : List Id) → IsPartition (seen disks.old) part.old p v applied → MayPrepare v applied unit changes.now
        → OnOk result (IsPartition (seen disks.new) part.new p (with_prepared_unit v (prepared unit changes.now)) (applied ++ unit ∷ [])) }
{
    part.prepare(disks, unit, changes)?;
    part.apply(disks, unit)
}

/// Whether a partition that is opened with these units decided has the row.
fn has_row(alloc: Global, disks: &mut MemDisks, decided: &Ids) -> Result<bool, PairErr>
    requires known { 4 < (seen disks.old).count }
    requires settled_a { IsSettled (seen disks.old) 2 }
    requires settled_b { IsSettled (seen disks.old) 3 }
    ensures { OnOk result (KeepsAll (seen disks.old) (seen disks.new) None) }
{
    let mut part = open_partition(alloc, disks, 0, 1, decided)?;
    let row = part.get(disks, 3, &Value::Int(7))?;
    Ok(row.is_some())
}

#[test]
fn a_unit_is_prepared_applied_and_opened(rt: HostRuntime) -> Result<(), Fail> {
    let alloc = rt.alloc();
    let mut disks = MemDisks::new(alloc, 5, 1000)?;
    let mut part = create_partition(alloc, &mut disks, 0)?;
    let changes = one_row(alloc)?;
    commit(&mut part, &mut disks, UNIT, &changes)?;
    assert_eq!(rt; disks.bytes(2), LOG);
    assert!(rt; part.logged(&mut disks, 0)?.is_some());
    assert!(rt; part.logged(&mut disks, 1)?.is_none());
    let mut decided = Items::new(alloc);
    assert!(rt; !has_row(alloc, &mut disks, &decided)?);
    decided.push(UNIT)?;
    assert!(rt; has_row(alloc, &mut disks, &decided)?);
    Ok(())
}

/// The device that an opening names, if it opens no partition from logs of these bytes.
fn fault_of(alloc: Global, a: &[u8], b: &[u8], boot: u64) -> Result<Option<u32>, AllocError> {
    let mut disks = MemDisks::new(alloc, 5, 1000)?;
    disks.set_bytes(2, a)?;
    disks.set_bytes(3, b)?;
    let decided = Items::new(alloc);
    match open_partition(alloc, &mut disks, 0, boot, &decided) {
        Ok(_part) => Ok(None),
        Err(PairErr::NotSalt(dev)) => Ok(Some(dev)),
        Err(PairErr::Disk(_)) => Err(AllocError),
    }
}

#[test]
fn foreign_bytes_are_named_by_their_device(rt: HostRuntime) -> Result<(), Fail> {
    let first = &b"\x01\0\0\0\0\0\0\0\x13SALTP\x02\0\0\0\0\0\0\0\x01\0\0\0\0\0\0"[..];
    let second = &b"\x01\0\0\0\0\0\0\0\x13SALTP\x02\0\0\0\0\0\0\0\x02\0\0\0\0\0\0"[..];
    let other = &b"\x01\0\0\0\0\0\0\0\x13SALTP\x02\0\0\0\0\0\0\0\x01\x01\0\0\0\0\0"[..];
    let strange = &b"\x01\0\0\0\0\0\0\0\x13SALTC\x02\0\0\0\0\0\0\0\x01\0\0\0\0\0\0"[..];
    let paged = &b"\x01\0\0\0\0\0\0\0\x14SALTP\x02\0\0\0\0\0\0\0\x01\0\0\0\0\x01\0\0"[..];
    let cases = [
        (first, &b""[..], 1, None),
        (b"\x02", first, 1, None),
        (first, second, 1, None),
        (LOG, b"", 1, None),
        (b"", b"", 1, Some(3)),
        (first, first, 1, Some(3)),
        (first, b"\x01\0", 1, Some(3)),
        (strange, second, 1, Some(2)),
        (other, b"", 1, Some(2)),
        (paged, b"", 1, Some(4)),
        (LOG, b"", 0, Some(2)),
    ];
    for (a, b, boot, want) in cases {
        assert_eq!(rt; fault_of(rt.alloc(), a, b, boot)?, want);
    }
    Ok(())
}
