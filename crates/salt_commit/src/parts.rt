//! The partitions of a store are opened under the coordinator's log.

ghost use Rattle.salt_commit.specs.Openings.{IsRefusal, OpensAll, PartsFail, UnitsPassUnder, WroteAtMost};
ghost use Rattle.salt_decisions.specs.Kept.{IsKept};
ghost use Rattle.salt_disk.specs.Disks.{FullWhere, HasCause, KeepsAll, KeepsBut};
ghost use Rattle.salt_gatelog.specs.Answers.{open_disk_err};
ghost use Rattle.salt_model.specs.Kept.{Definition};
ghost use Rattle.salt_parts.specs.Judging.{HasTables};
ghost use Rattle.salt_parts.specs.Openings.{HasRoom, IsPagesOf, IsRulingOf};
ghost use Rattle.salt_place.specs.Placement.{GivesPlaceOf, IsParts, TakesEachKey};
ghost use Rattle.salt_stands.specs.Coordinator.{Coordinator};
ghost use Rattle.salt_stands.specs.CoordinatorLog.{CoordinatorLog};
ghost use Rattle.std.specs.Prelude.{IfErr, IfOk, IsTrue, length, ◌≡◌, ◌≤◌};

use crate::named::units_in_part;
use salt_decisions::{Kept, OpenErr};
use salt_disk::Disks;
use salt_paged::Partition;
use salt_parts::{Ruling, read_all, redo_all};
use salt_place::{PlaceKind, Placement, Shape};
use salt_schema::Schema;
use salt_values::Key;
use std::alloc::{AllocError, Global};

/// What the coordinator's log, which keeps this, tells so many partitions.
fn ruling_of(alloc: Global, kept: &Kept, parts: u8) -> Result<Ruling, AllocError>
    requires log { (log : CoordinatorLog) × IsKept kept.now log }
    requires parts { parts ≤ 8 }
    ensures is { (log : CoordinatorLog) → IsKept kept.now log → IfOk result (λ ruling. IsRulingOf ruling log) }
    ensures size { IfOk result (λ ruling. length ruling.decided.items ≡ parts) }
{
    let mut decided = Vec::new(alloc);
    for part in 0..parts {
        let units = units_in_part(alloc, kept.decided.as_slice(), kept.masks.as_slice(), part)?;
        decided.push(units)?;
    }
    Ok(Ruling {
        boot: kept.boot,
        format: kept.format,
        decided,
    })
}

/// Opens all partitions, in order of their numbers: each is read and judged, before one is written. `NotSalt` is of the first that does
/// not stand. Then the decided units are applied, and pages may be written to sides that no header names.
pub fn open_parts<D: Disks, F: Fn(PlaceKind, &Key, u32) -> u32>(
    alloc: Global,
    disks: &mut D,
    place: &Placement<F>,
    shape: Shape,
    schema: &Schema,
    kept: &Kept,
) -> Result<Vec<Partition>, OpenErr>
    requires callable { TakesEachKey (F.pre place.now.place) }
    requires answers { GivesPlaceOf (F.post place.now.place) }
    requires parts { IsParts shape.parts }
    requires log { (log : CoordinatorLog) × IsKept kept.now log }
    requires room { HasRoom (D.view disks.old) shape.parts }
    ensures opens { (c : Coordinator Definition) → IsKept kept.now c.log → IfOk result (λ opened. OpensAll schema.now shape shape.parts (D.view disks.old) (D.view disks.new) c opened.items) }
    ensures why { (c : Coordinator Definition) → IsKept kept.now c.log → HasTables schema.now shape c → IsTrue (D.view disks.old).told → IfErr result (PartsFail c (D.view disks.old).bytes shape.parts) }
    ensures wrote { (c : Coordinator Definition) → IsKept kept.now c.log → HasTables schema.now shape c → IsTrue (D.view disks.old).told
        → WroteAtMost (D.view disks.old) (D.view disks.new) c shape.parts (open_disk_err result) }
    ensures refused { IfErr result (λ e. IsRefusal e → KeepsAll (D.view disks.old) (D.view disks.new) (open_disk_err result)) }
    ensures others { KeepsBut (IsPagesOf shape.parts) (D.view disks.old) (D.view disks.new) (open_disk_err result) }
    ensures cause { HasCause (D.view disks.old) (D.view disks.new) (open_disk_err result) }
    ensures full { (c : Coordinator Definition) → IsKept kept.now c.log → HasTables schema.now shape c → IsTrue (D.view disks.old).told
        → FullWhere (UnitsPassUnder (D.view disks.old) c shape.parts) (open_disk_err result) }
{
    let ruling = ruling_of(alloc, kept, shape.parts)?;
    let read = read_all(alloc, disks, place, shape, schema, &ruling)?;
    Ok(redo_all(alloc, disks, read, ruling.decided.as_slice())?)
}
