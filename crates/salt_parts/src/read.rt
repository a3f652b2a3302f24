//! Partitions are read and judged. Nothing is written.

ghost use Rattle.salt_disk.specs.Disks.{HasCause, IsSettled, KeepsAll, OnlyFails};
ghost use Rattle.salt_gatelog.specs.Pair.{pair_err};
ghost use Rattle.salt_model.specs.Kept.{Definition};
ghost use Rattle.salt_paged.specs.Openings.{IsFound};
ghost use Rattle.salt_parts.specs.Judging.{HasTables};
ghost use Rattle.salt_parts.specs.Openings.{FitsUnder, HasRoom, IsRulingOf, PartRefuses, PartsRefuse, ReadsAll, ReadsIn};
ghost use Rattle.salt_place.specs.Placement.{GivesPlaceOf, IsParts, TakesEachKey};
ghost use Rattle.salt_stands.specs.Coordinator.{Coordinator};
ghost use Rattle.salt_stands.specs.Partition.{is_format_under, pages_device, part_device};
ghost use Rattle.std.specs.Prelude.{IfErr, IfOk, IsTrue, List, Option, length, ℕ, ◌+◌, ◌<◌, ◌≡◌};

use crate::judge::PartJudge;
use crate::ruling::Ruling;
use salt_disk::Disks;
use salt_gatelog::PairErr;
use salt_paged::{FoundLog, ReadPartition, find_log};
use salt_place::{PlaceKind, Placement, Shape};
use salt_schema::Schema;
use salt_values::Key;
use std::alloc::{AllocError, Global};

/// Whether a partition's log of this format may stand under a coordinator's.
fn is_format_under(coordinator: u8, format: u8) -> bool
    ensures { result ≡ is_format_under coordinator format }
{
    coordinator < 2 || format == 2
}

/// Reads the log of the judge's partition, which fits the coordinator's and the tables. `NotSalt` exactly of the device that a fault of
/// the log counts against.
fn find_fitting<D: Disks, F: Fn(PlaceKind, &Key, u32) -> u32>(
    alloc: Global,
    disks: &mut D,
    judge: &PartJudge<'_, F>,
    ruling: &Ruling,
) -> Result<FoundLog, PairErr>
    requires callable { TakesEachKey (F.pre judge.now.place.now.place) }
    requires answers { GivesPlaceOf (F.post judge.now.place.now.place) }
    requires parts { IsParts judge.now.shape.parts }
    requires ruled { judge.now.part < length ruling.now.decided.items }
    requires known { pages_device judge.now.part < (D.view disks.old).count }
    requires settled_a { IsSettled (D.view disks.old) (part_device judge.now.part) }
    requires settled_b { IsSettled (D.view disks.old) (part_device judge.now.part + 1) }
    ensures found { IfOk result (λ x. IsFound (D.view disks.new) x judge.now.part) }
    ensures fits { (read : List ℕ → Option Definition) (c : Coordinator Definition) → IsRulingOf ruling.now c.log
        → IfOk result (FitsUnder read judge.now.schema.now judge.now.shape c judge.now.part) }
    ensures why { (read : List ℕ → Option Definition) (c : Coordinator Definition) → IsRulingOf ruling.now c.log → HasTables judge.now.schema.now judge.now.shape c → IsTrue (D.view disks.old).told
        → IfErr result (PartRefuses read c (D.view disks.old).bytes judge.now.part) }
    ensures kept { KeepsAll (D.view disks.old) (D.view disks.new) (pair_err result) }
    ensures cause { HasCause (D.view disks.old) (D.view disks.new) (pair_err result) }
    ensures answers { OnlyFails (pair_err result) }
{
    let part = judge.part;
    let decided = &ruling.decided[usize::from(part)];
    let found = find_log(alloc, disks, part, ruling.boot, decided)?;
    if !is_format_under(ruling.format, found.format()) {
        return Err(PairErr::NotSalt(found.device()));
    }
    if !judge.units_fit(alloc, found.units())? {
        return Err(PairErr::NotSalt(found.device()));
    }
    Ok(found)
}

/// Reads the judge's partition, whose log fits the coordinator's and the tables, as its rows do. `NotSalt` exactly of the device that
/// a fault of the partition's devices counts against.
fn read_fitting<D: Disks, F: Fn(PlaceKind, &Key, u32) -> u32>(
    alloc: Global,
    disks: &mut D,
    judge: &PartJudge<'_, F>,
    ruling: &Ruling,
) -> Result<ReadPartition, PairErr>
    requires callable { TakesEachKey (F.pre judge.now.place.now.place) }
    requires answers { GivesPlaceOf (F.post judge.now.place.now.place) }
    requires parts { IsParts judge.now.shape.parts }
    requires ruled { judge.now.part < length ruling.now.decided.items }
    requires known { pages_device judge.now.part < (D.view disks.old).count }
    requires settled_a { IsSettled (D.view disks.old) (part_device judge.now.part) }
    requires settled_b { IsSettled (D.view disks.old) (part_device judge.now.part + 1) }
    requires pages { IsSettled (D.view disks.old) (pages_device judge.now.part) }
    ensures reads { (read : List ℕ → Option Definition) (c : Coordinator Definition) → IsRulingOf ruling.now c.log
        → IfOk result (ReadsIn read judge.now.schema.now judge.now.shape (D.view disks.old) (D.view disks.new) c judge.now.part) }
    ensures why { (read : List ℕ → Option Definition) (c : Coordinator Definition) → IsRulingOf ruling.now c.log → HasTables judge.now.schema.now judge.now.shape c → IsTrue (D.view disks.old).told
        → IfErr result (PartRefuses read c (D.view disks.old).bytes judge.now.part) }
    ensures kept { KeepsAll (D.view disks.old) (D.view disks.new) (pair_err result) }
    ensures cause { HasCause (D.view disks.old) (D.view disks.new) (pair_err result) }
    ensures answers { OnlyFails (pair_err result) }
{
    let found = find_fitting(alloc, disks, judge, ruling)?;
    let partition = found.read_pages(disks, judge)?;
    Ok(partition)
}

/// Reads the partitions of a store, in order of their numbers, and judges their logs and their rows. It writes nothing, and no unit is
/// applied. `NotSalt` is of the first that does not stand.
pub fn read_all<D: Disks, F: Fn(PlaceKind, &Key, u32) -> u32>(
    alloc: Global,
    disks: &mut D,
    place: &Placement<F>,
    shape: Shape,
    schema: &Schema,
    ruling: &Ruling,
) -> Result<Vec<ReadPartition>, PairErr>
    requires callable { TakesEachKey (F.pre place.now.place) }
    requires answers { GivesPlaceOf (F.post place.now.place) }
    requires parts { IsParts shape.parts }
    requires ruled { length ruling.now.decided.items ≡ shape.parts }
    requires room { HasRoom (D.view disks.old) shape.parts }
    ensures reads { (read : List ℕ → Option Definition) (c : Coordinator Definition) → IsRulingOf ruling.now c.log
        → IfOk result (λ all. ReadsAll read schema.now shape shape.parts (D.view disks.old) (D.view disks.new) c all.items) }
    ensures why { (read : List ℕ → Option Definition) (c : Coordinator Definition) → IsRulingOf ruling.now c.log → HasTables schema.now shape c → IsTrue (D.view disks.old).told
        → IfErr result (PartsRefuse read c (D.view disks.old).bytes shape.parts) }
    ensures kept { KeepsAll (D.view disks.old) (D.view disks.new) (pair_err result) }
    ensures cause { HasCause (D.view disks.old) (D.view disks.new) (pair_err result) }
    ensures answers { OnlyFails (pair_err result) }
{
    let mut all = Vec::new(alloc);
    for part in 0..shape.parts {
        let judge = PartJudge {
            place,
            shape,
            schema,
            part,
        };
        let partition = read_fitting(alloc, disks, &judge, ruling)?;
        if let Err(e) = all.push(partition) {
            return Err(AllocError::from(e).into());
        }
    }
    Ok(all)
}
