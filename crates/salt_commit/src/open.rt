//! A store is opened, or begun.

ghost use Rattle.salt_bytes.specs.Generations.{BothBlank};
ghost use Rattle.salt_commit.specs.Messages.{messages_of};
ghost use Rattle.salt_commit.specs.Openings.{IsNoRefusal, IsRefusal, IsSchemaWhere, LeavesStanding, OpeningFails, OpeningPassesLimit, OpensStore, PartPassesLimit, StorePassesLimit, UnitsPassLimit};
ghost use Rattle.salt_commit.specs.Stores.{IsStoreDevice, reading};
ghost use Rattle.salt_disk.specs.Disks.{FullWhere, HasCause, IsImage, KeepsAll, KeepsBut};
ghost use Rattle.salt_gatelog.specs.Answers.{open_disk_err};
ghost use Rattle.salt_paged.specs.Partitions.{ArePartitions};
ghost use Rattle.salt_parts.specs.Openings.{HasRoom};
ghost use Rattle.salt_place.specs.Placement.{GivesPlaceOf, IsParts, TakesEachKey};
ghost use Rattle.salt_stands.specs.Coordinator.{coordinator_pair};
ghost use Rattle.salt_stands.specs.FirstOpening.{first_view};
ghost use Rattle.salt_stands.specs.LogDevices.{IsPartLog, IsStoreLog};
ghost use Rattle.salt_stands.specs.Stands.{stands_on, logs_of, nothing_found};
ghost use Rattle.std.specs.Prelude.{IfErr, IfOk, IsTrue, List, None, Ok, [], length, ℕ, ◌≡◌};
ghost use Rattle.std.specs.Result.{result_err};

use crate::parts::open_parts;
use crate::store::Store;
use salt_decisions::{Kept, OpenErr, open_decisions, peek};
use salt_disk::{DiskErr, Disks};
use salt_paged::{Partition, create_partition};
use salt_place::{PlaceKind, Placement, Shape};
use salt_schema::Schema;
use salt_values::Key;
use std::alloc::Global;

/// Makes the partitions of a new store, in order of their numbers.
fn create_all<D: Disks>(alloc: Global, disks: &mut D, parts: u8) -> Result<Vec<Partition>, DiskErr>
    requires { HasRoom (D.view disks.old) parts }
    ensures made { IfOk result (λ made. (length made.items ≡ parts) × ArePartitions (D.view disks.new) made.items (first_view 2) (λ p. [])) }
    ensures others { KeepsBut (IsPartLog parts) (D.view disks.old) (D.view disks.new) (result_err result) }
    ensures cause { HasCause (D.view disks.old) (D.view disks.new) (result_err result) }
    ensures full { IsTrue (D.view disks.old).told → FullWhere (PartPassesLimit (D.view disks.new) parts) (result_err result) }
{
    let mut made = Vec::new(alloc);
    for part in 0..parts {
        let partition = create_partition(alloc, disks, part)?;
        made.push(partition)?;
    }
    Ok(made)
}

/// Begins a store where both devices of the coordinator are blank: first its partitions, and then the coordinator's log up to
/// its header. Whatever it answers, each image of the devices stands for a new database.
fn begin_store<D: Disks>(
    alloc: Global,
    disks: &mut D,
    shape: Shape,
) -> Result<(Store, Kept), OpenErr>
    requires room { HasRoom (D.view disks.old) shape.parts }
    requires blank { IsTrue (D.view disks.old).told → coordinator_pair (logs_of (D.view disks.old).bytes) ≡ BothBlank }
    requires parts { IsParts shape.parts }
    ensures ok { IfOk result (λ made. OpensStore (D.view disks.old) (D.view disks.new) shape made.0 made.1) }
    ensures plain { IfOk result (λ made. messages_of made.0 ≡ None) }
    ensures err { IsTrue (D.view disks.old).told → IfErr result IsNoRefusal }
    ensures images { IsTrue (D.view disks.old).told → (image : ℕ → List ℕ) → IsImage (D.view disks.new) image → stands_on reading image shape ≡ Ok (nothing_found shape) }
    ensures others { KeepsBut (IsStoreLog shape.parts) (D.view disks.old) (D.view disks.new) (open_disk_err result) }
    ensures cause { HasCause (D.view disks.old) (D.view disks.new) (open_disk_err result) }
    ensures full { IsTrue (D.view disks.old).told → FullWhere (StorePassesLimit (D.view disks.new) shape) (open_disk_err result) }
{
    let parts = create_all(alloc, disks, shape.parts)?;
    let (decisions, kept) = open_decisions(alloc, disks, shape)?;
    Ok((
        Store {
            alloc,
            decisions,
            parts,
            messages: None,
        },
        kept,
    ))
}

/// Opens a store whose log counts; as `open_store`.
fn open_counting<D: Disks, F: Fn(PlaceKind, &Key, u32) -> u32>(
    alloc: Global,
    disks: &mut D,
    place: &Placement<F>,
    shape: Shape,
    schema: &Schema,
) -> Result<(Store, Kept), OpenErr>
    requires callable { TakesEachKey (F.pre place.now.place) }
    requires answers { GivesPlaceOf (F.post place.now.place) }
    requires parts { IsParts shape.parts }
    requires room { HasRoom (D.view disks.old) shape.parts }
    requires schema { IsTrue (D.view disks.old).told → IsSchemaWhere schema.now (coordinator_pair (logs_of (D.view disks.old).bytes)) }
    requires counts { IsTrue (D.view disks.old).told → ¬ (coordinator_pair (logs_of (D.view disks.old).bytes) ≡ BothBlank) }
    ensures ok { IfOk result (λ made. OpensStore (D.view disks.old) (D.view disks.new) shape made.0 made.1) }
    ensures plain { IfOk result (λ made. messages_of made.0 ≡ None) }
    ensures err { IsTrue (D.view disks.old).told → IfErr result (OpeningFails shape (D.view disks.old).bytes) }
    ensures leaves { IsTrue (D.view disks.old).told → LeavesStanding (D.view disks.old) (D.view disks.new) shape (open_disk_err result) }
    ensures refused { IsTrue (D.view disks.old).told → IfErr result (λ e. IsRefusal e → KeepsAll (D.view disks.old) (D.view disks.new) (open_disk_err result)) }
    ensures others { KeepsBut (IsStoreDevice shape.parts) (D.view disks.old) (D.view disks.new) (open_disk_err result) }
    ensures cause { HasCause (D.view disks.old) (D.view disks.new) (open_disk_err result) }
    ensures full { IsTrue (D.view disks.old).told → FullWhere (UnitsPassLimit (D.view disks.old) shape) (open_disk_err result) }
{
    let (decisions, kept) = open_decisions(alloc, disks, shape)?;
    let parts = open_parts(alloc, disks, place, shape, schema, &kept)?;
    Ok((
        Store {
            alloc,
            decisions,
            parts,
            messages: None,
        },
        kept,
    ))
}

/// Opens the store of the devices, of the shape that is asked for: what it stands for is what stood on them. Blank devices are
/// made a new one's, and then each image of them, whatever is answered, stands for a new database. Else all is read and judged before
/// anything is written: then pages may be, to sides that no header names, so that each image stands for what stood.
///
/// The schema has the tables of the definitions in the coordinator's log, as who opens has read and judged them. The refusals
/// come in this order, each exactly where it is so: the coordinator's `NotSalt`, `OtherShape`, `NumbersSpent`, and `NotSalt` of
/// the first partition that does not stand. Nothing is pending on the devices.
pub fn open_store<D: Disks, F: Fn(PlaceKind, &Key, u32) -> u32>(
    alloc: Global,
    disks: &mut D,
    place: &Placement<F>,
    shape: Shape,
    schema: &Schema,
) -> Result<(Store, Kept), OpenErr>
    requires callable { TakesEachKey (F.pre place.now.place) }
    requires answers { GivesPlaceOf (F.post place.now.place) }
    requires parts { IsParts shape.parts }
    requires room { HasRoom (D.view disks.old) shape.parts }
    requires schema { IsTrue (D.view disks.old).told → IsSchemaWhere schema.now (coordinator_pair (logs_of (D.view disks.old).bytes)) }

    ensures ok { IfOk result (λ made. OpensStore (D.view disks.old) (D.view disks.new) shape made.0 made.1) }
    ensures plain { IfOk result (λ made. messages_of made.0 ≡ None) }
    ensures err { IsTrue (D.view disks.old).told → IfErr result (OpeningFails shape (D.view disks.old).bytes) }

    ensures images { IsTrue (D.view disks.old).told → coordinator_pair (logs_of (D.view disks.old).bytes) ≡ BothBlank
        → (image : ℕ → List ℕ) → IsImage (D.view disks.new) image → stands_on reading image shape ≡ Ok (nothing_found shape) }
    ensures leaves { IsTrue (D.view disks.old).told → ¬ (coordinator_pair (logs_of (D.view disks.old).bytes) ≡ BothBlank)
        → LeavesStanding (D.view disks.old) (D.view disks.new) shape (open_disk_err result) }
    ensures refused { IsTrue (D.view disks.old).told → IfErr result (λ e. IsRefusal e → KeepsAll (D.view disks.old) (D.view disks.new) (open_disk_err result)) }

    ensures others { KeepsBut (IsStoreDevice shape.parts) (D.view disks.old) (D.view disks.new) (open_disk_err result) }
    ensures cause { HasCause (D.view disks.old) (D.view disks.new) (open_disk_err result) }
    ensures full { IsTrue (D.view disks.old).told → FullWhere (OpeningPassesLimit (D.view disks.old) (D.view disks.new) shape) (open_disk_err result) }
{
    if peek(alloc, disks)?.is_none() {
        return begin_store(alloc, disks, shape);
    }
    open_counting(alloc, disks, place, shape, schema)
}
