//! Devices are opened.

ghost use Rattle.salt_bytes.specs.Generations.{BothBlank};
ghost use Rattle.salt_commit.specs.Messages.{messages_of};
ghost use Rattle.salt_commit.specs.Openings.{IsSchemaOf, IsSchemaWhere, LeavesStanding};
ghost use Rattle.salt_commit.specs.Stores.{IsStoreDevice, reading};
ghost use Rattle.salt_decisions.specs.Kept.{IsKept};
ghost use Rattle.salt_devices.specs.Holding.{setup_in};
ghost use Rattle.salt_devices.specs.Leaving.{CanOpen, StandsForSomething, StandsFor, StandsStill};
ghost use Rattle.salt_devices.specs.Filling.{FillsIn};
ghost use Rattle.salt_devices.specs.Opened.{IsRead, LeavesKept, OpensAs, OpensIn};
ghost use Rattle.salt_devices.specs.Refusing.{RefusedAs};
ghost use Rattle.salt_devices.specs.declared.pending.Pending.TheVariants.{Opening};
ghost use Rattle.salt_disk.specs.Disks.{HasCause, IsImage, IsSettled, KeepsAll, KeepsBut};
ghost use Rattle.salt_parts.specs.Openings.{HasRoom};
ghost use Rattle.salt_stands.specs.Coordinator.{coordinator_of, coordinator_pair};
ghost use Rattle.salt_stands.specs.CoordinatorLog.{CoordinatorLog};
ghost use Rattle.salt_stands.specs.Stands.{are_spent, logs_of};
ghost use Rattle.salt_storage.specs.Answers.{IsLater, IsRefusal, WritesNothing, open_disk_err, open_disk_err_of};
ghost use Rattle.salt_storage.specs.Staying.{StaysWithin};
ghost use Rattle.salt_storage.specs.Writing.{FindsNoMore, OfOpening};
ghost use Rattle.salt_storage.specs.declared.halt.Halt.TheVariants.{Memory, Stopped};
ghost use Rattle.salt_storage.specs.OpenErr.TheVariants.{NotSalt};
ghost use Rattle.salt_storage.specs.OpenErr.{OpenErr};
ghost use Rattle.salt_place.specs.Placement.{GivesPlaceOf, IsParts, TakesEachKey};
ghost use Rattle.salt_place.specs.declared.placement.Shape.{Shape};
ghost use Rattle.std.specs.Prelude.{Bool, Err, IfErr, IfOk, IfSome, IsTrue, List, None, Ok, OnErr, false, true, ℕ, ◌<◌, ◌≡◌, ◌⊎◌};

use crate::pending::Pending;
use law_definitions::definitions_are_read;
use law_types::spelled_tables_have_keys;
use salt_commit::{Kept, Store, open_store, peek};
use salt_decisions::are_spent;
use salt_disk::Disks;
use salt_found::{RecoverErr, Recovered, recover};
use salt_gatelog::rejected;
use salt_place::{PlaceKind, Placement, Shape};
use salt_schema::Schema;
use salt_storage::{Found, OpenErr};
use salt_values::Key;
use std::alloc::{AllocError, Global};

/// The disks gave what was not written: they have failed.
pub fn fault<D: Disks>(disks: &mut D) -> OpenErr
    requires { (D.view disks.old).told ≡ false }
    ensures fault { result ≡ OpenErr.Failed }
    ensures kept { KeepsAll (D.view disks.old) (D.view disks.new) (open_disk_err_of result) }
    ensures cause { HasCause (D.view disks.old) (D.view disks.new) (open_disk_err_of result) }
{
    let _failed = rejected(disks);
    OpenErr::Failed
}

/// What the log stands for that keeps this; nothing where it stands for nothing.
fn read_log(alloc: Global, kept: &Kept) -> Result<Option<Recovered>, AllocError>
    ensures some { IfOk result (λ o. IfSome o (IsRead kept.now)) }
    ensures none { result ≡ Ok None → (log : CoordinatorLog) → IsKept kept.now log → coordinator_of reading log ≡ None }
{
    match recover(alloc, kept) {
        Ok(found) => Ok(Some(found)),
        Err(RecoverErr::NotSalt) => Ok(None),
        Err(RecoverErr::Memory) => Err(AllocError),
    }
}

/// The tables of the definitions in the log that keeps this. `NotSalt` of its device where it stands for nothing.
fn schema_kept(alloc: Global, kept: &Kept) -> Result<Schema, OpenErr>
    ensures ok { IfOk result (λ schema. (log : CoordinatorLog) → IsKept kept.now log → IsSchemaOf schema log) }
    ensures err { IfErr result (λ e. (e ≡ OpenErr.Memory) ⊎ ((e ≡ NotSalt kept.now.device) × ((log : CoordinatorLog) → IsKept kept.now log → coordinator_of reading log ≡ None))) }
{
    match read_log(alloc, kept) {
        Ok(Some(found)) => Ok(found.schema),
        Ok(None) => Err(OpenErr::NotSalt(kept.device)),
        Err(e) => Err(e.into()),
    }
}

/// The tables of the definitions in the coordinator's log, none where its devices are blank.
fn schema_of_log<D: Disks>(alloc: Global, disks: &mut D) -> Result<Schema, OpenErr>
    requires known { 1 < (D.view disks.old).count }
    requires settled_a { IsSettled (D.view disks.old) 0 }
    requires settled_b { IsSettled (D.view disks.old) 1 }
    ensures schema { IsTrue (D.view disks.old).told → IfOk result (λ schema. IsSchemaWhere schema (coordinator_pair (logs_of (D.view disks.old).bytes))) }
    ensures err { IsTrue (D.view disks.old).told → IfErr result (λ e. (shape : Shape) → RefusedAs shape (D.view disks.old).bytes e) }
    ensures full { (dev : ℕ) → result ≡ Err (OpenErr.Full dev) → IsTrue (D.view disks.old).told → ⊥ }
    ensures stopped { result ≡ Err OpenErr.Stopped → IsTrue (D.view disks.old).told → ⊥ }
    ensures kept { KeepsAll (D.view disks.old) (D.view disks.new) (open_disk_err result) }
    ensures cause { HasCause (D.view disks.old) (D.view disks.new) (open_disk_err result) }
{
    match peek(alloc, disks) {
        Ok(None) => Ok(Schema::new(alloc)),
        Ok(Some((_shape, kept))) => schema_kept(alloc, &kept),
        Err(e) => Err(e.into()),
    }
}

/// What was found, of a log that keeps this and what it stands for.
fn found_of(kept: &Kept, recovered: Recovered) -> Found
    ensures { result ≡ record { schema = recovered.schema; catalogue = recovered.catalogue; conts = recovered.conts; boot = kept.now.boot; decisions = kept.now.decisions } }
{
    let Recovered {
        schema,
        catalogue,
        conts,
    } = recovered;
    Found {
        schema,
        catalogue,
        conts,
        boot: kept.boot,
        decisions: kept.decisions,
    }
}

/// Opens devices on which nothing is pending, in this shape and the format that they have; blank ones are made new ones. All is read and
/// judged before anything is written; then an opening may be full or stopped on others, too. What an error leaves of them refuses and
/// finds nothing that they did not before, and stands for what they stood for.
fn open_standing<D: Disks, F: Fn(PlaceKind, &Key, u32) -> u32>(
    alloc: Global,
    disks: &mut D,
    place: &Placement<F>,
    shape: Shape,
) -> Result<(Store, Found), OpenErr>
    requires callable { TakesEachKey (F.pre place.now.place) }
    requires answers { GivesPlaceOf (F.post place.now.place) }
    requires parts { IsParts shape.parts }
    requires room { HasRoom (D.view disks.old) shape.parts }

    ensures ok { IfOk result (λ made. OpensIn (D.view disks.old) (D.view disks.new) shape made.0 made.1) }
    ensures plain { IfOk result (λ made. messages_of made.0 ≡ None) }
    ensures numbers { IfOk result (λ made. are_spent made.1.boot made.1.decisions ≡ false) }
    ensures err { IsTrue (D.view disks.old).told → IfErr result (RefusedAs shape (D.view disks.old).bytes) }

    ensures leaves { IsTrue (D.view disks.old).told → ¬ (coordinator_pair (logs_of (D.view disks.old).bytes) ≡ BothBlank) → LeavesStanding (D.view disks.old) (D.view disks.new) shape (open_disk_err result) }
    ensures refused { IsTrue (D.view disks.old).told → IfErr result (λ e. IsRefusal e → KeepsAll (D.view disks.old) (D.view disks.new) (open_disk_err result)) }
    ensures still { OnErr result (IsTrue (D.view disks.old).told → (image : ℕ → List ℕ) → IsImage (D.view disks.new) image
        → FindsNoMore (RefusedAs shape (D.view disks.old).bytes) (StandsFor shape (D.view disks.old).bytes) (RefusedAs shape image) (StandsFor shape image)) }
    ensures rests { OnErr result (IsTrue (D.view disks.old).told → (image : ℕ → List ℕ) → IsImage (D.view disks.new) image → StandsStill shape (D.view disks.old).bytes image) }

    ensures stopped { result ≡ Err OpenErr.Stopped → IsTrue (D.view disks.old).told → (image : ℕ → List ℕ) → IsImage (D.view disks.new) image → StandsForSomething shape image }

    ensures unwritten { (refusal : OpenErr) → IsRefusal refusal → RefusedAs shape (D.view disks.old).bytes refusal → IsTrue (D.view disks.old).told
        → WritesNothing (D.view disks.old) (D.view disks.new) (open_disk_err result) }

    ensures full { (dev : ℕ) → result ≡ Err (OpenErr.Full dev) → FillsIn (D.view disks.new) shape OfOpening dev }
    ensures others { KeepsBut (IsStoreDevice shape.parts) (D.view disks.old) (D.view disks.new) (open_disk_err result) }
    ensures cause { HasCause (D.view disks.old) (D.view disks.new) (open_disk_err result) }
{
    definitions_are_read();
    spelled_tables_have_keys();
    let schema = schema_of_log(alloc, disks)?;
    match open_store(alloc, disks, place, shape, &schema) {
        Ok((store, kept)) => match read_log(alloc, &kept) {
            Ok(Some(recovered)) => Ok((store, found_of(&kept, recovered))),
            Ok(None) => Err(fault(disks)),
            Err(e) => Err(e.into()),
        },
        Err(e) => Err(e),
    }
}

/// Opens devices on which nothing is pending, in this shape; blank ones are made new ones, and those of an older format are taken into the
/// newest. All is read and judged before anything is written; then an opening may be full or stopped on others, too. What an error leaves
/// of them refuses and finds nothing that they did not before, and stands for what they stood for.
pub fn open_devices<D: Disks, F: Fn(PlaceKind, &Key, u32) -> u32>(
    alloc: Global,
    disks: &mut D,
    place: &Placement<F>,
    shape: Shape,
) -> Result<(Store, Found), OpenErr>
    requires callable { TakesEachKey (F.pre place.now.place) }
    requires answers { GivesPlaceOf (F.post place.now.place) }
    requires parts { IsParts shape.parts }
    requires room { HasRoom (D.view disks.old) shape.parts }

    ensures ok { IfOk result (λ made. OpensAs (D.view disks.old) (D.view disks.new) shape made.0 made.1) }
    ensures plain { IfOk result (λ made. messages_of made.0 ≡ None) }
    ensures numbers { IfOk result (λ made. are_spent made.1.boot made.1.decisions ≡ false) }
    ensures err { IsTrue (D.view disks.old).told → IfErr result (RefusedAs shape (D.view disks.old).bytes) }

    ensures leaves { IsTrue (D.view disks.old).told → ¬ (coordinator_pair (logs_of (D.view disks.old).bytes) ≡ BothBlank) → LeavesKept (D.view disks.old) (D.view disks.new) shape (open_disk_err result) }
    ensures refused { IsTrue (D.view disks.old).told → IfErr result (λ e. IsRefusal e → KeepsAll (D.view disks.old) (D.view disks.new) (open_disk_err result)) }
    ensures still { OnErr result (IsTrue (D.view disks.old).told → (image : ℕ → List ℕ) → IsImage (D.view disks.new) image
        → FindsNoMore (RefusedAs shape (D.view disks.old).bytes) (StandsFor shape (D.view disks.old).bytes) (RefusedAs shape image) (StandsFor shape image)) }
    ensures rests { OnErr result (IsTrue (D.view disks.old).told → (image : ℕ → List ℕ) → IsImage (D.view disks.new) image → StandsStill shape (D.view disks.old).bytes image) }

    ensures stopped { result ≡ Err OpenErr.Stopped → IsTrue (D.view disks.old).told → (image : ℕ → List ℕ) → IsImage (D.view disks.new) image → StandsForSomething shape image }

    ensures unwritten { (refusal : OpenErr) → IsRefusal refusal → RefusedAs shape (D.view disks.old).bytes refusal → IsTrue (D.view disks.old).told
        → WritesNothing (D.view disks.old) (D.view disks.new) (open_disk_err result) }

    ensures full { (dev : ℕ) → result ≡ Err (OpenErr.Full dev) → FillsIn (D.view disks.new) shape OfOpening dev }
    ensures others { KeepsBut (IsStoreDevice shape.parts) (D.view disks.old) (D.view disks.new) (open_disk_err result) }
    ensures cause { HasCause (D.view disks.old) (D.view disks.new) (open_disk_err result) }
{
    let (opened, found) = open_standing(alloc, disks, place, shape)?;
    let mut store = opened;
    store.migrate(disks)?;
    Ok((store, found))
}

/// Whether an opening refuses what it has come upon, and not by numbers that are spent.
fn refuses(e: OpenErr) -> bool
    ensures refused { IsTrue result → IsLater e → ⊥ }
    ensures later { result ≡ false → IsLater e }
{
    match e {
        OpenErr::NotSalt(_) | OpenErr::OtherShape { .. } => true,
        OpenErr::NumbersSpent { boot, decisions } => !are_spent(boot, decisions),
        OpenErr::Failed | OpenErr::Stopped | OpenErr::Full(_) | OpenErr::Memory => false,
    }
}

/// Opens devices at first, as `open_devices`. Behind an opening that a stop has broken off nothing is refused: only disks can bring
/// that about that don't tell their bytes, and they have failed.
pub fn open_first<D: Disks, F: Fn(PlaceKind, &Key, u32) -> u32>(
    alloc: Global,
    disks: &mut D,
    place: &Placement<F>,
    shape: Shape,
    pending: Pending,
) -> Result<(Store, Found), OpenErr>
    requires callable { TakesEachKey (F.pre place.now.place) }
    requires answers { GivesPlaceOf (F.post place.now.place) }
    requires parts { IsParts shape.parts }
    requires room { HasRoom (D.view disks.old) shape.parts }
    requires opens { CanOpen pending true (D.view disks.old) shape }

    ensures ok { IfOk result (λ made. OpensAs (D.view disks.old) (D.view disks.new) shape made.0 made.1) }
    ensures plain { IfOk result (λ made. messages_of made.0 ≡ None) }
    ensures numbers { IfOk result (λ made. are_spent made.1.boot made.1.decisions ≡ false) }
    ensures err { IsTrue (D.view disks.old).told → IfErr result (RefusedAs shape (D.view disks.old).bytes) }
    ensures still { OnErr result (IsTrue (D.view disks.old).told → (image : ℕ → List ℕ) → IsImage (D.view disks.new) image
        → FindsNoMore (RefusedAs shape (D.view disks.old).bytes) (StandsFor shape (D.view disks.old).bytes) (RefusedAs shape image) (StandsFor shape image)) }
    ensures rests { OnErr result (IsTrue (D.view disks.old).told → (image : ℕ → List ℕ) → IsImage (D.view disks.new) image → StandsStill shape (D.view disks.old).bytes image) }
    ensures stopped { result ≡ Err OpenErr.Stopped → IsTrue (D.view disks.old).told → (image : ℕ → List ℕ) → IsImage (D.view disks.new) image → StandsForSomething shape image }
    ensures later { pending ≡ Opening → IfErr result IsLater }
    ensures unwritten { (refusal : OpenErr) → IsRefusal refusal → RefusedAs shape (D.view disks.old).bytes refusal → IsTrue (D.view disks.old).told
        → WritesNothing (D.view disks.old) (D.view disks.new) (open_disk_err result) }
    ensures full { (dev : ℕ) → result ≡ Err (OpenErr.Full dev) → FillsIn (D.view disks.new) shape OfOpening dev }
    ensures within { (over : Bool) → StaysWithin (setup_in shape over) (setup_in shape over) (D.view disks.old) (D.view disks.new) }
    ensures cause { HasCause (D.view disks.old) (D.view disks.new) (open_disk_err result) }
{
    match open_devices(alloc, disks, place, shape) {
        Ok((store, found)) => Ok((store, found)),
        Err(e) => {
            if !pending.is_opening() {
                return Err(e);
            }
            if refuses(e) {
                return Err(fault(disks));
            }
            Err(e)
        }
    }
}
