//! Devices are opened anew, behind a fall.

ghost use Rattle.salt_storage.specs.OpenErr.{OpenErr};
ghost use Rattle.salt_storage.specs.Writing.{OfOpening};
ghost use Rattle.salt_commit.specs.Messages.{messages_of};
ghost use Rattle.salt_commit.specs.Stores.{last_boot, last_decision};
ghost use Rattle.salt_devices.specs.Filling.{FillsIn};
ghost use Rattle.salt_devices.specs.Holding.{IsHeld, IsStanding, setup_in};
ghost use Rattle.salt_devices.specs.Leaving.{LeavesEither, LeavesAs};
ghost use Rattle.salt_devices.specs.Remembering.{Follow, MayTell, Remembers, numbers_of};
ghost use Rattle.salt_devices.specs.Standing.{RestsAs};
ghost use Rattle.salt_disk.specs.Disks.{HasCause};
ghost use Rattle.salt_model.specs.Kept.{Kept};
ghost use Rattle.salt_parts.specs.Openings.{HasRoom};
ghost use Rattle.salt_stands.specs.Stands.{are_spent};
ghost use Rattle.salt_storage.specs.Answers.{IsLater, MayFail, open_disk_err, open_disk_err_of};
ghost use Rattle.salt_storage.specs.Staying.{StaysWithin};
ghost use Rattle.salt_place.specs.Placement.{GivesPlaceOf, IsParts, TakesEachKey};
ghost use Rattle.std.specs.Prelude.{Bool, Err, IfErr, IfOk, IsTrue, None, OnErr, false, true, ℕ, ◌+◌, ◌↔◌, ◌≡◌, ◌⊎◌};

use crate::open::{fault, open_devices};
use crate::pending::Pending;
use salt_commit::Store;
use salt_decisions::are_spent;
use salt_disk::Disks;
use salt_place::{PlaceKind, Placement, Shape};
use salt_storage::{Numbers, OpenErr};
use salt_values::Key;
use std::alloc::Global;

/// The numbers of a store.
pub fn numbers_of(store: &Store) -> Numbers
    ensures { result ≡ numbers_of store.now }
{
    Numbers {
        boot: store.last_boot(),
        decisions: store.decisions(),
    }
}

/// Whether the one number comes next behind the other.
fn is_next(before: u64, found: u64) -> bool
    ensures { IsTrue result ↔ (found ≡ before + 1) }
{
    before < found && found - before == 1
}

/// Whether these are the numbers behind those that are remembered, with what was being written.
fn follow(numbers: Numbers, pending: Pending, found: Numbers) -> bool
    ensures { IsTrue result ↔ Follow pending numbers found }
{
    match pending {
        Pending::Nothing | Pending::Opening => false,
        Pending::Boot => {
            is_next(numbers.boot, found.boot) && found.decisions == numbers.decisions
        }
        Pending::Decision => {
            found.boot == numbers.boot && is_next(numbers.decisions, found.decisions)
        }
    }
}

/// Whether these numbers are remembered: as they were before what was being written, or as they are with it.
fn are_remembered(numbers: Numbers, pending: Pending, found: Numbers) -> bool
    ensures { IsTrue result ↔ ((found ≡ numbers) ⊎ Follow pending numbers found) }
{
    found == numbers || follow(numbers, pending, found)
}

/// Whether an opening of what is remembered may answer so: its numbers are spent, a device is full, or it was broken off.
fn may_answer(e: OpenErr, numbers: Numbers, pending: Pending) -> bool
    ensures later { IsTrue result → IsLater e }
    ensures may { IsTrue result → (a b : Kept) → Remembers numbers pending a b → MayTell a b e }
    ensures not { result ≡ false → (a b : Kept) → Remembers numbers pending a b → MayTell a b e → ⊥ }
    ensures none { result ≡ false → open_disk_err_of e ≡ None }
{
    match e {
        OpenErr::NotSalt(_) | OpenErr::OtherShape { .. } => false,
        OpenErr::Stopped | OpenErr::Failed | OpenErr::Full(_) | OpenErr::Memory => true,
        OpenErr::NumbersSpent { boot, decisions } => {
            are_spent(boot, decisions)
                && are_remembered(numbers, pending, Numbers { boot, decisions })
        }
    }
}

/// Opens devices anew, in this shape, on which nothing is pending: what was found has the numbers that are remembered, as they
/// were before what was being written or as they are with it. Else the disks gave what was not written, and have failed. Decided
/// units may be applied in pages once more, so a device with pages may be full.
pub fn open_again<D: Disks, F: Fn(PlaceKind, &Key, u32) -> u32>(
    alloc: Global,
    disks: &mut D,
    place: &Placement<F>,
    shape: Shape,
    numbers: Numbers,
    pending: Pending,
) -> Result<Store, OpenErr>
    requires callable { TakesEachKey (F.pre place.now.place) }
    requires answers { GivesPlaceOf (F.post place.now.place) }
    requires parts { IsParts shape.parts }
    requires room { HasRoom (D.view disks.old) shape.parts }
    requires left { IsTrue (D.view disks.old).told → (a b : Kept) × LeavesAs true (D.view disks.old) shape a b × Remembers numbers pending a b }

    ensures stands { IfOk result (IsStanding (D.view disks.new) shape) }
    ensures ok { IfOk result (λ store. IsTrue (D.view disks.old).told → (a b : Kept) → LeavesAs true (D.view disks.old) shape a b
        → IsHeld (D.view disks.new) shape store a ⊎ IsHeld (D.view disks.new) shape store b) }
    ensures plain { IfOk result (λ store. messages_of store ≡ None) }
    ensures numbers { IfOk result (λ store. are_spent (last_boot store) (last_decision store) ≡ false) }
    ensures leaves { OnErr result (IsTrue (D.view disks.old).told → (a b : Kept) → LeavesAs true (D.view disks.old) shape a b → LeavesEither (D.view disks.new) shape a b) }
    ensures later { IfErr result IsLater }
    ensures known { IfErr result (λ e. IsTrue (D.view disks.old).told → (a b : Kept) → LeavesAs true (D.view disks.old) shape a b → Remembers numbers pending a b
        → MayFail (RestsAs shape false (D.view disks.new)) a b e) }
    ensures full { (dev : ℕ) → result ≡ Err (OpenErr.Full dev) → FillsIn (D.view disks.new) shape OfOpening dev }
    ensures within { (over : Bool) → StaysWithin (setup_in shape over) (setup_in shape over) (D.view disks.old) (D.view disks.new) }
    ensures cause { HasCause (D.view disks.old) (D.view disks.new) (open_disk_err result) }
{
    match open_devices(alloc, disks, place, shape) {
        Ok((store, _)) => {
            if are_remembered(numbers, pending, numbers_of(&store)) {
                return Ok(store);
            }
            Err(fault(disks))
        }
        Err(e) => {
            if may_answer(e, numbers, pending) {
                return Err(e);
            }
            Err(fault(disks))
        }
    }
}
