//! A store of an older format goes on in the newest.

ghost use Rattle.salt_bytes.specs.Generations.{WhichLog};
ghost use Rattle.salt_decisions.specs.Decisions.{format_of, numbers_in, shape_of};
ghost use Rattle.salt_decisions.specs.declared.header_payload.TheConstants.{FORMAT};
ghost use Rattle.salt_disk.specs.Disks.{HasCause, KeepsBut};
ghost use Rattle.salt_disk.specs.declared.disks.DiskErr.TheVariants.{Full};
ghost use Rattle.salt_model.specs.Kept.{Definition};
ghost use Rattle.salt_room.specs.Migrations.{GoesOnNewest, MigrationPassesLimit, Migrates, StandsInEither};
ghost use Rattle.salt_room.specs.Renewals.{IsOfStore, IsStoreOf, StandAsStore};
ghost use Rattle.salt_stands.specs.Coordinator.{Coordinator};
ghost use Rattle.salt_stands.specs.Pieces.{PartView};
ghost use Rattle.salt_stands.specs.Reading.{Reading};
ghost use Rattle.std.specs.Prelude.{Err, IsTrue, OnOk, false, length, true, ℕ, ◌≡◌, ◌≢◌};
ghost use Rattle.std.specs.Result.{result_err};

use crate::checkpoints::checkpoint_older;
use salt_decisions::{Decisions, FORMAT};
use salt_disk::{DiskErr, Disks};
use salt_paged::Partition;
use std::alloc::Global;

/// Whether the coordinator's log has the newest format.
fn is_newest(decisions: &Decisions) -> bool
    ensures yes { result ≡ true → format_of decisions.now ≡ FORMAT }
    ensures no { result ≡ false → format_of decisions.now ≢ FORMAT }
{
    decisions.format() == FORMAT
}

/// Begins new generations of the logs of a store in the newest formats: the partitions that are not in theirs, or have a unit in their
/// logs, are checkpointed, and then the coordinator's log gets a snapshot; as `renew`, for a log of an older format.
fn begin_newest<D: Disks>(
    alloc: Global,
    disks: &mut D,
    decisions: &mut Decisions,
    parts: &mut Vec<Partition>,
) -> Result<(), DiskErr>
    requires stand { StandAsStore (D.view disks.old) decisions.old parts.old.items }
    requires older { format_of decisions.old ≢ FORMAT }
    ensures ok { (r : Reading Definition) (which : WhichLog) (c : Coordinator Definition) (v : ℕ → PartView) → IsStoreOf r (D.view disks.old) decisions.old parts.old.items which c v
        → OnOk result (GoesOnNewest r (D.view disks.new) decisions.new parts.new.items c v) }
    ensures images { (r : Reading Definition) (which : WhichLog) (c : Coordinator Definition) (v : ℕ → PartView) → IsTrue (D.view disks.old).told
        → IsStoreOf r (D.view disks.old) decisions.old parts.old.items which c v → StandsInEither r (D.view disks.new) c v }
    ensures numbers { numbers_in decisions.new ≡ numbers_in decisions.old }
    ensures shape { shape_of decisions.new ≡ shape_of decisions.old }
    ensures size { length parts.new.items ≡ length parts.old.items }
    ensures others { KeepsBut (IsOfStore (length parts.old.items)) (D.view disks.old) (D.view disks.new) (result_err result) }
    ensures cause { HasCause (D.view disks.old) (D.view disks.new) (result_err result) }
    ensures passes { (dev : ℕ) → result ≡ Err (Full dev) → IsTrue (D.view disks.old).told → MigrationPassesLimit (D.view disks.new) decisions.old parts.old.items dev }
{
    checkpoint_older(disks, parts)?;
    decisions.snapshot(alloc, disks)
}

/// Takes a store whose coordinator's log is of an older format into the newest: each partition whose log is of format 1 or has a unit is
/// checkpointed, in order of their numbers, and then the coordinator's log gets a snapshot, with the continuations that it has open. A
/// store in the newest format is left as it is. Whatever the call answers, each image of the devices stands for what stood before, in the
/// format that it had or in the newest. `Full` comes only where one of the logs is too long for its devices. After an error the store
/// is opened again before it is used.
pub fn migrate<D: Disks>(
    alloc: Global,
    disks: &mut D,
    decisions: &mut Decisions,
    parts: &mut Vec<Partition>,
) -> Result<(), DiskErr>
    requires { StandAsStore (D.view disks.old) decisions.old parts.old.items }
    ensures { Migrates (D.view disks.old) (D.view disks.new) decisions.old decisions.new parts.old.items parts.new.items (result_err result) }
{
    if is_newest(decisions) {
        return Ok(());
    }
    begin_newest(alloc, disks, decisions, parts)
}
