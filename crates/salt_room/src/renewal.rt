//! All logs of a store begin new generations.

ghost use Rattle.salt_bytes.specs.Generations.{WhichLog};
ghost use Rattle.salt_checkpoint.specs.Checkpoints.{StandsAlways};
ghost use Rattle.salt_decisions.specs.Decisions.{conts_in, count_in, format_of, numbers_in, shape_of};
ghost use Rattle.salt_decisions.specs.declared.header_payload.TheConstants.{FORMAT};
ghost use Rattle.salt_disk.specs.Disks.{HasCause, KeepsBut};
ghost use Rattle.salt_disk.specs.declared.disks.DiskErr.TheVariants.{Full};
ghost use Rattle.salt_model.specs.Kept.{Definition};
ghost use Rattle.salt_room.specs.Making.{IsFullAtRenewal};
ghost use Rattle.salt_room.specs.Renewals.{FullAtRenewal, IsOfStore, IsRenewed, IsStoreOf, StandAsStore};
ghost use Rattle.salt_room.specs.Rooms.{HaveNone};
ghost use Rattle.salt_stands.specs.Coordinator.{Coordinator};
ghost use Rattle.salt_stands.specs.Pieces.{PartView};
ghost use Rattle.salt_stands.specs.Reading.{Reading};
ghost use Rattle.std.specs.Prelude.{Err, IsTrue, OnOk, length, ℕ, ◌≡◌};
ghost use Rattle.std.specs.Result.{result_err};

use crate::checkpoints::checkpoint_all;
use salt_decisions::Decisions;
use salt_disk::{DiskErr, Disks};
use salt_paged::Partition;
use std::alloc::Global;

/// Begins new generations of all logs of a store whose format is the newest: each partition is checkpointed, and then the
/// coordinator's log gets a snapshot. No entry stands behind a header then. The snapshot comes last, since decided units are known
/// by no decision behind it: so whatever the call answers, each image of the devices stands for what stood before. `Full` comes only
/// where one of the logs is too long for its devices. After an error the store is opened again before it is used.
pub fn renew<D: Disks>(
    alloc: Global,
    disks: &mut D,
    decisions: &mut Decisions,
    parts: &mut Vec<Partition>,
) -> Result<(), DiskErr>
    requires stand { StandAsStore (D.view disks.old) decisions.old parts.old.items }
    requires newest { format_of decisions.old ≡ FORMAT }
    ensures ok { (r : Reading Definition) (which : WhichLog) (c : Coordinator Definition) (v : ℕ → PartView) → IsStoreOf r (D.view disks.old) decisions.old parts.old.items which c v
        → OnOk result (IsRenewed r (D.view disks.new) decisions.new parts.new.items (conts_in decisions.old) which c v) }
    ensures empty { OnOk result (HaveNone (length parts.new.items) parts.new.items) }
    ensures entries { OnOk result (count_in decisions.new ≡ 1) }
    ensures images { (r : Reading Definition) (which : WhichLog) (c : Coordinator Definition) (v : ℕ → PartView) → IsTrue (D.view disks.old).told
        → IsStoreOf r (D.view disks.old) decisions.old parts.old.items which c v → StandsAlways r (D.view disks.new) c v }
    ensures numbers { numbers_in decisions.new ≡ numbers_in decisions.old }
    ensures shape { shape_of decisions.new ≡ shape_of decisions.old }
    ensures size { length parts.new.items ≡ length parts.old.items }
    ensures others { KeepsBut (IsOfStore (length parts.old.items)) (D.view disks.old) (D.view disks.new) (result_err result) }
    ensures cause { HasCause (D.view disks.old) (D.view disks.new) (result_err result) }
    ensures full { (r : Reading Definition) (which : WhichLog) (c : Coordinator Definition) (v : ℕ → PartView) → IsStoreOf r (D.view disks.old) decisions.old parts.old.items which c v
        → FullAtRenewal (D.view disks.new) decisions.old parts.old.items which (result_err result) }
    ensures passes { (dev : ℕ) → result ≡ Err (Full dev) → IsTrue (D.view disks.old).told → IsFullAtRenewal (D.view disks.new) decisions.old parts.old.items dev }
{
    checkpoint_all(disks, parts)?;
    decisions.snapshot(alloc, disks)
}
