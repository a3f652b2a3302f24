//! Partitions of a store are checkpointed.

ghost use Rattle.salt_bytes.specs.Generations.{WhichLog};
ghost use Rattle.salt_checkpoint.specs.Checkpoints.{StandsAlways};
ghost use Rattle.salt_disk.specs.Disks.{HasCause, KeepsBut};
ghost use Rattle.salt_model.specs.Kept.{Definition};
ghost use Rattle.salt_paged.specs.Partitions.{spells_nulls, unit_count};
ghost use Rattle.salt_room.specs.Rooms.{ArePartsOf, EachStands, FullAtOne, FullAtShare, GoOn, GoOnEmpty, HaveNone, HaveRoom, HaveSamePages, IsOfPart, most_units};
ghost use Rattle.salt_stands.specs.Coordinator.{Coordinator};
ghost use Rattle.salt_stands.specs.Pieces.{PartView};
ghost use Rattle.salt_stands.specs.Reading.{Reading};
ghost use Rattle.salt_values.specs.declared.change.Change.{Change};
ghost use Rattle.std.specs.Prelude.{IsTrue, List, OnOk, false, length, true, ℕ, ◌<◌, ◌≡◌, ◌∷◌};
ghost use Rattle.std.specs.Result.{result_err};

use salt_disk::{DiskErr, Disks};
use salt_paged::Partition;
use salt_values::Changes;

/// How many units a partition's log may have before it is begun anew.
pub const MOST_UNITS: u64 = 256;

/// Checkpoints each partition, in order of their numbers. Then none has a unit in its log. Whatever it answers, each image of the devices
/// stands for what stood before. `Full` comes only where one of them is too long for its devices. After an error the partitions are
/// opened again before they are used.
pub fn checkpoint_all<D: Disks>(disks: &mut D, parts: &mut Vec<Partition>) -> Result<(), DiskErr>
    requires { EachStands (D.view disks.old) parts.old.items }
    ensures ok { (r : Reading Definition) (which : WhichLog) (c : Coordinator Definition) (v : ℕ → PartView) → ArePartsOf r (D.view disks.old) parts.old.items which c v
        → OnOk result (GoOnEmpty (length parts.old.items) r (D.view disks.new) parts.new.items which c v) }
    ensures empty { OnOk result (HaveNone (length parts.new.items) parts.new.items) }
    ensures images { (r : Reading Definition) (which : WhichLog) (c : Coordinator Definition) (v : ℕ → PartView) → IsTrue (D.view disks.old).told → ArePartsOf r (D.view disks.old) parts.old.items which c v
        → StandsAlways r (D.view disks.new) c v }
    ensures size { length parts.new.items ≡ length parts.old.items }
    ensures others { KeepsBut (IsOfPart (length parts.old.items)) (D.view disks.old) (D.view disks.new) (result_err result) }
    ensures cause { HasCause (D.view disks.old) (D.view disks.new) (result_err result) }
    ensures full { FullAtOne (D.view disks.new) parts.old.items (result_err result) }
{
    for number in 0..parts.len() {
        let part = &mut parts[number];
        part.checkpoint(disks)?;
    }
    Ok(())
}

/// Whether a partition has a share of a unit, and no room for it.
fn lacks_room(part: &Partition, share: &Changes) -> bool
    ensures room { result ≡ false → (c : Change) (cs : List Change) → share.now ≡ c ∷ cs → unit_count part.now < most_units }
    ensures some { result ≡ true → 0 < length share.now }
{
    if share.is_empty() {
        return false;
    }
    MOST_UNITS <= part.prepared_count()
}

/// Checkpoints each partition that has a share of a unit and a log with 256 units or more, in order of their numbers: so each of them has
/// room for one more. Else as `checkpoint_all`.
pub fn checkpoint_full<D: Disks>(
    disks: &mut D,
    parts: &mut Vec<Partition>,
    shares: &[Changes],
) -> Result<(), DiskErr>
    requires stand { EachStands (D.view disks.old) parts.old.items }
    requires size { length shares.now ≡ length parts.old.items }
    ensures ok { (r : Reading Definition) (which : WhichLog) (c : Coordinator Definition) (v : ℕ → PartView) → ArePartsOf r (D.view disks.old) parts.old.items which c v
        → OnOk result (GoOn r (D.view disks.new) parts.new.items which c v) }
    ensures room { OnOk result (HaveRoom (length parts.new.items) parts.new.items shares.now) }
    ensures pages { OnOk result (HaveSamePages parts.old.items parts.new.items) }
    ensures images { (r : Reading Definition) (which : WhichLog) (c : Coordinator Definition) (v : ℕ → PartView) → IsTrue (D.view disks.old).told → ArePartsOf r (D.view disks.old) parts.old.items which c v
        → StandsAlways r (D.view disks.new) c v }
    ensures size { length parts.new.items ≡ length parts.old.items }
    ensures others { KeepsBut (IsOfPart (length parts.old.items)) (D.view disks.old) (D.view disks.new) (result_err result) }
    ensures cause { HasCause (D.view disks.old) (D.view disks.new) (result_err result) }
    ensures full { FullAtShare (D.view disks.new) parts.old.items shares.now (result_err result) }
{
    for number in 0..parts.len() {
        let this = &parts[number];
        let share = &shares[number];
        if lacks_room(this, share) {
            let part = &mut parts[number];
            part.checkpoint(disks)?;
        }
    }
    Ok(())
}

/// Whether a partition is checkpointed before the coordinator's log begins anew in the newest format: where its own is of format 1, or has a
/// unit.
fn needs_checkpoint(part: &Partition) -> bool
    ensures nulls { result ≡ false → spells_nulls part.now ≡ true }
    ensures none { result ≡ false → unit_count part.now ≡ 0 }
{
    if !part.nulls() {
        return true;
    }
    0 < part.prepared_count()
}

/// Checkpoints each partition whose log is of format 1 or has a unit, in order of their numbers. Then none has a unit in its log, and all
/// are of format 2. Else as `checkpoint_all`.
pub fn checkpoint_older<D: Disks>(disks: &mut D, parts: &mut Vec<Partition>) -> Result<(), DiskErr>
    requires { EachStands (D.view disks.old) parts.old.items }
    ensures ok { (r : Reading Definition) (which : WhichLog) (c : Coordinator Definition) (v : ℕ → PartView) → ArePartsOf r (D.view disks.old) parts.old.items which c v
        → OnOk result (GoOnEmpty (length parts.old.items) r (D.view disks.new) parts.new.items which c v) }
    ensures images { (r : Reading Definition) (which : WhichLog) (c : Coordinator Definition) (v : ℕ → PartView) → IsTrue (D.view disks.old).told → ArePartsOf r (D.view disks.old) parts.old.items which c v
        → StandsAlways r (D.view disks.new) c v }
    ensures size { length parts.new.items ≡ length parts.old.items }
    ensures others { KeepsBut (IsOfPart (length parts.old.items)) (D.view disks.old) (D.view disks.new) (result_err result) }
    ensures cause { HasCause (D.view disks.old) (D.view disks.new) (result_err result) }
    ensures full { FullAtOne (D.view disks.new) parts.old.items (result_err result) }
{
    for number in 0..parts.len() {
        let this = &parts[number];
        if needs_checkpoint(this) {
            let part = &mut parts[number];
            part.checkpoint(disks)?;
        }
    }
    Ok(())
}
