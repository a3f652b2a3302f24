//! A unit is prepared in each partition that it changes.

ghost use Rattle.salt_bytes.specs.Coordinator.{Decision};
ghost use Rattle.salt_bytes.specs.Generations.{WhichLog};
ghost use Rattle.salt_bytes.specs.Partition.{spell_prepared};
ghost use Rattle.salt_bytes.specs.declared.moves.Move.{Move};
ghost use Rattle.salt_checkpoint.specs.Checkpoints.{IsReady, StandsAlways};
ghost use Rattle.salt_decisions.specs.Decisions.{IsBeforeOrWith};
ghost use Rattle.salt_disk.specs.Disks.{EachImage, FullWhere, HasCause, IsUnchanged, KeepsBut};
ghost use Rattle.salt_disk.specs.declared.disks.DiskErr.TheVariants.{Full};
ghost use Rattle.salt_model.specs.Kept.{Definition};
ghost use Rattle.salt_paged.specs.Partitions.{ArePartitions, IsPartition, log_device};
ghost use Rattle.salt_partition.specs.Partitions.{prepared};
ghost use Rattle.salt_shares.specs.Prepares.{IsLogOfShares, IsShareLog, MayPrepareEach, OnePassesLimit, PassesLimit, StandForShares, StandsForShare, with_shares};
ghost use Rattle.salt_shares.specs.Shares.{MayPrepareShare, share_at, with_share};
ghost use Rattle.salt_stands.specs.Commits.{MayCommit, Spelled, partition_count};
ghost use Rattle.salt_stands.specs.Coordinator.{Coordinator, device_of};
ghost use Rattle.salt_stands.specs.Partition.{part_device};
ghost use Rattle.salt_stands.specs.Pieces.{PartView};
ghost use Rattle.salt_stands.specs.Reading.{Reading};
ghost use Rattle.salt_values.specs.declared.change.Change.{Change};
ghost use Rattle.salt_values.specs.declared.cont.Cont.{Cont};
ghost use Rattle.salt_values.specs.declared.id.Id.{Id};
ghost use Rattle.std.specs.Prelude.{Err, IsTrue, List, OnOk, length, ℕ, ◌<◌, ◌≡◌};
ghost use Rattle.std.specs.Result.{result_err};

use salt_disk::{DiskErr, Disks};
use salt_paged::Partition;
use salt_values::{Changes, Id};

/// Prepares a unit's share in one partition; an empty share leaves everything as it was. Whatever it answers, each image of
/// the partition's log has the entries from before, with the share's or without it.
pub fn prepare_share<D: Disks>(
    disks: &mut D,
    part: &mut Partition,
    unit: Id,
    share: &Changes,
) -> Result<(), DiskErr>
    requires { StandsForShare (D.view disks.old) part.old unit share.now }
    ensures ok { (p : ℕ) (v : PartView) (applied : List Id) → IsPartition (D.view disks.old) part.old p v applied → MayPrepareShare v applied unit share.now
        → OnOk result (IsPartition (D.view disks.new) part.new p (with_share unit share.now v) applied) }
    ensures images { (p : ℕ) (v : PartView) (applied : List Id) → IsPartition (D.view disks.old) part.old p v applied
        → EachImage (D.view disks.new) (log_device part.old) (IsBeforeOrWith ((D.view disks.old).bytes (log_device part.old)) (spell_prepared (prepared unit share.now))) }
    ensures others { KeepsBut (IsShareLog part.old share.now) (D.view disks.old) (D.view disks.new) (result_err result) }
    ensures cause { HasCause (D.view disks.old) (D.view disks.new) (result_err result) }
    ensures full { FullWhere (PassesLimit (D.view disks.old).limit part.old unit share.now) (result_err result) }
    ensures untouched { (n : ℕ) → result ≡ Err (Full n) → IsUnchanged (D.view disks.old) (D.view disks.new) (log_device part.old) }
{
    if share.is_empty() {
        return Ok(());
    }
    part.prepare(disks, unit, share)
}

/// Prepares a unit's shares, each in the partition of its place, in order. Whatever it answers, each image of each partition's
/// log has the entries from before, with the share's or without it. So where they are the shares of a unit that may be committed, each
/// image of the devices of a store that is ready stands for what stood before: no decision names the unit.
pub fn prepare_all<D: Disks>(
    disks: &mut D,
    parts: &mut Vec<Partition>,
    unit: Id,
    shares: &[Changes],
) -> Result<(), DiskErr>
    requires size { length shares.now ≡ length parts.old.items }
    requires stand { StandForShares (D.view disks.old) parts.old.items unit shares.now }
    ensures ok { (v : ℕ → PartView) (applied : ℕ → List Id) → ArePartitions (D.view disks.old) parts.old.items v applied → MayPrepareEach v applied unit shares.now
        → OnOk result (ArePartitions (D.view disks.new) parts.new.items (with_shares unit shares.now v) applied) }
    ensures images { (v : ℕ → PartView) (applied : ℕ → List Id) → ArePartitions (D.view disks.old) parts.old.items v applied → (p : ℕ) → p < length parts.old.items
        → EachImage (D.view disks.new) (device_of (part_device p) (v p).which) (IsBeforeOrWith ((D.view disks.old).bytes (device_of (part_device p) (v p).which)) (spell_prepared (prepared unit (share_at shares.now p)))) }
    ensures stand { (r : Reading Definition) (which : WhichLog) (c : Coordinator Definition) (v : ℕ → PartView) (applied : ℕ → List Id) (cs : List Change) (d : Decision) (m : Move) (conts : List Cont) (decision : List ℕ)
        → IsTrue (D.view disks.old).told → IsReady r (D.view disks.old) which c v → ArePartitions (D.view disks.old) parts.old.items v applied → length parts.old.items ≡ partition_count c
        → MayCommit r c v cs d m conts → Spelled c v cs d decision (λ p. spell_prepared (prepared unit (share_at shares.now p))) → StandsAlways r (D.view disks.new) c v }
    ensures others { KeepsBut (IsLogOfShares parts.old.items shares.now (length parts.old.items)) (D.view disks.old) (D.view disks.new) (result_err result) }
    ensures cause { HasCause (D.view disks.old) (D.view disks.new) (result_err result) }
    ensures full { FullWhere (OnePassesLimit (D.view disks.old).limit parts.old.items unit shares.now) (result_err result) }
    ensures untouched { (n : ℕ) → result ≡ Err (Full n) → IsUnchanged (D.view disks.old) (D.view disks.new) n }
    ensures size { length parts.new.items ≡ length parts.old.items }
{
    for number in 0..parts.len() {
        let share = &shares[number];
        let part = &mut parts[number];
        prepare_share(disks, part, unit, share)?;
    }
    Ok(())
}
