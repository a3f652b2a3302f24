//! A unit is applied in each partition that it changes.

ghost use Rattle.salt_bytes.specs.Generations.{WhichLog};
ghost use Rattle.salt_checkpoint.specs.Checkpoints.{IsReady, StandsAlways};
ghost use Rattle.salt_checkpoint.specs.Sides.{KeepsNamed};
ghost use Rattle.salt_disk.specs.Disks.{FullWhere, HasCause, KeepsBut};
ghost use Rattle.salt_model.specs.Kept.{Definition};
ghost use Rattle.salt_paged.specs.Partitions.{ArePartitions, IsPartition, pages_of};
ghost use Rattle.salt_shares.specs.Applies.{AreSharesLast, IsPagesOfShares, IsShareLast, IsSharePages, OnePagesPassLimit, PagesPassLimit, StandWithShares, StandsWithShare, applied_with_shares};
ghost use Rattle.salt_shares.specs.Shares.{applied_with};
ghost use Rattle.salt_stands.specs.Coordinator.{Coordinator};
ghost use Rattle.salt_stands.specs.Partition.{pages_device};
ghost use Rattle.salt_stands.specs.Pieces.{PartView};
ghost use Rattle.salt_stands.specs.Reading.{Reading};
ghost use Rattle.salt_values.specs.declared.id.Id.{Id};
ghost use Rattle.std.specs.Prelude.{IsTrue, List, OnOk, length, ℕ, ◌≡◌};
ghost use Rattle.std.specs.Result.{result_err};

use salt_disk::{DiskErr, Disks};
use salt_paged::Partition;
use salt_values::{Changes, Id};

/// Applies a unit's share in one partition, where it was prepared last; nothing where it is empty. Pages may be written, to sides that
/// the header does not name: whatever it answers, each image of them is one from before, but for such sides. `Full` comes only where
/// the pages that hold the rows and the share pass the device's limit.
pub fn apply_share<D: Disks>(
    disks: &mut D,
    part: &mut Partition,
    unit: Id,
    share: &Changes,
) -> Result<(), DiskErr>
    requires { StandsWithShare (D.view disks.old) part.old unit share.now }
    ensures ok { (p : ℕ) (v : PartView) (applied : List Id) → IsPartition (D.view disks.old) part.old p v applied → IsShareLast v applied unit share.now
        → OnOk result (IsPartition (D.view disks.new) part.new p v (applied_with unit share.now applied)) }
    ensures images { (p : ℕ) (v : PartView) (applied : List Id) → IsPartition (D.view disks.old) part.old p v applied
        → KeepsNamed v.log.header.sides (D.view disks.old) (D.view disks.new) (pages_of part.old) }
    ensures others { KeepsBut (IsSharePages part.old share.now) (D.view disks.old) (D.view disks.new) (result_err result) }
    ensures cause { HasCause (D.view disks.old) (D.view disks.new) (result_err result) }
    ensures full { (p : ℕ) (v : PartView) (applied : List Id) → IsPartition (D.view disks.old) part.old p v applied → IsShareLast v applied unit share.now → IsTrue (D.view disks.old).told
        → FullWhere (PagesPassLimit (D.view disks.old).limit part.old v applied unit) (result_err result) }
{
    if share.is_empty() {
        return Ok(());
    }
    part.apply(disks, unit)
}

/// Applies a unit's shares, each in the partition of its place, where they were prepared last. Pages may be written, to sides that the
/// headers do not name: whatever it answers, each image of them is one from before, but for such sides. So where the store is ready, each
/// image of its devices stands for what stood before. `Full` comes only where the pages of one of them pass their device's limit.
pub fn apply_all<D: Disks>(
    disks: &mut D,
    parts: &mut Vec<Partition>,
    unit: Id,
    shares: &[Changes],
) -> Result<(), DiskErr>
    requires size { length shares.now ≡ length parts.old.items }
    requires stand { StandWithShares (D.view disks.old) parts.old.items unit shares.now }
    ensures ok { (v : ℕ → PartView) (applied : ℕ → List Id) → ArePartitions (D.view disks.old) parts.old.items v applied → AreSharesLast v applied unit shares.now
        → OnOk result (ArePartitions (D.view disks.new) parts.new.items v (applied_with_shares unit shares.now applied)) }
    ensures images { (v : ℕ → PartView) (applied : ℕ → List Id) → ArePartitions (D.view disks.old) parts.old.items v applied → (p : ℕ) → KeepsNamed (v p).log.header.sides (D.view disks.old) (D.view disks.new) (pages_device p) }
    ensures stand { (r : Reading Definition) (which : WhichLog) (c : Coordinator Definition) (v : ℕ → PartView) (applied : ℕ → List Id) → IsReady r (D.view disks.old) which c v → ArePartitions (D.view disks.old) parts.old.items v applied
        → StandsAlways r (D.view disks.new) c v }
    ensures others { KeepsBut (IsPagesOfShares parts.old.items shares.now (length parts.old.items)) (D.view disks.old) (D.view disks.new) (result_err result) }
    ensures cause { HasCause (D.view disks.old) (D.view disks.new) (result_err result) }
    ensures full { (v : ℕ → PartView) (applied : ℕ → List Id) → ArePartitions (D.view disks.old) parts.old.items v applied → AreSharesLast v applied unit shares.now → IsTrue (D.view disks.old).told
        → FullWhere (OnePagesPassLimit (D.view disks.old).limit parts.old.items v applied unit) (result_err result) }
    ensures size { length parts.new.items ≡ length parts.old.items }
{
    for number in 0..parts.len() {
        let share = &shares[number];
        let part = &mut parts[number];
        apply_share(disks, part, unit, share)?;
    }
    Ok(())
}
