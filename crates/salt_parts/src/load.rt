//! The rows of a range are loaded from all partitions.

ghost use Rattle.salt_disk.specs.Disks.{HasCause, KeepsAll, OnlyFails, UnlessDown};
ghost use Rattle.salt_paged.specs.Partitions.{ArePartitions};
ghost use Rattle.salt_parts.specs.Loading.{HaveAllLoaded};
ghost use Rattle.salt_parts.specs.Reads.{StandAll};
ghost use Rattle.salt_stands.specs.Partition.{part_tables};
ghost use Rattle.salt_stands.specs.Pieces.{PartView};
ghost use Rattle.salt_values.specs.declared.id.Id.{Id};
ghost use Rattle.std.specs.Prelude.{IsTrue, List, OnOk, length, ℕ, ◌≡◌};
ghost use Rattle.std.specs.Result.{result_err};

use salt_disk::{DiskErr, Disks};
use salt_loaded::Loading;
use salt_paged::Partition;
use salt_ranges::KeyRange;

/// The rows of a range are loaded from all partitions. It writes nothing.
pub fn load_all<D: Disks>(
    disks: &mut D,
    parts: &mut Vec<Partition>,
    range: &KeyRange,
    out: &mut Loading,
) -> Result<(), DiskErr>
    requires { StandAll (D.view disks.old) parts.old.items }
    ensures rows { (v : ℕ → PartView) (applied : ℕ → List Id) → ArePartitions (D.view disks.old) parts.old.items v applied → IsTrue (D.view disks.old).told
        → OnOk result (HaveAllLoaded range.now (λ p. part_tables (applied p) (v p).log (v p).rows) (length parts.old.items) out.old out.new) }
    ensures stands { (v : ℕ → PartView) (applied : ℕ → List Id) → ArePartitions (D.view disks.old) parts.old.items v applied
        → UnlessDown (result_err result) (ArePartitions (D.view disks.new) parts.new.items v applied) }
    ensures kept { KeepsAll (D.view disks.old) (D.view disks.new) (result_err result) }
    ensures cause { HasCause (D.view disks.old) (D.view disks.new) (result_err result) }
    ensures answers { OnlyFails (result_err result) }
    ensures size { length parts.new.items ≡ length parts.old.items }
{
    for number in 0..parts.len() {
        let part = &mut parts[number];
        part.load(disks, range, out)?;
    }
    Ok(())
}
