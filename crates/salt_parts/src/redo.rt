//! The decided units of all partitions are applied.

ghost use Rattle.salt_checkpoint.specs.Sides.{KeepsNamed};
ghost use Rattle.salt_disk.specs.Disks.{HasCause, KeepsBut};
ghost use Rattle.salt_parts.specs.Openings.{AreRead, HaveUnits, IsPagesOf, PagesAreFull, WereRead};
ghost use Rattle.salt_paged.specs.Partitions.{ArePartitions};
ghost use Rattle.salt_stands.specs.Partition.{pages_device};
ghost use Rattle.salt_stands.specs.Pieces.{PartView};
ghost use Rattle.salt_values.specs.declared.id.Id.{Id};
ghost use Rattle.std.specs.Prelude.{IfOk, IsTrue, List, length, ℕ, ◌<◌, ◌≡◌};
ghost use Rattle.std.specs.Result.{result_err};

use salt_disk::{DiskErr, Disks};
use salt_paged::{Partition, ReadPartition};
use salt_values::Ids;
use std::alloc::Global;

/// Applies the units that are decided with each partition's bit, in order of partitions, all of which were read and judged. Pages may be
/// written, to sides that no header names, and none is made stable. `Full` comes only where the pages of one of them pass the limit of
/// its device.
pub fn redo_all<D: Disks>(
    alloc: Global,
    disks: &mut D,
    read: Vec<ReadPartition>,
    decided: &[Ids],
) -> Result<Vec<Partition>, DiskErr>
    requires stand { WereRead (D.view disks.old) read.items }
    requires ruled { length decided.now ≡ length read.items }
    ensures ok { (v : ℕ → PartView) (us : ℕ → List Id) → AreRead (D.view disks.old) read.items v → HaveUnits decided.now us
        → IfOk result (λ made. (length made.items ≡ length read.items) × ArePartitions (D.view disks.new) made.items v us) }
    ensures images { (v : ℕ → PartView) → AreRead (D.view disks.old) read.items v → (p : ℕ) → p < length read.items → KeepsNamed (v p).log.header.sides (D.view disks.old) (D.view disks.new) (pages_device p) }
    ensures others { KeepsBut (IsPagesOf (length read.items)) (D.view disks.old) (D.view disks.new) (result_err result) }
    ensures cause { HasCause (D.view disks.old) (D.view disks.new) (result_err result) }
    ensures full { (v : ℕ → PartView) (us : ℕ → List Id) → AreRead (D.view disks.old) read.items v → HaveUnits decided.now us → IsTrue (D.view disks.old).told
        → PagesAreFull (D.view disks.old) (length read.items) v us (result_err result) }
{
    let mut made = Vec::new(alloc);
    for partition in read {
        let number = made.len();
        let opened = partition.redo(disks, &decided[number])?;
        made.push(opened)?;
    }
    Ok(made)
}
