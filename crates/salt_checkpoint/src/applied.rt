//! Pages are written on sides that no header names, before any checkpoint.

ghost use Rattle.salt_checkpoint.specs.Checkpoints.{IsReady, StandsAlways};
ghost use Rattle.salt_checkpoint.specs.Sides.{LeaveNoGap, SpareNamed};
ghost use Rattle.salt_bytes.specs.Generations.{WhichLog};
ghost use Rattle.salt_disk.specs.Disks.{HasCause, KeepsOthers};
ghost use Rattle.salt_model.specs.Kept.{Definition};
ghost use Rattle.salt_stands.specs.Commits.{partition_count};
ghost use Rattle.salt_stands.specs.Coordinator.{Coordinator};
ghost use Rattle.salt_stands.specs.Partition.{pages_device};
ghost use Rattle.salt_stands.specs.Pieces.{PartView};
ghost use Rattle.salt_stands.specs.Reading.{Reading};
ghost use Rattle.std.specs.Prelude.{IsTrue, OnOk, length, ℕ, ◌<◌};
ghost use Rattle.std.specs.Result.{result_err};

use crate::generations::pages_of;
use crate::writes::{Write, write_all};
use salt_disk::{DiskErr, Disks};

/// Writes pages of a partition on sides that its header does not name, and makes nothing stable. Each image of the devices stands for
/// what stood before, whatever the call answers; and behind Ok all stands as before.
pub fn write_pages<D: Disks>(disks: &mut D, part: u8, writes: &[Write]) -> Result<(), DiskErr>
    requires known { pages_device part < (D.view disks.old).count }
    requires place { IsTrue (D.view disks.old).told → LeaveNoGap (length ((D.view disks.old).bytes (pages_device part))) writes.now }

    ensures images { (r : Reading Definition) (which : WhichLog) (c : Coordinator Definition) (v : ℕ → PartView) → IsTrue (D.view disks.old).told
        → IsReady r (D.view disks.old) which c v → part < partition_count c → SpareNamed (v part).log.header.sides writes.now → StandsAlways r (D.view disks.new) c v }
    ensures ok { OnOk result ((r : Reading Definition) (which : WhichLog) (c : Coordinator Definition) (v : ℕ → PartView) → IsTrue (D.view disks.old).told
        → IsReady r (D.view disks.old) which c v → part < partition_count c → SpareNamed (v part).log.header.sides writes.now → IsReady r (D.view disks.new) which c v) }
    ensures others { KeepsOthers (pages_device part) (D.view disks.old) (D.view disks.new) (result_err result) }
    ensures cause { HasCause (D.view disks.old) (D.view disks.new) (result_err result) }
{
    let pages = pages_of(part);
    write_all(disks, pages, writes)?;
    Ok(())
}
