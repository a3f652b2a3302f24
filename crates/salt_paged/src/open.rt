//! A partition is opened from the bytes of its devices.

ghost use Rattle.salt_checkpoint.specs.Sides.{KeepsNamed};
ghost use Rattle.salt_disk.specs.Disks.{HasCause, IsSettled, KeepsOthers};
ghost use Rattle.salt_disk.specs.declared.disks.DiskErr.TheVariants.{Full};
ghost use Rattle.salt_gatelog.specs.Pair.{pair_err};
ghost use Rattle.salt_gatelog.specs.declared.pair.PairErr.TheVariants.{Disk};
ghost use Rattle.salt_paged.specs.Openings.{CountsWith, IsWhy, OpensAs, SettlesNamed};
ghost use Rattle.salt_stands.specs.Partition.{pages_device, part_device};
ghost use Rattle.salt_stands.specs.PartitionLog.{PartitionLog};
ghost use Rattle.std.specs.Prelude.{Err, IfErr, IfOk, IsTrue, ℕ, ◌+◌, ◌<◌, ◌≡◌};

use crate::found::find_log;
use crate::partition::Partition;
use salt_directory::AnyRow;
use salt_disk::Disks;
use salt_gatelog::PairErr;
use salt_values::Ids;
use std::alloc::Global;

/// Opens a partition whose entries and rows are judged, or need not be: its log is found, its pages are read, and the decided units are
/// applied. Pages may be written, to sides that the header does not name.
pub fn open_partition<D: Disks>(
    alloc: Global,
    disks: &mut D,
    part: u8,
    boot: u64,
    decided: &Ids,
) -> Result<Partition, PairErr>
    requires known { pages_device part < (D.view disks.old).count }
    requires settled_a { IsSettled (D.view disks.old) (part_device part) }
    requires settled_b { IsSettled (D.view disks.old) (part_device part + 1) }
    requires named { IsTrue (D.view disks.old).told → SettlesNamed (D.view disks.old) part }
    ensures opens { IfOk result (λ x. OpensAs (D.view disks.old) (D.view disks.new) x boot decided.now part) }
    ensures why { IsTrue (D.view disks.old).told → IfErr result (IsWhy (D.view disks.old).bytes boot decided.now part) }
    ensures images { IsTrue (D.view disks.old).told → (log : PartitionLog) → CountsWith (D.view disks.old) part log → KeepsNamed log.header.sides (D.view disks.old) (D.view disks.new) (pages_device part) }
    ensures others { KeepsOthers (pages_device part) (D.view disks.old) (D.view disks.new) (pair_err result) }
    ensures cause { HasCause (D.view disks.old) (D.view disks.new) (pair_err result) }
    ensures device { (n : ℕ) → result ≡ Err (Disk (Full n)) → n ≡ pages_device part }
{
    let found = find_log(alloc, disks, part, boot, decided)?;
    let read = found.read_pages(disks, &AnyRow)?;
    match read.redo(disks, decided) {
        Ok(partition) => Ok(partition),
        Err(e) => Err(PairErr::Disk(e)),
    }
}
