//! A checkpoint of one partition, over the devices.

ghost use Rattle.salt_checkpoint.specs.Checkpoints.{FullAt, IsNext, IsReady, StandsAlways};
ghost use Rattle.salt_checkpoint.specs.Sides.{LeaveNoGap, all_written};
ghost use Rattle.salt_bytes.specs.Generations.{WhichLog};
ghost use Rattle.salt_disk.specs.Disks.{HasCause, IsSettled, KeepsBut};
ghost use Rattle.salt_disk.specs.declared.disks.DiskErr.TheVariants.{Full};
ghost use Rattle.salt_gatelog.specs.Log as gates;
ghost use Rattle.salt_gatelog.specs.Log.{IsLog};
ghost use Rattle.salt_model.specs.Kept.{Definition};
ghost use Rattle.salt_stands.specs.Commits.{partition_count, with_view};
ghost use Rattle.salt_stands.specs.Coordinator.{Coordinator, device_of};
ghost use Rattle.salt_stands.specs.Partition.{pages_device, part_device};
ghost use Rattle.salt_stands.specs.Pieces.{PartView, checkpointed, next_part_header, other_log};
ghost use Rattle.salt_stands.specs.Reading.{Reading};
ghost use Rattle.salt_values.specs.declared.change.Change.{Change};
ghost use Rattle.std.specs.Prelude.{Err, IfOk, IsTrue, List, OnOk, [], length, ℕ, ◌+◌, ◌<◌, ◌∷◌, ◌≡◌, ◌⊎◌};
ghost use Rattle.std.specs.Result.{result_err};

use crate::writes::{Write, write_all};
use salt_disk::{DiskErr, Disks};
use salt_gatelog::{GateLog, create};
use std::alloc::Global;

/// The device of a partition's pages.
pub fn pages_of(part: u8) -> u32
    ensures { result ≡ pages_device part }
{
    4 + 3 * u32::from(part)
}

/// Checkpoints a partition into its other log, on which nothing is pending: writes its pages, makes them stable, makes the other log
/// blank, and begins it with the header. Where these writes go to no side that the header before it names, and behind them the sides
/// that it names have the partition's rows, each image of the devices stands for what stood before, whatever the call answers. `Full`
/// comes only where pages pass the limit of their device, or the header that of the other log's.
pub fn checkpoint<D: Disks>(
    alloc: Global,
    disks: &mut D,
    part: u8,
    other: u32,
    writes: &[Write],
    header: &[u8],
) -> Result<GateLog, DiskErr>
    requires known { pages_device part < (D.view disks.old).count }
    requires other { (other ≡ part_device part) ⊎ (other ≡ part_device part + 1) }
    requires settled { IsSettled (D.view disks.old) other }
    requires place { IsTrue (D.view disks.old).told → LeaveNoGap (length ((D.view disks.old).bytes (pages_device part))) writes.now }

    ensures images { (r : Reading Definition) (which : WhichLog) (c : Coordinator Definition) (v : ℕ → PartView) (format : ℕ) (sides : List ℕ) (rows : List Change) → IsTrue (D.view disks.old).told
        → IsReady r (D.view disks.old) which c v → part < partition_count c → other ≡ device_of (part_device part) (other_log (v part).which)
        → IsNext r c part (v part) ((D.view disks.old).bytes (pages_device part)) writes.now header.now format sides rows
        → StandsAlways r (D.view disks.new) c v }
    ensures ok { OnOk result ((r : Reading Definition) (which : WhichLog) (c : Coordinator Definition) (v : ℕ → PartView) (format : ℕ) (sides : List ℕ) (rows : List Change) → IsTrue (D.view disks.old).told
        → IsReady r (D.view disks.old) which c v → part < partition_count c → other ≡ device_of (part_device part) (other_log (v part).which)
        → IsNext r c part (v part) ((D.view disks.old).bytes (pages_device part)) writes.now header.now format sides rows
        → IsReady r (D.view disks.new) which c (with_view part (checkpointed (v part) (next_part_header (v part) format sides) rows) v)) }
    ensures log { IfOk result (λ log. IsLog (D.view disks.new) log (header.now ∷ [])) }
    ensures device { IfOk result (λ log. gates.device_of log ≡ other) }
    ensures bytes { OnOk result (IsTrue (D.view disks.old).told → (D.view disks.new).bytes (pages_device part) ≡ all_written writes.now ((D.view disks.old).bytes (pages_device part))) }
    ensures written { (dev : ℕ) → result ≡ Err (Full dev) → IsTrue (D.view disks.old).told
        → (dev ≡ pages_device part) ⊎ ((D.view disks.new).bytes (pages_device part) ≡ all_written writes.now ((D.view disks.old).bytes (pages_device part))) }
    ensures stable { OnOk result (IsSettled (D.view disks.new) (pages_device part)) }
    ensures others { KeepsBut (λ dev. (dev ≡ pages_device part) ⊎ (dev ≡ other)) (D.view disks.old) (D.view disks.new) (result_err result) }
    ensures cause { HasCause (D.view disks.old) (D.view disks.new) (result_err result) }
    ensures full { FullAt (D.view disks.old) (pages_device part) other writes.now (length header.now) (result_err result) }
{
    let pages = pages_of(part);
    write_all(disks, pages, writes)?;
    disks.sync(pages)?;
    let mut log = create(disks, other)?;
    log.append(alloc, disks, header)?;
    Ok(log)
}
