//! Writes to a device of pages.

ghost use Rattle.salt_checkpoint.specs.Sides.{LeaveNoGap, KeepsNamed, SpareNamed, all_written, writes_end};
ghost use Rattle.salt_disk.specs.Disks.{FullOnly, HasCause, KeepsOthers};
ghost use Rattle.std.specs.Prelude.{IsTrue, List, OnOk, length, ℕ, ◌<◌, ◌≡◌};
ghost use Rattle.std.specs.Result.{result_err};

use salt_disk::{DiskErr, Disks};
use sqlite_items::Items;

/// Bytes, and the place where they go.
#[derive(Drop)]
pub struct Write {
    pub at: u64,
    pub bytes: Items<u8>,
}

/// Writes one after another. Whatever it answers, each image of the device is one from before, but for bytes on sides that no header
/// names, where no write goes to a side that is named. `Full` comes only where one of the writes would pass the device's limit; those
/// before it are made then.
pub fn write_all<D: Disks>(disks: &mut D, dev: u32, writes: &[Write]) -> Result<(), DiskErr>
    requires known { dev < (D.view disks.old).count }
    requires place { IsTrue (D.view disks.old).told → LeaveNoGap (length ((D.view disks.old).bytes dev)) writes.now }
    ensures bytes { OnOk result (IsTrue (D.view disks.old).told → (D.view disks.new).bytes dev ≡ all_written writes.now ((D.view disks.old).bytes dev)) }
    ensures images { (sides : List ℕ) → SpareNamed sides writes.now → KeepsNamed sides (D.view disks.old) (D.view disks.new) dev }
    ensures others { KeepsOthers dev (D.view disks.old) (D.view disks.new) (result_err result) }
    ensures cause { HasCause (D.view disks.old) (D.view disks.new) (result_err result) }
    ensures full { FullOnly dev ((D.view disks.old).limit dev) (writes_end writes.now) (result_err result) }
{
    match writes {
        [] => Ok(()),
        [first, rest @ ..] => {
            disks.write_at(dev, first.at, first.bytes.as_slice())?;
            write_all(disks, dev, rest)
        }
    }
}
