//! Pages of a store are written.

ghost use Rattle.salt_bytes.specs.Page.{page_place};
ghost use Rattle.salt_checkpoint.specs.Sides.{KeepsNamed, NamedSame};
ghost use Rattle.salt_disk.specs.Disks.{FullOnly, HasCause, KeepsOthers};
ghost use Rattle.salt_model.specs.Tables.{Tables};
ghost use Rattle.salt_pool.specs.Frames.{frame_count};
ghost use Rattle.salt_pool.specs.Pools.{dirty_of};
ghost use Rattle.salt_rows.specs.Stores.{HaveRows, IsClean, IsRowStore, IsStanding, HasRowsStanding, StandsOnPages, device_of, page_count, sides_of};
ghost use Rattle.std.specs.Prelude.{IfOk, IsTrue, List, OnOk, length, true, ℕ, ◌+◌, ◌≡◌, ◌≤◌};
ghost use Rattle.std.specs.Result.{result_err};

use crate::store::RowStore;
use salt_disk::{DiskErr, Disks};
use salt_values::copies;
use sqlite_items::Items;

impl RowStore {
    /// Writes each page that is to be written to the side that the header does not name, and makes nothing stable. Whatever it
    /// answers, each image of the device is one from before, but for sides that the header does not name. `Full` comes only where the
    /// pages together would pass the device's limit.
    pub(crate) fn flush<D: Disks>(&mut self, disks: &mut D) -> Result<(), DiskErr>
        requires { HasRowsStanding (D.view disks.old) self.old }
        ensures rows { (dev : ℕ) (named : List ℕ) (t : Tables) → IsStanding (D.view disks.old) self.old dev named t → OnOk result (IsRowStore (D.view disks.new) self.new dev named t) }
        ensures clean { OnOk result (IsClean self.new) }
        ensures sides { sides_of self.new ≡ sides_of self.old }
        ensures directory { self.new.directory ≡ self.old.directory }
        ensures device { device_of self.new ≡ device_of self.old }
        ensures images { (dev : ℕ) (named : List ℕ) (t : Tables) → IsStanding (D.view disks.old) self.old dev named t → KeepsNamed named (D.view disks.old) (D.view disks.new) dev }
        ensures named { (dev : ℕ) (named : List ℕ) (t : Tables) → IsStanding (D.view disks.old) self.old dev named t → IsTrue (D.view disks.old).told
            → OnOk result (NamedSame named ((D.view disks.old).bytes dev) ((D.view disks.new).bytes dev)) }
        ensures others { KeepsOthers (device_of self.old) (D.view disks.old) (D.view disks.new) (result_err result) }
        ensures cause { HasCause (D.view disks.old) (D.view disks.new) (result_err result) }
        ensures full { FullOnly (device_of self.old) ((D.view disks.old).limit (device_of self.old)) (page_place (page_count self.old) 0) (result_err result) }
    {
        self.pool.flush(disks)
    }

    /// The same, where 64 pages are to be written.
    pub(crate) fn make_room<D: Disks>(&mut self, disks: &mut D) -> Result<(), DiskErr>
        requires { HasRowsStanding (D.view disks.old) self.old }
        ensures rows { (dev : ℕ) (named : List ℕ) (t : Tables) → IsStanding (D.view disks.old) self.old dev named t → OnOk result (IsRowStore (D.view disks.new) self.new dev named t) }
        ensures sides { sides_of self.new ≡ sides_of self.old }
        ensures directory { self.new.directory ≡ self.old.directory }
        ensures device { device_of self.new ≡ device_of self.old }
        ensures images { (dev : ℕ) (named : List ℕ) (t : Tables) → IsStanding (D.view disks.old) self.old dev named t → KeepsNamed named (D.view disks.old) (D.view disks.new) dev }
        ensures named { (dev : ℕ) (named : List ℕ) (t : Tables) → IsStanding (D.view disks.old) self.old dev named t → IsTrue (D.view disks.old).told
            → OnOk result (NamedSame named ((D.view disks.old).bytes dev) ((D.view disks.new).bytes dev)) }
        ensures others { KeepsOthers (device_of self.old) (D.view disks.old) (D.view disks.new) (result_err result) }
        ensures cause { HasCause (D.view disks.old) (D.view disks.new) (result_err result) }
        ensures full { FullOnly (device_of self.old) ((D.view disks.old).limit (device_of self.old)) (page_place (page_count self.old) 0) (result_err result) }
    {
        if self.pool.is_full() {
            self.flush(disks)
        } else {
            Ok(())
        }
    }

    /// The same, where 63 pages or more are to be written: then two more can be.
    pub(crate) fn make_room_for_two<D: Disks>(&mut self, disks: &mut D) -> Result<(), DiskErr>
        requires { StandsOnPages (D.view disks.old) self.old }
        ensures rows { (dev : ℕ) (named : List ℕ) (t : Tables) → IsRowStore (D.view disks.old) self.old dev named t → OnOk result (IsRowStore (D.view disks.new) self.new dev named t) }
        ensures room { OnOk result (length (dirty_of self.new.pool) + 2 ≤ frame_count) }
        ensures sides { sides_of self.new ≡ sides_of self.old }
        ensures device { device_of self.new ≡ device_of self.old }
        ensures images { (dev : ℕ) (named : List ℕ) (t : Tables) → IsRowStore (D.view disks.old) self.old dev named t → KeepsNamed named (D.view disks.old) (D.view disks.new) dev }
        ensures named { (dev : ℕ) (named : List ℕ) (t : Tables) → IsRowStore (D.view disks.old) self.old dev named t → IsTrue (D.view disks.old).told
            → OnOk result (NamedSame named ((D.view disks.old).bytes dev) ((D.view disks.new).bytes dev)) }
        ensures others { KeepsOthers (device_of self.old) (D.view disks.old) (D.view disks.new) (result_err result) }
        ensures cause { HasCause (D.view disks.old) (D.view disks.new) (result_err result) }
        ensures full { FullOnly (device_of self.old) ((D.view disks.old).limit (device_of self.old)) (page_place (page_count self.old) 0) (result_err result) }
    {
        if self.pool.room() < 2 {
            self.flush(disks)
        } else {
            Ok(())
        }
    }

    /// Writes all pages that are to be written, each to the side that the header does not name, and gives the side of each page: a
    /// header that names these has the same rows, once the device is synced. Nothing is made stable here.
    pub fn checkpoint<D: Disks>(&mut self, disks: &mut D) -> Result<Items<u8>, DiskErr>
        requires { HasRowsStanding (D.view disks.old) self.old }
        ensures rows { (dev : ℕ) (named : List ℕ) (t : Tables) → IsStanding (D.view disks.old) self.old dev named t → OnOk result (IsRowStore (D.view disks.new) self.new dev named t) }
        ensures clean { OnOk result (IsClean self.new) }
        ensures sides { IfOk result (λ sides. sides ≡ sides_of self.new) }
        ensures same { sides_of self.new ≡ sides_of self.old }
        ensures reads { (dev : ℕ) (named : List ℕ) (t : Tables) → IsStanding (D.view disks.old) self.old dev named t → IsTrue (D.view disks.old).told
            → IfOk result (λ sides. HaveRows true ((D.view disks.new).bytes dev) sides t) }
        ensures images { (dev : ℕ) (named : List ℕ) (t : Tables) → IsStanding (D.view disks.old) self.old dev named t → KeepsNamed named (D.view disks.old) (D.view disks.new) dev }
        ensures named { (dev : ℕ) (named : List ℕ) (t : Tables) → IsStanding (D.view disks.old) self.old dev named t → IsTrue (D.view disks.old).told
            → OnOk result (NamedSame named ((D.view disks.old).bytes dev) ((D.view disks.new).bytes dev)) }
        ensures others { KeepsOthers (device_of self.old) (D.view disks.old) (D.view disks.new) (result_err result) }
        ensures cause { HasCause (D.view disks.old) (D.view disks.new) (result_err result) }
        ensures full { FullOnly (device_of self.old) ((D.view disks.old).limit (device_of self.old)) (page_place (page_count self.old) 0) (result_err result) }
    {
        let sides = copies(self.alloc, self.sides.as_slice())?;
        self.flush(disks)?;
        Ok(sides)
    }
}
