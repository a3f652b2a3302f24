//! Rows are changed.

ghost use Rattle.salt_values.specs.Value.{key_of};
ghost use Rattle.salt_bytes.specs.Page.{page_place};
ghost use Rattle.salt_bytes.specs.Spellable.{Every};
ghost use Rattle.salt_bytes.specs.Values.{HasRowTo, is_row_length};
ghost use Rattle.salt_checkpoint.specs.Sides.{KeepsNamed, NamedSame};
ghost use Rattle.salt_codec.specs.Entries.{CanBePut};
ghost use Rattle.salt_disk.specs.Disks.{FullOnly, HasCause, KeepsAll, KeepsOthers, OnlyFails};
ghost use Rattle.salt_model.specs.Tables.{Tables, make_change, put_row, remove_at, row_at, set_row, with_changes};
ghost use Rattle.salt_pool.specs.Frames.{frame_count};
ghost use Rattle.salt_pool.specs.Pools.{IsPool, dirty_of, frame_of};
ghost use Rattle.salt_rows.specs.Changing.{IsFresh, IsMarked, NamesKey};
ghost use Rattle.salt_directory.specs.Bytes.{IsWithin, bytes_of_changes, bytes_of_entries, row_bytes};
ghost use Rattle.salt_directory.specs.Pages.{page_of};
ghost use Rattle.salt_directory.specs.Space.{HasRoom};
ghost use Rattle.salt_rows.specs.Stores.{IsKept, IsRowStore, IsSide, IsStanding, StandsOnPages, device_of, page_count};
ghost use Rattle.std.specs.Option.{option_copied};
ghost use Rattle.std.specs.Prelude.{IfOk, IsTrue, List, None, OnOk, Some, false, is_some, length, true, ℕ, ◌+◌, ◌<◌, ◌≡◌, ◌≤◌};
ghost use Rattle.std.specs.Result.{result_err};

use crate::frame::{put_row, replace_row};
use crate::split::Way;
use crate::store::RowStore;
use salt_directory::{Replaced, new_page};
use salt_disk::{DiskErr, Disks};
use salt_gatelog::rejected;
use salt_model::Place;
use salt_pages::row_room;
use salt_pool::PoolErr;
use salt_values::{Change, Row, TryCopy};
use std::alloc::AllocError;

impl RowStore {
    /// A page whose frame has other rows than before is to be written, and has so many free bytes.
    pub(crate) fn mark(&mut self, page: u32, free: u16) -> Result<(), AllocError>
        requires frame { is_some (frame_of self.old.pool page) ≡ true }
        requires pool { IsPool self.old.pool }
        requires named { Every IsSide self.old.named }
        requires below { page < length self.old.sides.items }
        requires counted { length self.old.space ≡ length self.old.sides.items }
        ensures marked { OnOk result (IsMarked self.old self.new page free) }
        ensures count { page_count self.new ≡ page_count self.old }
        ensures device { device_of self.new ≡ device_of self.old }
    {
        let side = self.spare_side(page);
        self.space.set(page, free)?;
        self.sides[page as usize] = side;
        self.pool.dirty(page, side);
        Ok(())
    }

    /// The row at a place, which the directory has on this page, goes from it; the new one comes in its place, where one is given and
    /// the page has room. Whether it did.
    fn replace<D: Disks>(
        &mut self,
        disks: &mut D,
        place: &Place,
        row: Option<&Row>,
        page: u32,
    ) -> Result<bool, DiskErr>
        requires stands { StandsOnPages (D.view disks.old) self.old }
        requires page { page_of self.old.directory place.now ≡ Some page }
        requires row { HasRowTo (option_copied row) }
        requires key { NamesKey place.now (option_copied row) }
        ensures put { (dev : ℕ) (named : List ℕ) (t : Tables) → IsRowStore (D.view disks.old) self.old dev named t
            → IfOk result (λ put. IsTrue put → IsStanding (D.view disks.new) self.new dev named (set_row place.now (option_copied row.entry) t)) }
        ensures gone { (dev : ℕ) (named : List ℕ) (t : Tables) → IsRowStore (D.view disks.old) self.old dev named t
            → IfOk result (λ put. put ≡ false → IsStanding (D.view disks.new) self.new dev named (remove_at place.now t)) }
        ensures count { page_count self.new ≡ page_count self.old }
        ensures device { device_of self.new ≡ device_of self.old }
        ensures kept { KeepsAll (D.view disks.old) (D.view disks.new) (result_err result) }
        ensures cause { HasCause (D.view disks.old) (D.view disks.new) (result_err result) }
        ensures answers { OnlyFails (result_err result) }
    {
        let side = self.sides[page as usize];
        match replace_row(
            &mut self.pool,
            self.alloc,
            disks,
            page,
            side,
            place.table,
            &place.key,
            row,
        )? {
            Replaced::Put(free) => {
                self.mark(page, free)?;
                Ok(true)
            }
            Replaced::Gone(free) => {
                self.mark(page, free)?;
                self.directory.remove(place);
                Ok(false)
            }
            Replaced::Missing => Err(rejected(disks)),
        }
    }

    /// The row at a place goes, where there is one; the new one comes on the page of the old one, where it has room. Whether all is
    /// done: else no row stands at the place, and a new one is to come.
    pub(crate) fn take_out<D: Disks>(
        &mut self,
        disks: &mut D,
        place: &Place,
        row: Option<&Row>,
    ) -> Result<bool, DiskErr>
        requires stands { StandsOnPages (D.view disks.old) self.old }
        requires row { HasRowTo (option_copied row) }
        requires key { NamesKey place.now (option_copied row) }
        ensures done { (dev : ℕ) (named : List ℕ) (t : Tables) → IsRowStore (D.view disks.old) self.old dev named t
            → IfOk result (λ done. IsTrue done → IsRowStore (D.view disks.new) self.new dev named (set_row place.now (option_copied row.entry) t)) }
        ensures left { (dev : ℕ) (named : List ℕ) (t : Tables) → IsRowStore (D.view disks.old) self.old dev named t
            → IfOk result (λ done. done ≡ false → IsRowStore (D.view disks.new) self.new dev named (remove_at place.now t)) }
        ensures images { (dev : ℕ) (named : List ℕ) (t : Tables) → IsRowStore (D.view disks.old) self.old dev named t → KeepsNamed named (D.view disks.old) (D.view disks.new) dev }
        ensures named { (dev : ℕ) (named : List ℕ) (t : Tables) → IsRowStore (D.view disks.old) self.old dev named t → IsTrue (D.view disks.old).told
            → OnOk result (NamedSame named ((D.view disks.old).bytes dev) ((D.view disks.new).bytes dev)) }
        ensures count { page_count self.new ≡ page_count self.old }
        ensures device { device_of self.new ≡ device_of self.old }
        ensures others { KeepsOthers (device_of self.old) (D.view disks.old) (D.view disks.new) (result_err result) }
        ensures cause { HasCause (D.view disks.old) (D.view disks.new) (result_err result) }
        ensures full { FullOnly (device_of self.old) ((D.view disks.old).limit (device_of self.old)) (page_place (page_count self.old) 0) (result_err result) }
    {
        match self.directory.page_of(place) {
            Some(page) => {
                let put = self.replace(disks, place, row, page)?;
                self.make_room(disks)?;
                Ok(put || row.is_none())
            }
            None => Ok(row.is_none()),
        }
    }

    /// The page for a new row that takes so many bytes: this one, where it is a page that has room, else one that has, if any.
    fn page_for(&self, beside: Option<u32>, needed: u16) -> Option<u32>
        requires { length self.now.space ≡ page_count self.now }
        ensures { HasRoom self.now.space needed result }
    {
        match beside {
            Some(page)
                if (page as usize) < self.page_count() && needed <= self.space.free_on(page) => {
                Some(page)
            }
            _ => self.space.with_room(needed),
        }
    }

    /// A new row comes on a page that has room.
    fn put_beside<D: Disks>(
        &mut self,
        disks: &mut D,
        place: Place,
        row: &Row,
        page: u32,
    ) -> Result<(), DiskErr>
        requires stands { StandsOnPages (D.view disks.old) self.old }
        requires row { is_row_length (length row.now) ≡ true }
        requires key { key_of row.now ≡ place.key }
        requires room { HasRoom self.old.space (row_bytes row.now) (Some page) }
        ensures rows { (dev : ℕ) (named : List ℕ) (t : Tables) → IsRowStore (D.view disks.old) self.old dev named t → row_at place t ≡ None
            → OnOk result (IsStanding (D.view disks.new) self.new dev named (put_row place row.now t)) }
        ensures device { device_of self.new ≡ device_of self.old }
        ensures count { page_count self.new ≡ page_count self.old }
        ensures kept { KeepsAll (D.view disks.old) (D.view disks.new) (result_err result) }
        ensures cause { HasCause (D.view disks.old) (D.view disks.new) (result_err result) }
        ensures answers { OnlyFails (result_err result) }
    {
        let side = self.sides[page as usize];
        match put_row(
            &mut self.pool,
            self.alloc,
            disks,
            page,
            side,
            place.table,
            row,
        )? {
            Some(free) => {
                self.mark(page, free)?;
                self.directory.insert(place, page)?;
                Ok(())
            }
            None => Err(rejected(disks)),
        }
    }

    /// A new row comes on a new page. A store of 2^32 - 1 pages has no memory for more.
    fn put_fresh(&mut self, place: Place, row: &Row) -> Result<(), AllocError>
        requires kept { IsKept self.old }
        requires few { length (dirty_of self.old.pool) < frame_count }
        requires row { is_row_length (length row.now) ≡ true }
        requires key { key_of row.now ≡ place.key }
        ensures rows { OnOk result (IsFresh self.old self.new place row.now) }
        ensures device { device_of self.new ≡ device_of self.old }
        ensures count { page_count self.new ≤ page_count self.old + 1 }
    {
        let count = self.sides.as_slice().len();
        if u32::MAX as usize <= count {
            return Err(AllocError);
        }
        let page = count as u32;
        let (made, free) = new_page(self.alloc, place.table, row)?;
        self.sides.push(0)?;
        self.space.push(free)?;
        match self.pool.fresh(page, made) {
            Ok(()) => {}
            Err(PoolErr::Disk(_)) => return Err(AllocError),
            Err(_) => unreachable!(),
        }
        self.directory.insert(place, page)?;
        Ok(())
    }

    /// A new row comes at a place where there is none, on this page, where it has room.
    fn put<D: Disks>(
        &mut self,
        disks: &mut D,
        place: Place,
        row: &Row,
        beside: Option<u32>,
    ) -> Result<(), DiskErr>
        requires stands { StandsOnPages (D.view disks.old) self.old }
        requires row { is_row_length (length row.now) ≡ true }
        requires key { key_of row.now ≡ place.key }
        ensures rows { (dev : ℕ) (named : List ℕ) (t : Tables) → IsRowStore (D.view disks.old) self.old dev named t → row_at place t ≡ None
            → OnOk result (IsStanding (D.view disks.new) self.new dev named (put_row place row.now t)) }
        ensures pages { (dev : ℕ) (named : List ℕ) (t : Tables) → IsRowStore (D.view disks.old) self.old dev named t → IsTrue (D.view disks.old).told
            → IsWithin (page_count self.old) (bytes_of_entries t.list) (page_count self.new) }
        ensures device { device_of self.new ≡ device_of self.old }
        ensures kept { KeepsAll (D.view disks.old) (D.view disks.new) (result_err result) }
        ensures cause { HasCause (D.view disks.old) (D.view disks.new) (result_err result) }
        ensures answers { OnlyFails (result_err result) }
    {
        let needed = row_room(row.as_slice()) as u16;
        match self.page_for(beside, needed) {
            Some(page) => self.put_beside(disks, place, row, page),
            None => {
                self.put_fresh(place, row)?;
                Ok(())
            }
        }
    }

    /// Makes one change.
    fn change<D: Disks>(&mut self, disks: &mut D, change: &Change) -> Result<(), DiskErr>
        requires stands { StandsOnPages (D.view disks.old) self.old }
        requires put { CanBePut true change.now }
        ensures rows { (dev : ℕ) (named : List ℕ) (t : Tables) → IsRowStore (D.view disks.old) self.old dev named t
            → OnOk result (IsRowStore (D.view disks.new) self.new dev named (make_change change.now t)) }
        ensures images { (dev : ℕ) (named : List ℕ) (t : Tables) → IsRowStore (D.view disks.old) self.old dev named t → KeepsNamed named (D.view disks.old) (D.view disks.new) dev }
        ensures named { (dev : ℕ) (named : List ℕ) (t : Tables) → IsRowStore (D.view disks.old) self.old dev named t → IsTrue (D.view disks.old).told
            → OnOk result (NamedSame named ((D.view disks.old).bytes dev) ((D.view disks.new).bytes dev)) }
        ensures pages { (dev : ℕ) (named : List ℕ) (t : Tables) → IsRowStore (D.view disks.old) self.old dev named t → IsTrue (D.view disks.old).told
            → IsWithin (page_count self.old) (bytes_of_entries t.list) (page_count self.new) }
        ensures device { device_of self.new ≡ device_of self.old }
        ensures others { KeepsOthers (device_of self.old) (D.view disks.old) (D.view disks.new) (result_err result) }
        ensures cause { HasCause (D.view disks.old) (D.view disks.new) (result_err result) }
        ensures full { FullOnly (device_of self.old) ((D.view disks.old).limit (device_of self.old)) (page_place (page_count self.new) 0) (result_err result) }
    {
        let place = Place {
            table: change.table,
            key: change.key.copy(self.alloc)?,
        };
        let row = change.row.as_ref();
        let way = self.make_way(disks, &place, row)?;
        let Way::Open(beside) = way else {
            return Ok(());
        };
        match row {
            Some(row) => {
                self.put(disks, place, row, beside)?;
                self.make_room(disks)
            }
            None => Ok(()),
        }
    }

    /// Makes changes, one after another, each of which can be put into a log. There are at most as many pages as before, or as the
    /// rows from before and those of the changes can fill together, and one. Whatever it answers, each image of the device is one from
    /// before, but for sides that the header does not name. After an error the rows are opened again before they are used.
    pub fn apply<D: Disks>(&mut self, disks: &mut D, changes: &[Change]) -> Result<(), DiskErr>
        requires stands { StandsOnPages (D.view disks.old) self.old }
        requires put { Every (CanBePut true) changes.now }
        ensures rows { (dev : ℕ) (named : List ℕ) (t : Tables) → IsRowStore (D.view disks.old) self.old dev named t
            → OnOk result (IsRowStore (D.view disks.new) self.new dev named (with_changes changes.now t)) }
        ensures images { (dev : ℕ) (named : List ℕ) (t : Tables) → IsRowStore (D.view disks.old) self.old dev named t → KeepsNamed named (D.view disks.old) (D.view disks.new) dev }
        ensures named { (dev : ℕ) (named : List ℕ) (t : Tables) → IsRowStore (D.view disks.old) self.old dev named t → IsTrue (D.view disks.old).told
            → OnOk result (NamedSame named ((D.view disks.old).bytes dev) ((D.view disks.new).bytes dev)) }
        ensures pages { (dev : ℕ) (named : List ℕ) (t : Tables) → IsRowStore (D.view disks.old) self.old dev named t → IsTrue (D.view disks.old).told
            → IsWithin (page_count self.old) (bytes_of_entries t.list + bytes_of_changes changes.now) (page_count self.new) }
        ensures device { device_of self.new ≡ device_of self.old }
        ensures others { KeepsOthers (device_of self.old) (D.view disks.old) (D.view disks.new) (result_err result) }
        ensures cause { HasCause (D.view disks.old) (D.view disks.new) (result_err result) }
        ensures full { FullOnly (device_of self.old) ((D.view disks.old).limit (device_of self.old)) (page_place (page_count self.new) 0) (result_err result) }
    {
        for change in changes {
            self.change(disks, change)?;
        }
        Ok(())
    }
}
