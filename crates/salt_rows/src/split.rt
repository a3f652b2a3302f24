//! A page is split, where a new row has no room beside the row before it.

ghost use Rattle.salt_bytes.specs.Page.{page_place};
ghost use Rattle.salt_bytes.specs.Values.{HasRowTo};
ghost use Rattle.salt_checkpoint.specs.Sides.{KeepsNamed, NamedSame};
ghost use Rattle.salt_directory.specs.Bytes.{IsWithin, bytes_of_entries};
ghost use Rattle.salt_disk.specs.Disks.{FullOnly, HasCause, KeepsAll, KeepsOthers, OnlyFails};
ghost use Rattle.salt_model.specs.Tables.{Tables};
ghost use Rattle.salt_pool.specs.Frames.{frame_count};
ghost use Rattle.salt_pool.specs.Pools.{dirty_of};
ghost use Rattle.salt_rows.specs.Changing.{IsHalfPut, NamesKey, tables_left};
ghost use Rattle.salt_rows.specs.Stores.{IsKept, IsRowStore, IsStanding, StandsOnPages, device_of, page_count};
ghost use Rattle.std.specs.Option.{option_copied};
ghost use Rattle.std.specs.Prelude.{IfOk, IsTrue, List, OnOk, length, ℕ, ◌+◌, ◌<◌, ◌≡◌, ◌≤◌};
ghost use Rattle.std.specs.Result.{result_err};

use crate::frame::half_of;
use crate::store::RowStore;
use salt_directory::{Half, put_places};
use salt_disk::{DiskErr, Disks};
use salt_model::Place;
use salt_pages::row_room;
use salt_pool::PoolErr;
use salt_values::Row;
use std::alloc::AllocError;

/// What is left of a change behind `make_way`.
#[derive(Clone, Copy, Debug)]
pub(crate) enum Way {
    /// It is made.
    Done,
    /// No row stands at its place, and the new one is to come: beside the row before it, where there is one, on this page.
    Open(Option<u32>),
}

impl RowStore {
    /// A half that was taken from a page comes on a new page, behind the others. A store of 2^32 - 1 pages has no memory for more.
    fn put_half(&mut self, half: Half) -> Result<(), AllocError>
        requires kept { IsKept self.old }
        requires few { length (dirty_of self.old.pool) < frame_count }
        ensures put { OnOk result (IsHalfPut half self.old self.new) }
        ensures device { device_of self.new ≡ device_of self.old }
        ensures count { page_count self.new ≤ page_count self.old + 1 }
    {
        let count = self.sides.as_slice().len();
        if u32::MAX as usize <= count {
            return Err(AllocError);
        }
        let page = count as u32;
        self.sides.push(0)?;
        self.space.push(half.free)?;
        match self.pool.fresh(page, half.page) {
            Ok(()) => {}
            Err(PoolErr::Disk(_)) => return Err(AllocError),
            Err(_) => unreachable!(),
        }
        put_places(&mut self.directory, half.places, page)?;
        Ok(())
    }

    /// The rows of a page from its middle on go to a new page. What rows there are stays.
    fn halve<D: Disks>(&mut self, disks: &mut D, page: u32) -> Result<(), DiskErr>
        requires stands { StandsOnPages (D.view disks.old) self.old }
        requires below { page < page_count self.old }
        requires room { length (dirty_of self.old.pool) + 2 ≤ frame_count }
        ensures rows { (dev : ℕ) (named : List ℕ) (t : Tables) → IsRowStore (D.view disks.old) self.old dev named t → OnOk result (IsStanding (D.view disks.new) self.new dev named t) }
        ensures count { page_count self.new ≤ page_count self.old + 1 }
        ensures device { device_of self.new ≡ device_of self.old }
        ensures kept { KeepsAll (D.view disks.old) (D.view disks.new) (result_err result) }
        ensures cause { HasCause (D.view disks.old) (D.view disks.new) (result_err result) }
        ensures answers { OnlyFails (result_err result) }
    {
        let side = self.sides[page as usize];
        let half = half_of(&mut self.pool, self.alloc, disks, page, side)?;
        self.mark(page, half.left)?;
        self.put_half(half)?;
        Ok(())
    }

    /// The same, with room for both pages made before.
    fn split<D: Disks>(&mut self, disks: &mut D, page: u32) -> Result<(), DiskErr>
        requires stands { StandsOnPages (D.view disks.old) self.old }
        requires below { page < page_count self.old }
        ensures rows { (dev : ℕ) (named : List ℕ) (t : Tables) → IsRowStore (D.view disks.old) self.old dev named t → OnOk result (IsRowStore (D.view disks.new) self.new dev named t) }
        ensures images { (dev : ℕ) (named : List ℕ) (t : Tables) → IsRowStore (D.view disks.old) self.old dev named t → KeepsNamed named (D.view disks.old) (D.view disks.new) dev }
        ensures named { (dev : ℕ) (named : List ℕ) (t : Tables) → IsRowStore (D.view disks.old) self.old dev named t → IsTrue (D.view disks.old).told
            → OnOk result (NamedSame named ((D.view disks.old).bytes dev) ((D.view disks.new).bytes dev)) }
        ensures count { page_count self.new ≤ page_count self.old + 1 }
        ensures device { device_of self.new ≡ device_of self.old }
        ensures others { KeepsOthers (device_of self.old) (D.view disks.old) (D.view disks.new) (result_err result) }
        ensures cause { HasCause (D.view disks.old) (D.view disks.new) (result_err result) }
        ensures full { FullOnly (device_of self.old) ((D.view disks.old).limit (device_of self.old)) (page_place (page_count self.new) 0) (result_err result) }
    {
        self.make_room_for_two(disks)?;
        self.halve(disks, page)?;
        self.make_room(disks)
    }

    /// Where the page of the row before a place has too few free bytes for a new one, it is split: so rows of neighbouring keys stand together.
    /// It is not where the rows fill less than half of the pages on the whole, so that there are never more pages than rows of so many bytes
    /// may have; nor behind all rows of a table, so that rows which come in rising order fill their pages. It answers the page of
    /// the row before the place, where there is one.
    fn make_place<D: Disks>(
        &mut self,
        disks: &mut D,
        place: &Place,
        needed: u16,
    ) -> Result<Option<u32>, DiskErr>
        requires stands { StandsOnPages (D.view disks.old) self.old }
        ensures rows { (dev : ℕ) (named : List ℕ) (t : Tables) → IsRowStore (D.view disks.old) self.old dev named t → OnOk result (IsRowStore (D.view disks.new) self.new dev named t) }
        ensures images { (dev : ℕ) (named : List ℕ) (t : Tables) → IsRowStore (D.view disks.old) self.old dev named t → KeepsNamed named (D.view disks.old) (D.view disks.new) dev }
        ensures named { (dev : ℕ) (named : List ℕ) (t : Tables) → IsRowStore (D.view disks.old) self.old dev named t → IsTrue (D.view disks.old).told
            → OnOk result (NamedSame named ((D.view disks.old).bytes dev) ((D.view disks.new).bytes dev)) }
        ensures pages { (dev : ℕ) (named : List ℕ) (t : Tables) → IsRowStore (D.view disks.old) self.old dev named t → IsTrue (D.view disks.old).told
            → IsWithin (page_count self.old) (bytes_of_entries t.list) (page_count self.new) }
        ensures device { device_of self.new ≡ device_of self.old }
        ensures others { KeepsOthers (device_of self.old) (D.view disks.old) (D.view disks.new) (result_err result) }
        ensures cause { HasCause (D.view disks.old) (D.view disks.new) (result_err result) }
        ensures full { FullOnly (device_of self.old) ((D.view disks.old).limit (device_of self.old)) (page_place (page_count self.new) 0) (result_err result) }
    {
        let beside = self.directory.page_before(place);
        match beside {
            Some(page)
                if self.space.free_on(page) < needed
                    && self.space.may_grow()
                    && !self.directory.is_last(place) => {
                self.split(disks, page)?;
                Ok(self.directory.page_before(place))
            }
            _ => Ok(beside),
        }
    }

    /// The row at a place goes, where there is one; the new one comes on the page of the old one, where it has room. What is left to do
    /// for it, for which a page may have been split.
    pub(crate) fn make_way<D: Disks>(
        &mut self,
        disks: &mut D,
        place: &Place,
        row: Option<&Row>,
    ) -> Result<Way, DiskErr>
        requires stands { StandsOnPages (D.view disks.old) self.old }
        requires row { HasRowTo (option_copied row) }
        requires key { NamesKey place.now (option_copied row) }
        ensures way { (dev : ℕ) (named : List ℕ) (t : Tables) → IsRowStore (D.view disks.old) self.old dev named t
            → IfOk result (λ way. IsRowStore (D.view disks.new) self.new dev named (tables_left way place.now (option_copied row.entry) t)) }
        ensures images { (dev : ℕ) (named : List ℕ) (t : Tables) → IsRowStore (D.view disks.old) self.old dev named t → KeepsNamed named (D.view disks.old) (D.view disks.new) dev }
        ensures named { (dev : ℕ) (named : List ℕ) (t : Tables) → IsRowStore (D.view disks.old) self.old dev named t → IsTrue (D.view disks.old).told
            → OnOk result (NamedSame named ((D.view disks.old).bytes dev) ((D.view disks.new).bytes dev)) }
        ensures pages { (dev : ℕ) (named : List ℕ) (t : Tables) → IsRowStore (D.view disks.old) self.old dev named t → IsTrue (D.view disks.old).told
            → IsWithin (page_count self.old) (bytes_of_entries t.list) (page_count self.new) }
        ensures device { device_of self.new ≡ device_of self.old }
        ensures others { KeepsOthers (device_of self.old) (D.view disks.old) (D.view disks.new) (result_err result) }
        ensures cause { HasCause (D.view disks.old) (D.view disks.new) (result_err result) }
        ensures full { FullOnly (device_of self.old) ((D.view disks.old).limit (device_of self.old)) (page_place (page_count self.new) 0) (result_err result) }
    {
        let done = self.take_out(disks, place, row)?;
        if done {
            return Ok(Way::Done);
        }
        match row {
            Some(row) => {
                let beside = self.make_place(disks, place, row_room(row.as_slice()) as u16)?;
                Ok(Way::Open(beside))
            }
            None => Ok(Way::Done),
        }
    }
}
