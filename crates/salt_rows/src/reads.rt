//! Rows are read.

ghost use Rattle.salt_bytes.specs.Page.{TableRow};
ghost use Rattle.salt_bytes.specs.Spellable.{Every};
ghost use Rattle.salt_directory.specs.Loading.{HasLoaded, HaveOthersNone, IsRowLoaded, IsSeated, rows_within, seats_in};
ghost use Rattle.salt_directory.specs.Pages.{all_rows, page_of};
ghost use Rattle.salt_disk.specs.Disks.{HasCause, KeepsAll, OnlyFails, UnlessDown};
ghost use Rattle.salt_eval.specs.Scans.{point_of};
ghost use Rattle.salt_eval.specs.Views.{next_row};
ghost use Rattle.salt_loaded.specs.Rows.{with_rows};
ghost use Rattle.salt_model.specs.Tables.{Tables, place, row_at};
ghost use Rattle.salt_ranges.specs.declared.range.KeyRange.{KeyRange};
ghost use Rattle.salt_rows.specs.Reads.{HasOnPages, LooksOn};
ghost use Rattle.salt_rows.specs.Stores.{IsRowStore, StandsOnPages, page_count, places_of};
ghost use Rattle.salt_values.specs.Value.{key_of};
ghost use Rattle.std.specs.Option.{option_copied};
ghost use Rattle.std.specs.Prelude.{IfOk, IsTrue, List, OnOk, Some, [], get_or, length, option_map, ℕ, ◌<◌, ◌≡◌};
ghost use Rattle.std.specs.Result.{result_err};

use crate::frame::{load_key, load_range, row_on};
use crate::store::RowStore;
use salt_directory::{Seat, extent_of, few_seats, next_place};
use salt_disk::{DiskErr, Disks};
use salt_eval::point_of;
use salt_gatelog::rejected;
use salt_loaded::Loading;
use salt_model::Place;
use salt_ranges::KeyRange;
use salt_values::{Key, Row, TryCopy};

impl RowStore {
    /// The row of a key that the directory has on this page. Where the page lacks it, which only disks can give that don't tell
    /// their bytes, the disks have failed.
    fn read<D: Disks>(
        &mut self,
        disks: &mut D,
        table: u16,
        key: &Key,
        page: u32,
    ) -> Result<Row, DiskErr>
        requires stands { StandsOnPages (D.view disks.old) self.old }
        requires page { page_of self.old.directory (place table key.now) ≡ Some page }
        ensures row { (dev : ℕ) (named : List ℕ) (t : Tables) → IsRowStore (D.view disks.old) self.old dev named t → IsTrue (D.view disks.old).told
            → IfOk result (λ row. Some row ≡ row_at (place table key.now) t) }
        ensures key { IfOk result (λ row. key_of row ≡ key.now) }
        ensures places { places_of self.new ≡ places_of self.old }
        ensures stands { (dev : ℕ) (named : List ℕ) (t : Tables) → IsRowStore (D.view disks.old) self.old dev named t
            → UnlessDown (result_err result) (IsRowStore (D.view disks.new) self.new dev named t) }
        ensures kept { KeepsAll (D.view disks.old) (D.view disks.new) (result_err result) }
        ensures cause { HasCause (D.view disks.old) (D.view disks.new) (result_err result) }
        ensures answers { OnlyFails (result_err result) }
    {
        let side = self.sides[page as usize];
        match row_on(&mut self.pool, self.alloc, disks, page, side, table, key)? {
            Some(row) => Ok(row),
            None => Err(rejected(disks)),
        }
    }

    /// The row of a key, `None` exactly where there is none. It writes nothing. Where memory runs out the store stands as before.
    pub fn get<D: Disks>(
        &mut self,
        disks: &mut D,
        table: u16,
        key: &Key,
    ) -> Result<Option<Row>, DiskErr>
        requires { StandsOnPages (D.view disks.old) self.old }
        ensures row { (dev : ℕ) (named : List ℕ) (t : Tables) → IsRowStore (D.view disks.old) self.old dev named t → IsTrue (D.view disks.old).told
            → IfOk result (λ row. row ≡ row_at (place table key.now) t) }
        ensures stands { (dev : ℕ) (named : List ℕ) (t : Tables) → IsRowStore (D.view disks.old) self.old dev named t
            → UnlessDown (result_err result) (IsRowStore (D.view disks.new) self.new dev named t) }
        ensures kept { KeepsAll (D.view disks.old) (D.view disks.new) (result_err result) }
        ensures cause { HasCause (D.view disks.old) (D.view disks.new) (result_err result) }
        ensures answers { OnlyFails (result_err result) }
    {
        let place = Place {
            table,
            key: key.copy(self.alloc)?,
        };
        match self.directory.look_for(place) {
            Some(page) => {
                let row = self.read(disks, table, key, page)?;
                Ok(Some(row))
            }
            None => Ok(None),
        }
    }

    /// The row of the least key in the range that is above `after`, where one is given; `None` exactly where there is none. It writes
    /// nothing. Where memory runs out the store stands as before. Whatever the disks tell, it has the next key of those that are kept: so
    /// who asks for one row behind the other comes to an end.
    pub fn next_in<D: Disks>(
        &mut self,
        disks: &mut D,
        table: u16,
        range: &KeyRange,
        after: Option<&Key>,
    ) -> Result<Option<Row>, DiskErr>
        requires { StandsOnPages (D.view disks.old) self.old }
        ensures row { (dev : ℕ) (named : List ℕ) (t : Tables) → IsRowStore (D.view disks.old) self.old dev named t → IsTrue (D.view disks.old).told
            → IfOk result (λ row. row ≡ next_row table range.now (option_copied after.entry) t) }
        ensures key { IfOk result (λ row. option_map key_of row ≡ option_map key_of (next_row table range.now (option_copied after.entry) (places_of self.old))) }
        ensures places { places_of self.new ≡ places_of self.old }
        ensures stands { (dev : ℕ) (named : List ℕ) (t : Tables) → IsRowStore (D.view disks.old) self.old dev named t
            → UnlessDown (result_err result) (IsRowStore (D.view disks.new) self.new dev named t) }
        ensures kept { KeepsAll (D.view disks.old) (D.view disks.new) (result_err result) }
        ensures cause { HasCause (D.view disks.old) (D.view disks.new) (result_err result) }
        ensures answers { OnlyFails (result_err result) }
    {
        match next_place(self.alloc, &self.directory, table, range, after)? {
            Some((key, page)) => {
                let row = self.read(disks, table, &key, page)?;
                Ok(Some(row))
            }
            None => Ok(None),
        }
    }

    /// The row of a key that the directory has on this page is loaded. Where the page lacks it, which only disks can give that don't
    /// tell their bytes, the disks have failed.
    fn load_seat<D: Disks>(
        &mut self,
        disks: &mut D,
        key: &Key,
        page: u32,
        out: &mut Loading,
    ) -> Result<(), DiskErr>
        requires stands { StandsOnPages (D.view disks.old) self.old }
        requires page { page_of self.old.directory (place out.old.table key.now) ≡ Some page }
        ensures row { (dev : ℕ) (named : List ℕ) (t : Tables) → IsRowStore (D.view disks.old) self.old dev named t → IsTrue (D.view disks.old).told
            → OnOk result (IsRowLoaded t key.now out.old out.new) }
        ensures table { OnOk result (out.new.table ≡ out.old.table) }
        ensures stands { (dev : ℕ) (named : List ℕ) (t : Tables) → IsRowStore (D.view disks.old) self.old dev named t
            → UnlessDown (result_err result) (IsRowStore (D.view disks.new) self.new dev named t) }
        ensures same { LooksOn self.old self.new }
        ensures kept { KeepsAll (D.view disks.old) (D.view disks.new) (result_err result) }
        ensures cause { HasCause (D.view disks.old) (D.view disks.new) (result_err result) }
        ensures answers { OnlyFails (result_err result) }
    {
        let side = self.sides[page as usize];
        let found = load_key(&mut self.pool, self.alloc, disks, page, side, key, out)?;
        if found { Ok(()) } else { Err(rejected(disks)) }
    }

    /// The row of a range of one key is loaded, where there is one.
    fn load_one<D: Disks>(
        &mut self,
        disks: &mut D,
        range: &KeyRange,
        key: &Key,
        out: &mut Loading,
    ) -> Result<(), DiskErr>
        requires stands { StandsOnPages (D.view disks.old) self.old }
        requires point { point_of range.now ≡ Some key.now }
        ensures rows { (dev : ℕ) (named : List ℕ) (t : Tables) → IsRowStore (D.view disks.old) self.old dev named t → IsTrue (D.view disks.old).told
            → OnOk result (HasLoaded range.now t out.old out.new) }
        ensures stands { (dev : ℕ) (named : List ℕ) (t : Tables) → IsRowStore (D.view disks.old) self.old dev named t
            → UnlessDown (result_err result) (IsRowStore (D.view disks.new) self.new dev named t) }
        ensures same { LooksOn self.old self.new }
        ensures kept { KeepsAll (D.view disks.old) (D.view disks.new) (result_err result) }
        ensures cause { HasCause (D.view disks.old) (D.view disks.new) (result_err result) }
        ensures answers { OnlyFails (result_err result) }
    {
        let place = Place {
            table: out.table(),
            key: key.copy(self.alloc)?,
        };
        match self.directory.look_for(place) {
            Some(page) => self.load_seat(disks, key, page, out),
            None => Ok(()),
        }
    }

    /// The rows of a range that is seated so are loaded one by one.
    fn load_seats<D: Disks>(
        &mut self,
        disks: &mut D,
        seats: &[Seat],
        out: &mut Loading,
    ) -> Result<(), DiskErr>
        requires stands { StandsOnPages (D.view disks.old) self.old }
        requires seated { Every (IsSeated out.old.table self.old.directory) seats.now }
        ensures rows { (dev : ℕ) (named : List ℕ) (t : Tables) → IsRowStore (D.view disks.old) self.old dev named t → IsTrue (D.view disks.old).told
            → (range : KeyRange) → seats.now ≡ seats_in out.old.table range self.old.directory → OnOk result (HasLoaded range t out.old out.new) }
        ensures stands { (dev : ℕ) (named : List ℕ) (t : Tables) → IsRowStore (D.view disks.old) self.old dev named t
            → UnlessDown (result_err result) (IsRowStore (D.view disks.new) self.new dev named t) }
        ensures same { LooksOn self.old self.new }
        ensures kept { KeepsAll (D.view disks.old) (D.view disks.new) (result_err result) }
        ensures cause { HasCause (D.view disks.old) (D.view disks.new) (result_err result) }
        ensures answers { OnlyFails (result_err result) }
    {
        for seat in seats {
            self.load_seat(disks, &seat.key, seat.page, out)?;
        }
        Ok(())
    }

    /// The rows of a range that stand on a page are loaded.
    fn load_on<D: Disks>(
        &mut self,
        disks: &mut D,
        page: u32,
        range: &KeyRange,
        out: &mut Loading,
    ) -> Result<(), DiskErr>
        requires stands { StandsOnPages (D.view disks.old) self.old }
        requires page { page < page_count self.old }
        ensures rows { (pages : List (List TableRow)) → HasOnPages (D.view disks.old) self.old pages → IsTrue (D.view disks.old).told
            → OnOk result (out.new ≡ with_rows (rows_within out.old.table range.now (get_or pages page [])) out.old) }
        ensures pages { (pages : List (List TableRow)) → HasOnPages (D.view disks.old) self.old pages → OnOk result (HasOnPages (D.view disks.new) self.new pages) }
        ensures stands { (dev : ℕ) (named : List ℕ) (t : Tables) → IsRowStore (D.view disks.old) self.old dev named t
            → UnlessDown (result_err result) (IsRowStore (D.view disks.new) self.new dev named t) }
        ensures same { LooksOn self.old self.new }
        ensures kept { KeepsAll (D.view disks.old) (D.view disks.new) (result_err result) }
        ensures cause { HasCause (D.view disks.old) (D.view disks.new) (result_err result) }
        ensures answers { OnlyFails (result_err result) }
    {
        let side = self.sides[page as usize];
        load_range(&mut self.pool, self.alloc, disks, page, side, range, out)
    }

    /// The rows of a range are loaded from the pages that are marked: each is looked at once.
    fn load_marked<D: Disks>(
        &mut self,
        disks: &mut D,
        marks: &[bool],
        range: &KeyRange,
        out: &mut Loading,
    ) -> Result<(), DiskErr>
        requires stands { StandsOnPages (D.view disks.old) self.old }
        requires count { length marks.now ≡ page_count self.old }
        ensures rows { (pages : List (List TableRow)) → HasOnPages (D.view disks.old) self.old pages → HaveOthersNone out.old.table range.now marks.now pages → IsTrue (D.view disks.old).told
            → OnOk result (out.new ≡ with_rows (rows_within out.old.table range.now (all_rows pages)) out.old) }
        ensures stands { (dev : ℕ) (named : List ℕ) (t : Tables) → IsRowStore (D.view disks.old) self.old dev named t
            → UnlessDown (result_err result) (IsRowStore (D.view disks.new) self.new dev named t) }
        ensures same { LooksOn self.old self.new }
        ensures kept { KeepsAll (D.view disks.old) (D.view disks.new) (result_err result) }
        ensures cause { HasCause (D.view disks.old) (D.view disks.new) (result_err result) }
        ensures answers { OnlyFails (result_err result) }
    {
        // pages have numbers of 32 bits
        if u32::MAX as usize <= marks.len() {
            return Err(DiskErr::Memory);
        }
        for page in 0..marks.len() {
            if marks[page] {
                self.load_on(disks, page as u32, range, out)?;
            }
        }
        Ok(())
    }

    /// The rows of a range are loaded: one by one where there are few; else each page that has some is looked at once. It writes nothing.
    /// Where memory runs out the store stands as before. Where a page lacks a row, or pages have another number of rows of the range
    /// than the directory, which only disks can give that don't tell their bytes, the disks have failed; of all rows of a table none
    /// are counted.
    pub fn load<D: Disks>(
        &mut self,
        disks: &mut D,
        range: &KeyRange,
        out: &mut Loading,
    ) -> Result<(), DiskErr>
        requires { StandsOnPages (D.view disks.old) self.old }
        ensures rows { (dev : ℕ) (named : List ℕ) (t : Tables) → IsRowStore (D.view disks.old) self.old dev named t → IsTrue (D.view disks.old).told
            → OnOk result (HasLoaded range.now t out.old out.new) }
        ensures stands { (dev : ℕ) (named : List ℕ) (t : Tables) → IsRowStore (D.view disks.old) self.old dev named t
            → UnlessDown (result_err result) (IsRowStore (D.view disks.new) self.new dev named t) }
        ensures places { places_of self.new ≡ places_of self.old }
        ensures kept { KeepsAll (D.view disks.old) (D.view disks.new) (result_err result) }
        ensures cause { HasCause (D.view disks.old) (D.view disks.new) (result_err result) }
        ensures answers { OnlyFails (result_err result) }
    {
        if let Some(key) = point_of(range) {
            return self.load_one(disks, range, key, out);
        }
        let count = self.page_count();
        if range.lo.is_none() && range.hi.is_none() {
            let marks = vec![in self.alloc; true; count]?;
            return self.load_marked(disks, marks.as_slice(), range, out);
        }
        let table = out.table();
        if let Some(seats) = few_seats(self.alloc, &self.directory, table, range)? {
            return self.load_seats(disks, seats.as_slice(), out);
        }
        let extent = extent_of(self.alloc, &self.directory, table, range, count)?;
        let before = out.count();
        self.load_marked(disks, extent.pages.as_slice(), range, out)?;
        let came = out.count().saturating_sub(before);
        if came == extent.rows {
            Ok(())
        } else {
            Err(rejected(disks))
        }
    }
}
