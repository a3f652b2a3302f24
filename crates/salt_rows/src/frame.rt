//! What is done to a page in its frame.

ghost use Rattle.salt_bytes.specs.Page.{TableRow};
ghost use Rattle.salt_bytes.specs.Values.{HasRowTo, is_row_length};
ghost use Rattle.salt_directory.specs.Halves.{IsHalved};
ghost use Rattle.salt_directory.specs.Loading.{rows_within};
ghost use Rattle.salt_directory.specs.Rows.{IsPut, IsReplaced, IsRowFound};
ghost use Rattle.salt_disk.specs.Disks.{HasCause, KeepsAll, OnlyFails};
ghost use Rattle.salt_eval.specs.Scans.{row_list};
ghost use Rattle.salt_loaded.specs.Rows.{with_rows};
ghost use Rattle.salt_pool.specs.Pools.{device_of};
ghost use Rattle.salt_pool.specs.declared.error.PoolErr.TheVariants.{NotPage, PoolFull};
ghost use Rattle.salt_rows.specs.Frames.{CanFrame, HasFramed};
ghost use Rattle.std.specs.Option.{option_copied};
ghost use Rattle.std.specs.Prelude.{IfOk, List, OnErr, OnOk, Option, is_some, length, true, ◌≡◌, ◌⊎◌};
ghost use Rattle.salt_values.specs.declared.value.Value.{Value};
ghost use Rattle.std.specs.Result.{result_err};

use salt_directory::{Half, Replaced, load_page, load_row, put_on, replace_on, row_of, split_page};
use salt_disk::{DiskErr, Disks};
use salt_gatelog::rejected;
use salt_loaded::Loading;
use salt_pages::Page;
use salt_pool::{PageSpelling, Pool, PoolErr};
use salt_ranges::KeyRange;
use salt_values::{Key, Row};
use std::alloc::Global;

/// The row of a key on a page, `None` exactly where the page has none. The page gets a frame, where it has none.
pub fn row_on<D: Disks>(
    pool: &mut Pool<Page, PageSpelling>,
    alloc: Global,
    disks: &mut D,
    page: u32,
    side: u8,
    table: u16,
    key: &Key,
) -> Result<Option<Row>, DiskErr>
    requires { CanFrame (D.view disks.old) pool.old page side }
    ensures row { IfOk result (λ row. (rows : List TableRow) × HasFramed (D.view disks.old) pool.old pool.new page side rows rows × IsRowFound table key.now rows row) }
    ensures err { OnErr result ((pool.new ≡ pool.old) ⊎ ((rows : List TableRow) × HasFramed (D.view disks.old) pool.old pool.new page side rows rows)) }
    ensures kept { KeepsAll (D.view disks.old) (D.view disks.new) (result_err result) }
    ensures cause { HasCause (D.view disks.old) (D.view disks.new) (result_err result) }
    ensures answers { OnlyFails (result_err result) }
{
    match pool.frame(alloc, disks, page, side) {
        Ok(frame) => {
            let row = row_of(alloc, frame, table, key)?;
            Ok(row)
        }
        Err(PoolErr::NotPage) => Err(rejected(disks)),
        Err(PoolErr::Disk(e)) => Err(e),
        Err(PoolErr::PoolFull) => unreachable!(),
    }
}

/// The row of a key goes from its page, and the new one comes on it, where one is given that has room. Behind Ok the page has a
/// frame, which is not marked as to be written; behind an error nothing is known of it.
pub fn replace_row<D: Disks>(
    pool: &mut Pool<Page, PageSpelling>,
    alloc: Global,
    disks: &mut D,
    page: u32,
    side: u8,
    table: u16,
    key: &Key,
    row: Option<&Row>,
) -> Result<Replaced, DiskErr>
    requires can { CanFrame (D.view disks.old) pool.old page side }
    requires row { HasRowTo (option_copied row) }
    ensures rows { IfOk result (λ done. (before rows : List TableRow) × HasFramed (D.view disks.old) pool.old pool.new page side before rows × IsReplaced table key.now (option_copied row.entry) before rows done) }
    ensures device { device_of pool.new ≡ device_of pool.old }
    ensures kept { KeepsAll (D.view disks.old) (D.view disks.new) (result_err result) }
    ensures cause { HasCause (D.view disks.old) (D.view disks.new) (result_err result) }
    ensures answers { OnlyFails (result_err result) }
{
    match pool.frame(alloc, disks, page, side) {
        Ok(frame) => {
            let done = replace_on(frame, table, key, row)?;
            Ok(done)
        }
        Err(PoolErr::NotPage) => Err(rejected(disks)),
        Err(PoolErr::Disk(e)) => Err(e),
        Err(PoolErr::PoolFull) => unreachable!(),
    }
}

/// A new row comes on a page. How many bytes are free on it then; `None` where it had no room. Behind Ok the page has a frame, which
/// is not marked as to be written.
pub fn put_row<D: Disks>(
    pool: &mut Pool<Page, PageSpelling>,
    alloc: Global,
    disks: &mut D,
    page: u32,
    side: u8,
    table: u16,
    row: &Row,
) -> Result<Option<u16>, DiskErr>
    requires can { CanFrame (D.view disks.old) pool.old page side }
    requires row { is_row_length (length row.now) ≡ true }
    ensures rows { IfOk result (λ free. (before rows : List TableRow) × HasFramed (D.view disks.old) pool.old pool.new page side before rows × IsPut table row.now before rows free) }
    ensures device { device_of pool.new ≡ device_of pool.old }
    ensures kept { KeepsAll (D.view disks.old) (D.view disks.new) (result_err result) }
    ensures cause { HasCause (D.view disks.old) (D.view disks.new) (result_err result) }
    ensures answers { OnlyFails (result_err result) }
{
    match pool.frame(alloc, disks, page, side) {
        Ok(frame) => {
            let free = put_on(frame, table, row)?;
            Ok(free)
        }
        Err(PoolErr::NotPage) => Err(rejected(disks)),
        Err(PoolErr::Disk(e)) => Err(e),
        Err(PoolErr::PoolFull) => unreachable!(),
    }
}

/// The row of a key on a page is loaded. Whether the page has it. The page gets a frame, where it has none.
pub fn load_key<D: Disks>(
    pool: &mut Pool<Page, PageSpelling>,
    alloc: Global,
    disks: &mut D,
    page: u32,
    side: u8,
    key: &Key,
    out: &mut Loading,
) -> Result<bool, DiskErr>
    requires { CanFrame (D.view disks.old) pool.old page side }
    ensures row { IfOk result (λ found. (rows : List TableRow) × HasFramed (D.view disks.old) pool.old pool.new page side rows rows
        × ((row : Option (List Value)) × IsRowFound out.old.table key.now rows row × (found ≡ is_some row) × (out.new ≡ with_rows (row_list row) out.old))) }
    ensures err { OnErr result ((pool.new ≡ pool.old) ⊎ ((rows : List TableRow) × HasFramed (D.view disks.old) pool.old pool.new page side rows rows)) }
    ensures kept { KeepsAll (D.view disks.old) (D.view disks.new) (result_err result) }
    ensures cause { HasCause (D.view disks.old) (D.view disks.new) (result_err result) }
    ensures answers { OnlyFails (result_err result) }
{
    match pool.frame(alloc, disks, page, side) {
        Ok(frame) => {
            let found = load_row(frame, key, out)?;
            Ok(found)
        }
        Err(PoolErr::NotPage) => Err(rejected(disks)),
        Err(PoolErr::Disk(e)) => Err(e),
        Err(PoolErr::PoolFull) => unreachable!(),
    }
}

/// The rows of a range on a page are loaded. The page gets a frame, where it has none.
pub fn load_range<D: Disks>(
    pool: &mut Pool<Page, PageSpelling>,
    alloc: Global,
    disks: &mut D,
    page: u32,
    side: u8,
    range: &KeyRange,
    out: &mut Loading,
) -> Result<(), DiskErr>
    requires { CanFrame (D.view disks.old) pool.old page side }
    ensures rows { OnOk result ((rows : List TableRow) × HasFramed (D.view disks.old) pool.old pool.new page side rows rows × (out.new ≡ with_rows (rows_within out.old.table range.now rows) out.old)) }
    ensures err { OnErr result ((pool.new ≡ pool.old) ⊎ ((rows : List TableRow) × HasFramed (D.view disks.old) pool.old pool.new page side rows rows)) }
    ensures kept { KeepsAll (D.view disks.old) (D.view disks.new) (result_err result) }
    ensures cause { HasCause (D.view disks.old) (D.view disks.new) (result_err result) }
    ensures answers { OnlyFails (result_err result) }
{
    match pool.frame(alloc, disks, page, side) {
        Ok(frame) => {
            load_page(frame, range, out)?;
            Ok(())
        }
        Err(PoolErr::NotPage) => Err(rejected(disks)),
        Err(PoolErr::Disk(e)) => Err(e),
        Err(PoolErr::PoolFull) => unreachable!(),
    }
}

/// The rows from the middle of a page on are taken from it.
pub fn half_of<D: Disks>(
    pool: &mut Pool<Page, PageSpelling>,
    alloc: Global,
    disks: &mut D,
    page: u32,
    side: u8,
) -> Result<Half, DiskErr>
    requires { CanFrame (D.view disks.old) pool.old page side }
    ensures rows { IfOk result (λ half. (before rows : List TableRow) × HasFramed (D.view disks.old) pool.old pool.new page side before rows × IsHalved before rows half) }
    ensures device { device_of pool.new ≡ device_of pool.old }
    ensures kept { KeepsAll (D.view disks.old) (D.view disks.new) (result_err result) }
    ensures cause { HasCause (D.view disks.old) (D.view disks.new) (result_err result) }
    ensures answers { OnlyFails (result_err result) }
{
    match pool.frame(alloc, disks, page, side) {
        Ok(frame) => {
            let half = split_page(alloc, frame)?;
            Ok(half)
        }
        Err(PoolErr::NotPage) => Err(rejected(disks)),
        Err(PoolErr::Disk(e)) => Err(e),
        Err(PoolErr::PoolFull) => unreachable!(),
    }
}
