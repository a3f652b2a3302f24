//! Rows of one page are found, put and replaced by their keys.

ghost use Rattle.salt_bytes.specs.Page.{TableRow, take_table_row};
ghost use Rattle.salt_bytes.specs.Values.{HasRowTo, is_row_length, spell_values, take_row};
ghost use Rattle.salt_directory.specs.Loading.{rows_within};
ghost use Rattle.salt_directory.specs.Pages.{free_on};
ghost use Rattle.salt_directory.specs.Rows.{IsExchanged, IsPut, IsReplaced, IsRowFound, one_row};
ghost use Rattle.salt_eval.specs.Scans.{row_list};
ghost use Rattle.salt_loaded.specs.Rows.{with_rows};
ghost use Rattle.salt_pages.specs.Pages.{IsFound, used_by};
ghost use Rattle.salt_values.specs.declared.value.Value.{Value};
ghost use Rattle.std.specs.List.{remove};
ghost use Rattle.std.specs.Option.{option_copied};
ghost use Rattle.std.specs.Prelude.{IfOk, IsTrue, List, OnOk, Option, Some, [], false, is_some, length, true, ◌+◌, ◌++◌, ◌<◌, ◌==◌, ◌≡◌};

use salt_loaded::Loading;
use salt_pages::{Page, PageErr, row_room};
use salt_ranges::KeyRange;
use salt_values::{Key, Row};
use std::alloc::{AllocError, Global};

/// What became of a page where the row of a key was to be replaced, and how many bytes are free on it then.
#[derive(Clone, Copy, Debug)]
pub enum Replaced {
    /// The new row stands on it.
    Put(u16),
    /// The old row is gone, and no new one was given, or it has no room.
    Gone(u16),
    /// It has no row of this key, and is as it was.
    Missing,
}

/// The row of a key, made of its bytes; `None` exactly where the page has none.
pub fn row_of(alloc: Global, page: &Page, table: u16, key: &Key) -> Result<Option<Row>, AllocError>
    ensures { IfOk result (IsRowFound table key.now page.now) }
{
    match page.find(table, key) {
        Some(i) => {
            let (_table, row) = page.row(alloc, i)?;
            Ok(Some(row))
        }
        None => Ok(None),
    }
}

/// How many bytes are free on a page.
pub(crate) fn free_bytes(page: &Page) -> u16
    ensures { result ≡ free_on page.now }
{
    page.free() as u16
}

/// Puts a row behind the others, where it has room. Whether it had.
fn put_if_room(page: &mut Page, table: u16, row: &Row) -> Result<bool, AllocError>
    requires { is_row_length (length row.now) ≡ true }
    ensures put { IfOk result (λ put. IsTrue put → page.new ≡ page.old ++ one_row table (Some row.now)) }
    ensures same { IfOk result (λ put. put ≡ false → page.new ≡ page.old) }
    ensures full { IfOk result (λ put. put ≡ false → 8190 < used_by page.old + (2 + length (spell_values row.now))) }
{
    match page.insert(table, row) {
        Ok(()) => Ok(true),
        Err(PageErr::Full) => Ok(false),
        Err(PageErr::Memory) => Err(AllocError),
    }
}

/// A row comes instead of row `i`: in its place, where both take as many bytes; else behind the others, if it has room. Whether it
/// came; row `i` is gone either way.
fn exchange(page: &mut Page, i: usize, table: u16, row: &Row) -> Result<bool, AllocError>
    requires below { i < length page.old }
    requires row { is_row_length (length row.now) ≡ true }
    ensures put { (key : Value) → IsFound table key page.old (Some i) → IfOk result (λ put. IsTrue put → IsExchanged table key row.now page.old page.new) }
    ensures gone { IfOk result (λ put. put ≡ false → page.new ≡ remove page.old i) }
{
    if page.replace(i, row) {
        return Ok(true);
    }
    page.remove(i);
    put_if_room(page, table, row)
}

/// The row of a key goes from its page, and the new one comes on it, where one is given that has room.
pub fn replace_on(
    page: &mut Page,
    table: u16,
    key: &Key,
    row: Option<&Row>,
) -> Result<Replaced, AllocError>
    requires { HasRowTo (option_copied row) }
    ensures { IfOk result (IsReplaced table key.now (option_copied row.entry) page.old page.new) }
{
    let Some(i) = page.find(table, key) else {
        return Ok(Replaced::Missing);
    };
    let Some(row) = row else {
        page.remove(i);
        return Ok(Replaced::Gone(free_bytes(page)));
    };
    if exchange(page, i, table, row)? {
        Ok(Replaced::Put(free_bytes(page)))
    } else {
        Ok(Replaced::Gone(free_bytes(page)))
    }
}

/// A new row comes on a page. How many bytes are free on it then; `None` where it had no room.
pub fn put_on(page: &mut Page, table: u16, row: &Row) -> Result<Option<u16>, AllocError>
    requires { is_row_length (length row.now) ≡ true }
    ensures { IfOk result (IsPut table row.now page.old page.new) }
{
    if put_if_room(page, table, row)? {
        Ok(Some(free_bytes(page)))
    } else {
        Ok(None)
    }
}

/// A page with one row, and how many bytes are free on it.
pub fn new_page(alloc: Global, table: u16, row: &Row) -> Result<(Page, u16), AllocError>
    requires { is_row_length (length row.now) ≡ true }
    ensures rows { IfOk result (λ made. made.0 ≡ one_row table (Some row.now)) }
    ensures free { IfOk result (λ made. made.1 ≡ free_on made.0) }
{
    let _room = row_room(row.as_slice());
    let mut page = Page::new(alloc)?;
    match put_on(&mut page, table, row)? {
        Some(free) => Ok((page, free)),
        // the longest row has room on a page of its own
        None => unreachable!(),
    }
}

/// Whether a row that is spelled behind its table's number is of this table.
fn is_of_table(spelled: &[u8], table: u16) -> bool
    ensures { (r : TableRow) → take_table_row true spelled.now ≡ Some (r, []) → result ≡ (table == r.table) }
{
    match spelled {
        [high, low, ..] => u16::from_be_bytes([*high, *low]) == table,
        _ => false,
    }
}

/// A row without its table's number, behind which it is spelled.
fn behind_number(spelled: &[u8]) -> &[u8]
    requires { (r : TableRow) × take_table_row true spelled.now ≡ Some (r, []) }
    ensures { (r : TableRow) → take_table_row true spelled.now ≡ Some (r, []) → take_row true result.now ≡ Some (r.row, []) }
{
    &spelled[2..]
}

/// The rows of a page that are of the table and in the range are loaded.
pub fn load_page(page: &Page, range: &KeyRange, out: &mut Loading) -> Result<(), AllocError>
    ensures { OnOk result (out.new ≡ with_rows (rows_within out.old.table range.now page.now) out.old) }
{
    let table = out.table();
    for i in 0..page.count() {
        let spelled = page.spelled(i);
        if is_of_table(spelled, table) {
            out.push_within(range, behind_number(spelled))?;
        }
    }
    Ok(())
}

/// The row of a key is loaded. Whether the page has it.
pub fn load_row(page: &Page, key: &Key, out: &mut Loading) -> Result<bool, AllocError>
    ensures { IfOk result (λ found. (row : Option (List Value)) × IsRowFound out.old.table key.now page.now row × (found ≡ is_some row) × (out.new ≡ with_rows (row_list row) out.old)) }
{
    match page.find(out.table(), key) {
        Some(i) => {
            out.push(behind_number(page.spelled(i)))?;
            Ok(true)
        }
        None => Ok(false),
    }
}
