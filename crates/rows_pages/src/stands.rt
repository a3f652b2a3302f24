//! Which rows stand on a device.

ghost use Rattle.salt_bytes.specs.Spellable.{Every};
ghost use Rattle.salt_disk.specs.MemDisks.{seen};
ghost use Rattle.salt_rows.specs.Stores.{IsSide, StandsOnPages};
ghost use Rattle.std.specs.Prelude.{IfOk, false, length, ⊤, ◌<◌, ◌≡◌, ◌≤◌};

use crate::steps::{first_rows, name_all, rows_are, second_header};
use salt_directory::{AnyRow, RowJudge};
use salt_disk::{DiskErr, Disks, MemDisks};
use salt_rows::{RowStore, RowsErr, open_rows};
use salt_values::{Key, Row, TryCopy};
use sqlite_items::Items;
use std::alloc::{AllocError, Global};

const LIMIT: u64 = 1 << 20;

/// Of the first header's page, of both pages of the second one, and one byte less of each.
const LIMITS: [u64; 4] = [8191, 8192, 73727, 73728];

const ZEROS: [u8; 8192] = [0; 8192];

/// More sides than any header names here.
const MANY: usize = 1000;

/// The judge to whom no row is sound.
struct NoRow;

impl RowJudge for NoRow {
    ghost can_judge = { λ _. ⊤ };

    ghost sound = { λ _ _. false };

    fn is_sound(
        &self,
        _alloc: Global,
        _table: u16,
        _key: &Key,
        _row: &Row,
    ) -> Result<bool, AllocError> {
        Ok(false)
    }
}

/// The letter of what was found.
pub fn letter_of(found: Result<char, RowsErr>) -> char {
    match found {
        Ok(letter) => letter,
        Err(RowsErr::NotPage) => 'n',
        Err(RowsErr::NotRow) => 'u',
        Err(RowsErr::Disk(DiskErr::Full(_))) => 'f',
        Err(_) => '?',
    }
}

/// The store of the sides that a header names.
pub fn reopened(alloc: Global, disks: &mut MemDisks, sides: &Items<u8>) -> Result<RowStore, RowsErr>
    requires known { 0 < (seen disks.old).count }
    requires sides { Every IsSide sides.now }
    ensures { IfOk result (λ store. StandsOnPages (seen disks.new) store) }
{
    let sides = sides.as_slice();
    if MANY < sides.len() {
        return Err(RowsErr::NotPage);
    }
    open_rows(alloc, disks, 0, true, sides, &AnyRow)
}

/// The sides of the second header, where it stands, else those of the first one.
fn named_last(second: Result<Items<u8>, DiskErr>, first: Items<u8>) -> Items<u8>
    requires second { IfOk second (Every IsSide) }
    requires first { Every IsSide first }
    ensures { Every IsSide result }
{
    match second {
        Ok(sides) => sides,
        Err(_) => first,
    }
}

/// A store with the rows of the first header on an empty device, and the sides that it names.
fn first_header(alloc: Global, disks: &mut MemDisks) -> Result<(RowStore, Items<u8>), RowsErr>
    requires { 0 < (seen disks.old).count }
    ensures store { IfOk result (λ made. StandsOnPages (seen disks.new) made.0) }
    ensures sides { IfOk result (λ made. Every IsSide made.1) }
    ensures count { (seen disks.new).count ≡ (seen disks.old).count }
{
    let mut store = open_rows(alloc, disks, 0, true, &[], &AnyRow)?;
    first_rows(alloc, disks, &mut store)?;
    let sides = name_all(disks, &mut store)?;
    store.named_as(sides.copy(alloc)?);
    Ok((store, sides))
}

/// What stands after a stop.
pub fn after_stop(alloc: Global, calls: u64, pick: u8) -> Result<char, RowsErr>
    requires { pick ≤ 4 }
{
    let mut disks = MemDisks::new(alloc, 1, LIMIT)?;
    let (mut store, first) = first_header(alloc, &mut disks)?;
    disks.arm(calls, pick)?;
    let second = second_header(alloc, &mut disks, &mut store);
    let sides = named_last(second, first);
    disks.restart();
    let mut again = reopened(alloc, &mut disks, &sides)?;
    Ok(rows_are(alloc, &mut disks, &mut again)?)
}

/// What stands after that read fails.
pub fn after_failed_read(alloc: Global, read: u64) -> Result<char, AllocError> {
    let mut disks = MemDisks::new(alloc, 1, LIMIT)?;
    disks.fail_read(read)?;
    let Ok((_store, sides)) = first_header(alloc, &mut disks) else {
        return Ok('b');
    };
    let Ok(mut again) = reopened(alloc, &mut disks, &sides) else {
        return Ok('o');
    };
    Ok(rows_are(alloc, &mut disks, &mut again).unwrap_or('r'))
}

/// What stands on a device of this limit.
fn within(alloc: Global, limit: u64) -> Result<char, RowsErr> {
    let mut disks = MemDisks::new(alloc, 1, limit)?;
    let (mut store, first) = first_header(alloc, &mut disks)?;
    let second = second_header(alloc, &mut disks, &mut store);
    let sides = named_last(second, first);
    let mut again = reopened(alloc, &mut disks, &sides)?;
    Ok(rows_are(alloc, &mut disks, &mut again)?)
}

/// A letter for each limit.
pub fn limits_row(alloc: Global) -> Result<String, AllocError> {
    let mut row = String::new(alloc);
    for limit in LIMITS {
        row.push(letter_of(within(alloc, limit)))?;
    }
    Ok(row)
}

/// What a device of these bytes, one piece behind the other, is opened as, by this judge.
fn judged_as<J: RowJudge>(
    alloc: Global,
    pieces: &[&[u8]],
    sides: &[u8],
    judge: &J,
) -> Result<char, RowsErr>
    requires judge { J.can_judge judge.now }
    requires sides { Every IsSide sides.now }
    requires few { length sides.now < 1000 }
{
    let mut bytes = Vec::new(alloc);
    for piece in pieces {
        bytes.extend_from_slice(*piece)?;
    }
    let mut disks = MemDisks::new(alloc, 1, LIMIT)?;
    disks.set_bytes(0, &bytes)?;
    let mut store = open_rows(alloc, &mut disks, 0, true, sides, judge)?;
    Ok(rows_are(alloc, &mut disks, &mut store)?)
}

/// The same, where every row is sound.
fn opened_as(alloc: Global, pieces: &[&[u8]], sides: &[u8]) -> Result<char, RowsErr>
    requires sides { Every IsSide sides.now }
    requires few { length sides.now < 1000 }
{
    judged_as(alloc, pieces, sides, &AnyRow)
}

/// The bytes of the first header's page.
fn first_page(alloc: Global) -> Result<Vec<u8>, RowsErr> {
    let mut disks = MemDisks::new(alloc, 1, LIMIT)?;
    let (_store, _sides) = first_header(alloc, &mut disks)?;
    Ok(Vec::from_slice(alloc, disks.bytes(0))?)
}

/// A letter for each device that is opened: the page on side 0, and on side 1; without its last byte; with a row more than it has; before an
/// empty page, and before itself; and where no row is sound.
pub fn devices_row(alloc: Global) -> Result<String, AllocError> {
    let mut row = String::new(alloc);
    let Ok(page) = first_page(alloc) else {
        return Ok(row);
    };
    let page = page.as_slice();
    row.push(letter_of(opened_as(alloc, &[page], &[0])))?;
    row.push(letter_of(opened_as(alloc, &[&ZEROS, page], &[1])))?;
    if let [short @ .., _] = page {
        row.push(letter_of(opened_as(alloc, &[short], &[0])))?;
    }
    if let [_, _, rows @ ..] = page {
        row.push(letter_of(opened_as(alloc, &[b"\0\x05", rows], &[0])))?;
    }
    row.push(letter_of(opened_as(alloc, &[page, &ZEROS, &ZEROS], &[0, 0])))?;
    row.push(letter_of(opened_as(alloc, &[page, &ZEROS, page], &[0, 0])))?;
    row.push(letter_of(judged_as(alloc, &[page], &[0], &NoRow)))?;
    Ok(row)
}
