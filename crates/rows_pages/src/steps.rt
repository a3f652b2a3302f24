//! What is done to a store, and what is read of it.

ghost use Rattle.salt_disk.specs.MemDisks.{seen};
ghost use Rattle.rows_pages.specs.Headers.{IsWritten};
ghost use Rattle.salt_bytes.specs.Spellable.{Every};
ghost use Rattle.salt_codec.specs.Entries.{CanBePut};
ghost use Rattle.salt_rows.specs.Stores.{IsSide, StandsOnPages};
ghost use Rattle.std.specs.Prelude.{IfOk, OnOk, true, ◌≡◌};

use crate::changes::{gone, long, put};
use salt_disk::{DiskErr, Disks, MemDisks};
use salt_ranges::KeyRange;
use salt_rows::RowStore;
use salt_values::{Change, Row, TryCopy, Value};
use sqlite_items::Items;
use std::alloc::Global;

/// The values of keys 0 to 3 under the first header.
const FIRST: [Option<i64>; 4] = [Some(10), Some(11), Some(12), Some(13)];

/// Those under the second one.
const SECOND: [Option<i64>; 4] = [Some(10), Some(21), None, Some(13)];

/// The store's pages are written, and made stable. A header names these sides then.
pub fn name_all(disks: &mut MemDisks, store: &mut RowStore) -> Result<Items<u8>, DiskErr>
    requires { StandsOnPages (seen disks.old) store.old }
    ensures written { IfOk result (λ sides. IsWritten (seen disks.new) store.new sides) }
    ensures count { (seen disks.new).count ≡ (seen disks.old).count }
{
    let sides = store.checkpoint(disks)?;
    disks.sync(0)?;
    Ok(sides)
}

/// One change is made.
fn make(disks: &mut MemDisks, store: &mut RowStore, change: Change) -> Result<(), DiskErr>
    requires stands { StandsOnPages (seen disks.old) store.old }
    requires put { CanBePut true change }
    ensures stands { OnOk result (StandsOnPages (seen disks.new) store.new) }
    ensures count { (seen disks.new).count ≡ (seen disks.old).count }
{
    store.apply(disks, &[change])
}

/// The rows of the first header: keys 0 to 3 have the values 10 to 13.
pub fn first_rows(alloc: Global, disks: &mut MemDisks, store: &mut RowStore) -> Result<(), DiskErr>
    requires { StandsOnPages (seen disks.old) store.old }
    ensures stands { OnOk result (StandsOnPages (seen disks.new) store.new) }
    ensures count { (seen disks.new).count ≡ (seen disks.old).count }
{
    for key in 0..4i64 {
        let change = put(alloc, key, 10 + key)?;
        make(disks, store, change)?;
    }
    Ok(())
}

/// Those of the second one: key 1 has another value, that of key 2 is gone, and 30 long ones have come, which take four pages more.
pub fn second_rows(alloc: Global, disks: &mut MemDisks, store: &mut RowStore) -> Result<(), DiskErr>
    requires { StandsOnPages (seen disks.old) store.old }
    ensures stands { OnOk result (StandsOnPages (seen disks.new) store.new) }
    ensures count { (seen disks.new).count ≡ (seen disks.old).count }
{
    let change = put(alloc, 1, 21)?;
    make(disks, store, change)?;
    make(disks, store, gone(2))?;
    long_rows(alloc, disks, store, 10, 40)
}

/// The store gets the rows of the second header, which names these sides then.
pub fn second_header(
    alloc: Global,
    disks: &mut MemDisks,
    store: &mut RowStore,
) -> Result<Items<u8>, DiskErr>
    requires { StandsOnPages (seen disks.old) store.old }
    ensures sides { IfOk result (Every IsSide) }
    ensures count { (seen disks.new).count ≡ (seen disks.old).count }
{
    second_rows(alloc, disks, store)?;
    name_all(disks, store)
}

/// Long rows come, one after another, of these keys.
pub fn long_rows(
    alloc: Global,
    disks: &mut MemDisks,
    store: &mut RowStore,
    from: i64,
    to: i64,
) -> Result<(), DiskErr>
    requires { StandsOnPages (seen disks.old) store.old }
    ensures stands { OnOk result (StandsOnPages (seen disks.new) store.new) }
    ensures count { (seen disks.new).count ≡ (seen disks.old).count }
{
    for key in from..to {
        let change = long(alloc, key)?;
        make(disks, store, change)?;
    }
    Ok(())
}

/// The value in a row of a key and a value.
fn value_in(row: &Option<Row>) -> Option<i64> {
    match row.as_ref()?.get(1) {
        Some(Value::Int(value)) => Some(*value),
        _ => None,
    }
}

/// The values of keys 0 to 3.
fn values(
    alloc: Global,
    disks: &mut MemDisks,
    store: &mut RowStore,
) -> Result<Vec<Option<i64>>, DiskErr>
    requires { StandsOnPages (seen disks.old) store.old }
{
    let mut values = Vec::new(alloc);
    for key in 0..4i64 {
        let row = store.get(disks, 0, &Value::Int(key))?;
        values.push(value_in(&row))?;
    }
    Ok(values)
}

/// The number of the header whose rows have these values.
fn letter_of_values(values: &[Option<i64>]) -> char {
    if values == FIRST.as_slice() {
        '1'
    } else if values == SECOND.as_slice() {
        '2'
    } else {
        '?'
    }
}

/// The number of the header whose rows these are.
pub fn rows_are(alloc: Global, disks: &mut MemDisks, store: &mut RowStore) -> Result<char, DiskErr>
    requires { StandsOnPages (seen disks.old) store.old }
{
    let values = values(alloc, disks, store)?;
    Ok(letter_of_values(values.as_slice()))
}

/// 1 where it is a row of this key.
pub fn one_of(row: &Option<Row>, key: i64) -> u64 {
    match row {
        Some(row) if row.get(0) == Some(&Value::Int(key)) => 1,
        _ => 0,
    }
}

/// How many of these keys have their row.
pub fn rows_of_keys(disks: &mut MemDisks, store: &mut RowStore, keys: i64) -> Result<u64, DiskErr>
    requires { StandsOnPages (seen disks.old) store.old }
    ensures stands { OnOk result (StandsOnPages (seen disks.new) store.new) }
{
    let mut found: u64 = 0;
    for key in 0..keys {
        let row = store.get(disks, 0, &Value::Int(key))?;
        found = found.saturating_add(one_of(&row, key));
    }
    Ok(found)
}

/// How many rows there are, each behind the key of the one before, up to so many.
pub fn rows_in_order(
    alloc: Global,
    disks: &mut MemDisks,
    store: &mut RowStore,
    most: u64,
) -> Result<u64, DiskErr>
    requires { StandsOnPages (seen disks.old) store.old }
{
    let all = KeyRange { lo: None, hi: None };
    let mut after = None;
    for count in 0..most {
        let Some(row) = store.next_in(disks, 0, &all, after.as_ref())? else {
            return Ok(count);
        };
        let Some(key) = row.get(0) else {
            return Ok(count);
        };
        after = Some(key.copy(alloc)?);
    }
    Ok(most)
}
