//! Pages that have a frame, and one that has none.

ghost use Rattle.salt_disk.specs.MemDisks.{seen};
ghost use Rattle.salt_rows.specs.Stores.{StandsOnPages};

use crate::stands::reopened;
use crate::steps::{long_rows, name_all, one_of, rows_of_keys};
use salt_directory::AnyRow;
use salt_disk::MemDisks;
use salt_rows::{RowStore, RowsErr, open_rows};
use salt_values::Value;
use std::alloc::Global;

/// How many long rows stand on 65 pages, while 64 have a frame.
const ROWS: i64 = 455;

/// What is told where the row of the last page is read again, and then that of the first.
fn ends(disks: &mut MemDisks, store: &mut RowStore) -> char
    requires { StandsOnPages (seen disks.old) store.old }
{
    let Ok(last) = store.get(disks, 0, &Value::Int(ROWS - 1)) else {
        return 'l';
    };
    match store.get(disks, 0, &Value::Int(0)) {
        Ok(first) if one_of(&last, ROWS - 1) == 1 && one_of(&first, 0) == 1 => '1',
        Ok(_) => '0',
        Err(_) => 'f',
    }
}

/// The same behind an opening and a look at each row, in order of the pages. That read of the device fails.
pub fn ends_again(alloc: Global, read: u64) -> Result<char, RowsErr> {
    let mut disks = MemDisks::new(alloc, 1, 1 << 24)?;
    disks.fail_read(read)?;
    let mut store = open_rows(alloc, &mut disks, 0, true, &[], &AnyRow)?;
    long_rows(alloc, &mut disks, &mut store, 0, ROWS)?;
    let sides = name_all(&mut disks, &mut store)?;
    let mut again = reopened(alloc, &mut disks, &sides)?;
    rows_of_keys(&mut disks, &mut again, ROWS)?;
    Ok(ends(&mut disks, &mut again))
}
