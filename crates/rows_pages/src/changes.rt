//! The changes that are made to stores.

ghost use Rattle.salt_codec.specs.Entries.{CanBePut};
ghost use Rattle.std.specs.Prelude.{IfOk, true};

use salt_values::{Change, Text, Value};
use sqlite_items::Items;
use std::alloc::{AllocError, Global};

const LONG: [u8; 255] = [b'a'; 255];

/// The row of a key has this value from now on.
pub fn put(alloc: Global, key: i64, value: i64) -> Result<Change, AllocError>
    ensures { IfOk result (CanBePut true) }
{
    let mut row = Items::new(alloc);
    row.push(Value::Int(key))?;
    row.push(Value::Int(value))?;
    Ok(Change {
        table: 0,
        key: Value::Int(key),
        row: Some(row),
    })
}

/// The row of a key goes.
pub fn gone(key: i64) -> Change
    ensures { CanBePut true result }
{
    Change {
        table: 0,
        key: Value::Int(key),
        row: None,
    }
}

/// A long row comes: seven of them fill a page.
pub fn long(alloc: Global, key: i64) -> Result<Change, AllocError>
    ensures { IfOk result (CanBePut true) }
{
    let Ok(text) = Text::new(alloc, &LONG) else {
        return Err(AllocError);
    };
    let mut row = Items::new(alloc);
    row.push(Value::Int(key))?;
    row.push(Value::Text(text.copy(alloc)?))?;
    row.push(Value::Text(text.copy(alloc)?))?;
    row.push(Value::Text(text.copy(alloc)?))?;
    row.push(Value::Text(text))?;
    Ok(Change {
        table: 0,
        key: Value::Int(key),
        row: Some(row),
    })
}
