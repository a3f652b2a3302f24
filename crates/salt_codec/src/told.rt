//! What each change in hand tells of itself.

ghost use Rattle.salt_bytes.specs.Spellable.{Every};
ghost use Rattle.salt_codec.specs.Entries.{IsTold};
ghost use Rattle.salt_values.specs.Value.{IsValue};

use salt_values::{Change, Value};

/// Each value in hand is a number of 64 bits, a text, or NULL.
pub fn told_row(row: &[Value])
    ensures { Every IsValue row.now }
{
    for value in row {
        value.told();
    }
}

fn told_change(change: &Change)
    ensures { IsTold change.now }
{
    let _table = change.table;
    change.key.told();
    match &change.row {
        Some(row) => told_row(row.as_slice()),
        None => {}
    }
}

/// Each change in hand is of a table's number of 16 bits, and its key and its row are of values.
pub fn told_changes(changes: &[Change])
    ensures { Every IsTold changes.now }
{
    for change in changes {
        told_change(change);
    }
}
