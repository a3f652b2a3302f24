//! Whether rows are those that changes make of others.

ghost use Rattle.salt_model.specs.Tables.{Tables, with_changes};
ghost use Rattle.std.specs.Prelude.{IfOk, IsTrue, ◌↔◌, ◌≡◌};

use crate::copies::changes_copied;
use crate::rows::make_changes;
use salt_eval::Tables;
use salt_model::Place;
use salt_values::{Change, TryCopy, Value};
use std::alloc::{AllocError, Global};
use std::collections::BTreeMap;

/// Whether two rows have the same values.
fn is_same_row(a: &[Value], b: &[Value]) -> bool
    ensures { IsTrue result ↔ (a.now ≡ b.now) }
{
    a == b
}

/// A copy of rows.
fn rows_copied(alloc: Global, rows: &Tables) -> Result<Tables, AllocError>
    ensures { IfOk result (λ made. made.entries ≡ rows.now.entries) }
{
    let mut made = BTreeMap::new(alloc);
    for (at, row) in rows {
        let table = at.table;
        let key = at.key.copy(alloc)?;
        made.insert(Place { table, key }, row.copy(alloc)?)?;
    }
    Ok(made)
}

/// Whether rows are the same as others, which are used up.
fn are_same_rows(rows: &Tables, others: Tables) -> bool
    ensures { IsTrue result ↔ (rows.now.entries ≡ others.entries) }
{
    let mut left = others;
    for (at, row) in rows {
        let Some((place, other)) = left.pop_first() else {
            return false;
        };
        if *at != place || !is_same_row(row.as_slice(), other.as_slice()) {
            return false;
        }
    }
    left.is_empty()
}

/// Whether rows are those that changes make of others.
pub fn are_rows_with(
    alloc: Global,
    rows: &Tables,
    others: &Tables,
    changes: &[Change],
) -> Result<bool, AllocError>
    ensures { IfOk result (λ are. (t : Tables) → others.now.entries ≡ t.list → IsTrue are ↔ (rows.now.entries ≡ (with_changes changes.now t).list)) }
{
    let mut made = rows_copied(alloc, others)?;
    make_changes(&mut made, changes_copied(alloc, changes)?)?;
    Ok(are_same_rows(rows, made))
}
