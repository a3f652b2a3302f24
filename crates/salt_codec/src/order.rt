//! The order of changes.

ghost use Rattle.salt_bytes.specs.Changes.{are_in_order, change_cmp};
ghost use Rattle.std.specs.Ordering.{is_lt};
ghost use Rattle.std.specs.Prelude.{◌≡◌};

use salt_values::Change;

/// Whether a change is of an earlier table, or of a lesser key of the same one.
pub fn is_before(a: &Change, b: &Change) -> bool
    ensures { result ≡ is_lt (change_cmp a.now b.now) }
{
    a.table.cmp(&b.table).then(a.key.cmp(&b.key)).is_lt()
}

/// Whether changes are in order of table and key, each key once.
pub fn are_in_order(changes: &[Change]) -> bool
    ensures { result ≡ are_in_order changes.now }
{
    for next in 1..changes.len() {
        if !is_before(&changes[next - 1], &changes[next]) {
            return false;
        }
    }
    true
}
