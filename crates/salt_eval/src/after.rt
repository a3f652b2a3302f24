//! The next row of a range in a map, behind a key.

ghost use Rattle.std.specs.Option.{option_copied};
ghost use Rattle.std.specs.Prelude.{◌≡◌, IfOk, option_map};
ghost use Rattle.std.specs.BTreeMap.Range.{entries_between};
ghost use Rattle.std.specs.Map.Iter.{deref_pair};
ghost use Rattle.std.specs.declared.ops.Bound.TheVariants.{Unbounded};
ghost use Rattle.std.specs.List.Sorted.{IsStrictlySortedBy};
ghost use Rattle.std.specs.Map.{keys_of};
ghost use Rattle.salt_eval.specs.Views.{next_row, start_of, tables_of};
ghost use Rattle.salt_model.specs.Tables.{place_cmp};
ghost use Rattle.salt_model.specs.Words.{first_of_list};

use crate::map_view::Tables;
use salt_model::{Place, first_place};
use salt_ranges::{KeyRange, is_above_low};
use salt_values::{Key, Row, TryCopy};
use std::alloc::{AllocError, Global};
use std::ops::Bound;

/// From the lower end of a range on, and behind a key.
pub fn start_of(
    alloc: Global,
    table: u16,
    lo: &Option<Key>,
    after: Option<&Key>,
) -> Result<Bound<Place>, AllocError>
    ensures { IfOk result (λ start. start ≡ start_of table lo.now (option_copied after.entry)) }
{
    match after {
        Some(after) if is_above_low(lo, after) => {
            let key = after.copy(alloc)?;
            Ok(Bound::Excluded(Place { table, key }))
        }
        _ => first_place(alloc, table, lo),
    }
}

/// The first entry from there on.
fn first_from<'a>(rows: &'a Tables, start: Bound<Place>) -> Option<(&'a Place, &'a Row)>
    ensures first { option_map deref_pair result ≡ first_of_list (entries_between place_cmp start Unbounded rows.now.entries) }
    ensures in_order { IsStrictlySortedBy place_cmp (keys_of rows.now.entries) }
{
    rows.range((start, Bound::Unbounded)).next()
}

/// The row of the least key in the range that is above `after`, where one is given; `None` exactly where there is none.
pub fn next_row(
    alloc: Global,
    rows: &Tables,
    table: u16,
    range: &KeyRange,
    after: Option<&Key>,
) -> Result<Option<Row>, AllocError>
    ensures { IfOk result (λ row. row ≡ next_row table range.now (option_copied after.entry) (tables_of rows.now.entries)) }
{
    let start = start_of(alloc, table, &range.lo, after)?;
    let Some((place, row)) = first_from(rows, start) else {
        return Ok(None);
    };
    if place.table == table && range.has(&place.key) {
        Ok(Some(row.copy(alloc)?))
    } else {
        Ok(None)
    }
}
