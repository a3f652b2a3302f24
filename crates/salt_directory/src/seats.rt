//! The rows of a range, where there are few.

ghost use Rattle.salt_bytes.specs.Spellable.{Every};
ghost use Rattle.salt_directory.specs.Loading.{IsSeated, count_in, seats_in};
ghost use Rattle.salt_eval.specs.Views.{start_of};
ghost use Rattle.salt_model.specs.Tables.{place_cmp};
ghost use Rattle.std.specs.BTreeMap.Range.{entries_between};
ghost use Rattle.std.specs.List.Sorted.{IsStrictlySortedBy};
ghost use Rattle.std.specs.Map.{keys_of};
ghost use Rattle.std.specs.Prelude.{IfOk, IfSome, MatchOption, None, ◌<◌, ◌≡◌};
ghost use Rattle.std.specs.declared.ops.Bound.TheVariants.{Unbounded};

use crate::directory::Directory;
use salt_model::{Place, first_place};
use salt_ranges::KeyRange;
use salt_values::{Key, TryCopy};
use std::alloc::{AllocError, Global};
use std::collections::btree_map::Range;

/// The key of a row, and the page on which it stands.
#[derive(Drop)]
pub struct Seat {
    pub key: Key,
    pub page: u32,
}

/// So many rows are few: to look each up on its page costs less than to pass all rows of a page.
const FEW: usize = 16;

/// How many of these rows are in a range, where they are few. They come in order, from the lower end of the range on.
fn count_few(rows: Range<'_, Place, u32>, table: u16, range: &KeyRange) -> Option<usize>
    ensures { (directory : _) → IsStrictlySortedBy place_cmp (keys_of directory) → rows.entry ≡ entries_between place_cmp (start_of table range.now.lo None) Unbounded directory
        → MatchOption result (16 < count_in table range.now directory) (λ count. count ≡ count_in table range.now directory) }
{
    let mut count = 0;
    for (place, _page) in rows {
        if place.table != table || !range.has(&place.key) {
            break;
        }
        if count == FEW {
            return None;
        }
        count += 1;
    }
    Some(count)
}

/// The rows of a range in order, where there are few; else `None`, and no key is copied.
pub fn few_seats(
    alloc: Global,
    directory: &Directory,
    table: u16,
    range: &KeyRange,
) -> Result<Option<Vec<Seat>>, AllocError>
    ensures seats { IfOk result (λ few. IfSome few (λ seats. seats.items ≡ seats_in table range.now directory.now)) }
    ensures seated { IfOk result (λ few. IfSome few (λ seats. Every (IsSeated table directory.now) seats.items)) }
{
    let start = first_place(alloc, table, &range.lo)?;
    let rows = directory.rows_from(start);
    let Some(count) = count_few(rows.clone()?, table, range) else {
        return Ok(None);
    };
    let mut seats = Vec::with_capacity(alloc, count)?;
    for (place, page) in rows.take(count) {
        let key = place.key.copy(alloc)?;
        seats.push(Seat { key, page: *page })?;
    }
    Ok(Some(seats))
}
