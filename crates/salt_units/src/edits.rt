//! A unit's changes, looked at.

ghost use Rattle.std.specs.Prelude.{◌≡◌, ◌≤◌, IfOk, length, slice_get};
ghost use Rattle.std.specs.Cow.{cow_slice_items};
ghost use Rattle.std.specs.Option.{option_copied};
ghost use Rattle.law_states.specs.Overlays.{AreInOrder, edits_of};
ghost use Rattle.salt_model.specs.Tables.{changed_at, place, place_cmp};
ghost use Rattle.salt_ranges.specs.Ranges.{is_below_high};
ghost use Rattle.salt_units.specs.Edited.{IsPlaceOf, is_change_at, is_passed, is_to_end};
ghost use Rattle.salt_values.specs.Value.{key_of, value_cmp};
ghost use Rattle.salt_units.specs.Putting.{ArePassed, is_before};

use salt_exprs::{Cells, Operand};
use salt_ranges::{KeyRange, is_above_low};
use salt_values::{Change, Key, TryCopy, Value};
use std::alloc::{AllocError, Global};
use std::borrow::CowSlice;
use std::cmp::Ordering;
use std::collections::VecDeque;

/// A change's place against another one.
fn place_cmp(change: &Change, table: u16, key: &Key) -> Ordering
    ensures { result ≡ place_cmp (changed_at change.now) (place table key.now) }
{
    change.table.cmp(&table).then(change.key.cmp(key))
}

fn is_before(change: &Change, table: u16, key: &Key) -> bool
    ensures { result ≡ is_before (place table key.now) (changed_at change.now) }
{
    place_cmp(change, table, key).is_lt()
}

/// How many changes come before this place.
pub fn count_before(changes: &VecDeque<Change>, table: u16, key: &Key) -> usize
    requires { AreInOrder (edits_of changes.now.items) }
    ensures counted { ArePassed (is_before (place table key.now)) changes.now.items result }
    ensures bound { result ≤ length changes.now.items }
{
    changes.partition_point(|change| is_before(change, table, key))
}

/// Whether a change is at this place.
pub fn is_change_at(change: &Change, table: u16, key: &Key) -> bool
    ensures { result ≡ is_change_at (place table key.now) change.now }
{
    table == change.table && *key == change.key
}

/// The change at a place among them, if they are so many.
fn at(changes: &VecDeque<Change>, index: usize) -> Option<&Change>
    ensures { option_copied result ≡ slice_get changes.now.items index }
{
    changes.get(index)
}

/// The place among the changes of that of a key, if there is one.
pub fn place_of(changes: &VecDeque<Change>, table: u16, key: &Key) -> Option<usize>
    requires { AreInOrder (edits_of changes.now.items) }
    ensures { IsPlaceOf (place table key.now) changes.now.items result }
{
    let count = count_before(changes, table, key);
    match at(changes, count) {
        Some(change) => {
            if is_change_at(change, table, key) {
                Some(count)
            } else {
                None
            }
        }
        None => None,
    }
}

/// Whether a change comes before all those in a range.
fn is_passed(change: &Change, table: u16, range: &KeyRange) -> bool
    ensures { result ≡ is_passed table range.now (changed_at change.now) }
{
    if table == change.table {
        !is_above_low(&range.lo, &change.key)
    } else {
        change.table < table
    }
}

/// How many changes come before all those in a range.
pub fn count_passed(changes: &VecDeque<Change>, table: u16, range: &KeyRange) -> usize
    requires { AreInOrder (edits_of changes.now.items) }
    ensures counted { ArePassed (is_passed table range.now) changes.now.items result }
    ensures bound { result ≤ length changes.now.items }
{
    changes.partition_point(|change| is_passed(change, table, range))
}

/// Whether the upper end leaves the key inside.
fn is_below_high(hi: &Option<Key>, key: &Key) -> bool
    ensures { result ≡ is_below_high hi.now key.now }
{
    match hi {
        Some(hi) => key <= hi,
        None => true,
    }
}

/// Whether a change does not come behind all those in a range.
fn is_within(change: &Change, table: u16, range: &KeyRange) -> bool
    ensures { result ≡ is_to_end table range.now (changed_at change.now) }
{
    if table == change.table {
        is_below_high(&range.hi, &change.key)
    } else {
        change.table < table
    }
}

/// How many changes do not come behind all those in a range.
pub fn count_within(changes: &VecDeque<Change>, table: u16, range: &KeyRange) -> usize
    requires { AreInOrder (edits_of changes.now.items) }
    ensures counted { ArePassed (is_to_end table range.now) changes.now.items result }
    ensures bound { result ≤ length changes.now.items }
{
    changes.partition_point(|change| is_within(change, table, range))
}

/// A copy of changes, in their order.
fn copied(alloc: Global, changes: &VecDeque<Change>) -> Result<Vec<Change>, AllocError>
    ensures { IfOk result (λ made. made.items ≡ changes.now.items) }
{
    let mut made = Vec::with_capacity(alloc, changes.len())?;
    for at in 0..changes.len() {
        made.push(changes[at].copy(alloc)?)?;
    }
    Ok(made)
}

/// Changes, lent where they stand in one piece, and copied where they do not.
pub fn in_one_piece(
    alloc: Global,
    changes: &VecDeque<Change>,
) -> Result<CowSlice<'_, Change, Global>, AllocError>
    ensures { IfOk result (λ lent. cow_slice_items lent ≡ changes.now.items) }
{
    let (front, back) = changes.as_slices();
    if back.is_empty() {
        return Ok(CowSlice::Borrowed(front));
    }
    Ok(CowSlice::Owned(copied(alloc, changes)?))
}

/// The key of a row against another one.
pub fn key_cmp<R: Cells>(alloc: Global, row: &R, key: &Key) -> Result<Ordering, AllocError>
    ensures { IfOk result (λ order. order ≡ value_cmp (key_of (R.cells row.now)) key.now) }
{
    match row.operand(alloc, 0)? {
        Operand::Lent(first) => Ok(first.cmp(key)),
        Operand::Made(first) => Ok(first.cmp(key)),
        Operand::Holds(_) => Ok(Value::Int(0).cmp(key)),
    }
}
