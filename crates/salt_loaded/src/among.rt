//! Spots of rows among bytes, put in order and searched.

ghost use Rattle.salt_bytes.specs.Values.{take_row};
ghost use Rattle.salt_loaded.specs.Order.{spot_against, spot_order};
ghost use Rattle.salt_loaded.specs.Rows.{IsLoaded, have_twins};
ghost use Rattle.salt_loaded.specs.Spots.{AreSpots, rows_at};
ghost use Rattle.salt_values.specs.Value.{is_same_value, is_value_at_most, is_value_below, key_of};
ghost use Rattle.salt_values.specs.declared.value.Value.{Value};
ghost use Rattle.std.specs.List.Sorted.{IsPartitionPoint, IsPermutation, IsSorted};
ghost use Rattle.std.specs.Ordering.{is_gt, is_lt};
ghost use Rattle.std.specs.Prelude.{List, Some, false, length, not, slice_get, true, ℕ, ◌<◌, ◌≡◌, ◌≤◌};

use crate::order::{Spot, spot_against, spot_cmp};
use salt_values::Key;
use std::cmp::Ordering;

/// Puts spots in the order of the keys of their rows.
pub fn sort(bytes: &[u8], spots: &mut Vec<Spot>)
    ensures permutation { IsPermutation spots.old.items spots.new.items }
    ensures sorted { IsSorted (spot_order bytes.now) spots.new.items }
{
    spots.sort_unstable_by(
        |a: &Spot, b: &Spot| -> Ordering
            ensures { result ≡ spot_order bytes.entry.now a.now b.now }
        { spot_cmp(bytes, a, b) },
    )
}

/// Whether two rows that stand one behind the other have the same key.
pub fn have_twins(bytes: &[u8], spots: &[Spot]) -> bool
    requires { AreSpots bytes.now spots.now }
    ensures { result ≡ have_twins (rows_at bytes.now spots.now) }
{
    for i in 1..spots.len() {
        if spot_cmp(bytes, &spots[i - 1], &spots[i]).is_eq() {
            return true;
        }
    }
    false
}

/// How many rows have a key below this one.
pub fn count_below(bytes: &[u8], spots: &[Spot], key: &Key) -> usize
    requires { IsLoaded bytes.now spots.now }
    ensures counted { IsPartitionPoint (λ r. is_value_below (key_of r) key.now ≡ true) (λ r. is_value_below (key_of r) key.now ≡ false) (rows_at bytes.now spots.now) result }
    ensures bound { result ≤ length spots.now }
{
    spots.partition_point(
        |spot: &Spot| -> bool
            ensures { result ≡ is_lt (spot_against bytes.entry.now spot.now key.entry.now) }
        { spot_against(bytes, spot, key).is_lt() },
    )
}

/// How many rows have a key that is not above this one.
pub fn count_up_to(bytes: &[u8], spots: &[Spot], key: &Key) -> usize
    requires { IsLoaded bytes.now spots.now }
    ensures counted { IsPartitionPoint (λ r. is_value_at_most (key_of r) key.now ≡ true) (λ r. is_value_at_most (key_of r) key.now ≡ false) (rows_at bytes.now spots.now) result }
    ensures bound { result ≤ length spots.now }
{
    spots.partition_point(
        |spot: &Spot| -> bool
            ensures { result ≡ not (is_gt (spot_against bytes.entry.now spot.now key.entry.now)) }
        { !spot_against(bytes, spot, key).is_gt() },
    )
}

/// Whether a row has this key.
pub fn has_key(bytes: &[u8], spots: &[Spot], i: usize, key: &Key) -> bool
    requires spots { AreSpots bytes.now spots.now }
    requires within { i < length spots.now }
    ensures { (row : List Value) → slice_get (rows_at bytes.now spots.now) i ≡ Some row → result ≡ is_same_value (key_of row) key.now }
{
    spot_against(bytes, &spots[i], key).is_eq()
}

/// The bytes from a row on.
pub fn bytes_from<'a>(bytes: &'a [u8], spots: &[Spot], i: usize) -> &'a [u8]
    requires spots { AreSpots bytes.now spots.now }
    requires within { i < length spots.now }
    ensures { (row : List Value) × (rest : List ℕ) × (slice_get (rows_at bytes.now spots.now) i ≡ Some row) × (take_row true result.now ≡ Some (row, rest)) }
{
    let at = spots[i].at as usize;
    &bytes[at..]
}
