//! Rows of a range, in any order, as they are spelled.

ghost use Rattle.salt_bytes.specs.Values.{take_row};
ghost use Rattle.salt_loaded.specs.Keys.{key_told};
ghost use Rattle.salt_loaded.specs.Rows.{are_apart, row_within, tables_in, with_rows};
ghost use Rattle.salt_loaded.specs.Spots.{row_in};
ghost use Rattle.salt_ranges.specs.Ranges.{is_above_low, is_below_high};
ghost use Rattle.salt_values.specs.Value.{key_of};
ghost use Rattle.salt_values.specs.declared.value.Value.{Value};
ghost use Rattle.std.specs.Prelude.{IfSome, List, None, OnOk, Some, [], false, length, true, ◌∷◌, ◌≡◌};

use crate::among::{have_twins, sort};
use crate::key::{KeyIn, key_cmp, key_in};
use crate::loaded::Loaded;
use crate::order::{Spot, spot_of};
use salt_ranges::KeyRange;
use salt_values::Key;
use std::alloc::{AllocError, Global};
use std::marker::Model;

/// Rows of one table, in any order. Contracts see the rows.
#[derive(Drop)]
pub struct Loading {
    table: u16,
    bytes: Vec<u8>,
    spots: Vec<Spot>,
}

impl Model for Loading {
    ghost use Rattle.salt_loaded.specs.Rows.{RowsOf};
    ghost use Rattle.salt_loaded.specs.Spots.{AreSpots, rows_at};

    ghost Value = { RowsOf };

    ghost view = { λ l. record { table = l.table; rows = rows_at l.bytes.items l.spots.items } };

    ghost invariant = { λ l. AreSpots l.bytes.items l.spots.items };
}

/// Whether the lower end leaves a key inside.
#[inline(always)]
fn is_above_low(lo: &Option<Key>, key: &KeyIn<'_>) -> bool
    ensures { result ≡ is_above_low lo.now (key_told key.now) }
{
    match lo {
        Some(lo) => !key_cmp(key, lo).is_lt(),
        None => true,
    }
}

/// Whether the upper end leaves a key inside.
#[inline(always)]
fn is_below_high(hi: &Option<Key>, key: &KeyIn<'_>) -> bool
    ensures { result ≡ is_below_high hi.now (key_told key.now) }
{
    match hi {
        Some(hi) => !key_cmp(key, hi).is_gt(),
        None => true,
    }
}

impl Loading {
    /// No rows of this table.
    pub fn new(alloc: Global, table: u16) -> Loading
        ensures { result ≡ record { table = table; rows = [] } }
    {
        Loading {
            table,
            bytes: Vec::new(alloc),
            spots: Vec::new(alloc),
        }
    }

    /// The number of the table.
    pub fn table(&self) -> u16
        ensures { result ≡ self.now.table }
    {
        self.table
    }

    /// How many rows there are.
    pub fn count(&self) -> usize
        ensures { result ≡ length self.now.rows }
    {
        self.spots.as_slice().len()
    }

    /// One row more, as it is spelled. Past 4 GiB there is no memory for more. After an error it is not used again.
    pub fn push(&mut self, row: &[u8]) -> Result<(), AllocError>
        requires { (r : List Value) × take_row true row.now ≡ Some (r, []) }
        ensures { (r : List Value) → take_row true row.now ≡ Some (r, []) → OnOk result (self.new ≡ with_rows (r ∷ []) self.old) }
    {
        let key = key_in(row);
        self.push_keyed(&key, row)
    }

    /// One row more, of which the key was read.
    fn push_keyed(&mut self, key: &KeyIn<'_>, row: &[u8]) -> Result<(), AllocError>
        requires spelled { (r : List Value) × take_row true row.now ≡ Some (r, []) }
        requires key { key_told key.now ≡ key_of (row_in row.now) }
        ensures { (r : List Value) → take_row true row.now ≡ Some (r, []) → OnOk result (self.new ≡ with_rows (r ∷ []) self.old) }
    {
        let at = self.bytes.as_slice().len();
        if u32::MAX as usize <= at {
            return Err(AllocError);
        }
        self.bytes.extend_from_slice(row)?;
        self.spots.push(spot_of(key, at as u32))?;
        Ok(())
    }

    /// One row more, as it is spelled, where its key is in the range.
    pub fn push_within(&mut self, range: &KeyRange, row: &[u8]) -> Result<(), AllocError>
        requires { (r : List Value) × take_row true row.now ≡ Some (r, []) }
        ensures { (r : List Value) → take_row true row.now ≡ Some (r, []) → OnOk result (self.new ≡ with_rows (row_within range.now r) self.old) }
    {
        let key = key_in(row);
        if is_above_low(&range.lo, &key) && is_below_high(&range.hi, &key) {
            self.push_keyed(&key, row)
        } else {
            Ok(())
        }
    }

    /// The rows in order of their keys; `None` exactly where two have the same.
    pub fn sorted(self) -> Option<Loaded>
        ensures rows { IfSome result (λ loaded. loaded ≡ tables_in self.table self.rows) }
        ensures apart { IfSome result (λ loaded. are_apart self.rows ≡ true) }
        ensures twins { result ≡ None → are_apart self.rows ≡ false }
    {
        let Loading {
            table,
            bytes,
            mut spots,
        } = self;
        sort(bytes.as_slice(), &mut spots);
        if have_twins(bytes.as_slice(), spots.as_slice()) {
            return None;
        }
        Some(Loaded {
            table,
            bytes,
            spots,
        })
    }
}
