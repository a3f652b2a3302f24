//! Rows of one table in order of their keys, as they are spelled.

ghost use Rattle.salt_loaded.specs.Loaded.{CountsRows, IsOfTable, IsRowFront, row_number};
ghost use Rattle.salt_model.specs.Tables.{Entry, no_rows};
ghost use Rattle.salt_ranges.specs.Ranges.{is_above_low, is_below_high};
ghost use Rattle.salt_values.specs.Value.{is_same_value, is_value_at_most, is_value_below};
ghost use Rattle.std.specs.Prelude.{IfOk, Some, length, not, slice_get, ℕ, ◌<◌, ◌≡◌, ◌≤◌};

use crate::among::{bytes_from, count_below, count_up_to, has_key};
use crate::order::Spot;
use crate::spelled::row_in;
use salt_values::{Key, Row};
use std::alloc::{AllocError, Global};
use std::marker::Model;

/// What a statement is done over: rows of one table, in order of their keys. Contracts see the tables that they make.
#[derive(Drop)]
pub struct Loaded {
    pub(crate) table: u16,
    pub(crate) bytes: Vec<u8>,
    pub(crate) spots: Vec<Spot>,
}

impl Model for Loaded {
    ghost use Rattle.salt_loaded.specs.Rows.{IsLoaded, tables_in};
    ghost use Rattle.salt_loaded.specs.Spots.{rows_at};
    ghost use Rattle.salt_model.specs.Tables.{Tables};

    ghost Value = { Tables };

    ghost view = { λ l. tables_in l.table (rows_at l.bytes.items l.spots.items) };

    ghost invariant = { λ l. IsLoaded l.bytes.items l.spots.items };
}

impl Loaded {
    /// No rows.
    pub fn none(alloc: Global) -> Loaded
        ensures { result ≡ no_rows }
    {
        Loaded {
            table: 0,
            bytes: Vec::new(alloc),
            spots: Vec::new(alloc),
        }
    }

    /// How many rows there are.
    pub fn count(&self) -> usize
        ensures { result ≡ length self.now.list }
    {
        self.spots.as_slice().len()
    }

    /// The number of their table.
    pub fn table(&self) -> u16
        ensures { (i : ℕ) → IsOfTable (slice_get self.now.list i) result }
    {
        self.table
    }

    /// Row `i`, made of its bytes.
    pub fn row(&self, alloc: Global, i: usize) -> Result<Row, AllocError>
        requires { i < length self.now.list }
        ensures { IfOk result (λ row. row_number self.now i ≡ Some row) }
    {
        row_in(alloc, self.row_from(i))
    }

    /// The bytes from row `i` on.
    pub(crate) fn row_from(&self, i: usize) -> &[u8]
        requires { i < length self.now.list }
        ensures { IsRowFront self.now i result.now }
    {
        bytes_from(self.bytes.as_slice(), self.spots.as_slice(), i)
    }

    /// Whether row `i` has this key.
    pub(crate) fn has_key(&self, i: usize, key: &Key) -> bool
        requires { i < length self.now.list }
        ensures { (e : Entry) → slice_get self.now.list i ≡ Some e → result ≡ is_same_value e.0.key key.now }
    {
        has_key(self.bytes.as_slice(), self.spots.as_slice(), i, key)
    }

    /// How many rows have a key below this one.
    pub(crate) fn count_below(&self, key: &Key) -> usize
        ensures counted { CountsRows (λ k. is_value_below k key.now) self.now result }
        ensures bound { result ≤ length self.now.list }
    {
        count_below(self.bytes.as_slice(), self.spots.as_slice(), key)
    }

    /// How many rows have a key that is not above this one.
    pub(crate) fn count_up_to(&self, key: &Key) -> usize
        ensures counted { CountsRows (λ k. is_value_at_most k key.now) self.now result }
        ensures bound { result ≤ length self.now.list }
    {
        count_up_to(self.bytes.as_slice(), self.spots.as_slice(), key)
    }

    /// How many rows stand before the lower end of a range.
    pub(crate) fn count_before(&self, lo: &Option<Key>) -> usize
        ensures counted { CountsRows (λ k. not (is_above_low lo.now k)) self.now result }
        ensures bound { result ≤ length self.now.list }
    {
        match lo {
            Some(lo) => self.count_below(lo),
            None => 0,
        }
    }

    /// How many rows stand before the upper end of a range, or at it.
    pub(crate) fn count_to(&self, hi: &Option<Key>) -> usize
        ensures counted { CountsRows (λ k. is_below_high hi.now k) self.now result }
        ensures bound { result ≤ length self.now.list }
    {
        match hi {
            Some(hi) => self.count_up_to(hi),
            None => self.count(),
        }
    }
}
