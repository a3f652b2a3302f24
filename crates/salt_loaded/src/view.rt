//! The view of rows that were loaded.

ghost use Rattle.std.proofs.Props.{props};
ghost use Rattle.std.specs.Prelude.{length, ◌≡◌, ◌≤◌};

use crate::loaded::Loaded;
use crate::spelled::{column_in, value_in};
use salt_eval::{RowView, ViewErr};
use salt_exprs::{Cells, Operand};
use salt_ranges::KeyRange;
use salt_values::{Key, Row, Value};
use sqlite_items::Items;
use std::alloc::{AllocError, Global};

/// Shows rows that were loaded, of which only what is asked for is made. It has no faults.
#[derive(Drop)]
pub struct LoadedView<'a> {
    rows: &'a Loaded,
    // the number of the row at which it stands
    at: usize,
    // the rows from this number on are to come,
    next: usize,
    // up to this one
    end: usize,
    ghost within: { end ≤ length rows.now.list } by { Prim.hlevel props },
}

impl<'a> LoadedView<'a> {
    ghost use Rattle.salt_loaded.specs.Shown.{shown_by};

    /// The view of these rows.
    pub fn new(rows: &'a Loaded) -> LoadedView<'a>
        ensures { shown_by result ≡ rows.now }
    {
        LoadedView {
            rows,
            at: 0,
            next: 0,
            end: 0,
        }
    }
}

impl<'a> Cells for LoadedView<'a> {
    ghost use Rattle.salt_loaded.specs.Shown.{row_at_number};

    ghost cells = { λ v. row_at_number v.rows.now v.at };

    fn operand<'r>(&'r self, alloc: Global, number: usize) -> Result<Operand<'r>, AllocError> {
        if self.rows.count() <= self.at {
            return Ok(Operand::Made(Value::Int(0)));
        }
        match column_in(self.rows.row_from(self.at), number) {
            Some(bytes) => Ok(Operand::Made(value_in(alloc, bytes)?)),
            None => Ok(Operand::Made(Value::Int(0))),
        }
    }

    fn row(&self, alloc: Global) -> Result<Row, AllocError> {
        if self.rows.count() <= self.at {
            return Ok(Items::new(alloc));
        }
        self.rows.row(alloc, self.at)
    }
}

impl<'a> RowView for LoadedView<'a> {
    ghost use Rattle.salt_loaded.specs.Shown.{rows_between, shown_by};

    ghost tables = { shown_by };

    ghost Source = { Unit {0} };

    ghost shown_from = { λ _. tt };

    ghost faults = { λ _. 0 };

    ghost coming = { λ v. rows_between v.rows.now v.next v.end };

    fn find(&mut self, table: u16, key: &Key) -> Result<bool, ViewErr> {
        if table != self.rows.table() {
            return Ok(false);
        }
        self.at = self.rows.count_below(key);
        if self.at < self.rows.count() {
            Ok(self.rows.has_key(self.at, key))
        } else {
            Ok(false)
        }
    }

    fn start(&mut self, table: u16, range: &KeyRange) -> Result<(), ViewErr> {
        if table != self.rows.table() {
            self.next = 0;
            self.end = 0;
            return Ok(());
        }
        self.next = self.rows.count_before(&range.lo);
        self.end = self.rows.count_to(&range.hi);
        Ok(())
    }

    fn step(&mut self) -> Result<bool, ViewErr> {
        if self.next < self.end {
            self.at = self.next;
            self.next += 1;
            Ok(true)
        } else {
            Ok(false)
        }
    }
}
