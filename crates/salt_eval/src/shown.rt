//! What a SELECT gathers.

ghost use Rattle.std.specs.Prelude.{◌≡◌, ◌++◌, ◌∷◌, ◌+ℤ◌, [], Ok, Some, pos};
ghost use Rattle.salt_model.specs.declared.events.Answer.TheVariants.{Cell};
ghost use Rattle.salt_values.specs.declared.value.Value.TheVariants.{Int};
ghost use Rattle.salt_values.specs.Value.{int_in};
ghost use Rattle.salt_eval.specs.Cells.{cell_at, cells_at};
ghost use Rattle.salt_eval.specs.Selects.{sum_cell};
ghost use Rattle.salt_eval.specs.Shown.{best_with, is_better};

use crate::cells::{cell, cells};
use crate::scan::Gather;
use salt_exprs::{Cells, EvalErr};
use salt_model::{Answer, Cause};
use salt_values::{Rows, Value};
use sqlite_items::Items;
use std::alloc::Global;

/// The rows.
#[derive(Drop)]
pub struct WholeRows {
    pub rows: Rows,
}

impl Gather for WholeRows {
    ghost with_row = { λ s row. Ok (record { rows = s.rows ++ row ∷ [] }) };

    fn take<R: Cells>(&mut self, alloc: Global, row: &R) -> Result<(), EvalErr> {
        self.rows.push(row.row(alloc)?)?;
        Ok(())
    }
}

/// These columns of the rows.
#[derive(Drop)]
pub struct ColumnRows {
    pub numbers: Items<Option<usize>>,
    pub rows: Rows,
}

impl Gather for ColumnRows {
    ghost with_row = { λ s row. Ok (record { numbers = s.numbers; rows = s.rows ++ cells_at row s.numbers ∷ [] }) };

    fn take<R: Cells>(&mut self, alloc: Global, row: &R) -> Result<(), EvalErr> {
        let shown = cells(alloc, row, self.numbers.as_slice())?;
        self.rows.push(shown)?;
        Ok(())
    }
}

/// How many rows there are. Past 64 bits it answers `Memory`, since a view does not bound its rows.
#[derive(Drop)]
pub struct RowCount {
    pub count: i64,
}

impl RowCount {
    /// The number of rows.
    pub fn answer(&self) -> Answer
        ensures { result ≡ Cell (Some (Int self.now.count)) }
    {
        Answer::Cell(Some(Value::Int(self.count)))
    }
}

impl Gather for RowCount {
    ghost with_row = { λ s row. Ok (record { count = s.count +ℤ pos 1 }) };

    fn take<R: Cells>(&mut self, _alloc: Global, _row: &R) -> Result<(), EvalErr> {
        match self.count.checked_add(1) {
            Some(count) => {
                self.count = count;
                Ok(())
            }
            None => Err(EvalErr::Memory),
        }
    }
}

/// The sum of a column, in which NULL counts as nothing. Past 128 bits it answers `Memory`: so many rows nothing holds.
#[derive(Drop)]
pub struct ColumnSum {
    pub number: Option<usize>,
    pub sum: i128,
}

impl ColumnSum {
    /// The sum. `Overflow` exactly where it is outside 64 bits.
    pub fn answer(&self) -> Result<Answer, Cause>
        ensures { result ≡ sum_cell self.now.sum }
    {
        match i64::try_from(self.sum) {
            Ok(sum) => Ok(Answer::Cell(Some(Value::Int(sum)))),
            Err(_) => Err(Cause::Overflow),
        }
    }
}

fn int_in(value: &Value) -> i64
    ensures { result ≡ int_in value.now }
{
    match value {
        Value::Int(number) => *number,
        Value::Text(_) => 0,
        Value::Null => 0,
    }
}

impl Gather for ColumnSum {
    ghost with_row = { λ s row. Ok (record { number = s.number; sum = s.sum +ℤ int_in (cell_at row s.number) }) };

    fn take<R: Cells>(&mut self, alloc: Global, row: &R) -> Result<(), EvalErr> {
        let value = cell(alloc, row, self.number)?;
        match self.sum.checked_add(int_in(&value) as i128) {
            Some(sum) => {
                self.sum = sum;
                Ok(())
            }
            None => Err(EvalErr::Memory),
        }
    }
}

/// The least value of a column, or the greatest, NULLs aside.
#[derive(Drop)]
pub struct ColumnBest {
    pub number: Option<usize>,
    pub is_greatest: bool,
    pub best: Option<Value>,
}

/// Whether a value comes in the place of the best one so far.
fn is_better(is_greatest: bool, value: &Value, best: &Value) -> bool
    ensures { result ≡ is_better is_greatest value.now best.now }
{
    if is_greatest {
        best < value
    } else {
        value < best
    }
}

fn best_with(is_greatest: bool, best: Option<Value>, value: Value) -> Option<Value>
    ensures { result ≡ best_with is_greatest best value }
{
    if let Value::Null = value {
        return best;
    }
    match best {
        Some(best) => {
            if is_better(is_greatest, &value, &best) {
                Some(value)
            } else {
                Some(best)
            }
        }
        None => Some(value),
    }
}

impl Gather for ColumnBest {
    ghost with_row = { λ s row. Ok (record { number = s.number; is_greatest = s.is_greatest; best = best_with s.is_greatest s.best (cell_at row s.number) }) };

    fn take<R: Cells>(&mut self, alloc: Global, row: &R) -> Result<(), EvalErr> {
        let value = cell(alloc, row, self.number)?;
        let best = self.best.take();
        self.best = best_with(self.is_greatest, best, value);
        Ok(())
    }
}
