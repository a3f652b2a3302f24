//! The values of columns in a row.

ghost use Rattle.std.specs.Prelude.{◌≡◌, IfOk};
ghost use Rattle.salt_eval.specs.Cells.{AreNumbersOf, cell_at, cells_at};
ghost use Rattle.salt_exprs.specs.Operands.{datum_of};
ghost use Rattle.salt_model.specs.Eval.{Gives};
ghost use Rattle.salt_values.specs.Value.{key_of};
ghost use Rattle.salt_values.specs.declared.value.Value.{Value};

use salt_ast::Field;
use salt_exprs::{Cells, Operand, column_number};
use salt_values::{Key, Name, Row, TryCopy, Value};
use sqlite_items::Items;
use std::alloc::{AllocError, Global};

/// The numbers of columns, in the order of their names.
pub fn column_numbers(
    alloc: Global,
    columns: &[Field],
    names: &[Name],
) -> Result<Items<Option<usize>>, AllocError>
    ensures { IfOk result (λ numbers. AreNumbersOf columns.now names.now numbers) }
{
    let mut numbers = Items::new(alloc);
    for name in names {
        numbers.push(column_number(columns, name.as_slice()))?;
    }
    Ok(numbers)
}

/// The value that stands in an operand, copied where it is lent.
fn value_of(alloc: Global, operand: Operand<'_>) -> Result<Value, AllocError>
    ensures { IfOk result (λ value. (v : Value) → datum_of operand.entry ≡ Gives v → value ≡ v) }
{
    match operand {
        Operand::Lent(value) => value.copy(alloc),
        Operand::Made(value) => Ok(value),
        Operand::Holds(_) => Ok(Value::Int(0)),
    }
}

/// The value of a column in a row; 0 where there is none.
pub fn cell<R: Cells>(alloc: Global, row: &R, number: Option<usize>) -> Result<Value, AllocError>
    ensures { IfOk result (λ value. value ≡ cell_at (R.cells row.now) number) }
{
    match number {
        Some(number) => {
            let operand = row.operand(alloc, number)?;
            value_of(alloc, operand)
        }
        None => Ok(Value::Int(0)),
    }
}

/// The values of columns in a row.
pub fn cells<R: Cells>(alloc: Global, row: &R, numbers: &[Option<usize>]) -> Result<Row, AllocError>
    ensures { IfOk result (λ values. values ≡ cells_at (R.cells row.now) numbers.now) }
{
    let mut values = Items::new(alloc);
    for number in numbers {
        values.push(cell(alloc, row, *number)?)?;
    }
    Ok(values)
}

/// The key of a row: its first value; 0 where there is none.
pub fn key_in<R: Cells>(alloc: Global, row: &R) -> Result<Key, AllocError>
    ensures { IfOk result (λ key. key ≡ key_of (R.cells row.now)) }
{
    let first = row.operand(alloc, 0)?;
    value_of(alloc, first)
}
