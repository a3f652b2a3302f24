//! Whether a row may stand in a table.

ghost use Rattle.std.specs.Prelude.{◌≡◌, IfOk};
ghost use Rattle.salt_eval.specs.Meets.{are_of_columns, is_of_column, meets_table};

use salt_ast::{ColType, Field};
use salt_exprs::{EvalErr, check};
use salt_schema::Schema;
use salt_values::{Row, Value};
use std::alloc::{AllocError, Global};

/// A value of the column's type, or NULL where the column may hold it.
fn is_of_column(column: &Field, value: &Value) -> bool
    ensures { result ≡ is_of_column column.now value.now }
{
    match (column.kind, value) {
        (ColType::Int, Value::Int(_)) => true,
        (ColType::Text, Value::Text(_)) => true,
        (ColType::Int, Value::Text(_)) => false,
        (ColType::Text, Value::Int(_)) => false,
        (_, Value::Null) => column.nullable,
    }
}

/// One value for each column, of its type.
fn are_of_columns(columns: &[Field], row: &[Value]) -> bool
    ensures { result ≡ are_of_columns columns.now row.now }
{
    let [column, columns @ ..] = columns else {
        return row.is_empty();
    };
    let [value, row @ ..] = row else {
        return false;
    };
    is_of_column(column, value) && are_of_columns(columns, row)
}

/// Whether a row has the types of the table of this number, and no check of the table is false of it or has a cause. Of no
/// table it is false.
pub fn meets_table(
    alloc: Global,
    schema: &Schema,
    table: u16,
    row: &Row,
) -> Result<bool, AllocError>
    ensures { IfOk result (λ meets. meets ≡ meets_table schema.now table row.now) }
{
    let Some(def) = schema.table(table) else {
        return Ok(false);
    };
    if !are_of_columns(def.columns.as_slice(), row.as_slice()) {
        return Ok(false);
    }
    match check(
        alloc,
        def.columns.as_slice(),
        def.checks.as_slice(),
        row.as_slice(),
    ) {
        Ok(()) => Ok(true),
        Err(EvalErr::Cause(_)) => Ok(false),
        Err(EvalErr::Memory) => Err(AllocError),
    }
}
