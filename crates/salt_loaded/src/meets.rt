//! Whether rows that were loaded meet their table.

ghost use Rattle.salt_bytes.specs.Taking.{take_each};
ghost use Rattle.salt_bytes.specs.Values.{take_row, take_value};
ghost use Rattle.salt_eval.specs.Meets.{are_of_columns, is_of_column, meets_table};
ghost use Rattle.salt_loaded.specs.Meets.{all_meet};
ghost use Rattle.salt_values.specs.declared.value.Value.{Value};
ghost use Rattle.std.specs.Prelude.{IfOk, List, Some, length, true, ℕ, ◌≡◌};

use crate::loaded::Loaded;
use crate::spelled::{behind_value, row_in};
use salt_ast::{ColType, Field};
use salt_eval::meets_table;
use salt_schema::Schema;
use std::alloc::{AllocError, Global};

/// Whether the value that is spelled at the front of bytes is one of the column's type, or NULL where the column may hold it.
fn is_of_column(column: &Field, bytes: &[u8]) -> bool
    ensures { (value : Value) (rest : List ℕ) → take_value true bytes.now ≡ Some (value, rest) → result ≡ is_of_column column.now value }
{
    match (bytes, column.kind) {
        ([0, ..], _) => column.nullable,
        ([1, ..], ColType::Int) => true,
        ([2, ..], ColType::Text) => true,
        (_, _) => false,
    }
}

/// Whether one value for each column, of its type, is spelled at the front of bytes.
fn are_of_columns(columns: &[Field], bytes: &[u8]) -> bool
    ensures { (values : List Value) (rest : List ℕ) → take_each (take_value true) (length columns.now) bytes.now ≡ Some (values, rest)
        → result ≡ are_of_columns columns.now values }
{
    let [column, columns @ ..] = columns else {
        return true;
    };
    let Some(behind) = behind_value(bytes) else {
        return false;
    };
    is_of_column(column, bytes) && are_of_columns(columns, behind)
}

/// Whether the row that is spelled at the front of bytes has one value for each column, of its type.
fn has_columns(columns: &[Field], row: &[u8]) -> bool
    ensures { (r : List Value) (rest : List ℕ) → take_row true row.now ≡ Some (r, rest) → result ≡ are_of_columns columns.now r }
{
    let [count, values @ ..] = row else {
        return false;
    };
    *count as usize == columns.len() && are_of_columns(columns, values)
}

/// Whether the row that is spelled at the front of bytes meets the table of this number. It is made only for the checks of its table.
fn row_meets(alloc: Global, schema: &Schema, table: u16, row: &[u8]) -> Result<bool, AllocError>
    ensures { (r : List Value) (rest : List ℕ) → take_row true row.now ≡ Some (r, rest) → IfOk result (λ meets. meets ≡ meets_table schema.now table r) }
{
    let Some(def) = schema.table(table) else {
        return Ok(false);
    };
    if def.checks.as_slice().is_empty() {
        return Ok(has_columns(def.columns.as_slice(), row));
    }
    let made = row_in(alloc, row)?;
    meets_table(alloc, schema, table, &made)
}

impl Loaded {
    /// Whether each row meets its table. Rows are made only for the checks of their table.
    pub fn meet(&self, alloc: Global, schema: &Schema) -> Result<bool, AllocError>
        ensures { IfOk result (λ meet. meet ≡ all_meet schema.now self.now) }
    {
        for i in 0..self.count() {
            if !row_meets(alloc, schema, self.table(), self.row_from(i))? {
                return Ok(false);
            }
        }
        Ok(true)
    }
}
