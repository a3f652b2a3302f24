//! What an update sets.

ghost use Rattle.std.specs.Prelude.{[], ◌∷◌, ◌≡◌, OnOk, if◌then◌else◌, slice_set};
ghost use Rattle.salt_exprs.specs.Operands.{TellsMeaning, same};
ghost use Rattle.salt_model.specs.Reaches.{in_row};
ghost use Rattle.salt_model.specs.Statements.{set_field, with_sets};

use crate::error::EvalErr;
use crate::in_row::value_in_row;
use crate::names::has_name;
use salt_ast::{Field, Set, TableDef};
use salt_model::Binding;
use salt_values::{Name, Row, TryCopy, Value};
use std::alloc::{AllocError, Global};

/// Puts a value into a column that takes it. A column behind the end of a row is none.
fn put_at(
    alloc: Global,
    takes: bool,
    number: usize,
    value: &Value,
    row: &mut Row,
) -> Result<(), AllocError>
    ensures { OnOk result (row.new ≡ (if takes then slice_set row.old number value.now else row.old)) }
{
    if takes && number < row.len() {
        let copied = value.copy(alloc)?;
        row.set(number, copied);
    }
    Ok(())
}

/// Puts a value into the columns of this name: one has it where the set was judged.
fn put(
    alloc: Global,
    columns: &[Field],
    name: &Name,
    value: &Value,
    row: &mut Row,
) -> Result<(), AllocError>
    ensures { OnOk result (row.new ≡ set_field columns.now name.now value.now row.old) }
{
    for (number, column) in columns.iter().enumerate() {
        put_at(alloc, has_name(name, column), number, value, row)?;
    }
    Ok(())
}

/// The row in which one column is set.
fn row_after_one(
    alloc: Global,
    def: &TableDef,
    vars: &[Binding],
    set: &Set,
    mut row: Row,
) -> Result<Row, EvalErr>
    ensures { TellsMeaning same (with_sets def.now (in_row def.now row vars.now) (set.now ∷ []) row) result }
{
    let columns = def.columns.as_slice();
    let value = value_in_row(alloc, columns, row.as_slice(), vars, &set.value)?;
    put(alloc, columns, &set.column, &value, &mut row)?;
    Ok(row)
}

/// The row that sets make of a row.
fn row_after_each(
    alloc: Global,
    def: &TableDef,
    vars: &[Binding],
    sets: &[Set],
    old: &Row,
) -> Result<Row, EvalErr>
    ensures { TellsMeaning same (with_sets def.now (in_row def.now old.now vars.now) sets.now old.now) result }
{
    let columns = def.columns.as_slice();
    let mut row = old.copy(alloc)?;
    for set in sets {
        let value = value_in_row(alloc, columns, old.as_slice(), vars, &set.value)?;
        put(alloc, columns, &set.column, &value, &mut row)?;
    }
    Ok(row)
}

/// The row that an update of a table makes of a row: each set's value is of the old row, and they are computed in the order written,
/// so that the first cause is the earliest set's.
pub fn row_after(
    alloc: Global,
    def: &TableDef,
    vars: &[Binding],
    sets: &[Set],
    row: Row,
) -> Result<Row, EvalErr>
    ensures { TellsMeaning same (with_sets def.now (in_row def.now row vars.now) sets.now row) result }
{
    if sets.len() == 1 {
        return row_after_one(alloc, def, vars, &sets[0], row);
    }
    row_after_each(alloc, def, vars, sets, &row)
}
