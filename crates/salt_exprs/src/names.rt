//! Names of columns and variables, found.

ghost use Rattle.std.specs.Prelude.{◌≡◌, find, option_and_then, slice_get};
ghost use Rattle.std.specs.List.{position_from};
ghost use Rattle.std.specs.Option.{option_copied};
ghost use Rattle.salt_model.specs.Eval.{value_named};
ghost use Rattle.salt_exprs.specs.Names.{IsNumberOf, has_name, is_named};

use salt_ast::{Field, same_bytes};
use salt_model::Binding;
use salt_values::{Name, Value};
use sqlite_items::at;

fn position_of(columns: &[Field], name: &[u8]) -> Option<usize>
    ensures { result ≡ position_from (has_name name.now) 0 columns.now }
{
    columns
        .iter()
        .position(|column| same_bytes(name, column.name.as_slice()))
}

/// The number, from 0, of the first column of this name: none where there is no such column.
pub fn column_number(columns: &[Field], name: &[u8]) -> Option<usize>
    ensures { IsNumberOf columns.now name.now result }
{
    position_of(columns, name)
}

fn binding_of<'a>(vars: &'a [Binding], name: &[u8]) -> Option<&'a Binding>
    ensures { option_copied result ≡ find (is_named name.now) vars.now }
{
    vars.iter()
        .find(|binding| same_bytes(name, binding.name.as_slice()))
}

/// The value of the variable of this name.
pub fn variable_value<'a>(vars: &'a [Binding], name: &[u8]) -> Option<&'a Value>
    ensures { option_copied result ≡ value_named name.now vars.now }
{
    match binding_of(vars, name) {
        Some(binding) => Some(&binding.value),
        None => None,
    }
}

/// Whether a column has this name.
pub fn has_name(name: &Name, column: &Field) -> bool
    ensures { result ≡ has_name name.now column.now }
{
    same_bytes(name.as_slice(), column.name.as_slice())
}

/// The value in the column of this number: none where there is no such column, or the row ends before it. The definitions
/// count none as the number 0.
pub fn cell(row: &[Value], number: Option<usize>) -> Option<&Value>
    ensures { option_copied result ≡ option_and_then (slice_get row.now) number }
{
    match number {
        Some(number) => at(row, number),
        None => None,
    }
}
