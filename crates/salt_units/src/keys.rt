//! Statements that set no key.

ghost use Rattle.salt_ast.specs.Judgement as judged;
ghost use Rattle.salt_units.specs.Acting.{leaves_keys};
ghost use Rattle.std.specs.List.{list_all};
ghost use Rattle.std.specs.Prelude.{not, ◌≡◌};

use salt_ast::{Field, Set, Statement, same_bytes};
use salt_schema::{Schema, columns_of};
use salt_values::Name;

fn is_key(columns: &[Field], name: &Name) -> bool
    ensures { result ≡ judged.is_key columns.now name.now }
{
    match columns {
        [first, ..] => same_bytes(name.as_slice(), first.name.as_slice()),
        [] => false,
    }
}

fn set_no_key(columns: &[Field], sets: &[Set]) -> bool
    ensures { result ≡ list_all (λ set. not (judged.is_key columns.now set.column)) sets.now }
{
    sets.iter().all(|set| !is_key(columns, &set.column))
}

/// Whether a statement sets no key.
pub fn leaves_keys(schema: &Schema, statement: &Statement) -> bool
    ensures { result ≡ leaves_keys schema.now statement.now }
{
    match statement {
        Statement::Update { table, sets, .. } => {
            set_no_key(columns_of(schema, table), sets.as_slice())
        }
        Statement::Insert { .. } => true,
        Statement::Select { .. } => true,
        Statement::SelectInto { .. } => true,
        Statement::Delete { .. } => true,
        Statement::Ensure(_) => true,
    }
}
