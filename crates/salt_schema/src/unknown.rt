//! The first name in a table or statement that is not known, and the first that comes twice.

ghost use Rattle.std.specs.Prelude.{◌≡◌, [], option_and_then};
ghost use Rattle.std.specs.Option.{option_copied, option_or};
ghost use Rattle.salt_ast.specs.Judgement as judged;
ghost use Rattle.salt_ast.specs.Trees.{bound_exprs};
ghost use Rattle.salt_ast.specs.Words.{first_in};
ghost use Rattle.salt_schema.specs.Names.{scope_of, variables};

use crate::names::{Bindings, doubled_in, first_of, unknown_among, unknown_in, unknown_name};
use crate::schema::Schema;
use salt_ast::{Bound, Expr, Field, Scan, Set, Statement, TableDef, What};
use salt_values::Name;

fn unknown_columns<'a>(columns: &[Field], names: &'a [Name]) -> Option<&'a Name>
    ensures { option_copied result ≡ first_in (judged.unknown_name columns.now) names.now }
{
    for name in names {
        if let Some(name) = unknown_name(columns, name) {
            return Some(name);
        }
    }
    None
}

fn unknown_in_what<'a>(columns: &[Field], what: &'a What) -> Option<&'a Name>
    ensures { option_copied result ≡ judged.unknown_in_what columns.now what.now }
{
    match what {
        What::All => None,
        What::Columns(names) => unknown_columns(columns, names.as_slice()),
        What::Count => None,
        What::Sum(name) => unknown_name(columns, name),
        What::Min(name) => unknown_name(columns, name),
        What::Max(name) => unknown_name(columns, name),
    }
}

fn unknown_in_bound<'a>(bindings: &Bindings<'_>, bound: &'a Bound) -> Option<&'a Name>
    ensures { option_copied result ≡ first_in (judged.unknown_in_expr [] (variables bindings.now)) (bound_exprs bound.now) }
{
    match bound {
        Bound::All => None,
        Bound::Key(key) => unknown_in(&[], bindings, key),
        Bound::Between(low, high) => {
            let low = unknown_in(&[], bindings, low);
            let high = unknown_in(&[], bindings, high);
            first_of(low, high)
        }
    }
}

fn unknown_in_filter<'a>(
    columns: &[Field],
    bindings: &Bindings<'_>,
    filter: &'a Option<Expr>,
) -> Option<&'a Name>
    ensures { option_copied result ≡ option_and_then (judged.unknown_in_expr columns.now (variables bindings.now)) filter.now }
{
    match filter {
        Some(expr) => unknown_in(columns, bindings, expr),
        None => None,
    }
}

fn unknown_in_scan<'a>(
    columns: &[Field],
    bindings: &Bindings<'_>,
    scan: &'a Scan,
) -> Option<&'a Name>
    ensures { option_copied result ≡ judged.unknown_in_scan columns.now (variables bindings.now) scan.now }
{
    let bound = unknown_in_bound(bindings, &scan.bound);
    let filter = unknown_in_filter(columns, bindings, &scan.filter);
    first_of(bound, filter)
}

fn unknown_in_set<'a>(columns: &[Field], bindings: &Bindings<'_>, set: &'a Set) -> Option<&'a Name>
    ensures { option_copied result ≡ judged.unknown_in_set columns.now (variables bindings.now) set.now }
{
    let column = unknown_name(columns, &set.column);
    let value = unknown_in(columns, bindings, &set.value);
    first_of(column, value)
}

fn unknown_in_sets<'a>(
    columns: &[Field],
    bindings: &Bindings<'_>,
    sets: &'a [Set],
) -> Option<&'a Name>
    ensures { option_copied result ≡ first_in (judged.unknown_in_set columns.now (variables bindings.now)) sets.now }
{
    for set in sets {
        if let Some(name) = unknown_in_set(columns, bindings, set) {
            return Some(name);
        }
    }
    None
}

/// The name, unless it is a table's.
fn unknown_table<'a>(schema: &Schema, name: &'a Name) -> Option<&'a Name>
    ensures { option_copied result ≡ judged.unknown_table schema.now name.now }
{
    match schema.named(name) {
        Some(_) => None,
        None => Some(name),
    }
}

/// The columns of the table of this name: none where it is not known.
pub fn columns_of<'a>(schema: &'a Schema, name: &Name) -> &'a [Field]
    ensures { result.now ≡ judged.columns_of schema.now name.now }
{
    match schema.named(name) {
        Some(def) => def.columns.as_slice(),
        None => &[],
    }
}

fn unknown_in_insert<'a>(
    schema: &Schema,
    bindings: &Bindings<'_>,
    table: &'a Name,
    values: &'a [Expr],
) -> Option<&'a Name>
    ensures { option_copied result ≡ option_or (judged.unknown_table schema.now table.now)
        (first_in (judged.unknown_in_expr [] (variables bindings.now)) values.now) }
{
    let table = unknown_table(schema, table);
    let values = unknown_among(&[], bindings, values);
    first_of(table, values)
}

fn unknown_in_select<'a>(
    schema: &Schema,
    bindings: &Bindings<'_>,
    what: &'a What,
    table: &'a Name,
    scan: &'a Scan,
) -> Option<&'a Name>
    ensures { option_copied result ≡ option_or (judged.unknown_in_what (judged.columns_of schema.now table.now) what.now)
        (option_or (judged.unknown_table schema.now table.now)
        (judged.unknown_in_scan (judged.columns_of schema.now table.now) (variables bindings.now) scan.now)) }
{
    let columns = columns_of(schema, table);
    let what = unknown_in_what(columns, what);
    let scan = unknown_in_scan(columns, bindings, scan);
    let table = unknown_table(schema, table);
    first_of(what, first_of(table, scan))
}

fn unknown_in_select_into<'a>(
    schema: &Schema,
    bindings: &Bindings<'_>,
    column: &'a Name,
    var: &'a Name,
    table: &'a Name,
    key: &'a Expr,
) -> Option<&'a Name>
    ensures { option_copied result ≡ option_or (judged.unknown_name (judged.columns_of schema.now table.now) column.now)
        (option_or (judged.unknown_name bindings.now.vars.now var.now)
        (option_or (judged.unknown_table schema.now table.now) (judged.unknown_in_expr [] (variables bindings.now) key.now))) }
{
    let column = unknown_name(columns_of(schema, table), column);
    let var = unknown_name(bindings.vars, var);
    let table = unknown_table(schema, table);
    let key = unknown_in(&[], bindings, key);
    first_of(column, first_of(var, first_of(table, key)))
}

fn unknown_in_update<'a>(
    schema: &Schema,
    bindings: &Bindings<'_>,
    table: &'a Name,
    sets: &'a [Set],
    scan: &'a Scan,
) -> Option<&'a Name>
    ensures { option_copied result ≡ option_or (judged.unknown_table schema.now table.now)
        (option_or (first_in (judged.unknown_in_set (judged.columns_of schema.now table.now) (variables bindings.now)) sets.now)
        (judged.unknown_in_scan (judged.columns_of schema.now table.now) (variables bindings.now) scan.now)) }
{
    let columns = columns_of(schema, table);
    let sets = unknown_in_sets(columns, bindings, sets);
    let scan = unknown_in_scan(columns, bindings, scan);
    let table = unknown_table(schema, table);
    first_of(table, first_of(sets, scan))
}

fn unknown_in_delete<'a>(
    schema: &Schema,
    bindings: &Bindings<'_>,
    table: &'a Name,
    scan: &'a Scan,
) -> Option<&'a Name>
    ensures { option_copied result ≡ option_or (judged.unknown_table schema.now table.now)
        (judged.unknown_in_scan (judged.columns_of schema.now table.now) (variables bindings.now) scan.now) }
{
    let scan = unknown_in_scan(columns_of(schema, table), bindings, scan);
    let table = unknown_table(schema, table);
    first_of(table, scan)
}

/// The first name in a statement that is not known.
pub fn unknown_in_statement<'a>(
    schema: &Schema,
    bindings: &Bindings<'_>,
    statement: &'a Statement,
) -> Option<&'a Name>
    ensures { option_copied result ≡ judged.unknown_in_statement schema.now (scope_of bindings.now) statement.now }
{
    match statement {
        Statement::Insert { table, values } => {
            unknown_in_insert(schema, bindings, table, values.as_slice())
        }
        Statement::Select { what, table, scan } => {
            unknown_in_select(schema, bindings, what, table, scan)
        }
        Statement::SelectInto {
            column,
            var,
            table,
            key,
        } => unknown_in_select_into(schema, bindings, column, var, table, key),
        Statement::Update { table, sets, scan } => {
            unknown_in_update(schema, bindings, table, sets.as_slice(), scan)
        }
        Statement::Delete { table, scan } => unknown_in_delete(schema, bindings, table, scan),
        Statement::Ensure(condition) => unknown_in(&[], bindings, condition),
    }
}

/// The first column that a statement changes twice.
pub fn doubled_in_statement(statement: &Statement) -> Option<&Name>
    ensures { option_copied result ≡ judged.doubled_in_statement statement.now }
{
    match statement {
        Statement::Update { sets, .. } => doubled_in(&[], sets.as_slice()),
        Statement::Insert { .. } => None,
        Statement::Select { .. } => None,
        Statement::SelectInto { .. } => None,
        Statement::Delete { .. } => None,
        Statement::Ensure(_) => None,
    }
}

/// The first name in a table's checks that is not a column's.
pub fn unknown_in_table(def: &TableDef) -> Option<&Name>
    ensures { option_copied result ≡ judged.unknown_in_table def.now }
{
    unknown_among(
        def.columns.as_slice(),
        &Bindings::none(),
        def.checks.as_slice(),
    )
}

/// The name of a table where there is one of it, or its first column that has an earlier one's name.
pub fn doubled_in_table<'a>(schema: &Schema, def: &'a TableDef) -> Option<&'a Name>
    ensures { option_copied result ≡ judged.doubled_in_table schema.now def.now }
{
    match schema.named(&def.name) {
        Some(_) => Some(&def.name),
        None => doubled_in(&[], def.columns.as_slice()),
    }
}
