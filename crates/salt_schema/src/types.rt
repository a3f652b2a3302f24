//! What is asked of types in tables and statements.

ghost use Rattle.std.specs.Prelude.{◌≡◌, ◌&&◌, [], not};
ghost use Rattle.std.specs.List.{list_all};
ghost use Rattle.salt_ast.specs.Judgement as judged;
ghost use Rattle.salt_ast.specs.Trees.{bound_exprs};
ghost use Rattle.salt_schema.specs.Names.{scope_of, variables};

use crate::kinds::{gives_truth, gives_type, is_nullable, same_types, takes, type_named};
use crate::names::{Bindings, field_named, is_same_name};
use crate::schema::Schema;
use crate::unknown::columns_of;
use salt_ast::{Bound, ColType, Expr, Field, Scan, Set, Statement, TableDef, What};
use salt_values::Name;

/// The type of the key, which is the first column.
fn key_type(columns: &[Field]) -> Option<ColType>
    ensures { result ≡ judged.key_type columns.now }
{
    let [key, ..] = columns else {
        return None;
    };
    Some(key.kind)
}

fn is_key(columns: &[Field], name: &Name) -> bool
    ensures { result ≡ judged.is_key columns.now name.now }
{
    let [key, ..] = columns else {
        return false;
    };
    is_same_name(name, &key.name)
}

/// Whether an expression gives a key.
fn gives_key(columns: &[Field], bindings: &Bindings<'_>, expr: &Expr) -> bool
    ensures { result ≡ judged.gives_type [] (variables bindings.now) (judged.key_type columns.now) expr.now }
{
    gives_type(&[], bindings, key_type(columns), expr)
}

/// Whether each column takes what its value gives.
fn are_row(columns: &[Field], bindings: &Bindings<'_>, values: &[Expr]) -> bool
    ensures { result ≡ judged.are_row columns.now (variables bindings.now) values.now }
{
    if columns.len() != values.len() {
        return false;
    }
    for (at, value) in values.iter().enumerate() {
        if !takes(&[], bindings, &columns[at], value) {
            return false;
        }
    }
    true
}

/// Whether a sum is one of numbers.
fn is_typed_what(columns: &[Field], what: &What) -> bool
    ensures { result ≡ judged.is_typed_what columns.now what.now }
{
    match what {
        What::Sum(name) => same_types(Some(ColType::Int), type_named(columns, name)),
        What::All => true,
        What::Columns(_) => true,
        What::Count => true,
        What::Min(_) => true,
        What::Max(_) => true,
    }
}

fn is_typed_bound(columns: &[Field], bindings: &Bindings<'_>, bound: &Bound) -> bool
    ensures { result ≡ list_all (judged.gives_type [] (variables bindings.now) (judged.key_type columns.now)) (bound_exprs bound.now) }
{
    match bound {
        Bound::All => true,
        Bound::Key(key) => gives_key(columns, bindings, key),
        Bound::Between(low, high) => {
            gives_key(columns, bindings, low) && gives_key(columns, bindings, high)
        }
    }
}

fn is_typed_filter(columns: &[Field], bindings: &Bindings<'_>, filter: &Option<Expr>) -> bool
    ensures { result ≡ judged.is_typed_filter columns.now (variables bindings.now) filter.now }
{
    match filter {
        Some(expr) => gives_truth(columns, bindings, expr),
        None => true,
    }
}

fn is_typed_scan(columns: &[Field], bindings: &Bindings<'_>, scan: &Scan) -> bool
    ensures { result ≡ judged.is_typed_scan columns.now (variables bindings.now) scan.now }
{
    is_typed_bound(columns, bindings, &scan.bound)
        && is_typed_filter(columns, bindings, &scan.filter)
}

/// Whether a column that is not the key takes what it is set to.
fn is_typed_set(columns: &[Field], bindings: &Bindings<'_>, set: &Set) -> bool
    ensures { result ≡ judged.is_typed_set columns.now (variables bindings.now) set.now }
{
    if is_key(columns, &set.column) {
        return false;
    }
    match field_named(columns, &set.column) {
        Some(field) => takes(columns, bindings, field, &set.value),
        None => false,
    }
}

fn are_typed_sets(columns: &[Field], bindings: &Bindings<'_>, sets: &[Set]) -> bool
    ensures { result ≡ list_all (judged.is_typed_set columns.now (variables bindings.now)) sets.now }
{
    sets.iter().all(|set| is_typed_set(columns, bindings, set))
}

/// Whether a column, which may not hold NULL, is of the variable's type, and the key is one.
fn is_typed_into(
    columns: &[Field],
    bindings: &Bindings<'_>,
    column: &Name,
    var: &Name,
    key: &Expr,
) -> bool
    ensures { result ≡ (judged.same_types (judged.type_named columns.now column.now) (judged.type_named bindings.now.vars.now var.now)
        && not (judged.is_nullable columns.now column.now)
        && judged.gives_type [] (variables bindings.now) (judged.key_type columns.now) key.now) }
{
    same_types(type_named(columns, column), type_named(bindings.vars, var))
        && !is_nullable(columns, column)
        && gives_key(columns, bindings, key)
}

/// Whether the types of a statement are right, where each name is known.
pub fn is_typed_statement(schema: &Schema, bindings: &Bindings<'_>, statement: &Statement) -> bool
    ensures { result ≡ judged.is_typed_statement schema.now (scope_of bindings.now) statement.now }
{
    match statement {
        Statement::Insert { table, values } => {
            are_row(columns_of(schema, table), bindings, values.as_slice())
        }
        Statement::Select { what, table, scan } => {
            let columns = columns_of(schema, table);
            is_typed_what(columns, what) && is_typed_scan(columns, bindings, scan)
        }
        Statement::SelectInto {
            column,
            var,
            table,
            key,
        } => is_typed_into(columns_of(schema, table), bindings, column, var, key),
        Statement::Update { table, sets, scan } => {
            let columns = columns_of(schema, table);
            are_typed_sets(columns, bindings, sets.as_slice())
                && is_typed_scan(columns, bindings, scan)
        }
        Statement::Delete { table, scan } => {
            is_typed_scan(columns_of(schema, table), bindings, scan)
        }
        Statement::Ensure(condition) => gives_truth(&[], bindings, condition),
    }
}

fn are_truths(columns: &[Field], bindings: &Bindings<'_>, exprs: &[Expr]) -> bool
    ensures { result ≡ list_all (judged.gives_truth columns.now (variables bindings.now)) exprs.now }
{
    exprs
        .iter()
        .all(|expr| gives_truth(columns, bindings, expr))
}

/// Whether each check of a table gives a truth value.
pub fn is_typed_table(def: &TableDef) -> bool
    ensures { result ≡ judged.is_typed_table def.now }
{
    are_truths(
        def.columns.as_slice(),
        &Bindings::none(),
        def.checks.as_slice(),
    )
}
