//! What a statement does.

ghost use Rattle.std.specs.Prelude.{◌≡◌, ℕ, IfOk, List};
ghost use Rattle.salt_ast.specs.declared.trees.Statement.TheVariants.{Delete, Insert, Select, SelectInto, Update};
ghost use Rattle.salt_model.specs.Statements.{outcome_of};
ghost use Rattle.salt_eval.specs.Effects.{IsEffect, attempted, ensured, table_effect};
ghost use Rattle.salt_eval.specs.Scans.{CountsFaultsOf, GivesMeant, IsKeyed};
ghost use Rattle.salt_eval.specs.Views.{CountsFaults};

use crate::cells::cell;
use crate::changed::{Removals, Updates};
use crate::error::StatementErr;
use crate::reaches::{range_of, table_in};
use crate::scan::{key_of, scan};
use crate::select::show;
use crate::view::{RowView, ViewErr};
use salt_ast::{Expr, Scan, Set, Statement, TableDef, What};
use salt_exprs::{
    check, column_number, condition_outside, resolve_filter, value_outside, values_outside,
};
use salt_model::{Answer, Binding, Cause, Vars};
use salt_schema::Schema;
use salt_values::{Change, Changes, Name};
use sqlite_items::Items;
use std::alloc::Global;

/// What a statement answers, and what it changes.
type Effect = (Answer, Changes);

/// Puts a row into a table, if it is the first of its key and meets the checks.
fn insert<V: RowView>(
    alloc: Global,
    view: &mut V,
    table: u16,
    def: &TableDef,
    vars: &[Binding],
    values: &[Expr],
) -> Result<Effect, StatementErr>
    ensures done { (name : List ℕ) → GivesMeant (table_effect table def.now vars.now (Insert name values.now) (V.tables view.old)) result }
    ensures kept { V.tables view.new ≡ V.tables view.old }
    ensures source { V.shown_from view.new ≡ V.shown_from view.old }
    ensures faults { CountsFaultsOf (V.faults view.old) (V.faults view.new) result }
{
    let row = values_outside(alloc, vars, values)?;
    let key = key_of(alloc, row.as_slice())?;
    let is_there = view.find(table, &key)?;
    if is_there {
        return Err(StatementErr::Cause(Cause::Duplicate));
    }
    check(
        alloc,
        def.columns.as_slice(),
        def.checks.as_slice(),
        row.as_slice(),
    )?;
    let mut changes = Items::new(alloc);
    changes.push(Change {
        table,
        key,
        row: Some(row),
    })?;
    Ok((Answer::Count(1), changes))
}

/// The value of a column of the row of a key.
fn select_into<V: RowView>(
    alloc: Global,
    view: &mut V,
    table: u16,
    def: &TableDef,
    vars: &[Binding],
    column: &Name,
    key: &Expr,
) -> Result<Effect, StatementErr>
    ensures done { (name var : List ℕ) → GivesMeant (table_effect table def.now vars.now (SelectInto column.now var name key.now) (V.tables view.old)) result }
    ensures kept { V.tables view.new ≡ V.tables view.old }
    ensures source { V.shown_from view.new ≡ V.shown_from view.old }
    ensures faults { CountsFaultsOf (V.faults view.old) (V.faults view.new) result }
{
    let key = value_outside(alloc, vars, key)?;
    let is_there = view.find(table, &key)?;
    if !is_there {
        return Err(StatementErr::Cause(Cause::Missing));
    }
    let number = column_number(def.columns.as_slice(), column.as_slice());
    let value = cell(alloc, &*view, number)?;
    Ok((Answer::Stored(value), Items::new(alloc)))
}

/// Shows rows, or what is counted of them.
fn select<V: RowView>(
    alloc: Global,
    view: &mut V,
    table: u16,
    def: &TableDef,
    vars: &[Binding],
    what: &What,
    rows: &Scan,
) -> Result<Effect, StatementErr>
    requires { IsKeyed (V.tables view.old) }
    ensures done { (name : List ℕ) → GivesMeant (table_effect table def.now vars.now (Select what.now name rows.now) (V.tables view.old)) result }
    ensures kept { V.tables view.new ≡ V.tables view.old }
    ensures source { V.shown_from view.new ≡ V.shown_from view.old }
    ensures faults { CountsFaultsOf (V.faults view.old) (V.faults view.new) result }
{
    let range = range_of(alloc, vars, &rows.bound)?;
    let filter = resolve_filter(alloc, def.columns.as_slice(), vars, &rows.filter)?;
    let answer = show(alloc, view, table, def, &range, &filter, what)?;
    Ok((answer, Items::new(alloc)))
}

/// Sets columns of rows. Each value is of the old row, and the new row has to meet the checks.
fn update<V: RowView>(
    alloc: Global,
    view: &mut V,
    table: u16,
    def: &TableDef,
    vars: &[Binding],
    sets: &[Set],
    rows: &Scan,
) -> Result<Effect, StatementErr>
    requires { IsKeyed (V.tables view.old) }
    ensures done { (name : List ℕ) → GivesMeant (table_effect table def.now vars.now (Update name sets.now rows.now) (V.tables view.old)) result }
    ensures kept { V.tables view.new ≡ V.tables view.old }
    ensures source { V.shown_from view.new ≡ V.shown_from view.old }
    ensures faults { CountsFaultsOf (V.faults view.old) (V.faults view.new) result }
{
    let range = range_of(alloc, vars, &rows.bound)?;
    let filter = resolve_filter(alloc, def.columns.as_slice(), vars, &rows.filter)?;
    let mut updates = Updates {
        table,
        def,
        vars,
        sets,
        changes: Items::new(alloc),
    };
    scan(alloc, view, table, &range, &filter, &mut updates)?;
    let Updates { changes, .. } = updates;
    Ok((Answer::Count(changes.len() as u64), changes))
}

/// Removes rows.
fn delete<V: RowView>(
    alloc: Global,
    view: &mut V,
    table: u16,
    def: &TableDef,
    vars: &[Binding],
    rows: &Scan,
) -> Result<Effect, StatementErr>
    requires { IsKeyed (V.tables view.old) }
    ensures done { (name : List ℕ) → GivesMeant (table_effect table def.now vars.now (Delete name rows.now) (V.tables view.old)) result }
    ensures kept { V.tables view.new ≡ V.tables view.old }
    ensures source { V.shown_from view.new ≡ V.shown_from view.old }
    ensures faults { CountsFaultsOf (V.faults view.old) (V.faults view.new) result }
{
    let range = range_of(alloc, vars, &rows.bound)?;
    let filter = resolve_filter(alloc, def.columns.as_slice(), vars, &rows.filter)?;
    let mut removals = Removals {
        table,
        changes: Items::new(alloc),
    };
    scan(alloc, view, table, &range, &filter, &mut removals)?;
    let Removals { changes, .. } = removals;
    Ok((Answer::Count(changes.len() as u64), changes))
}

/// Asks whether a condition holds.
fn ensure(alloc: Global, vars: &[Binding], condition: &Expr) -> Result<Effect, StatementErr>
    ensures done { GivesMeant (ensured vars.now condition.now) result }
    ensures faults { (count : ℕ) → CountsFaultsOf count count result }
{
    if condition_outside(alloc, vars, condition)? {
        Ok((Answer::Held, Items::new(alloc)))
    } else {
        Err(StatementErr::Cause(Cause::Ensure))
    }
}

/// Does a statement to the table of this number.
fn attempt_in<V: RowView>(
    alloc: Global,
    view: &mut V,
    table: u16,
    def: &TableDef,
    vars: &[Binding],
    statement: &Statement,
) -> Result<Effect, StatementErr>
    requires { IsKeyed (V.tables view.old) }
    ensures done { GivesMeant (table_effect table def.now vars.now statement.now (V.tables view.old)) result }
    ensures kept { V.tables view.new ≡ V.tables view.old }
    ensures source { V.shown_from view.new ≡ V.shown_from view.old }
    ensures faults { CountsFaultsOf (V.faults view.old) (V.faults view.new) result }
{
    match statement {
        Statement::Insert { values, .. } => {
            insert(alloc, view, table, def, vars, values.as_slice())
        }
        Statement::Select { what, scan, .. } => select(alloc, view, table, def, vars, what, scan),
        Statement::SelectInto { column, key, .. } => {
            select_into(alloc, view, table, def, vars, column, key)
        }
        Statement::Update { sets, scan, .. } => {
            update(alloc, view, table, def, vars, sets.as_slice(), scan)
        }
        Statement::Delete { scan, .. } => delete(alloc, view, table, def, vars, scan),
        Statement::Ensure(condition) => ensure(alloc, vars, condition),
    }
}

/// Does a statement. Its cause is that of a failed one.
fn attempt<V: RowView>(
    alloc: Global,
    view: &mut V,
    schema: &Schema,
    vars: &[Binding],
    statement: &Statement,
) -> Result<Effect, StatementErr>
    requires { IsKeyed (V.tables view.old) }
    ensures done { GivesMeant (attempted schema.now vars.now statement.now (V.tables view.old)) result }
    ensures kept { V.tables view.new ≡ V.tables view.old }
    ensures source { V.shown_from view.new ≡ V.shown_from view.old }
    ensures faults { CountsFaultsOf (V.faults view.old) (V.faults view.new) result }
{
    if let Statement::Ensure(condition) = statement {
        return ensure(alloc, vars, condition);
    }
    let Some(name) = table_in(statement) else {
        return Err(StatementErr::Cause(Cause::Missing));
    };
    let Some(number) = schema.number(name) else {
        return Err(StatementErr::Cause(Cause::Missing));
    };
    let Some(def) = schema.table(number) else {
        return Err(StatementErr::Cause(Cause::Missing));
    };
    attempt_in(alloc, view, number, def, vars, statement)
}

/// What a statement answers over the rows that a view shows, and its changes, in order of their keys. A statement that fails
/// changes nothing. Each row has to stand at the place of its key. `Fault` where the view counted one.
pub fn execute<V: RowView>(
    alloc: Global,
    view: &mut V,
    schema: &Schema,
    vars: &Vars,
    statement: &Statement,
) -> Result<(Answer, Changes), ViewErr>
    requires { IsKeyed (V.tables view.old) }
    ensures done { IfOk result (λ effect. IsEffect effect (outcome_of schema.now (V.tables view.old) vars.now statement.now)) }
    ensures kept { V.tables view.new ≡ V.tables view.old }
    ensures source { V.shown_from view.new ≡ V.shown_from view.old }
    ensures faults { CountsFaults (V.faults view.old) (V.faults view.new) result }
{
    match attempt(alloc, view, schema, vars.as_slice(), statement) {
        Ok(effect) => Ok(effect),
        Err(StatementErr::Cause(cause)) => Ok((Answer::Failed(cause), Items::new(alloc))),
        Err(StatementErr::View(err)) => Err(err),
    }
}
