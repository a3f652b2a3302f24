//! What a statement reaches.

ghost use Rattle.std.specs.Prelude.{◌≡◌, IfOk, Result};
ghost use Rattle.std.specs.Option.{option_copied};
ghost use Rattle.salt_model.specs.Reaches.{first_value, key_reached, range_of, reach, reach_in, reached, table_in};
ghost use Rattle.salt_model.specs.declared.events.Cause.{Cause};
ghost use Rattle.salt_ranges.specs.declared.range.KeyRange.{KeyRange};
ghost use Rattle.salt_values.specs.declared.value.Value.{Value};
ghost use Rattle.salt_eval.specs.Scans.{TellsMeant};

use salt_ast::{Bound, Expr, Statement};
use salt_exprs::{EvalErr, value_outside};
use salt_model::{Binding, Mode, Reach, Vars};
use salt_ranges::KeyRange;
use salt_schema::Schema;
use salt_values::{Key, Name, TryCopy, Value};
use std::alloc::{AllocError, Global};

/// The table that a statement names: an ENSURE names none.
pub fn table_in(statement: &Statement) -> Option<&Name>
    ensures { option_copied result ≡ table_in statement.now }
{
    match statement {
        Statement::Insert { table, .. } => Some(table),
        Statement::Select { table, .. } => Some(table),
        Statement::SelectInto { table, .. } => Some(table),
        Statement::Update { table, .. } => Some(table),
        Statement::Delete { table, .. } => Some(table),
        Statement::Ensure(_) => None,
    }
}

/// The range of a bound, or the first cause of its ends.
pub fn range_of(alloc: Global, vars: &[Binding], bound: &Bound) -> Result<KeyRange, EvalErr>
    ensures { TellsMeant (range_of vars.now bound.now) result }
{
    match bound {
        Bound::All => Ok(KeyRange { lo: None, hi: None }),
        Bound::Key(key) => {
            let lo = value_outside(alloc, vars, key)?;
            let hi = lo.copy(alloc)?;
            Ok(KeyRange {
                lo: Some(lo),
                hi: Some(hi),
            })
        }
        Bound::Between(low, high) => {
            let lo = value_outside(alloc, vars, low)?;
            let hi = value_outside(alloc, vars, high)?;
            Ok(KeyRange {
                lo: Some(lo),
                hi: Some(hi),
            })
        }
    }
}

/// The value of the first expression, which is the key of a new row.
fn first_value(alloc: Global, vars: &[Binding], exprs: &[Expr]) -> Result<Value, EvalErr>
    ensures { TellsMeant (first_value vars.now exprs.now) result }
{
    match exprs {
        [first, ..] => value_outside(alloc, vars, first),
        [] => Ok(Value::Int(0)),
    }
}

/// The reach of a key; none where it has a cause.
fn key_reached(
    alloc: Global,
    table: u16,
    mode: Mode,
    key: Result<Key, EvalErr>,
) -> Result<Option<Reach>, AllocError>
    ensures { (meant : Result Value Cause) → TellsMeant meant key → IfOk result (λ reach. reach ≡ key_reached table mode meant) }
{
    match key {
        Ok(lo) => {
            let hi = lo.copy(alloc)?;
            let range = KeyRange {
                lo: Some(lo),
                hi: Some(hi),
            };
            Ok(Some(Reach { table, range, mode }))
        }
        Err(EvalErr::Cause(_)) => Ok(None),
        Err(EvalErr::Memory) => Err(AllocError),
    }
}

/// The reach of a range; none where it is empty, or an end has a cause.
fn range_reached(
    table: u16,
    mode: Mode,
    range: Result<KeyRange, EvalErr>,
) -> Result<Option<Reach>, AllocError>
    ensures { (meant : Result KeyRange Cause) → TellsMeant meant range → IfOk result (λ reach. reach ≡ reached table mode meant) }
{
    match range {
        Ok(range) => {
            if range.is_empty() {
                Ok(None)
            } else {
                Ok(Some(Reach { table, range, mode }))
            }
        }
        Err(EvalErr::Cause(_)) => Ok(None),
        Err(EvalErr::Memory) => Err(AllocError),
    }
}

/// What a statement reaches of the table of this number.
fn reach_in(
    alloc: Global,
    table: u16,
    vars: &[Binding],
    statement: &Statement,
) -> Result<Option<Reach>, AllocError>
    ensures { IfOk result (λ reach. reach ≡ reach_in table vars.now statement.now) }
{
    match statement {
        Statement::Insert { values, .. } => {
            let key = first_value(alloc, vars, values.as_slice());
            key_reached(alloc, table, Mode::Write, key)
        }
        Statement::Select { scan, .. } => {
            let range = range_of(alloc, vars, &scan.bound);
            range_reached(table, Mode::Read, range)
        }
        Statement::SelectInto { key, .. } => {
            let key = value_outside(alloc, vars, key);
            key_reached(alloc, table, Mode::Read, key)
        }
        Statement::Update { scan, .. } => {
            let range = range_of(alloc, vars, &scan.bound);
            range_reached(table, Mode::Write, range)
        }
        Statement::Delete { scan, .. } => {
            let range = range_of(alloc, vars, &scan.bound);
            range_reached(table, Mode::Write, range)
        }
        Statement::Ensure(_) => Ok(None),
    }
}

/// What a statement reaches: one range of one table, or nothing.
pub fn reach(
    alloc: Global,
    schema: &Schema,
    vars: &Vars,
    statement: &Statement,
) -> Result<Option<Reach>, AllocError>
    ensures { IfOk result (λ found. found ≡ reach schema.now vars.now statement.now) }
{
    let Some(name) = table_in(statement) else {
        return Ok(None);
    };
    let Some(table) = schema.number(name) else {
        return Ok(None);
    };
    reach_in(alloc, table, vars.as_slice(), statement)
}
