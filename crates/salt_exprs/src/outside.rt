//! Expressions outside rows: keys, bounds, the values of a new row, and ENSURE.

ghost use Rattle.std.specs.Prelude.{◌≡◌};
ghost use Rattle.salt_model.specs.Eval.{holds, value_of, values_of};
ghost use Rattle.salt_model.specs.Reaches.{no_row};
ghost use Rattle.salt_exprs.specs.Operands.{TellsMeaning, same};

use crate::error::EvalErr;
use crate::in_row::{truth_in_row, value_in_row};
use salt_ast::Expr;
use salt_model::Binding;
use salt_values::{Row, Value};
use sqlite_items::Items;
use std::alloc::Global;

/// The value of an expression that sees the variables alone, or its first cause.
pub fn value_outside(alloc: Global, vars: &[Binding], expr: &Expr) -> Result<Value, EvalErr>
    ensures { TellsMeaning same (value_of (no_row vars.now) expr.now) result }
{
    value_in_row(alloc, &[], &[], vars, expr)
}

/// Whether a condition that sees the variables alone is true, and neither false nor unknown: what ENSURE asks; or its first
/// cause.
pub fn condition_outside(alloc: Global, vars: &[Binding], condition: &Expr) -> Result<bool, EvalErr>
    ensures { TellsMeaning same (holds (no_row vars.now) condition.now) result }
{
    Ok(truth_in_row(alloc, &[], &[], vars, condition)?.is_yes())
}

/// The values of expressions that see the variables alone, from left to right, or the first cause.
pub fn values_outside(alloc: Global, vars: &[Binding], exprs: &[Expr]) -> Result<Row, EvalErr>
    ensures { TellsMeaning same (values_of (no_row vars.now) exprs.now) result }
{
    let mut row = Items::new(alloc);
    for expr in exprs {
        let value = value_outside(alloc, vars, expr)?;
        row.push(value)?;
    }
    Ok(row)
}
