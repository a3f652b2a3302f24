//! Expressions in one row, whose names are looked up where they stand. For one row nothing is made, and over many rows an expression
//! that is resolved compares no names.

ghost use Rattle.std.specs.Prelude.{◌≡◌, Ok};
ghost use Rattle.salt_model.specs.Eval.{eval, known, named_values, truth_of, value_named, value_of};
ghost use Rattle.salt_exprs.specs.Operands.{TellsMeaning, datum_of, same, truth_meant};
ghost use Rattle.salt_exprs.specs.Resolving.{visible};

use crate::error::EvalErr;
use crate::names::{column_number, variable_value};
use crate::operand::{Operand, in_column, mistyped, negated, null_tested};
use crate::operations::{is_decided, operate};
use crate::truth::Truth;
use salt_ast::{Expr, Field};
use salt_model::Binding;
use salt_values::{Name, TryCopy, Value};
use std::alloc::Global;

/// The value of the column of this name in a row of these columns.
fn column_in_row<'r>(columns: &[Field], row: &'r [Value], name: &Name) -> Operand<'r>
    ensures { Ok (datum_of result) ≡ known (value_named name.now (named_values columns.now row.now)) }
{
    match column_number(columns, name.as_slice()) {
        Some(number) => in_column(row, number),
        None => mistyped(),
    }
}

/// The value of the variable of this name.
fn variable_in<'r>(vars: &'r [Binding], name: &Name) -> Operand<'r>
    ensures { Ok (datum_of result) ≡ known (value_named name.now vars.now) }
{
    match variable_value(vars, name.as_slice()) {
        Some(value) => Operand::Lent(value),
        None => mistyped(),
    }
}

fn operand_in_row<'r>(
    alloc: Global,
    columns: &[Field],
    row: &'r [Value],
    vars: &'r [Binding],
    expr: &'r Expr,
) -> Result<Operand<'r>, EvalErr>
    ensures { TellsMeaning datum_of (eval (visible columns.now row.now vars.now) expr.now) result }
{
    match expr {
        Expr::Lit(value) => Ok(Operand::Lent(value)),
        Expr::Column(name) => Ok(column_in_row(columns, row, name)),
        Expr::Variable(name) => Ok(variable_in(vars, name)),
        Expr::Not(of) => {
            let of = operand_in_row(alloc, columns, row, vars, of.get())?;
            Ok(negated(&of))
        }
        Expr::IsNull {
            of,
            negated: is_negated,
        } => {
            let of = operand_in_row(alloc, columns, row, vars, of.get())?;
            Ok(null_tested(*is_negated, &of))
        }
        Expr::Binary { op, left, right } => {
            let left = operand_in_row(alloc, columns, row, vars, left.get())?;
            if is_decided(*op, &left) {
                return Ok(left);
            }
            let right = operand_in_row(alloc, columns, row, vars, right.get())?;
            operate(alloc, *op, &left, &right)
        }
    }
}

/// The value of an expression in a row of these columns, under these variables, or the first cause from left to right.
pub fn value_in_row(
    alloc: Global,
    columns: &[Field],
    row: &[Value],
    vars: &[Binding],
    expr: &Expr,
) -> Result<Value, EvalErr>
    ensures { TellsMeaning same (value_of (visible columns.now row.now vars.now) expr.now) result }
{
    match operand_in_row(alloc, columns, row, vars, expr)? {
        Operand::Lent(value) => Ok(value.copy(alloc)?),
        Operand::Made(value) => Ok(value),
        Operand::Holds(_) => Ok(Value::Int(0)),
    }
}

/// The truth value of a condition in a row of these columns, under these variables, or the first cause from left to right.
pub fn truth_in_row(
    alloc: Global,
    columns: &[Field],
    row: &[Value],
    vars: &[Binding],
    condition: &Expr,
) -> Result<Truth, EvalErr>
    ensures { TellsMeaning truth_meant (truth_of (visible columns.now row.now vars.now) condition.now) result }
{
    match operand_in_row(alloc, columns, row, vars, condition)? {
        Operand::Holds(truth) => Ok(truth),
        Operand::Lent(_) => Ok(Truth::No),
        Operand::Made(_) => Ok(Truth::No),
    }
}
