//! Expressions whose names are found.

ghost use Rattle.std.specs.Prelude.{◌≡◌, IfOk};
ghost use Rattle.salt_exprs.specs.Operands.{TellsMeaning, datum_of, same, truth_meant};
ghost use Rattle.salt_exprs.specs.Resolving.{Resolves, eval_resolved, negation, null_test, operation, resolved_holds, resolved_truth, resolved_value};
ghost use Rattle.salt_ast.specs.declared.trees.Expr.{Column, Variable};

use crate::cells::Cells;
use crate::error::EvalErr;
use crate::names::{column_number, variable_value};
use crate::operand::{Operand, mistyped, negated, null_tested};
use crate::operations::{is_decided, operate};
use crate::truth::Truth;
use salt_ast::{Expr, Field, Op};
use salt_model::Binding;
use salt_values::{Name, TryCopy, Value};
use sqlite_items::Boxed;
use std::alloc::{AllocError, Global};

/// An expression whose columns are numbers, and whose variables are their values.
#[derive(Drop)]
pub enum Resolved<'a> {
    /// The value of a literal, or of a variable.
    Given(&'a Value),
    /// The number of a column, from 0.
    Column(usize),
    /// A name that is not known: it counts as 0. An expression that was judged has none.
    Unknown,
    Not(Boxed<Resolved<'a>>),
    /// Whether the operand is NULL, or, where it is negated, whether it is not.
    IsNull {
        of: Boxed<Resolved<'a>>,
        negated: bool,
    },
    Binary {
        op: Op,
        left: Boxed<Resolved<'a>>,
        right: Boxed<Resolved<'a>>,
    },
}

impl<'a> Resolved<'a> {
    fn operand<'r, R: Cells>(&'r self, alloc: Global, row: &'r R) -> Result<Operand<'r>, EvalErr>
        ensures { TellsMeaning datum_of (eval_resolved (R.cells row.now) self.now) result }
    {
        match self {
            Resolved::Given(value) => Ok(Operand::Lent(value)),
            Resolved::Column(number) => Ok(row.operand(alloc, *number)?),
            Resolved::Unknown => Ok(mistyped()),
            Resolved::Not(of) => {
                let of = of.get().operand(alloc, row)?;
                Ok(negated(&of))
            }
            Resolved::IsNull {
                of,
                negated: is_negated,
            } => {
                let of = of.get().operand(alloc, row)?;
                Ok(null_tested(*is_negated, &of))
            }
            Resolved::Binary { op, left, right } => {
                let left = left.get().operand(alloc, row)?;
                if is_decided(*op, &left) {
                    return Ok(left);
                }
                let right = right.get().operand(alloc, row)?;
                operate(alloc, *op, &left, &right)
            }
        }
    }

    /// Its value in a row, or the first cause from left to right.
    pub fn value<R: Cells>(&self, alloc: Global, row: &R) -> Result<Value, EvalErr>
        ensures { TellsMeaning same (resolved_value (R.cells row.now) self.now) result }
    {
        match self.operand(alloc, row)? {
            Operand::Lent(value) => Ok(value.copy(alloc)?),
            Operand::Made(value) => Ok(value),
            Operand::Holds(_) => Ok(Value::Int(0)),
        }
    }

    /// Its truth value in a row, or the first cause from left to right.
    pub fn truth<R: Cells>(&self, alloc: Global, row: &R) -> Result<Truth, EvalErr>
        ensures { TellsMeaning truth_meant (resolved_truth (R.cells row.now) self.now) result }
    {
        match self.operand(alloc, row)? {
            Operand::Holds(truth) => Ok(truth),
            Operand::Lent(_) => Ok(Truth::No),
            Operand::Made(_) => Ok(Truth::No),
        }
    }

    /// Whether it is true in a row, and neither false nor unknown, or the first cause from left to right.
    pub fn holds<R: Cells>(&self, alloc: Global, row: &R) -> Result<bool, EvalErr>
        ensures { TellsMeaning same (resolved_holds (R.cells row.now) self.now) result }
    {
        Ok(self.truth(alloc, row)?.is_yes())
    }
}

fn column<'a>(columns: &[Field], vars: &[Binding], name: &Name) -> Resolved<'a>
    ensures { Resolves result columns.now vars.now (Column name.now) }
{
    match column_number(columns, name.as_slice()) {
        Some(number) => Resolved::Column(number),
        None => Resolved::Unknown,
    }
}

fn variable<'a>(columns: &[Field], vars: &'a [Binding], name: &Name) -> Resolved<'a>
    ensures { Resolves result columns.now vars.now (Variable name.now) }
{
    match variable_value(vars, name.as_slice()) {
        Some(value) => Resolved::Given(value),
        None => Resolved::Unknown,
    }
}

fn negation<'a>(alloc: Global, of: Resolved<'a>) -> Result<Resolved<'a>, AllocError>
    ensures { IfOk result (λ r. r ≡ negation of.entry) }
{
    let of = Boxed::new(alloc, of)?;
    Ok(Resolved::Not(of))
}

fn null_test<'a>(alloc: Global, of: Resolved<'a>, negated: bool) -> Result<Resolved<'a>, AllocError>
    ensures { IfOk result (λ r. r ≡ null_test of.entry negated) }
{
    let of = Boxed::new(alloc, of)?;
    Ok(Resolved::IsNull { of, negated })
}

fn operation<'a>(
    alloc: Global,
    op: Op,
    left: Resolved<'a>,
    right: Resolved<'a>,
) -> Result<Resolved<'a>, AllocError>
    ensures { IfOk result (λ r. r ≡ operation op left.entry right.entry) }
{
    let left = Boxed::new(alloc, left)?;
    let right = Boxed::new(alloc, right)?;
    Ok(Resolved::Binary { op, left, right })
}

/// Finds the names of an expression, among the columns of a table and the variables. A name that is in neither stands for 0.
pub fn resolve<'a>(
    alloc: Global,
    columns: &[Field],
    vars: &'a [Binding],
    expr: &'a Expr,
) -> Result<Resolved<'a>, AllocError>
    ensures { IfOk result (λ r. Resolves r columns.now vars.now expr.now) }
{
    match expr {
        Expr::Lit(value) => Ok(Resolved::Given(value)),
        Expr::Column(name) => Ok(column(columns, vars, name)),
        Expr::Variable(name) => Ok(variable(columns, vars, name)),
        Expr::Not(of) => {
            let of = resolve(alloc, columns, vars, of.get())?;
            negation(alloc, of)
        }
        Expr::IsNull { of, negated } => {
            let of = resolve(alloc, columns, vars, of.get())?;
            null_test(alloc, of, *negated)
        }
        Expr::Binary { op, left, right } => {
            let left = resolve(alloc, columns, vars, left.get())?;
            let right = resolve(alloc, columns, vars, right.get())?;
            operation(alloc, *op, left, right)
        }
    }
}
