//! What a row has to meet: the filter of a statement and the checks of a table.

ghost use Rattle.std.specs.Prelude.{[], IfOk};
ghost use Rattle.salt_exprs.specs.Operands.{TellsMeaning, passing, same};
ghost use Rattle.salt_exprs.specs.Resolving.{ResolvesFilter, resolved_passes, visible};
ghost use Rattle.salt_model.specs.Statements.{checked};

use crate::cells::Cells;
use crate::error::EvalErr;
use crate::in_row::truth_in_row;
use crate::resolved::{Resolved, resolve};
use salt_ast::{Expr, Field};
use salt_model::{Binding, Cause};
use salt_values::Value;
use std::alloc::{AllocError, Global};

/// Finds the names of a filter, among the columns of a table and the variables.
pub fn resolve_filter<'a>(
    alloc: Global,
    columns: &[Field],
    vars: &'a [Binding],
    filter: &'a Option<Expr>,
) -> Result<Option<Resolved<'a>>, AllocError>
    ensures { IfOk result (λ r. ResolvesFilter r columns.now vars.now filter.now) }
{
    match filter {
        Some(filter) => Ok(Some(resolve(alloc, columns, vars, filter)?)),
        None => Ok(None),
    }
}

/// Whether a filter, if there is one, is true of a row, and neither false nor unknown; or its first cause.
pub fn passes<R: Cells>(
    alloc: Global,
    filter: &Option<Resolved<'_>>,
    row: &R,
) -> Result<bool, EvalErr>
    ensures { TellsMeaning same (resolved_passes (R.cells row.now) filter.now) result }
{
    match filter {
        Some(filter) => filter.holds(alloc, row),
        None => Ok(true),
    }
}

/// Whether a row of these columns meets the checks of its table: the first that is false is the cause `Check`, the first that has a
/// cause has that one, and one that is unknown is met. A check sees no variables.
pub fn check(
    alloc: Global,
    columns: &[Field],
    checks: &[Expr],
    row: &[Value],
) -> Result<(), EvalErr>
    ensures { TellsMeaning passing (checked (visible columns.now row.now []) checks.now) result }
{
    for check in checks {
        let truth = truth_in_row(alloc, columns, row, &[], check)?;
        if truth.is_no() {
            return Err(EvalErr::Cause(Cause::Check));
        }
    }
    Ok(())
}
