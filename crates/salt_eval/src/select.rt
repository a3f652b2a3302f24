//! What a SELECT answers.

ghost use Rattle.std.specs.Prelude.{◌≡◌, List, Option};
ghost use Rattle.salt_ast.specs.declared.trees.Expr.{Expr};
ghost use Rattle.salt_ast.specs.declared.trees.What.TheVariants.{All, Columns, Count, Sum};
ghost use Rattle.salt_model.specs.declared.vars.Binding.{Binding};
ghost use Rattle.salt_eval.specs.Filtered.{kept_by};
ghost use Rattle.salt_eval.specs.Scans.{CountsFaultsOf, GivesMeant, IsKeyed};
ghost use Rattle.salt_eval.specs.Selects.{Filters, best_what, shown_of};

use crate::cells::column_numbers;
use crate::error::StatementErr;
use crate::scan::scan;
use crate::shown::{ColumnBest, ColumnRows, ColumnSum, RowCount, WholeRows};
use crate::view::RowView;
use salt_ast::{TableDef, What};
use salt_exprs::{Resolved, column_number};
use salt_model::Answer;
use salt_ranges::KeyRange;
use salt_values::{Name, Names};
use sqlite_items::Items;
use std::alloc::Global;

/// All columns of each row.
fn whole_rows<V: RowView>(
    alloc: Global,
    view: &mut V,
    table: u16,
    def: &TableDef,
    range: &KeyRange,
    filter: &Option<Resolved<'_>>,
) -> Result<Answer, StatementErr>
    requires { IsKeyed (V.tables view.old) }
    ensures answer { (vars : List Binding) (by : Option Expr) → Filters (kept_by filter.now) def.now vars by
        → GivesMeant (shown_of table range.now def.now vars by All (V.tables view.old)) result }
    ensures kept { V.tables view.new ≡ V.tables view.old }
    ensures source { V.shown_from view.new ≡ V.shown_from view.old }
    ensures faults { CountsFaultsOf (V.faults view.old) (V.faults view.new) result }
{
    let mut shown = WholeRows {
        rows: Items::new(alloc),
    };
    scan(alloc, view, table, range, filter, &mut shown)?;
    let WholeRows { rows } = shown;
    Ok(Answer::Rows(rows))
}

/// Columns of each row.
fn column_rows<V: RowView>(
    alloc: Global,
    view: &mut V,
    table: u16,
    def: &TableDef,
    range: &KeyRange,
    filter: &Option<Resolved<'_>>,
    names: &Names,
) -> Result<Answer, StatementErr>
    requires { IsKeyed (V.tables view.old) }
    ensures answer { (vars : List Binding) (by : Option Expr) → Filters (kept_by filter.now) def.now vars by
        → GivesMeant (shown_of table range.now def.now vars by (Columns names.now) (V.tables view.old)) result }
    ensures kept { V.tables view.new ≡ V.tables view.old }
    ensures source { V.shown_from view.new ≡ V.shown_from view.old }
    ensures faults { CountsFaultsOf (V.faults view.old) (V.faults view.new) result }
{
    let numbers = column_numbers(alloc, def.columns.as_slice(), names.as_slice())?;
    let mut shown = ColumnRows {
        numbers,
        rows: Items::new(alloc),
    };
    scan(alloc, view, table, range, filter, &mut shown)?;
    let ColumnRows { rows, .. } = shown;
    Ok(Answer::Rows(rows))
}

/// The number of rows.
fn row_count<V: RowView>(
    alloc: Global,
    view: &mut V,
    table: u16,
    def: &TableDef,
    range: &KeyRange,
    filter: &Option<Resolved<'_>>,
) -> Result<Answer, StatementErr>
    requires { IsKeyed (V.tables view.old) }
    ensures answer { (vars : List Binding) (by : Option Expr) → Filters (kept_by filter.now) def.now vars by
        → GivesMeant (shown_of table range.now def.now vars by Count (V.tables view.old)) result }
    ensures kept { V.tables view.new ≡ V.tables view.old }
    ensures source { V.shown_from view.new ≡ V.shown_from view.old }
    ensures faults { CountsFaultsOf (V.faults view.old) (V.faults view.new) result }
{
    let mut shown = RowCount { count: 0 };
    scan(alloc, view, table, range, filter, &mut shown)?;
    Ok(shown.answer())
}

/// The sum of a column.
fn column_sum<V: RowView>(
    alloc: Global,
    view: &mut V,
    table: u16,
    def: &TableDef,
    range: &KeyRange,
    filter: &Option<Resolved<'_>>,
    name: &Name,
) -> Result<Answer, StatementErr>
    requires { IsKeyed (V.tables view.old) }
    ensures answer { (vars : List Binding) (by : Option Expr) → Filters (kept_by filter.now) def.now vars by
        → GivesMeant (shown_of table range.now def.now vars by (Sum name.now) (V.tables view.old)) result }
    ensures kept { V.tables view.new ≡ V.tables view.old }
    ensures source { V.shown_from view.new ≡ V.shown_from view.old }
    ensures faults { CountsFaultsOf (V.faults view.old) (V.faults view.new) result }
{
    let mut shown = ColumnSum {
        number: column_number(def.columns.as_slice(), name.as_slice()),
        sum: 0,
    };
    scan(alloc, view, table, range, filter, &mut shown)?;
    Ok(shown.answer()?)
}

/// The least value of a column, or the greatest.
fn best_cell<V: RowView>(
    alloc: Global,
    view: &mut V,
    table: u16,
    def: &TableDef,
    range: &KeyRange,
    filter: &Option<Resolved<'_>>,
    name: &Name,
    is_greatest: bool,
) -> Result<Answer, StatementErr>
    requires { IsKeyed (V.tables view.old) }
    ensures answer { (vars : List Binding) (by : Option Expr) → Filters (kept_by filter.now) def.now vars by
        → GivesMeant (shown_of table range.now def.now vars by (best_what is_greatest name.now) (V.tables view.old)) result }
    ensures kept { V.tables view.new ≡ V.tables view.old }
    ensures source { V.shown_from view.new ≡ V.shown_from view.old }
    ensures faults { CountsFaultsOf (V.faults view.old) (V.faults view.new) result }
{
    let mut shown = ColumnBest {
        number: column_number(def.columns.as_slice(), name.as_slice()),
        is_greatest,
        best: None,
    };
    scan(alloc, view, table, range, filter, &mut shown)?;
    let ColumnBest { best, .. } = shown;
    Ok(Answer::Cell(best))
}

/// What a SELECT shows of the rows that the filter keeps.
pub fn show<V: RowView>(
    alloc: Global,
    view: &mut V,
    table: u16,
    def: &TableDef,
    range: &KeyRange,
    filter: &Option<Resolved<'_>>,
    what: &What,
) -> Result<Answer, StatementErr>
    requires { IsKeyed (V.tables view.old) }
    ensures answer { (vars : List Binding) (by : Option Expr) → Filters (kept_by filter.now) def.now vars by
        → GivesMeant (shown_of table range.now def.now vars by what.now (V.tables view.old)) result }
    ensures kept { V.tables view.new ≡ V.tables view.old }
    ensures source { V.shown_from view.new ≡ V.shown_from view.old }
    ensures faults { CountsFaultsOf (V.faults view.old) (V.faults view.new) result }
{
    match what {
        What::All => whole_rows(alloc, view, table, def, range, filter),
        What::Columns(names) => column_rows(alloc, view, table, def, range, filter, names),
        What::Count => row_count(alloc, view, table, def, range, filter),
        What::Sum(name) => column_sum(alloc, view, table, def, range, filter, name),
        What::Min(name) => best_cell(alloc, view, table, def, range, filter, name, false),
        What::Max(name) => best_cell(alloc, view, table, def, range, filter, name, true),
    }
}
