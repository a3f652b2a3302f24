//! Rows of a range, one after another.

ghost use Rattle.std.specs.Prelude.{◌≡◌, IfOk, Ok, Option, Result, List, Some};
ghost use Rattle.std.specs.Option.{option_copied};
ghost use Rattle.salt_model.specs.Tables.{place, row_at};
ghost use Rattle.salt_model.specs.declared.events.Cause.{Cause};
ghost use Rattle.salt_ranges.specs.declared.range.KeyRange.{KeyRange};
ghost use Rattle.salt_values.specs.declared.value.Value.{Value};
ghost use Rattle.salt_eval.specs.Filtered.{filtered, kept_by};
ghost use Rattle.salt_eval.specs.Scans.{CountsFaultsOf, LeavesMeant, TakesRow, gathered, point_of, row_list};
ghost use Rattle.salt_eval.specs.Views.{range_rows};
ghost use Rattle.salt_values.specs.Value.{key_of};

use crate::error::StatementErr;
use crate::view::RowView;
use salt_exprs::{Cells, EvalErr, Resolved, passes};
use salt_ranges::KeyRange;
use salt_values::{Key, TryCopy, Value};
use std::alloc::{AllocError, Global};

/// What is made of rows, one after another.
pub trait Gather {
    /// What it is after one more row, or the cause for which the statement fails.
    ghost with_row: { Self → List Value → Result Self Cause };

    /// Takes one more row, of which it copies what it needs. After an error it is not used again.
    fn take<R: Cells>(&mut self, alloc: Global, row: &R) -> Result<(), EvalErr>
        ensures { TakesRow (with_row self.old (R.cells row.now)) self.new result };
}

/// Takes a row that the filter keeps.
fn take_kept<R: Cells, G: Gather>(
    alloc: Global,
    filter: &Option<Resolved<'_>>,
    gather: &mut G,
    row: &R,
) -> Result<(), EvalErr>
    ensures { TakesRow (filtered (kept_by filter.now) G.with_row gather.old (R.cells row.now)) gather.new result }
{
    if passes(alloc, filter, row)? {
        gather.take(alloc, row)
    } else {
        Ok(())
    }
}

/// A row's first value.
pub fn key_of(alloc: Global, row: &[Value]) -> Result<Key, AllocError>
    ensures { IfOk result (λ key. key ≡ key_of row.now) }
{
    match row {
        [first, ..] => first.copy(alloc),
        [] => Ok(Value::Int(0)),
    }
}

/// The one key of a range whose ends are equal.
pub fn point_of(range: &KeyRange) -> Option<&Key>
    ensures { option_copied result ≡ point_of range.now }
{
    match (&range.lo, &range.hi) {
        (Some(lo), Some(hi)) if lo == hi => Some(lo),
        _ => None,
    }
}

/// Gathers the row of a key, if there is one.
fn gather_one<V: RowView, G: Gather>(
    alloc: Global,
    view: &mut V,
    table: u16,
    key: &Key,
    filter: &Option<Resolved<'_>>,
    gather: &mut G,
) -> Result<(), StatementErr>
    ensures gathered { LeavesMeant (gathered (filtered (kept_by filter.now) G.with_row) gather.old (row_list (row_at (place table key.now) (V.tables view.old)))) gather.new result }
    ensures kept { V.tables view.new ≡ V.tables view.old }
    ensures source { V.shown_from view.new ≡ V.shown_from view.old }
    ensures faults { CountsFaultsOf (V.faults view.old) (V.faults view.new) result }
{
    let is_there = view.find(table, key)?;
    if is_there {
        take_kept(alloc, filter, gather, &*view)?;
    }
    Ok(())
}

/// Gathers the rows of a range, in order of their keys.
fn gather_all<V: RowView, G: Gather>(
    alloc: Global,
    view: &mut V,
    table: u16,
    range: &KeyRange,
    filter: &Option<Resolved<'_>>,
    gather: &mut G,
) -> Result<(), StatementErr>
    ensures gathered { LeavesMeant (gathered (filtered (kept_by filter.now) G.with_row) gather.old (range_rows table range.now (V.tables view.old))) gather.new result }
    ensures kept { V.tables view.new ≡ V.tables view.old }
    ensures source { V.shown_from view.new ≡ V.shown_from view.old }
    ensures faults { CountsFaultsOf (V.faults view.old) (V.faults view.new) result }
{
    view.start(table, range)?;
    'rows: while view.step()? {
        take_kept(alloc, filter, gather, &*view)?;
    }
    Ok(())
}

/// Gathers the rows of a range, in order of their keys; of one key by one look at the view.
pub fn scan<V: RowView, G: Gather>(
    alloc: Global,
    view: &mut V,
    table: u16,
    range: &KeyRange,
    filter: &Option<Resolved<'_>>,
    gather: &mut G,
) -> Result<(), StatementErr>
    ensures gathered { LeavesMeant (gathered (filtered (kept_by filter.now) G.with_row) gather.old (range_rows table range.now (V.tables view.old))) gather.new result }
    ensures kept { V.tables view.new ≡ V.tables view.old }
    ensures source { V.shown_from view.new ≡ V.shown_from view.old }
    ensures faults { CountsFaultsOf (V.faults view.old) (V.faults view.new) result }
{
    match point_of(range) {
        Some(key) => gather_one(alloc, view, table, key, filter, gather),
        None => gather_all(alloc, view, table, range, filter, gather),
    }
}
