//! The changes that an UPDATE and a DELETE gather.

ghost use Rattle.std.specs.Prelude.{◌++◌, ◌∷◌, [], None, Ok};
ghost use Rattle.salt_model.specs.Statements.{change_to};
ghost use Rattle.salt_model.specs.Tables.{place};
ghost use Rattle.salt_values.specs.Value.{key_of};

use crate::cells::key_in;
use crate::scan::Gather;
use salt_ast::{Set, TableDef};
use salt_exprs::{Cells, EvalErr, check, row_after};
use salt_model::Binding;
use salt_values::{Change, Changes};
use std::alloc::Global;

/// The removals of rows of a table.
#[derive(Drop)]
pub struct Removals {
    pub table: u16,
    pub changes: Changes,
}

impl Gather for Removals {
    ghost with_row = { λ s row. Ok (record { table = s.table; changes = s.changes ++ change_to (place s.table (key_of row)) None ∷ [] }) };

    fn take<R: Cells>(&mut self, alloc: Global, row: &R) -> Result<(), EvalErr> {
        let key = key_in(alloc, row)?;
        self.changes.push(Change {
            table: self.table,
            key,
            row: None,
        })?;
        Ok(())
    }
}

/// The new rows of a table, whose checks each then has to meet, and what is set of each.
#[derive(Drop)]
pub struct Updates<'a> {
    pub table: u16,
    pub def: &'a TableDef,
    pub vars: &'a [Binding],
    pub sets: &'a [Set],
    pub changes: Changes,
}

impl<'a> Gather for Updates<'a> {
    ghost use Rattle.salt_eval.specs.Updating.{with_update};

    ghost with_row = { with_update };

    fn take<R: Cells>(&mut self, alloc: Global, row: &R) -> Result<(), EvalErr> {
        let key = key_in(alloc, row)?;
        let old = row.row(alloc)?;
        let new = row_after(alloc, self.def, self.vars, self.sets, old)?;
        check(
            alloc,
            self.def.columns.as_slice(),
            self.def.checks.as_slice(),
            new.as_slice(),
        )?;
        self.changes.push(Change {
            table: self.table,
            key,
            row: Some(new),
        })?;
        Ok(())
    }
}
