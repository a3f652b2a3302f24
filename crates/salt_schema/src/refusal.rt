//! What is refused of tables and statements.

ghost use Rattle.std.specs.Prelude.{◌≡◌, option_map};
ghost use Rattle.std.specs.Option.{option_copied};
ghost use Rattle.salt_ast.specs.Judgement as judged;
ghost use Rattle.salt_schema.specs.Names.{scope_of};
ghost use Rattle.salt_schema.specs.Refusals.{IsAnswer, fault_error, fault_meant, statement_refusal, table_refusal};

use crate::error::SchemaErr;
use crate::names::Bindings;
use crate::schema::Schema;
use crate::types::{is_typed_statement, is_typed_table};
use crate::unknown::{
    doubled_in_statement, doubled_in_table, unknown_in_statement, unknown_in_table,
};
use salt_ast::{Scope, Statement, TableDef};
use salt_values::limits::TABLES_MOST;
use salt_values::{Name, TryCopy};
use std::alloc::Global;

/// What is refused, with its name as it stands in what is judged.
#[derive(Clone, Copy)]
pub enum Fault<'a> {
    /// Nothing of this name is known there.
    Unknown(&'a Name),
    /// The name stands there, or is kept, already.
    Exists(&'a Name),
    /// A type is wrong.
    Mistyped,
}

/// The first of what may be refused: a name that is not known, one that comes twice, or types.
pub fn first_fault<'a>(
    unknown: Option<&'a Name>,
    doubled: Option<&'a Name>,
    is_typed: bool,
) -> Option<Fault<'a>>
    ensures { option_map fault_meant result ≡ judged.first_fault (option_copied unknown.entry) (option_copied doubled.entry) is_typed }
{
    match (unknown, doubled) {
        (Some(name), _) => Some(Fault::Unknown(name)),
        (None, Some(name)) => Some(Fault::Exists(name)),
        (None, None) => {
            if is_typed {
                None
            } else {
                Some(Fault::Mistyped)
            }
        }
    }
}

/// The answer by a fault. `Memory` where there is none for its name.
fn answer(alloc: Global, fault: Option<Fault<'_>>) -> Result<(), SchemaErr>
    ensures { IsAnswer (option_map fault_error (option_map fault_meant fault.entry)) result }
{
    match fault {
        Some(Fault::Unknown(name)) => Err(SchemaErr::Unknown(name.copy(alloc)?)),
        Some(Fault::Exists(name)) => Err(SchemaErr::Exists(name.copy(alloc)?)),
        Some(Fault::Mistyped) => Err(SchemaErr::Mistyped),
        None => Ok(()),
    }
}

/// What is refused of a table, but for the limit of tables.
#[tactic(auto, unfolding(salt_ast::specs::Judgement::table_fault))]
fn table_fault<'a>(schema: &Schema, def: &'a TableDef) -> Option<Fault<'a>>
    ensures { option_map fault_meant result ≡ judged.table_fault schema.now def.now }
{
    first_fault(
        unknown_in_table(def),
        doubled_in_table(schema, def),
        is_typed_table(def),
    )
}

/// What is refused of a statement whose program has these parameters and variables.
#[tactic(auto, unfolding(salt_ast::specs::Judgement::statement_fault))]
pub fn statement_fault<'a>(
    schema: &Schema,
    bindings: &Bindings<'_>,
    statement: &'a Statement,
) -> Option<Fault<'a>>
    ensures { option_map fault_meant result ≡ judged.statement_fault schema.now (scope_of bindings.now) statement.now }
{
    first_fault(
        unknown_in_statement(schema, bindings, statement),
        doubled_in_statement(statement),
        is_typed_statement(schema, bindings, statement),
    )
}

impl Schema {
    /// Whether a table can be added, which changes nothing: each refusal as `add` gives it, in this order. `Tables` where there are as
    /// many as there may be; `Unknown` with the first name in a check that is not a column's; `Exists` with the table's name, where there
    /// is one of it, or with the first column that has an earlier one's name; `Mistyped` where a check gives no truth value. `Memory` is
    /// want of it.
    pub fn judge(&self, def: &TableDef) -> Result<(), SchemaErr>
        ensures { IsAnswer (table_refusal self.now def.now) result }
    {
        if TABLES_MOST <= self.count() {
            return Err(SchemaErr::Tables);
        }
        answer(self.allocator(), table_fault(self, def))
    }

    /// Whether a statement can be done whose program has these parameters and variables; a session's has none. `Unknown` with the first
    /// name in it that is not known, `Exists` with the first column that it changes twice, `Mistyped` where a type is wrong, in this
    /// order. `Memory` is want of it.
    pub fn check(&self, statement: &Statement, scope: &Scope) -> Result<(), SchemaErr>
        ensures { IsAnswer (statement_refusal self.now scope.now statement.now) result }
    {
        let fault = statement_fault(self, &Bindings::of(scope), statement);
        answer(self.allocator(), fault)
    }
}
