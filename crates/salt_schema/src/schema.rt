//! The tables defined.

ghost use Rattle.std.specs.Prelude.{◌≡◌, ◌≤◌, ◌++◌, ◌∷◌, [], IfOk, IfSome, OnErr, OnOk, Some, length, slice_get};
ghost use Rattle.std.specs.Option.{option_copied};
ghost use Rattle.salt_values.specs.declared.limits.TheConstants.{TABLES_MOST};
ghost use Rattle.salt_schema.specs.Refusals.{IsAnswer, table_refusal};
ghost use Rattle.salt_schema.specs.Schemas.{table_named, table_number};

use crate::definitions::Definitions;
use crate::error::SchemaErr;
use salt_ast::TableDef;
use salt_values::Name;
use salt_values::limits::TABLES_MOST;
use std::alloc::Global;
use std::marker::Model;

/// The tables defined, with different names, numbered from 0, no more than there may be. Contracts see the list of their definitions.
#[derive(Drop)]
pub struct Schema {
    tables: Definitions<TableDef>,
}

impl Model for Schema {
    ghost use Rattle.std.specs.Prelude.{List, length, ◌≤◌};
    ghost use Rattle.salt_ast.specs.declared.trees.TableDef.{TableDef};
    ghost use Rattle.std.specs.Coded.{codes};
    ghost use Rattle.salt_ast.specs.contracts.trees.Expr as expr;
    ghost use Rattle.salt_values.specs.declared.limits.TheConstants.{TABLES_MOST};

    ghost Value = { List TableDef };

    ghost coded = { Prim.hlevel (codes, expr.the_row.coded) };

    ghost view = { λ s. s.tables };

    ghost invariant = { λ s. length s.tables ≤ TABLES_MOST };
}

impl Schema {
    /// No tables.
    pub fn new(alloc: Global) -> Schema
        ensures { result ≡ [] }
    {
        Schema {
            tables: Definitions::new(alloc),
        }
    }

    /// The allocator of the tables.
    pub fn allocator(&self) -> Global {
        self.tables.allocator()
    }

    /// How many tables there are.
    pub fn count(&self) -> usize
        ensures count { result ≡ length self.now }
        ensures few { result ≤ TABLES_MOST }
    {
        self.tables.len()
    }

    /// The number of the table of this name.
    pub fn number(&self, name: &Name) -> Option<u16>
        ensures { result ≡ table_number self.now name.now }
    {
        match self.tables.number(name) {
            Some(number) => Some(number as u16),
            None => None,
        }
    }

    /// The table of this number.
    pub fn table(&self, number: u16) -> Option<&TableDef>
        ensures value { option_copied result ≡ slice_get self.now number }
        // Its name is no other table's.
        ensures own { IfSome result (λ def. table_number self.now def.now.name ≡ Some number) }
    {
        self.tables.get(number as usize)
    }

    /// The table of this name.
    pub fn named(&self, name: &Name) -> Option<&TableDef>
        ensures { option_copied result ≡ table_named self.now name.now }
    {
        self.tables.named(name)
    }
    /// Adds a table, which takes the next number. It is refused as `judge` tells; any `Err` changes nothing.
    pub fn add(&mut self, def: TableDef) -> Result<u16, SchemaErr>
        ensures answer { IsAnswer (table_refusal self.old def) result }
        ensures number { IfOk result (λ number. number ≡ length self.old) }
        ensures ok { OnOk result (self.new ≡ self.old ++ def ∷ []) }
        ensures err { OnErr result (self.new ≡ self.old) }
    {
        self.judge(&def)?;
        let number = self.tables.len();
        self.tables.add(def)?;
        Ok(number as u16)
    }
}
