//! Base tables: those that a statement of some BASE program names.

ghost use Rattle.salt_ast.specs.declared.trees.TableDef.{TableDef};
ghost use Rattle.salt_model.specs.Locks.{is_of_table, names_table, numbers_from};
ghost use Rattle.std.specs.List.{list_any};
ghost use Rattle.std.specs.Option.{option_copied, option_map_or};
ghost use Rattle.std.specs.Prelude.{IfOk, OnOk, [], false, if◌then◌else◌, ◌++◌, ◌∷◌, ◌≡◌};

use salt_ast::{ProgramDef, Shared, Statement, TableDef, same_bytes};
use salt_cont::parts_of;
use salt_eval::table_in;
use salt_program::Catalogue;
use salt_schema::Schema;
use salt_values::Name;
use std::alloc::{AllocError, Global};

/// Whether a statement is on the table of this name.
fn is_of_table(name: &Name, statement: &Statement) -> bool
    ensures { result ≡ is_of_table name.now statement.now }
{
    match table_in(statement) {
        Some(table) => same_bytes(table.as_slice(), name.as_slice()),
        None => false,
    }
}

/// Whether one of the statements is.
fn is_in_block(name: &Name, block: &[Shared<Statement>]) -> bool
    ensures { result ≡ list_any (is_of_table name.now) block.now }
{
    block
        .iter()
        .any(|statement| is_of_table(name, statement.get()))
}

/// Whether a statement of a part of the program is on the table of this name. A program that is one ACID unit has no parts.
fn names_table(name: &Name, def: &ProgramDef) -> bool
    ensures { result ≡ names_table name.now def.now }
{
    parts_of(def)
        .iter()
        .any(|part| is_in_block(name, part.block.as_slice()))
}

/// Whether there is a program, and it has such a statement.
fn is_named_by(name: &Name, def: Option<&ProgramDef>) -> bool
    ensures { result ≡ option_map_or (names_table name.now) (option_copied def.entry) false }
{
    match def {
        Some(def) => names_table(name, def),
        None => false,
    }
}

/// Whether the table of this name is a base table, where these are all programs.
fn is_base_name(name: &Name, catalogue: &Catalogue) -> bool
    ensures { result ≡ list_any (names_table name.now) catalogue.now }
{
    let count = catalogue.count() as u16;
    for number in 0..count {
        if is_named_by(name, catalogue.numbered(number)) {
            return true;
        }
    }
    false
}

/// Whether there is a table, and it is a base table, where these are all programs.
fn is_base_table(catalogue: &Catalogue, table: Option<&TableDef>) -> bool
    ensures { result ≡ option_map_or (λ (d : TableDef). list_any (names_table d.name) catalogue.now) (option_copied table.entry) false }
{
    match table {
        Some(table) => is_base_name(&table.name, catalogue),
        None => false,
    }
}

/// Adds a number, if it is to be added.
fn add_if(numbers: &mut Vec<u16>, number: u16, is_added: bool) -> Result<(), AllocError>
    ensures { OnOk result (numbers.new.items ≡ (if is_added then numbers.old.items ++ number ∷ [] else numbers.old.items)) }
{
    if is_added {
        numbers.push(number)?;
    }
    Ok(())
}

/// The numbers of the base tables, rising, where these are all tables and all programs.
pub fn base_tables(
    alloc: Global,
    schema: &Schema,
    catalogue: &Catalogue,
) -> Result<Vec<u16>, AllocError>
    ensures { IfOk result (λ numbers. numbers.items ≡ numbers_from 0 (λ (d : TableDef). list_any (names_table d.name) catalogue.now) schema.now) }
{
    let mut numbers = Vec::new(alloc);
    let count = schema.count() as u16;
    for number in 0..count {
        let is_base = is_base_table(catalogue, schema.table(number));
        add_if(&mut numbers, number, is_base)?;
    }
    Ok(numbers)
}
