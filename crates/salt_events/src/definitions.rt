//! Texts of definitions.

ghost use Rattle.std.specs.Prelude.{◌≡◌, IfOk, is_some, option_map};
ghost use Rattle.law_definitions.specs.Texts.{definition_in};
ghost use Rattle.salt_events.specs.Definitions.{TellsProgram, TellsTable, line_defining};

use law_definitions::definitions_are_read;
use salt_ast::{
    Line, ProgramDef, TableDef, canonical_program, canonical_table, print_program, print_table,
    same_bytes,
};
use salt_parse::{
    ParseErr, one_program, one_table, read_program, read_table, row_program, row_table,
};
use std::alloc::{AllocError, Global};

/// The table whose canonical text the bytes are.
fn table(alloc: Global, bytes: &[u8]) -> Result<Option<TableDef>, AllocError>
    ensures { IfOk result (λ r. TellsTable r bytes.now) }
{
    canonical_table();
    one_table();
    row_table();
    match read_table(alloc, bytes) {
        Ok(table) => {
            let mut text = Vec::new(alloc);
            print_table(&mut text, &table)?;
            if !same_bytes(text.as_slice(), bytes) {
                return Ok(None);
            }
            Ok(Some(table))
        }
        Err(ParseErr::Memory) => Err(AllocError),
        Err(ParseErr::Syntax) => Ok(None),
        Err(ParseErr::Limit(_limit)) => Ok(None),
    }
}

/// The program whose canonical text the bytes are.
fn program(alloc: Global, bytes: &[u8]) -> Result<Option<ProgramDef>, AllocError>
    ensures { IfOk result (λ r. TellsProgram r bytes.now) }
{
    canonical_program();
    one_program();
    row_program();
    match read_program(alloc, bytes) {
        Ok(program) => {
            let mut text = Vec::new(alloc);
            print_program(&mut text, &program)?;
            if !same_bytes(text.as_slice(), bytes) {
                return Ok(None);
            }
            Ok(Some(program))
        }
        Err(ParseErr::Memory) => Err(AllocError),
        Err(ParseErr::Syntax) => Ok(None),
        Err(ParseErr::Limit(_limit)) => Ok(None),
    }
}

/// The line that asks for the definition whose canonical text the bytes are.
pub fn read_definition(alloc: Global, bytes: &[u8]) -> Result<Option<Line>, AllocError>
    ensures { IfOk result (λ r. r ≡ option_map line_defining (definition_in bytes.now)) }
{
    definitions_are_read();
    if let Some(table) = table(alloc, bytes)? {
        return Ok(Some(Line::Table(table)));
    }
    let Some(program) = program(alloc, bytes)? else {
        return Ok(None);
    };
    Ok(Some(Line::Program(program)))
}

/// Whether the bytes are the canonical text of a definition.
pub fn is_definition(alloc: Global, bytes: &[u8]) -> Result<bool, AllocError>
    ensures { IfOk result (λ r. r ≡ is_some (definition_in bytes.now)) }
{
    let line = read_definition(alloc, bytes)?;
    Ok(line.is_some())
}
