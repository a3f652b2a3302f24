//! The trees of canonical texts.

ghost use Rattle.salt_ast.specs.ProgramTexts.{program_text};
ghost use Rattle.salt_ast.specs.Texts.{table_text};
ghost use Rattle.salt_found.specs.Definitions.{IsProgramIn, IsTableIn};
ghost use Rattle.salt_ast.specs.TokenSpelling.{same_bytes};
ghost use Rattle.std.specs.Prelude.{IfOk, ◌≡◌};

use salt_ast::{
    ProgramDef, TableDef, canonical_program, canonical_table, print_program, print_table,
};
use salt_parse::{
    ParseErr, one_program, one_table, read_program, read_table, row_program, row_table,
};
use std::alloc::{AllocError, Global};

fn is_same_text(left: &[u8], right: &[u8]) -> bool
    ensures { result ≡ same_bytes left.now right.now }
{
    left == right
}

/// Whether this is the canonical text of a table.
fn is_table_text(alloc: Global, def: &TableDef, text: &[u8]) -> Result<bool, AllocError>
    ensures { IfOk result (λ is. is ≡ same_bytes text.now (table_text def.now)) }
{
    let mut canonical = Vec::new(alloc);
    print_table(&mut canonical, def)?;
    Ok(is_same_text(text, &canonical))
}

/// Whether this is the canonical text of a program.
fn is_program_text(alloc: Global, def: &ProgramDef, text: &[u8]) -> Result<bool, AllocError>
    ensures { IfOk result (λ is. is ≡ same_bytes text.now (program_text def.now)) }
{
    let mut canonical = Vec::new(alloc);
    print_program(&mut canonical, def)?;
    Ok(is_same_text(text, &canonical))
}

/// The table whose canonical text this is, if there is one.
pub fn table_in(alloc: Global, text: &[u8]) -> Result<Option<TableDef>, AllocError>
    ensures { IfOk result (λ found. IsTableIn text.now found) }
{
    row_table();
    one_table();
    canonical_table();
    match read_table(alloc, text) {
        Ok(def) => {
            if is_table_text(alloc, &def, text)? {
                Ok(Some(def))
            } else {
                Ok(None)
            }
        }
        Err(ParseErr::Syntax) => Ok(None),
        Err(ParseErr::Limit(_limit)) => Ok(None),
        Err(ParseErr::Memory) => Err(AllocError),
    }
}

/// The program whose canonical text this is, if there is one.
pub fn program_in(alloc: Global, text: &[u8]) -> Result<Option<ProgramDef>, AllocError>
    ensures { IfOk result (λ found. IsProgramIn text.now found) }
{
    row_program();
    one_program();
    canonical_program();
    match read_program(alloc, text) {
        Ok(def) => {
            if is_program_text(alloc, &def, text)? {
                Ok(Some(def))
            } else {
                Ok(None)
            }
        }
        Err(ParseErr::Syntax) => Ok(None),
        Err(ParseErr::Limit(_limit)) => Ok(None),
        Err(ParseErr::Memory) => Err(AllocError),
    }
}
