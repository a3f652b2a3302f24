//! Canonical texts of definitions.

ghost use Rattle.salt_ast.specs.ProgramTexts.{program_text};
ghost use Rattle.salt_ast.specs.Texts.{table_text};
ghost use Rattle.std.specs.Prelude.{IfOk, ◌≡◌};

use salt_ast::{ProgramDef, TableDef, print_program, print_table};
use salt_values::Bytes;
use sqlite_items::Items;
use std::alloc::{AllocError, Global};

/// A table's canonical text.
pub fn table_text(alloc: Global, def: &TableDef) -> Result<Bytes, AllocError>
    ensures { IfOk result (λ text. text ≡ table_text def.now) }
{
    let mut text = Vec::new(alloc);
    print_table(&mut text, def)?;
    Ok(Items::from_vec(text))
}

/// A program's canonical text.
pub fn program_text(alloc: Global, def: &ProgramDef) -> Result<Bytes, AllocError>
    ensures { IfOk result (λ text. text ≡ program_text def.now) }
{
    let mut text = Vec::new(alloc);
    print_program(&mut text, def)?;
    Ok(Items::from_vec(text))
}
