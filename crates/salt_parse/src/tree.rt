//! The trees that a whole text may spell.

ghost use Rattle.std.specs.Prelude.{ℕ};
ghost use Rattle.salt_parse.specs.Parsing.{ReadsWith};
ghost use Rattle.salt_parse.specs.ProgramReading.{program_within};
ghost use Rattle.salt_parse.specs.Reading.{Reader};
ghost use Rattle.salt_parse.specs.StatementReading.{statement_within};
ghost use Rattle.salt_parse.specs.TableReading.{table_within};

use crate::error::ParseErr;
use crate::parser::Parser;
use crate::sealed::Sealed;
use salt_ast::{ProgramDef, Statement, TableDef};

/// A tree that a whole text may spell.
pub trait Tree: Drop {
    /// How it is read, with room for so many parentheses in its expressions, and for so many in those that stand in parentheses of its own.
    ghost reading: { ℕ → ℕ → Reader Self };

    /// Reads it from what is left.
    fn read(parser: &mut Parser<'_>, room: u32, inside: u32) -> Result<Sealed<Self>, ParseErr>
        ensures { ReadsWith result (reading room inside) parser.old parser.new };
}

impl Tree for Statement {
    ghost reading = { statement_within };

    fn read(parser: &mut Parser<'_>, room: u32, inside: u32) -> Result<Sealed<Self>, ParseErr> {
        parser.statement(room, inside)
    }
}

impl Tree for TableDef {
    ghost reading = { table_within };

    fn read(parser: &mut Parser<'_>, _room: u32, inside: u32) -> Result<Sealed<Self>, ParseErr> {
        parser.table(inside)
    }
}

impl Tree for ProgramDef {
    ghost reading = { program_within };

    fn read(parser: &mut Parser<'_>, room: u32, inside: u32) -> Result<Sealed<Self>, ParseErr> {
        parser.program(room, inside)
    }
}
