//! What holds of the texts of statements, tables and programs.

ghost use Rattle.std.specs.Prelude.{◌≡◌, List, ℕ};
ghost use Rattle.salt_ast.specs.Spelling.{SpellsProgram, SpellsStatement, SpellsTable};
ghost use Rattle.salt_ast.specs.declared.programs.ProgramDef.{ProgramDef};
ghost use Rattle.salt_ast.specs.declared.trees.Statement.{Statement};
ghost use Rattle.salt_ast.specs.declared.trees.TableDef.{TableDef};
ghost use Rattle.salt_parse.specs.Settling.{ArePrintable, DeepProgram, DeepStatement, DeepTable, ShallowProgram, ShallowStatement, ShallowTable};
ghost use Rattle.salt_ast.specs.Symbols.{HasSymbols, Symbols};

use salt_ast::{one_row, quoted_text};

/// The texts among the tokens of bytes have printable bytes alone.
pub fn printable_symbols()
    ensures { (bytes : List ℕ) (ts : Symbols) → HasSymbols bytes ts → ArePrintable ts }
{
    quoted_text();
}

/// What holds of the rows that spell statements.
pub fn row_statement()
    // No row spells two.
    ensures one { (ts : Symbols) (a b : Statement) → DeepStatement ts a → DeepStatement ts b → a ≡ b }
    // What is spelled within the limit on parentheses is spelled.
    ensures deepens { (ts : Symbols) (x : Statement) → ShallowStatement ts x → DeepStatement ts x }
{}

/// What holds of the rows that spell tables.
pub fn row_table()
    // No row spells two.
    ensures one { (ts : Symbols) (a b : TableDef) → DeepTable ts a → DeepTable ts b → a ≡ b }
    // What is spelled within the limit on parentheses is spelled.
    ensures deepens { (ts : Symbols) (x : TableDef) → ShallowTable ts x → DeepTable ts x }
{}

/// What holds of the rows that spell programs.
pub fn row_program()
    // No row spells two.
    ensures one { (ts : Symbols) (a b : ProgramDef) → DeepProgram ts a → DeepProgram ts b → a ≡ b }
    // What is spelled within the limit on parentheses is spelled.
    ensures deepens { (ts : Symbols) (x : ProgramDef) → ShallowProgram ts x → DeepProgram ts x }
{}

/// No bytes spell two statements.
pub fn one_statement()
    ensures { (bytes : List ℕ) (a b : Statement) → SpellsStatement bytes a → SpellsStatement bytes b → a ≡ b }
{
    one_row();
}

/// No bytes spell two tables.
pub fn one_table()
    ensures { (bytes : List ℕ) (a b : TableDef) → SpellsTable bytes a → SpellsTable bytes b → a ≡ b }
{
    one_row();
}

/// No bytes spell two programs.
pub fn one_program()
    ensures { (bytes : List ℕ) (a b : ProgramDef) → SpellsProgram bytes a → SpellsProgram bytes b → a ≡ b }
{
    one_row();
}
