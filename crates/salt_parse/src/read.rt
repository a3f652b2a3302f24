//! Statements, tables and programs from tokens, and from bytes.

ghost use Rattle.std.specs.Prelude.{◌≡◌, Err, IfOk, Some};
ghost use Rattle.salt_ast.specs.Limits.{statement_limit, table_limit};
ghost use Rattle.salt_ast.specs.ProgramLimits.{program_limit};
ghost use Rattle.salt_ast.specs.Spelling.{IsProgramWithinLimits, ProgramPasses, SpellsProgram};
ghost use Rattle.salt_ast.specs.Spelling.{IsStatementWithinLimits, IsTableWithinLimits, SpellsStatement, SpellsTable, StatementPasses, TablePasses};
ghost use Rattle.salt_ast.specs.declared.limit.LimitName.{LimitName};
ghost use Rattle.salt_ast.specs.declared.programs.ProgramDef.{ProgramDef};
ghost use Rattle.salt_ast.specs.declared.trees.Statement.{Statement};
ghost use Rattle.salt_ast.specs.declared.trees.TableDef.{TableDef};
ghost use Rattle.salt_parse.specs.Attempts.{IsAnswer, answer_for, attempt_of, too_deep};
ghost use Rattle.salt_parse.specs.Flags.{no_flags};
ghost use Rattle.salt_parse.specs.Settling.{ArePrintable, DeepProgram, DeepStatement, DeepTable, Settles, ShallowProgram, ShallowStatement, ShallowTable};
ghost use Rattle.salt_parse.specs.declared.error.ParseErr.TheVariants.{Limit, Syntax};
ghost use Rattle.salt_ast.specs.Symbols.{symbols_in};

use crate::error::ParseErr;
use crate::laws::printable_symbols;
use crate::parser::Parser;
use crate::tree::Tree;
use salt_ast::{Lexeme, LimitName, ProgramDef, Statement, TableDef, lexemes, one_row};
use salt_values::limits::{DEPTH_MOST, PARENTHESES_MOST};
use std::alloc::Global;

/// What was found, where nothing is left.
fn finish<T: Drop>(parser: Parser<'_>, tree: T) -> Result<Result<T, LimitName>, ParseErr>
    ensures { result ≡ attempt_of (Some (tree, parser.entry.flags, parser.entry.left)) }
{
    if !parser.rest.is_empty() {
        return Err(ParseErr::Syntax);
    }
    match parser.limit() {
        None => Ok(Ok(tree)),
        Some(limit) => Ok(Err(limit)),
    }
}

/// The error where only more parentheses than 64 let a row be read.
fn too_deep<T: Drop>(attempt: Result<Result<T, LimitName>, ParseErr>) -> ParseErr
    ensures { result ≡ too_deep attempt }
{
    match attempt {
        Ok(Ok(_tree)) => ParseErr::Limit(LimitName::Depth),
        Ok(Err(limit)) => ParseErr::Limit(limit),
        Err(e) => e,
    }
}

/// The tree of a whole row, with room for so many parentheses in its expressions, and for so many in those that stand in parentheses of its own.
fn attempt<'a, T: Tree>(
    alloc: Global,
    rest: &'a [Lexeme<'a>],
    room: u32,
    inside: u32,
) -> Result<Result<T, LimitName>, ParseErr>
    ensures { IsAnswer result (attempt_of (T.reading room inside no_flags (symbols_in rest.now))) }
{
    let mut parser = Parser::new(alloc, rest);
    let tree = T::read(&mut parser, room, inside)?;
    finish(parser, tree.into_inner())
}

/// The tree of a whole row, or why there is none: only where a shallow one is not found, a deep one is looked for.
fn settle<'a, T: Tree>(alloc: Global, rest: &'a [Lexeme<'a>]) -> Result<T, ParseErr>
    ensures { IsAnswer result (answer_for T.reading (symbols_in rest.now)) }
{
    match attempt(alloc, rest, DEPTH_MOST, DEPTH_MOST) {
        Ok(Ok(tree)) => Ok(tree),
        Ok(Err(limit)) => Err(ParseErr::Limit(limit)),
        Err(ParseErr::Syntax) => {
            let deep = attempt::<T>(alloc, rest, PARENTHESES_MOST, PARENTHESES_MOST - 1);
            Err(too_deep(deep))
        }
        Err(e) => Err(e),
    }
}

/// The statement that the tokens spell.
///
/// `Limit` exactly where they spell one that passes a limit, with the first; `Syntax` exactly where they spell none,
/// as where more than 128 parentheses are open; else `Memory` where memory runs out.
pub fn statement_in(alloc: Global, tokens: &[Lexeme<'_>]) -> Result<Statement, ParseErr>
    requires { ArePrintable (symbols_in tokens.now) }
    ensures { Settles statement_limit ShallowStatement DeepStatement (symbols_in tokens.now) result }
{
    settle(alloc, tokens)
}

/// The table that the tokens spell, or why there is none, as of statements.
pub fn table_in(alloc: Global, tokens: &[Lexeme<'_>]) -> Result<TableDef, ParseErr>
    requires { ArePrintable (symbols_in tokens.now) }
    ensures { Settles table_limit ShallowTable DeepTable (symbols_in tokens.now) result }
{
    settle(alloc, tokens)
}

/// The program that the tokens spell, or why there is none, as of statements.
pub fn program_in(alloc: Global, tokens: &[Lexeme<'_>]) -> Result<ProgramDef, ParseErr>
    requires { ArePrintable (symbols_in tokens.now) }
    ensures { Settles program_limit ShallowProgram DeepProgram (symbols_in tokens.now) result }
{
    settle(alloc, tokens)
}

/// The statement that the bytes spell.
///
/// `Limit` exactly where they spell one that passes a limit, with the first; `Syntax` exactly where they spell none,
/// as where more than 128 parentheses are open; else `Memory` where memory runs out.
pub fn read_statement(alloc: Global, bytes: &[u8]) -> Result<Statement, ParseErr>
    // What is read is spelled so, and passes no limit.
    ensures found { IfOk result (λ st. IsStatementWithinLimits bytes.now st) }
    // A limit is answered only for what is spelled, and is the first that it passes.
    ensures limit { (l : LimitName) → result ≡ Err (Limit l) → (st : Statement) × SpellsStatement bytes.now st × StatementPasses bytes.now st l }
    // Nothing is spelled.
    ensures syntax { result ≡ Err Syntax → (st : Statement) → ¬ (SpellsStatement bytes.now st) }
{
    one_row();
    printable_symbols();
    let tokens = lexemes(alloc, bytes)?;
    statement_in(alloc, tokens.as_slice())
}

/// The table that the bytes spell.
///
/// `Limit` exactly where they spell one that passes a limit, with the first; `Syntax` exactly where they spell none,
/// as where more than 128 parentheses are open; else `Memory` where memory runs out.
pub fn read_table(alloc: Global, bytes: &[u8]) -> Result<TableDef, ParseErr>
    // What is read is spelled so, and passes no limit.
    ensures found { IfOk result (λ d. IsTableWithinLimits bytes.now d) }
    // A limit is answered only for what is spelled, and is the first that it passes.
    ensures limit { (l : LimitName) → result ≡ Err (Limit l) → (d : TableDef) × SpellsTable bytes.now d × TablePasses bytes.now d l }
    // Nothing is spelled.
    ensures syntax { result ≡ Err Syntax → (d : TableDef) → ¬ (SpellsTable bytes.now d) }
{
    one_row();
    printable_symbols();
    let tokens = lexemes(alloc, bytes)?;
    table_in(alloc, tokens.as_slice())
}

/// The program that the bytes spell.
///
/// `Limit` exactly where they spell one that passes a limit, with the first; `Syntax` exactly where they spell none,
/// as where more than 128 parentheses are open; else `Memory` where memory runs out.
pub fn read_program(alloc: Global, bytes: &[u8]) -> Result<ProgramDef, ParseErr>
    // What is read is spelled so, and passes no limit.
    ensures found { IfOk result (λ p. IsProgramWithinLimits bytes.now p) }
    // A limit is answered only for what is spelled, and is the first that it passes.
    ensures limit { (l : LimitName) → result ≡ Err (Limit l) → (p : ProgramDef) × SpellsProgram bytes.now p × ProgramPasses bytes.now p l }
    // Nothing is spelled.
    ensures syntax { result ≡ Err Syntax → (p : ProgramDef) → ¬ (SpellsProgram bytes.now p) }
{
    one_row();
    printable_symbols();
    let tokens = lexemes(alloc, bytes)?;
    program_in(alloc, tokens.as_slice())
}
