//! What is refused of a line.

ghost use Rattle.salt_ast.specs.Judgement.{kept_limit, statement_fault, table_fault};
ghost use Rattle.salt_ast.specs.ProgramJudgement.{act_fault, faulty, kept, of_program_fault, program_fault, program_kept_limit, session_scope};
ghost use Rattle.salt_scheduler.specs.Refusals.{HasFewParts, known_by, line_refusal, told};
ghost use Rattle.salt_program.specs.Refusals.{parts_in};
ghost use Rattle.std.specs.Option.{option_or};
ghost use Rattle.std.specs.Prelude.{IfOk, [], length, option_map, ◌<◌, ◌^◌, ◌≡◌};

use crate::answers::{refusal_by_definition, refusal_by_schema};
use crate::programs::{call_refusal, go_refusal};
use salt_ast::{Act, Line, ProgramDef, Scope, Statement, TableDef};
use salt_model::Refusal;
use salt_program::Catalogue;
use salt_schema::Schema;
use sqlite_items::Items;
use std::alloc::{AllocError, Global};

/// The refusal of a table that is to be the next.
fn table_refusal(schema: &Schema, def: &TableDef) -> Result<Option<Refusal>, AllocError>
    ensures { IfOk result (λ refusal. refusal ≡ told (option_or (option_map kept (kept_limit schema.now))
        (option_map faulty (table_fault schema.now def.now)))) }
{
    refusal_by_schema(schema.judge(def))
}

/// The refusal of a program that is to be the next.
fn program_refusal(
    schema: &Schema,
    catalogue: &Catalogue,
    def: &ProgramDef,
) -> Result<Option<Refusal>, AllocError>
    requires { length (parts_in def.now.body) < 2 ^ 32 }
    ensures { IfOk result (λ refusal. refusal ≡ told (option_or (option_map kept (program_kept_limit catalogue.now))
        (option_map of_program_fault (program_fault schema.now catalogue.now def.now)))) }
{
    refusal_by_definition(catalogue.judge(schema, def))
}

/// The refusal of a session's statement, for which there are no parameters and no variables.
fn statement_refusal(
    alloc: Global,
    schema: &Schema,
    statement: &Statement,
) -> Result<Option<Refusal>, AllocError>
    ensures { IfOk result (λ refusal. refusal ≡ told (option_map faulty (statement_fault schema.now session_scope statement.now))) }
{
    let scope = Scope {
        params: Items::new(alloc),
        vars: Items::new(alloc),
    };
    refusal_by_schema(schema.check(statement, &scope))
}

/// The refusal of what a session is to do.
fn act_refusal(
    alloc: Global,
    schema: &Schema,
    catalogue: &Catalogue,
    unreleased: usize,
    act: &Act,
) -> Result<Option<Refusal>, AllocError>
    ensures { IfOk result (λ refusal. refusal ≡ told (act_fault (known_by schema.now catalogue.now [] unreleased) act.now)) }
{
    match act {
        Act::Call { program, args } => call_refusal(alloc, catalogue, unreleased, program, args),
        Act::Do(statement) => statement_refusal(alloc, schema, statement.get()),
        Act::Begin | Act::Commit | Act::Rollback | Act::Step => Ok(None),
    }
}

/// Why a line is refused that passes no limit of its text and is no turn of a program that goes on, as far as the tables
/// and programs defined tell it, and how many BASE programs are in their first part, or accepted and not released. The
/// first applies of: a limit of tables, programs or BASE programs; `Unknown` with the first name that is not known, which
/// for `go` is that of its program; `Exists`; `Mistyped`; `Branch`. `AllocError` is want of memory for a name.
#[tactic(auto, unfolding(salt_ast::specs::ProgramJudgement::line_fault))]
pub fn line_refusal(
    alloc: Global,
    schema: &Schema,
    catalogue: &Catalogue,
    unreleased: usize,
    line: &Line,
) -> Result<Option<Refusal>, AllocError>
    requires { HasFewParts line.now }
    ensures { IfOk result (λ refusal. refusal ≡ line_refusal (known_by schema.now catalogue.now [] unreleased) line.now) }
{
    match line {
        Line::Table(def) => table_refusal(schema, def),
        Line::Program(def) => program_refusal(schema, catalogue, def),
        Line::Session { act, .. } => act_refusal(alloc, schema, catalogue, unreleased, act),
        Line::Go(base) => go_refusal(alloc, *base),
        Line::Nothing
        | Line::GoAll
        | Line::ShowLocks
        | Line::ShowBases
        | Line::Crash(_)
        | Line::Net(_) => Ok(None),
    }
}
