//! What a session is to do.

ghost use Rattle.std.specs.Prelude.{◌≡◌, List, Ok, Option, option_map};
ghost use Rattle.salt_ast.specs.Limits.{value_passed};
ghost use Rattle.salt_ast.specs.Words.{first_in};
ghost use Rattle.salt_values.specs.declared.value.Value.{Value};
ghost use Rattle.salt_parse.specs.Settling.{ArePrintable, Settles};
ghost use Rattle.salt_script.specs.Answers.{GivesOrLimit};
ghost use Rattle.salt_script.specs.Forms.{a_call, act_begins, alone};
ghost use Rattle.salt_script.specs.Spelled.{DeepAct, ShallowAct, act_limit, call_at, call_passed};
ghost use Rattle.salt_ast.specs.Symbols.{Symbols, symbols_in};

use crate::args::call_args;
use crate::form::{ActForm, act_form};
use salt_ast::{Act, Lexeme, LimitName, Shared, Sign};
use salt_parse::{ParseErr, statement_in};
use salt_values::limits::NAME_MOST;
use salt_values::{Name, Row};
use sqlite_items::Items;
use std::alloc::Global;

/// An act that is a word, where nothing stands behind it.
fn alone<'a>(act: Act, rest: &'a [Lexeme<'a>]) -> Result<Act, ParseErr>
    ensures { result ≡ alone act (symbols_in rest.now) }
{
    match rest {
        [] => Ok(act),
        _ => Err(ParseErr::Syntax),
    }
}

/// A program's name and its arguments, or the first limit that is passed.
fn named(
    alloc: Global,
    program: &[u8],
    args: Result<Row, LimitName>,
) -> Result<Result<(Name, Row), LimitName>, ParseErr>
    ensures { (read : Option (List Value)) → GivesOrLimit (first_in value_passed) (Ok args) read
        → GivesOrLimit call_passed result (option_map (λ vs. (program.now, vs)) read) }
{
    if NAME_MOST < program.len() {
        return Ok(Err(LimitName::Name));
    }
    match args {
        Ok(args) => Ok(Ok((Items::from_slice(alloc, program)?, args))),
        Err(limit) => Ok(Err(limit)),
    }
}

/// What stands behind `call`.
fn call<'a>(
    alloc: Global,
    tokens: &'a [Lexeme<'a>],
) -> Result<Result<(Name, Row), LimitName>, ParseErr>
    requires { ArePrintable (symbols_in tokens.now) }
    ensures { GivesOrLimit call_passed result (call_at (symbols_in tokens.now)) }
{
    match tokens {
        [Lexeme::Name(program), Lexeme::Sign(Sign::Open), rest @ ..] => {
            let args = call_args(alloc, rest)?;
            named(alloc, program, args)
        }
        _ => Err(ParseErr::Syntax),
    }
}

/// The act of a call.
fn call_act<'a>(alloc: Global, tokens: &'a [Lexeme<'a>]) -> Result<Act, ParseErr>
    requires { ArePrintable (symbols_in tokens.now) }
    ensures { (ts : Symbols) → act_begins ts ≡ a_call (symbols_in tokens.now) → Settles act_limit ShallowAct DeepAct ts result }
{
    match call(alloc, tokens)? {
        Ok((program, args)) => Ok(Act::Call { program, args }),
        Err(limit) => Err(ParseErr::Limit(limit)),
    }
}

/// What the tokens say that a session is to do.
///
/// `Limit` exactly where they spell an act that passes a limit, with the first; `Syntax` exactly where they spell none; else `Memory`
/// where memory runs out.
pub fn act_in<'a>(alloc: Global, tokens: &'a [Lexeme<'a>]) -> Result<Act, ParseErr>
    requires { ArePrintable (symbols_in tokens.now) }
    ensures { Settles act_limit ShallowAct DeepAct (symbols_in tokens.now) result }
{
    match act_form(tokens) {
        ActForm::Begin(rest) => alone(Act::Begin, rest),
        ActForm::Commit(rest) => alone(Act::Commit, rest),
        ActForm::Rollback(rest) => alone(Act::Rollback, rest),
        ActForm::Step(rest) => alone(Act::Step, rest),
        ActForm::Call(rest) => call_act(alloc, rest),
        ActForm::Statement => match statement_in(alloc, tokens) {
            Ok(statement) => Ok(Act::Do(Shared::new(alloc, statement)?)),
            Err(e) => Err(e),
        },
    }
}
