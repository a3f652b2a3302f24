//! Statements of lines, copied.

ghost use Rattle.std.specs.Prelude.{◌≡◌, IfOk};
ghost use Rattle.salt_model.specs.Turns.{is_statement_line};
ghost use Rattle.salt_model.specs.Waiting.{statement_of_line};

use salt_ast::{Act, Line, Shared, Statement};
use salt_values::TryCopy;
use std::alloc::{AllocError, Global};

/// Whether a line is one statement.
pub fn is_statement_line(line: &Line) -> bool
    ensures { result ≡ is_statement_line line.now }
{
    match line {
        Line::Session { act, .. } => match act {
            Act::Do(_) => true,
            _ => false,
        },
        _ => false,
    }
}

/// A copy of the statement of a line, if it is one.
pub fn copy_statement(alloc: Global, line: &Line) -> Result<Option<Shared<Statement>>, AllocError>
    ensures { IfOk result (λ made. made ≡ statement_of_line line.now) }
{
    match line {
        Line::Session { act, .. } => match act {
            Act::Do(statement) => Ok(Some(statement.copy(alloc)?)),
            _ => Ok(None),
        },
        _ => Ok(None),
    }
}
