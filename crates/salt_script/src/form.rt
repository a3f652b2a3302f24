//! What a row of tokens begins.

ghost use Rattle.std.specs.Prelude.{◌≡◌};
ghost use Rattle.salt_script.specs.Forms.{act_begins, act_begun_by, begun_by, go_begins, line_begins, name_begins, show_begins};
ghost use Rattle.salt_ast.specs.Symbols.{symbols_in};

use salt_ast::{Keyword, Lexeme, Sign};
use salt_values::Id;

/// What a line is, by its first tokens.
#[derive(Clone, Copy)]
pub enum Form<'a> {
    Table,
    Program,
    /// The number behind `@`, and what the session is to do.
    Session(u64, &'a [Lexeme<'a>]),
    Go(Id),
    GoAll,
    ShowLocks,
    ShowBases,
    /// What stands behind `crash`.
    Crash(&'a [Lexeme<'a>]),
    /// What stands behind `net`.
    Net(&'a [Lexeme<'a>]),
    /// No line begins so.
    Other,
}

/// What stands behind `go`.
fn go_form<'a>(tokens: &'a [Lexeme<'a>]) -> Form<'a>
    ensures { begun_by result ≡ go_begins (symbols_in tokens.now) }
{
    match tokens {
        [Lexeme::Int(boot), Lexeme::Sign(Sign::Dot), Lexeme::Int(seq)] => Form::Go(Id {
            boot: *boot,
            seq: *seq,
        }),
        [Lexeme::Key(Keyword::All)] => Form::GoAll,
        _ => Form::Other,
    }
}

/// What stands behind `show`.
fn show_form<'a>(tokens: &'a [Lexeme<'a>]) -> Form<'a>
    ensures { begun_by result ≡ show_begins (symbols_in tokens.now) }
{
    match tokens {
        [Lexeme::Key(Keyword::Locks)] => Form::ShowLocks,
        [Lexeme::Key(Keyword::Bases)] => Form::ShowBases,
        _ => Form::Other,
    }
}

/// What a name begins, with what stands behind it.
fn name_form<'a>(name: &[u8], rest: &'a [Lexeme<'a>]) -> Form<'a>
    ensures { begun_by result ≡ name_begins name.now (symbols_in rest.now) }
{
    if name == b"net".as_slice() {
        Form::Net(rest)
    } else {
        Form::Other
    }
}

/// What line the tokens begin.
pub fn line_form<'a>(tokens: &'a [Lexeme<'a>]) -> Form<'a>
    ensures { begun_by result ≡ line_begins (symbols_in tokens.now) }
{
    match tokens {
        [Lexeme::Key(Keyword::Create), ..] => Form::Table,
        [Lexeme::Key(Keyword::Program), ..] => Form::Program,
        [Lexeme::Key(Keyword::Go), rest @ ..] => go_form(rest),
        [Lexeme::Key(Keyword::Show), rest @ ..] => show_form(rest),
        [Lexeme::Key(Keyword::Crash), rest @ ..] => Form::Crash(rest),
        [Lexeme::Name(name), rest @ ..] => name_form(name, rest),
        [Lexeme::Sign(Sign::At), Lexeme::Int(session), rest @ ..] => Form::Session(*session, rest),
        _ => Form::Other,
    }
}

/// What a session is to do, by the first token, and what stands behind it.
#[derive(Clone, Copy)]
pub enum ActForm<'a> {
    Begin(&'a [Lexeme<'a>]),
    Commit(&'a [Lexeme<'a>]),
    Rollback(&'a [Lexeme<'a>]),
    Step(&'a [Lexeme<'a>]),
    Call(&'a [Lexeme<'a>]),
    /// It may be a statement, and nothing else.
    Statement,
}

/// What act the tokens begin.
pub fn act_form<'a>(tokens: &'a [Lexeme<'a>]) -> ActForm<'a>
    ensures { act_begun_by result ≡ act_begins (symbols_in tokens.now) }
{
    match tokens {
        [Lexeme::Key(Keyword::Begin), rest @ ..] => ActForm::Begin(rest),
        [Lexeme::Key(Keyword::Commit), rest @ ..] => ActForm::Commit(rest),
        [Lexeme::Key(Keyword::Rollback), rest @ ..] => ActForm::Rollback(rest),
        [Lexeme::Key(Keyword::Step), rest @ ..] => ActForm::Step(rest),
        [Lexeme::Key(Keyword::Call), rest @ ..] => ActForm::Call(rest),
        _ => ActForm::Statement,
    }
}
