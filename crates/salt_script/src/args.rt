//! The arguments of a call: literals.

ghost use Rattle.std.specs.Prelude.{◌≡◌, ◌<◌, ◌++◌, ◌∷◌, IfErr, IfOk, IsTrue, List, None, OnOk, Some, [], false, if◌then◌else◌, length, true};
ghost use Rattle.std.specs.List.{list_all};
ghost use Rattle.salt_ast.specs.Limits.{value_passed};
ghost use Rattle.salt_ast.specs.Words.{first_in};
ghost use Rattle.salt_script.specs.Answers.{FailsToRead, GivesLiteral, GivesOrLimit};
ghost use Rattle.salt_parse.specs.Settling.{ArePrintable};
ghost use Rattle.salt_script.specs.Literals.{HoldsArgs, IsTaken, IsValueOf, args_at, at_item, by_sign, closed_at, comma_at, items_at, literal_at};
ghost use Rattle.salt_ast.specs.Symbols.{symbols_in, undoubled};
ghost use Rattle.salt_values.specs.Text.{is_printable};
ghost use Rattle.salt_values.specs.declared.value.Value.TheVariants as value;
ghost use Rattle.salt_values.specs.declared.value.Value.{Value};

use salt_ast::{Lexeme, LimitName, Sign};
use salt_parse::{ParseErr, content, content_len};
use salt_values::limits::TEXT_MOST;
use salt_values::{Row, Text, TextErr, Value};
use sqlite_items::Items;
use std::alloc::{AllocError, Global};

/// A number, behind a minus sign or not, or the limit that it passes.
fn number(minus: bool, number: u64) -> Result<Value, LimitName>
    ensures { IsValueOf result (value.Int (by_sign minus number)) }
{
    let number = i128::from(number);
    match i64::try_from(if minus { -number } else { number }) {
        Ok(number) => Ok(Value::Int(number)),
        Err(_outside) => Err(LimitName::Number),
    }
}

/// The text between these quotes, or the limit that it passes.
fn text(alloc: Global, quoted: &[u8]) -> Result<Result<Value, LimitName>, AllocError>
    requires { list_all is_printable (undoubled quoted.now) ≡ true }
    ensures { IfOk result (λ kept. IsValueOf kept (value.Text (undoubled quoted.now))) }
{
    if TEXT_MOST < content_len(quoted) {
        return Ok(Err(LimitName::Text));
    }
    let bytes = content(alloc, quoted)?;
    match Text::new(alloc, bytes.as_slice()) {
        Ok(text) => Ok(Ok(Value::Text(text))),
        Err(TextErr::NotText) => Ok(Err(LimitName::Text)),
        Err(TextErr::Memory) => Err(AllocError),
    }
}

/// The tokens of a call's arguments that are to be read, those that were read, while none passes a limit, and the first limit that one
/// passes.
#[derive(Drop)]
pub struct Args<'a> {
    rest: &'a [Lexeme<'a>],
    row: Row,
    passed: Option<LimitName>,
}

impl<'a> Args<'a> {
    /// Keeps a literal behind those that were read.
    fn keep(&mut self, literal: Result<Value, LimitName>) -> Result<(), AllocError>
        ensures holds { OnOk result ((vs : List Value) (w : Value) → HoldsArgs self.old vs → IsValueOf literal w → HoldsArgs self.new (vs ++ w ∷ [])) }
        ensures rest { self.new.rest ≡ self.old.rest }
    {
        match (self.passed, literal) {
            (Some(_limit), _literal) => Ok(()),
            (None, Err(limit)) => {
                self.passed = Some(limit);
                Ok(())
            }
            (None, Ok(value)) => self.row.push(value),
        }
    }

    /// The literal that has to come next, or the limit that it passes.
    fn literal(&mut self, alloc: Global) -> Result<Result<Value, LimitName>, ParseErr>
        requires { ArePrintable (symbols_in self.old.rest.now) }
        ensures gives { GivesLiteral result (symbols_in self.new.rest.now) (literal_at (symbols_in self.old.rest.now)) }
        ensures kept { (self.new.row ≡ self.old.row) × (self.new.passed ≡ self.old.passed) }
        ensures shrinks { OnOk result (length self.new.rest.now < length self.old.rest.now) }
        ensures printable { OnOk result (ArePrintable (symbols_in self.new.rest.now)) }
    {
        match self.rest {
            [Lexeme::Int(n), rest @ ..] => {
                self.rest = rest;
                Ok(number(false, *n))
            }
            [Lexeme::Sign(Sign::Minus), Lexeme::Int(n), rest @ ..] => {
                self.rest = rest;
                Ok(number(true, *n))
            }
            [Lexeme::Text(quoted), rest @ ..] => {
                self.rest = rest;
                Ok(text(alloc, quoted)?)
            }
            _ => Err(ParseErr::Syntax),
        }
    }

    /// Takes the literal that has to come next.
    fn take(&mut self, alloc: Global) -> Result<(), ParseErr>
        requires { ArePrintable (symbols_in self.old.rest.now) }
        ensures ok { OnOk result (IsTaken self.old self.new) }
        ensures err { IfErr result (λ e. FailsToRead e (literal_at (symbols_in self.old.rest.now))) }
    {
        let item = self.literal(alloc)?;
        self.keep(item)?;
        Ok(())
    }

    /// Takes the comma that comes next, if one does.
    fn skip_comma(&mut self) -> bool
        ensures comma { comma_at (symbols_in self.old.rest.now) ≡ (if result then Some (symbols_in self.new.rest.now) else None) }
        ensures kept { (self.new.row ≡ self.old.row) × (self.new.passed ≡ self.old.passed) }
        ensures shrinks { IsTrue result → length self.new.rest.now < length self.old.rest.now }
        ensures stays { result ≡ false → self.new ≡ self.old }
    {
        match self.rest {
            [Lexeme::Sign(Sign::Comma), rest @ ..] => {
                self.rest = rest;
                true
            }
            _ => false,
        }
    }

    /// All of them where the parenthesis that ends the row is left, or the first limit that one passes.
    fn close(self) -> Result<Result<Row, LimitName>, ParseErr>
        ensures { (vs : List Value) → HoldsArgs self.entry vs → GivesOrLimit (first_in value_passed) result (closed_at vs (symbols_in self.entry.rest.now)) }
    {
        let Args { rest, row, passed } = self;
        match (rest, passed) {
            ([Lexeme::Sign(Sign::Close)], None) => Ok(Ok(row)),
            ([Lexeme::Sign(Sign::Close)], Some(limit)) => Ok(Err(limit)),
            _ => Err(ParseErr::Syntax),
        }
    }
}

/// Literals with commas between them, up to the parenthesis that ends the row.
fn items<'a>(alloc: Global, tokens: &'a [Lexeme<'a>]) -> Result<Result<Row, LimitName>, ParseErr>
    requires { ArePrintable (symbols_in tokens.now) }
    ensures { GivesOrLimit (first_in value_passed) result (items_at at_item (symbols_in tokens.now)) }
{
    let mut args = Args {
        rest: tokens,
        row: Items::new(alloc),
        passed: None,
    };
    args.take(alloc)?;
    'items: while args.skip_comma() {
        args.take(alloc)?;
    }
    args.close()
}

/// What stands behind the opening parenthesis of a call.
pub fn call_args<'a>(
    alloc: Global,
    tokens: &'a [Lexeme<'a>],
) -> Result<Result<Row, LimitName>, ParseErr>
    requires { ArePrintable (symbols_in tokens.now) }
    ensures { GivesOrLimit (first_in value_passed) result (args_at (symbols_in tokens.now)) }
{
    match tokens {
        [Lexeme::Sign(Sign::Close)] => Ok(Ok(Items::new(alloc))),
        _ => items(alloc, tokens),
    }
}
