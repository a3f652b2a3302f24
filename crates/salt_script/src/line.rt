//! From the bytes of a line to its tree.

ghost use Rattle.std.specs.Prelude.{◌≡◌, Err, IfOk};
ghost use Rattle.std.specs.List.{list_all};
ghost use Rattle.salt_ast.specs.ProgramLimits.{line_limit, number_passed, outside};
ghost use Rattle.salt_values.specs.declared.limits.TheConstants.{SESSION_MOST};
ghost use Rattle.salt_ast.specs.Spelling.{IsLineWithinLimits, LinePasses, SpellsLine};
ghost use Rattle.salt_ast.specs.declared.limit.LimitName.{LimitName};
ghost use Rattle.salt_ast.specs.declared.lines.Line.{Line};
ghost use Rattle.salt_model.specs.Lines.{Asks, begins_comment, does_nothing, is_line_byte};
ghost use Rattle.salt_model.specs.Trace.{Rejected, Tree};
ghost use Rattle.salt_model.specs.declared.events.Refusal.{Refusal};
ghost use Rattle.salt_parse.specs.Settling.{ArePrintable, Settles};
ghost use Rattle.salt_parse.specs.declared.error.ParseErr.TheVariants.{Limit, Syntax};
ghost use Rattle.salt_script.specs.Answers.{no_line, read_err};
ghost use Rattle.salt_script.specs.Forms.{a_turn, an_act, line_begins, pairs as begins_pairs};
ghost use Rattle.salt_script.specs.Spelled.{DeepLine, ShallowLine, line_arming};
ghost use Rattle.salt_script.specs.declared.error.ReadErr.TheVariants.{Refused};
ghost use Rattle.salt_ast.specs.Bytes.{is_blank};
ghost use Rattle.salt_ast.specs.Symbols.{Symbols, symbols_in};

use crate::act::act_in;
use crate::error::ReadErr;
use crate::form::{Form, line_form};
use crate::pairs::{Armed, armed_pairs};
use salt_ast::{Lexeme, LimitName, Line, Pairs, is_blank, lexemes, one_row};
use salt_model::Refusal;
use salt_parse::{ParseErr, printable_symbols, program_in, table_in};
use salt_values::Id;
use salt_values::limits::{LINE_MOST, SESSION_MOST};
use std::alloc::Global;

/// The limit that a session's number passes.
fn session_limit(session: u64) -> Option<LimitName>
    ensures { result ≡ outside 1 SESSION_MOST LimitName.Session session }
{
    if session < 1 || SESSION_MOST < session {
        Some(LimitName::Session)
    } else {
        None
    }
}

/// The line of a session's act.
fn session_line<'a>(alloc: Global, session: u64, tokens: &'a [Lexeme<'a>]) -> Result<Line, ParseErr>
    requires { ArePrintable (symbols_in tokens.now) }
    ensures { (ts : Symbols) → line_begins ts ≡ an_act session (symbols_in tokens.now) → Settles line_limit ShallowLine DeepLine ts result }
{
    match session_limit(session) {
        None => match act_in(alloc, tokens) {
            Ok(act) => Ok(Line::Session {
                session: session as u8,
                act,
            }),
            Err(e) => Err(e),
        },
        Some(limit) => match act_in(alloc, tokens) {
            Ok(_act) => Err(ParseErr::Limit(limit)),
            Err(ParseErr::Limit(_later)) => Err(ParseErr::Limit(limit)),
            Err(ParseErr::Syntax) => Err(ParseErr::Syntax),
            Err(ParseErr::Memory) => Err(ParseErr::Memory),
        },
    }
}

/// The limit that a number passes that has no limit of its own.
fn number_limit(number: u64) -> Option<LimitName>
    ensures { result ≡ number_passed number }
{
    match i64::try_from(number) {
        Ok(_fits) => None,
        Err(_outside) => Some(LimitName::Number),
    }
}

/// The line of one turn of a program.
fn turn_line(base: Id) -> Result<Line, ParseErr>
    ensures { (ts : Symbols) → line_begins ts ≡ a_turn base.boot base.seq → Settles line_limit ShallowLine DeepLine ts result }
{
    match number_limit(base.boot).or(number_limit(base.seq)) {
        None => Ok(Line::Go(base)),
        Some(limit) => Err(ParseErr::Limit(limit)),
    }
}

/// The line that arms these pairs.
fn line_of(armed: Armed, pairs: Pairs) -> Line
    ensures { result ≡ line_arming armed pairs }
{
    match armed {
        Armed::Stops => Line::Crash(pairs),
        Armed::Twists => Line::Net(pairs),
    }
}

/// The line that arms the pairs behind its first token.
fn pairs_line<'a>(alloc: Global, armed: Armed, tokens: &'a [Lexeme<'a>]) -> Result<Line, ParseErr>
    ensures { (ts : Symbols) → line_begins ts ≡ begins_pairs armed (symbols_in tokens.now) → Settles line_limit ShallowLine DeepLine ts result }
{
    if tokens.is_empty() {
        return Err(ParseErr::Syntax);
    }
    match armed_pairs(alloc, armed, tokens) {
        Ok(Ok(pairs)) => Ok(line_of(armed, pairs)),
        Ok(Err(limit)) => Err(ParseErr::Limit(limit)),
        Err(e) => Err(e),
    }
}

/// The line that the tokens spell.
///
/// `Limit` exactly where they spell one that passes a limit, with the first; `Syntax` exactly where they spell none; else `Memory`
/// where memory runs out.
fn line_in<'a>(alloc: Global, tokens: &'a [Lexeme<'a>]) -> Result<Line, ParseErr>
    requires { ArePrintable (symbols_in tokens.now) }
    ensures { Settles line_limit ShallowLine DeepLine (symbols_in tokens.now) result }
{
    match line_form(tokens) {
        Form::Table => match table_in(alloc, tokens) {
            Ok(def) => Ok(Line::Table(def)),
            Err(e) => Err(e),
        },
        Form::Program => match program_in(alloc, tokens) {
            Ok(def) => Ok(Line::Program(def)),
            Err(e) => Err(e),
        },
        Form::Session(session, rest) => session_line(alloc, session, rest),
        Form::Go(base) => turn_line(base),
        Form::GoAll => Ok(Line::GoAll),
        Form::ShowLocks => Ok(Line::ShowLocks),
        Form::ShowBases => Ok(Line::ShowBases),
        Form::Crash(rest) => pairs_line(alloc, Armed::Stops, rest),
        Form::Net(rest) => pairs_line(alloc, Armed::Twists, rest),
        Form::Other => Err(ParseErr::Syntax),
    }
}

/// The line that the tokens of the bytes spell.
fn read_tokens(alloc: Global, text: &[u8]) -> Result<Line, ParseErr>
    ensures found { IfOk result (λ line. IsLineWithinLimits text.now line) }
    ensures limit { (l : LimitName) → result ≡ Err (Limit l) → (line : Line) × SpellsLine text.now line × LinePasses text.now line l }
    ensures syntax { result ≡ Err Syntax → (line : Line) → ¬ (SpellsLine text.now line) }
{
    one_row();
    printable_symbols();
    let tokens = lexemes(alloc, text)?;
    line_in(alloc, tokens.as_slice())
}

fn are_blank(bytes: &[u8]) -> bool
    ensures { result ≡ list_all is_blank bytes.now }
{
    bytes.iter().all(|b| is_blank(*b))
}

fn begins_comment(bytes: &[u8]) -> bool
    ensures { result ≡ begins_comment bytes.now }
{
    match bytes {
        [first, second, ..] => *first == b'-' && *second == b'-',
        _ => false,
    }
}

/// Whether a line is blank or a comment.
fn does_nothing(text: &[u8]) -> bool
    ensures { result ≡ does_nothing text.now }
{
    are_blank(text) || begins_comment(text)
}

fn is_line_byte(b: u8) -> bool
    ensures { result ≡ is_line_byte b }
{
    b == b'\t' || 32 <= b && b <= 126
}

fn are_line_bytes(bytes: &[u8]) -> bool
    ensures { result ≡ list_all is_line_byte bytes.now }
{
    bytes.iter().all(|b| is_line_byte(*b))
}

/// The refusal of a line that spells none: a byte that no line holds comes before the grammar.
fn no_line(text: &[u8]) -> Refusal
    ensures { result ≡ no_line (list_all is_line_byte text.now) }
{
    if are_line_bytes(text) {
        Refusal::Syntax
    } else {
        Refusal::Byte
    }
}

/// Why a line gives none that has no tree.
fn read_err(text: &[u8], e: ParseErr) -> ReadErr
    ensures { result ≡ read_err (list_all is_line_byte text.now) e }
{
    match e {
        ParseErr::Syntax => ReadErr::Refused(no_line(text)),
        ParseErr::Limit(limit) => ReadErr::Refused(Refusal::Limit(limit)),
        ParseErr::Memory => ReadErr::Memory,
    }
}

/// The line that the bytes spell; the time is linear in the bytes.
///
/// `Refused` where the text alone refuses the line: it has more than 65,536 bytes, or a byte that no line holds, is outside the grammar,
/// or passes a limit, in this order (`docs/SCRIPT.md`). `Memory` where memory runs out.
pub fn read_line(alloc: Global, text: &[u8]) -> Result<Line, ReadErr>
    ensures line { IfOk result (λ line. Asks text.now (Tree line)) }
    ensures refused { (r : Refusal) → result ≡ Err (Refused r) → Asks text.now (Rejected r) }
{
    if LINE_MOST < text.len() {
        return Err(ReadErr::Refused(Refusal::Long));
    }
    if does_nothing(text) {
        return Ok(Line::Nothing);
    }
    match read_tokens(alloc, text) {
        Ok(line) => Ok(line),
        Err(e) => Err(read_err(text, e)),
    }
}
