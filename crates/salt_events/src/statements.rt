//! Statements and answers.

ghost use Rattle.std.specs.Prelude.{◌≡◌, ◌≤◌, IfOk, MatchOption, None, Some, length};
ghost use Rattle.law_definitions.specs.Texts.{statement_in};
ghost use Rattle.salt_events.specs.Reading.{answer_in, cell_in, cut_at, cut_before, rows_in, value_in};
ghost use Rattle.law_texts.specs.Arrow.{behind_arrow};

use crate::fronts::behind;
use crate::parts::{cause, whole_number};
use crate::values::{row, value};
use law_definitions::statements_are_read;
use salt_ast::{Statement, canonical_statement, print_statement, same_bytes};
use salt_model::Answer;
use salt_parse::{ParseErr, one_statement, read_statement, row_statement};
use salt_values::{Rows, Value};
use sqlite_items::Items;
use std::alloc::{AllocError, Global};

/// What stands behind the first arrow outside quotes.
pub fn behind_arrow(bytes: &[u8]) -> &[u8]
    ensures { result.now ≡ behind_arrow bytes.now }
{
    let mut inside = false;
    let mut dash = false;
    let mut left = bytes;
    while !left.is_empty() {
        let [first, rest @ ..] = left else {
            break;
        };
        left = rest;
        if dash && !inside && *first == b'>' {
            return left;
        }
        dash = !inside && *first == b'-';
        inside = inside != (*first == b'\'');
    }
    left
}

fn cut<'a>(count: usize, bytes: &'a [u8], rest: &[u8]) -> Option<&'a [u8]>
    requires { count ≤ length bytes.now }
    ensures { MatchOption result (cut_at count bytes.now rest.now ≡ None) (λ r. cut_at count bytes.now rest.now ≡ Some r.now) }
{
    let after = behind(b" ->", &bytes[count..])?;
    if !same_bytes(after, rest) {
        return None;
    }
    Some(&bytes[..count])
}

/// What stands before an arrow and these bytes.
pub fn before_arrow<'a>(bytes: &'a [u8], rest: &[u8]) -> Option<&'a [u8]>
    ensures { MatchOption result (cut_before bytes.now rest.now ≡ None) (λ r. cut_before bytes.now rest.now ≡ Some r.now) }
{
    let count = bytes.len().saturating_sub(rest.len() + 3);
    cut(count, bytes, rest)
}

/// The statement whose canonical text the bytes are.
pub fn statement(alloc: Global, bytes: &[u8]) -> Result<Option<Statement>, AllocError>
    ensures { IfOk result (λ r. r ≡ statement_in bytes.now) }
{
    statements_are_read();
    canonical_statement();
    one_statement();
    row_statement();
    match read_statement(alloc, bytes) {
        Ok(statement) => {
            let mut text = Vec::new(alloc);
            print_statement(&mut text, &statement)?;
            if !same_bytes(text.as_slice(), bytes) {
                return Ok(None);
            }
            Ok(Some(statement))
        }
        Err(ParseErr::Memory) => Err(AllocError),
        Err(ParseErr::Syntax) => Ok(None),
        Err(ParseErr::Limit(_limit)) => Ok(None),
    }
}

fn whole_value(alloc: Global, bytes: &[u8]) -> Result<Option<Value>, AllocError>
    ensures { IfOk result (λ r. r ≡ value_in bytes.now) }
{
    let Some((value, rest)) = value(alloc, bytes)? else {
        return Ok(None);
    };
    if !rest.is_empty() {
        return Ok(None);
    }
    Ok(Some(value))
}

fn cell(alloc: Global, bytes: &[u8]) -> Result<Option<Option<Value>>, AllocError>
    ensures { IfOk result (λ r. r ≡ cell_in bytes.now) }
{
    if same_bytes(bytes, b"none") {
        return Ok(Some(None));
    }
    let Some(value) = whole_value(alloc, bytes)? else {
        return Ok(None);
    };
    Ok(Some(Some(value)))
}

fn rows(alloc: Global, bytes: &[u8]) -> Result<Option<Rows>, AllocError>
    ensures { IfOk result (λ r. r ≡ rows_in bytes.now) }
{
    let mut list = Items::new(alloc);
    let mut left = bytes;
    let mut most = bytes.len();
    while most > 0 {
        let [first, rest @ ..] = left else {
            break;
        };
        if *first != b' ' {
            return Ok(None);
        }
        let Some((part, rest)) = row(alloc, rest)? else {
            return Ok(None);
        };
        list.push(part)?;
        left = rest;
        most -= 1;
    }
    if !left.is_empty() {
        return Ok(None);
    }
    Ok(Some(list))
}

/// What a statement answers.
pub fn answer(alloc: Global, bytes: &[u8]) -> Result<Option<Answer>, AllocError>
    ensures { IfOk result (λ r. r ≡ answer_in bytes.now) }
{
    if let Some(rest) = behind(b"count ", bytes) {
        let Some(count) = whole_number(rest) else {
            return Ok(None);
        };
        return Ok(Some(Answer::Count(count)));
    }
    if let Some(rest) = behind(b"rows", bytes) {
        let Some(rows) = rows(alloc, rest)? else {
            return Ok(None);
        };
        return Ok(Some(Answer::Rows(rows)));
    }
    if let Some(rest) = behind(b"value ", bytes) {
        let Some(cell) = cell(alloc, rest)? else {
            return Ok(None);
        };
        return Ok(Some(Answer::Cell(cell)));
    }
    if let Some(rest) = behind(b"stored ", bytes) {
        let Some(value) = whole_value(alloc, rest)? else {
            return Ok(None);
        };
        return Ok(Some(Answer::Stored(value)));
    }
    if let Some(rest) = behind(b"failed ", bytes) {
        let Some(cause) = cause(rest) else {
            return Ok(None);
        };
        return Ok(Some(Answer::Failed(cause)));
    }
    if same_bytes(bytes, b"true") {
        return Ok(Some(Answer::Held));
    }
    Ok(None)
}
