//! What an expression gives, in words.

use salt_ast::{Expr, Op};
use salt_exprs::{EvalErr, Resolved, Truth};
use salt_model::Cause;
use salt_values::{Row, Value};
use std::alloc::{AllocError, Global};

fn add_text(out: &mut Vec<u8>, text: &[u8]) -> Result<(), AllocError> {
    out.push(b'\'')?;
    for byte in text {
        if *byte == b'\'' {
            out.push(b'\'')?;
        }
        out.push(*byte)?;
    }
    out.push(b'\'')?;
    Ok(())
}

fn add_value(alloc: Global, out: &mut Vec<u8>, value: &Value) -> Result<(), AllocError> {
    match value {
        Value::Int(number) => {
            let text = format!(in alloc; "{number}")?;
            out.extend_from_slice(text.as_bytes())
        }
        Value::Text(text) => add_text(out, text.as_bytes()),
        Value::Null => out.extend_from_slice(b"null"),
    }
}

fn value_words(alloc: Global, value: &Value) -> Result<Vec<u8>, AllocError> {
    let mut out = Vec::new(alloc);
    add_value(alloc, &mut out, value)?;
    Ok(out)
}

/// The values of a row, between blanks.
pub fn row_words(alloc: Global, row: &[Value]) -> Result<Vec<u8>, AllocError> {
    let mut out = Vec::new(alloc);
    for value in row {
        if !out.is_empty() {
            out.push(b' ')?;
        }
        add_value(alloc, &mut out, value)?;
    }
    Ok(out)
}

fn truth_word(truth: Truth) -> &'static [u8] {
    match truth {
        Truth::Yes => b"true",
        Truth::No => b"false",
        Truth::Unknown => b"unknown",
    }
}

fn cause_word(cause: Cause) -> &'static [u8] {
    match cause {
        Cause::Duplicate => b"duplicate",
        Cause::Check => b"check",
        Cause::Missing => b"missing",
        Cause::Ensure => b"ensure",
        Cause::Overflow => b"overflow",
        Cause::TooLong => b"too long",
    }
}

/// A cause in words; want of memory has none.
pub fn cause_words(alloc: Global, err: EvalErr) -> Result<Vec<u8>, AllocError> {
    match err {
        EvalErr::Cause(cause) => Vec::from_slice(alloc, cause_word(cause)),
        EvalErr::Memory => Err(AllocError),
    }
}

/// Whether something holds, in a word, or the cause.
pub fn bool_words(alloc: Global, held: Result<bool, EvalErr>) -> Result<Vec<u8>, AllocError> {
    match held {
        Ok(true) => Vec::from_slice(alloc, b"holds"),
        Ok(false) => Vec::from_slice(alloc, b"does not hold"),
        Err(err) => cause_words(alloc, err),
    }
}

/// Whether an expression is a condition, and no value.
fn is_condition(expr: &Expr) -> bool {
    match expr {
        Expr::Lit(_) | Expr::Column(_) | Expr::Variable(_) => false,
        Expr::Not(_) | Expr::IsNull { .. } => true,
        Expr::Binary { op, .. } => !matches!(op, Op::Add | Op::Sub | Op::Mul | Op::Join),
    }
}

/// What an expression gives of a row, in words.
pub fn given_words(
    alloc: Global,
    expr: &Expr,
    resolved: &Resolved<'_>,
    row: &Row,
) -> Result<Vec<u8>, AllocError> {
    if is_condition(expr) {
        return match resolved.truth(alloc, row) {
            Ok(truth) => Vec::from_slice(alloc, truth_word(truth)),
            Err(err) => cause_words(alloc, err),
        };
    }
    match resolved.value(alloc, row) {
        Ok(value) => value_words(alloc, &value),
        Err(err) => cause_words(alloc, err),
    }
}
