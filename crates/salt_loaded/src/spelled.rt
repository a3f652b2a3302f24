//! Values of a row that is spelled in bytes.

ghost use Rattle.salt_bytes.specs.Taking.{take_byte, take_bytes, then_take};
ghost use Rattle.salt_bytes.specs.Values.{take_row, take_value};
ghost use Rattle.salt_loaded.specs.Spelled.{IsColumnAt, LeavesValue};
ghost use Rattle.salt_values.specs.declared.value.Value.{Value};
ghost use Rattle.std.specs.Option.{option_copied};
ghost use Rattle.std.specs.Prelude.{IfOk, List, Some, true, ℕ, ◌≡◌};

use salt_codec::take::{take_row_from, take_value};
use salt_values::{Row, Value};
use std::alloc::{AllocError, Global};

/// The bytes behind so many.
fn behind(bytes: &[u8], count: usize) -> Option<&[u8]>
    ensures { (front rest : List ℕ) → take_bytes count bytes.now ≡ Some (front, rest) → option_copied result ≡ Some rest }
{
    if count <= bytes.len() {
        Some(&bytes[count..])
    } else {
        None
    }
}

/// The bytes behind the text that is spelled behind its length.
fn behind_text(bytes: &[u8]) -> Option<&[u8]>
    ensures { (text rest : List ℕ) → then_take take_byte take_bytes bytes.now ≡ Some (text, rest) → option_copied result ≡ Some rest }
{
    let [count, rest @ ..] = bytes else {
        return None;
    };
    behind(rest, *count as usize)
}

/// The bytes behind the value at the front of bytes: of what it spells nothing is made.
pub fn behind_value(bytes: &[u8]) -> Option<&[u8]>
    ensures { LeavesValue bytes.now (option_copied result) }
{
    let [kind, rest @ ..] = bytes else {
        return None;
    };
    match *kind {
        0 => Some(rest),
        1 => behind(rest, 8),
        2 => behind_text(rest),
        _ => None,
    }
}

/// The bytes from the column of this number on, in a row that is spelled at the front of bytes; none where the row ends before it.
pub fn column_in(row: &[u8], number: usize) -> Option<&[u8]>
    ensures { (r : List Value) (rest : List ℕ) → take_row true row.now ≡ Some (r, rest) → IsColumnAt r number (option_copied result) }
{
    let [count, values @ ..] = row else {
        return None;
    };
    if (*count as usize) <= number {
        return None;
    }
    let mut rest = values;
    for _passed in 0..number {
        let Some(behind) = behind_value(rest) else {
            return None;
        };
        rest = behind;
    }
    Some(rest)
}

/// The value that is spelled at the front of bytes. Where none is, as where memory runs out.
pub fn value_in(alloc: Global, bytes: &[u8]) -> Result<Value, AllocError>
    ensures { IfOk result (λ value. (rest : List ℕ) × take_value true bytes.now ≡ Some (value, rest)) }
{
    match take_value(alloc, true, bytes) {
        Ok((value, _rest)) => Ok(value),
        Err(_) => Err(AllocError),
    }
}

/// The row that is spelled at the front of bytes. Where none is, as where memory runs out.
pub fn row_in(alloc: Global, bytes: &[u8]) -> Result<Row, AllocError>
    ensures { IfOk result (λ row. (rest : List ℕ) × take_row true bytes.now ≡ Some (row, rest)) }
{
    match take_row_from(alloc, true, bytes) {
        Ok((row, _rest)) => Ok(row),
        Err(_) => Err(AllocError),
    }
}
