//! The key of a row that is spelled in bytes.

ghost use Rattle.salt_bytes.specs.Numbers.{take_64};
ghost use Rattle.salt_loaded.specs.Keys.{key_text, key_told, text_in};
ghost use Rattle.salt_loaded.specs.Spots.{is_spelled, row_in};
ghost use Rattle.salt_values.specs.Value.{key_of, value_cmp};
ghost use Rattle.std.specs.Int.{cast_signed, w64};
ghost use Rattle.std.specs.Prelude.{List, Some, true, ℕ, ◌≡◌};

use salt_values::{Key, Value};
use std::cmp::Ordering;

/// The key of a row, of which nothing is copied.
#[derive(Drop)]
pub enum KeyIn<'a> {
    Number(i64),
    Text(&'a [u8]),
    Null,
}

/// The number that is spelled at the front of bytes; 0 where none is.
fn number_in(bytes: &[u8]) -> i64
    ensures { (number : ℕ) (rest : List ℕ) → take_64 bytes.now ≡ Some (number, rest) → result ≡ cast_signed w64 number }
{
    match bytes {
        [a, b, c, d, e, f, g, h, ..] => i64::from_be_bytes([*a, *b, *c, *d, *e, *f, *g, *h]),
        _ => 0,
    }
}

/// The bytes of the text that is spelled behind its length at the front of bytes; none where none is.
fn text_in(bytes: &[u8]) -> &[u8]
    ensures { result.now ≡ text_in bytes.now }
{
    let [count, rest @ ..] = bytes else {
        return &[];
    };
    let count = *count as usize;
    if count <= rest.len() {
        &rest[..count]
    } else {
        &[]
    }
}

/// The key of the row at the front of bytes.
#[inline(always)]
pub fn key_in(row: &[u8]) -> KeyIn<'_>
    requires { is_spelled row.now ≡ true }
    ensures { key_told result ≡ key_of (row_in row.now) }
{
    let [_, kind, rest @ ..] = row else {
        return KeyIn::Null;
    };
    match *kind {
        1 => KeyIn::Number(number_in(rest)),
        2 => KeyIn::Text(text_in(rest)),
        _ => KeyIn::Null,
    }
}

/// The bytes of the text that is the key of the row at the front of bytes; none where it is none.
pub fn key_text(row: &[u8]) -> &[u8]
    ensures { result.now ≡ key_text row.now }
{
    let [_, kind, rest @ ..] = row else {
        return &[];
    };
    if *kind == 2 { text_in(rest) } else { &[] }
}

/// The key of a row against another one. Nothing is made of it.
#[inline(always)]
pub fn key_cmp(key: &KeyIn<'_>, other: &Key) -> Ordering
    ensures { result ≡ value_cmp (key_told key.now) other.now }
{
    match (key, other) {
        (KeyIn::Number(number), Value::Int(other)) => number.cmp(other),
        (KeyIn::Number(_), _) => Ordering::Less,
        (KeyIn::Text(_), Value::Int(_)) => Ordering::Greater,
        (KeyIn::Text(text), Value::Text(other)) => (*text).cmp(other.as_bytes()),
        (KeyIn::Text(_), Value::Null) => Ordering::Less,
        (KeyIn::Null, Value::Null) => Ordering::Equal,
        (KeyIn::Null, _) => Ordering::Greater,
    }
}
