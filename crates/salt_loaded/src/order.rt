//! Where rows stand among bytes, and the order of their keys.

ghost use Rattle.salt_loaded.specs.Keys.{key_told};
ghost use Rattle.salt_loaded.specs.Order.{spot_against, spot_order, spot_text};
ghost use Rattle.salt_loaded.specs.Spots.{spot_with};
ghost use Rattle.std.specs.Prelude.{◌≡◌};

use crate::key::{KeyIn, key_text};
use salt_values::{Key, Value};
use std::cmp::Ordering;

/// The kinds of keys, in their order.
pub const NUMBER: u8 = 0;

pub const TEXT: u8 = 1;

pub const NULL: u8 = 2;

/// Where a row stands among bytes, and what tells its key from most others without a look at the bytes.
#[derive(Clone, Copy, Debug)]
pub struct Spot {
    /// The key, where it is a number, and else 0.
    pub number: i64,
    pub at: u32,
    pub kind: u8,
}

/// The spot of a row with this key, which stands there.
pub fn spot_of(key: &KeyIn<'_>, at: u32) -> Spot
    ensures { result ≡ spot_with (key_told key.now) at }
{
    match key {
        KeyIn::Number(number) => Spot {
            number: *number,
            at,
            kind: NUMBER,
        },
        KeyIn::Text(_) => Spot {
            number: 0,
            at,
            kind: TEXT,
        },
        KeyIn::Null => Spot {
            number: 0,
            at,
            kind: NULL,
        },
    }
}

/// The bytes of the text that is the key of a spot's row; none where it is none.
fn spot_text<'a>(bytes: &'a [u8], spot: &Spot) -> &'a [u8]
    ensures { result.now ≡ spot_text bytes.now spot.now }
{
    let at = spot.at as usize;
    if spot.kind == TEXT && at <= bytes.len() {
        key_text(&bytes[at..])
    } else {
        &[]
    }
}

/// Two spots by the keys of their rows.
#[inline(always)]
pub fn spot_cmp(bytes: &[u8], a: &Spot, b: &Spot) -> Ordering
    ensures { result ≡ spot_order bytes.now a.now b.now }
{
    if a.kind != b.kind {
        return a.kind.cmp(&b.kind);
    }
    let numbers = a.number.cmp(&b.number);
    if a.kind == TEXT && numbers.is_eq() {
        spot_text(bytes, a).cmp(spot_text(bytes, b))
    } else {
        numbers
    }
}

/// The key of a spot's row against another one.
pub fn spot_against(bytes: &[u8], spot: &Spot, key: &Key) -> Ordering
    ensures { result ≡ spot_against bytes.now spot.now key.now }
{
    match key {
        Value::Int(number) => spot.kind.cmp(&NUMBER).then(spot.number.cmp(number)),
        Value::Text(text) if spot.kind == TEXT => spot_text(bytes, spot).cmp(text.as_bytes()),
        Value::Text(_) => spot.kind.cmp(&TEXT),
        Value::Null => spot.kind.cmp(&NULL),
    }
}
