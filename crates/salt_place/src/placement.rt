//! Which partition a row stands in.

ghost use Rattle.std.specs.Prelude.{◌≡◌, ◌<◌, ◌≤◌, length, sum};
ghost use Rattle.salt_values.specs.Value.{IsKey};
ghost use Rattle.salt_place.specs.Placement.{GivesPlaceOf, IsParts, TakesEachKey, band_of, place_of, remainder};

use salt_values::limits::TEXT_MOST;
use salt_values::{Key, Value};

/// How rows are spread over partitions, by their keys.
#[derive(Clone, Copy, Debug, PartialEq, Eq)]
pub enum PlaceKind {
    /// A number goes by its remainder, a text by the sum of its bytes.
    Remainder,
    /// Each 1,024 numbers stay together; a text goes by its first byte.
    Bands,
}

/// How many partitions there are, 1 to 8, and how rows are spread over them.
#[derive(Clone, Copy, Debug, PartialEq, Eq)]
pub struct Shape {
    pub parts: u8,
    pub kind: PlaceKind,
}

/// A caller's closure that says which partition a key's row stands in. That it may be called at each kind, each key and
/// 1 to 8 parts, and then gives `place_of`, is a condition of each call that uses it.
#[derive(Drop)]
pub struct Placement<F: Fn(PlaceKind, &Key, u32) -> u32> {
    pub place: F,
}

impl<F: Fn(PlaceKind, &Key, u32) -> u32> Placement<F> {
    /// Keeps a closure that answers `place_of`.
    pub fn new(place: F) -> Placement<F>
        requires callable { TakesEachKey (F.pre place) }
        requires answers { GivesPlaceOf (F.post place) }
        ensures { result.place ≡ place }
    {
        Placement { place }
    }

    /// The partition of a key's row, below the shape's parts.
    pub fn of(&self, shape: Shape, key: &Key) -> u32
        requires callable { TakesEachKey (F.pre self.now.place) }
        requires answers { GivesPlaceOf (F.post self.now.place) }
        requires key { IsKey key.now }
        requires parts { IsParts shape.parts }
        ensures place { result ≡ place_of shape.kind key.now shape.parts }
        ensures below { result < shape.parts }
    {
        (self.place)(shape.kind, key, u32::from(shape.parts))
    }
}

/// The partition below `parts` in which a key's row stands. A key is never NULL.
pub fn place_of(kind: PlaceKind, key: &Key, parts: u32) -> u32
    requires { IsParts parts }
    ensures place { result ≡ place_of kind key.now parts }
    ensures below { result < parts }
{
    key.told();
    match (kind, key) {
        (PlaceKind::Remainder, Value::Int(number)) => remainder(*number, parts),
        (PlaceKind::Remainder, Value::Text(text)) => byte_sum(text.as_bytes()) % parts,
        (PlaceKind::Bands, Value::Int(number)) => remainder(number.div_euclid(1024), parts),
        (PlaceKind::Bands, Value::Text(text)) => band(text.as_bytes(), parts),
        (_, Value::Null) => 0,
    }
}

fn remainder(number: i64, parts: u32) -> u32
    requires { IsParts parts }
    ensures { result ≡ remainder number parts }
{
    number.rem_euclid(i64::from(parts)) as u32
}

fn byte_sum(bytes: &[u8]) -> u32
    requires { length bytes.now ≤ TEXT_MOST }
    ensures { result ≡ sum bytes.now }
{
    bytes.iter().map(|b| u32::from(*b)).sum()
}

fn band(bytes: &[u8], parts: u32) -> u32
    requires { IsParts parts }
    ensures { result ≡ band_of bytes.now parts }
{
    match bytes {
        [] => 0,
        [first, ..] => u32::from(first.saturating_sub(32)) * parts / 95,
    }
}
