//! Ranges whose keys all stand in one partition.

ghost use Rattle.salt_place.specs.OneParts.{are_together, band, is_one_band, one_part, part_of_ends};
ghost use Rattle.salt_ranges.specs.Ranges.{has_key};
ghost use Rattle.salt_place.specs.Placement.{GivesPlaceOf, IsParts, TakesEachKey, place_of};
ghost use Rattle.salt_values.specs.Value.{IsKey};
ghost use Rattle.salt_values.specs.declared.value.Value.{Value};
ghost use Rattle.std.specs.Prelude.{IfSome, true, ℕ, ◌<◌, ◌≡◌};

use crate::placement::{PlaceKind, Placement, Shape};
use salt_ranges::KeyRange;
use salt_values::{Key, Value};

/// Whether two keys are numbers of one band of 1,024.
fn is_one_band(lo: &Key, hi: &Key) -> bool
    ensures { result ≡ is_one_band lo.now hi.now }
{
    match (lo, hi) {
        (Value::Int(lo), Value::Int(hi)) => lo.div_euclid(1024) == hi.div_euclid(1024),
        _ => false,
    }
}

/// Whether the ends of a range tell that its keys stand together: they are equal, or one band.
fn are_together(kind: PlaceKind, lo: &Key, hi: &Key) -> bool
    ensures { result ≡ are_together kind lo.now hi.now }
{
    match kind {
        PlaceKind::Remainder => lo == hi,
        PlaceKind::Bands => lo == hi || is_one_band(lo, hi),
    }
}

/// The partition of a lower end. NULL, which is no key, counts as of the first.
fn part_of_low<F: Fn(PlaceKind, &Key, u32) -> u32>(
    place: &Placement<F>,
    shape: Shape,
    lo: &Key,
) -> u32
    requires callable { TakesEachKey (F.pre place.now.place) }
    requires answers { GivesPlaceOf (F.post place.now.place) }
    requires parts { IsParts shape.parts }
    ensures part { result ≡ place_of shape.kind lo.now shape.parts }
    ensures below { result < shape.parts }
{
    lo.told();
    match lo {
        Value::Null => 0,
        _ => place.of(shape, lo),
    }
}

/// The partition in which each key of a range stands, where the range alone tells it: there is one partition, the ends are
/// equal, or under bands they are numbers of one band. `None` for every other range, and for one that is empty. Of the
/// partitions there are, no other has a key of the range, whatever is taken for one.
pub fn one_part<F: Fn(PlaceKind, &Key, u32) -> u32>(
    place: &Placement<F>,
    shape: Shape,
    range: &KeyRange,
) -> Option<u32>
    requires callable { TakesEachKey (F.pre place.now.place) }
    requires answers { GivesPlaceOf (F.post place.now.place) }
    requires parts { IsParts shape.parts }
    ensures part { result ≡ one_part shape range.now }
    ensures each { IfSome result (λ part. (key : Value) → IsKey key → has_key range.now key ≡ true → place_of shape.kind key shape.parts ≡ part) }
    ensures below { IfSome result (λ part. part < shape.parts) }
    ensures alone { IfSome result (λ part. (key : Value) (p : ℕ) → p < shape.parts → has_key range.now key ≡ true → place_of shape.kind key shape.parts ≡ p → p ≡ part) }
{
    if range.is_empty() {
        return None;
    }
    if shape.parts == 1 {
        return Some(0);
    }
    match (&range.lo, &range.hi) {
        (Some(lo), Some(hi)) if are_together(shape.kind, lo, hi) => {
            Some(part_of_low(place, shape, lo))
        }
        _ => None,
    }
}
