//! What each partition has of a unit's changes.

ghost use Rattle.salt_commit.specs.Shares.{mask_of, shares_of};
ghost use Rattle.salt_stands.specs.Partition.{part_of_key};
ghost use Rattle.salt_stands.specs.Placed.{changes_at};
ghost use Rattle.salt_place.specs.Placement.{GivesPlaceOf, IsParts, TakesEachKey};
ghost use Rattle.std.specs.Prelude.{IfOk, length, ◌<◌, ◌^◌, ◌≡◌, ◌≤◌};

use salt_place::{PlaceKind, Placement, Shape};
use salt_values::{Change, Changes, Key, TryCopy, Value};
use sqlite_items::Items;
use std::alloc::{AllocError, Global};

/// The partition of a key. NULL, which is no key, counts as of the first.
pub fn part_of<F: Fn(PlaceKind, &Key, u32) -> u32>(
    place: &Placement<F>,
    shape: Shape,
    key: &Key,
) -> u32
    requires callable { TakesEachKey (F.pre place.now.place) }
    requires answers { GivesPlaceOf (F.post place.now.place) }
    requires parts { IsParts shape.parts }
    ensures part { result ≡ part_of_key shape key.now }
    ensures below { result < shape.parts }
{
    key.told();
    match key {
        Value::Null => 0,
        _ => place.of(shape, key),
    }
}

/// The changes of one partition, in order.
fn share<F: Fn(PlaceKind, &Key, u32) -> u32>(
    alloc: Global,
    place: &Placement<F>,
    shape: Shape,
    part: u32,
    changes: &[Change],
) -> Result<Changes, AllocError>
    requires callable { TakesEachKey (F.pre place.now.place) }
    requires answers { GivesPlaceOf (F.post place.now.place) }
    requires parts { IsParts shape.parts }
    ensures { IfOk result (λ own. own ≡ changes_at shape part changes.now) }
{
    let mut own = Items::new(alloc);
    for change in changes {
        if part_of(place, shape, &change.key) == part {
            own.push(change.copy(alloc)?)?;
        }
    }
    Ok(own)
}

/// The changes of each partition, in order of their numbers.
pub fn shares_of<F: Fn(PlaceKind, &Key, u32) -> u32>(
    alloc: Global,
    place: &Placement<F>,
    shape: Shape,
    changes: &[Change],
) -> Result<Vec<Changes>, AllocError>
    requires callable { TakesEachKey (F.pre place.now.place) }
    requires answers { GivesPlaceOf (F.post place.now.place) }
    requires parts { IsParts shape.parts }
    ensures { IfOk result (λ shares. shares.items ≡ shares_of shape changes.now) }
{
    let mut shares = Vec::new(alloc);
    for part in 0..u32::from(shape.parts) {
        let own = share(alloc, place, shape, part, changes)?;
        shares.push(own)?;
    }
    Ok(shares)
}

/// The number with bit p set exactly where the share at p has changes.
pub fn mask_of(shares: &[Changes]) -> u8
    requires { length shares.now ≤ 8 }
    ensures mask { result ≡ mask_of shares.now }
    ensures small { result < 2 ^ length shares.now }
{
    match shares {
        [] => 0,
        [first, rest @ ..] => u8::from(!first.is_empty()) + 2 * mask_of(rest),
    }
}
