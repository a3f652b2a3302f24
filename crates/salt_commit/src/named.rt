//! Which units are decided in a partition.

ghost use Rattle.salt_commit.specs.Openings.{named_units};
ghost use Rattle.salt_stands.specs.Words.{has_bit};
ghost use Rattle.std.specs.Prelude.{IfOk, length, ◌<◌, ◌≡◌};

use salt_values::{Id, Ids};
use sqlite_items::Items;
use std::alloc::{AllocError, Global};

fn has_bit(mask: u8, part: u8) -> bool
    requires { part < 8 }
    ensures { result ≡ has_bit mask part }
{
    (mask >> part) % 2 == 1
}

/// The units whose mask has a partition's bit, in their order.
pub fn units_in_part(alloc: Global, units: &[Id], masks: &[u8], part: u8) -> Result<Ids, AllocError>
    requires part { part < 8 }
    requires each { length masks.now ≡ length units.now }
    ensures { IfOk result (λ ids. ids ≡ named_units part units.now masks.now) }
{
    let mut ids = Items::new(alloc);
    for number in 0..units.len() {
        if has_bit(masks[number], part) {
            ids.push(units[number])?;
        }
    }
    Ok(ids)
}
