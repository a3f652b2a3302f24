//! Sets of units.

ghost use Rattle.salt_values.specs.Id.{has_id};
ghost use Rattle.salt_partition.specs.Contents.{units_of};
ghost use Rattle.salt_stands.specs.Pieces.{is_prepared_in};
ghost use Rattle.salt_values.specs.declared.id.Id.{Id};
ghost use Rattle.std.specs.Prelude.{IfOk, ◌≡◌};

use salt_codec::PreparedUnit;
use salt_values::Id;
use std::alloc::{AllocError, Global};
use std::collections::BTreeSet;

/// Whether a unit is in the set.
pub fn is_in(set: &BTreeSet<Id>, id: Id) -> bool
    ensures { result ≡ has_id id set.now.keys }
{
    set.contains(&id)
}

/// These units.
pub fn set_of(alloc: Global, ids: &[Id]) -> Result<BTreeSet<Id>, AllocError>
    ensures { IfOk result (λ set. (q : Id) → has_id q set.keys ≡ has_id q ids.now) }
{
    let mut set = BTreeSet::new(alloc);
    for id in ids {
        set.insert(*id)?;
    }
    Ok(set)
}

/// The units that are prepared.
pub fn prepared_set(alloc: Global, units: &[PreparedUnit]) -> Result<BTreeSet<Id>, AllocError>
    ensures { IfOk result (λ set. (q : Id) → has_id q set.keys ≡ is_prepared_in q (units_of units.now)) }
{
    let mut set = BTreeSet::new(alloc);
    for prepared in units {
        set.insert(prepared.unit)?;
    }
    Ok(set)
}
