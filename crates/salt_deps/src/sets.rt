//! Sets of names, and steps of a walk.

ghost use Rattle.salt_values.specs.Id.{has_id};
ghost use Rattle.salt_deps.specs.Walks.{SeesName, SeesAll};
ghost use Rattle.law_states.specs.Rising.{Rising};
ghost use Rattle.salt_values.specs.declared.id.Id.{Id};
ghost use Rattle.std.specs.Prelude.{◌≡◌, ◌&&◌, IfOk, OnOk, not};

use salt_values::Id;
use std::alloc::{AllocError, Global};
use std::collections::BTreeSet;

/// Whether the name is in the set.
pub fn is_in(set: &BTreeSet<Id>, name: Id) -> bool
    ensures { result ≡ has_id name set.now.keys }
{
    set.contains(&name)
}

/// Takes these names out of the set.
pub fn take_out(set: &mut BTreeSet<Id>, names: &[Id])
    ensures { (q : Id) → has_id q set.new.keys ≡ (has_id q set.old.keys && not (has_id q names.now)) }
{
    for name in names {
        set.remove(name);
    }
}

/// The names of a set, in order.
pub fn listed(alloc: Global, set: &BTreeSet<Id>) -> Result<Vec<Id>, AllocError>
    ensures items { IfOk result (λ names. names.items ≡ set.now.keys) }
    ensures order { IfOk result (λ names. Rising names.items) }
{
    let mut names = Vec::new(alloc);
    for name in set {
        names.push(*name)?;
    }
    Ok(names)
}

/// Sees a name, from which the walk goes on if it was not seen before.
pub fn see(name: Id, seen: &mut BTreeSet<Id>, ahead: &mut Vec<Id>) -> Result<(), AllocError>
    ensures { OnOk result (SeesName name seen.old.keys ahead.old.items seen.new.keys ahead.new.items) }
{
    if seen.insert(name)? {
        ahead.push(name)?;
    }
    Ok(())
}

/// Sees these names.
pub fn see_all(names: &[Id], seen: &mut BTreeSet<Id>, ahead: &mut Vec<Id>) -> Result<(), AllocError>
    ensures { OnOk result (SeesAll names.now seen.old.keys ahead.old.items seen.new.keys ahead.new.items) }
{
    for name in names {
        see(*name, seen, ahead)?;
    }
    Ok(())
}

/// The names as a set.
pub fn set_of(alloc: Global, names: &[Id]) -> Result<BTreeSet<Id>, AllocError>
    ensures { IfOk result (λ set. (q : Id) → has_id q set.keys ≡ has_id q names.now) }
{
    let mut set = BTreeSet::new(alloc);
    for name in names {
        set.insert(*name)?;
    }
    Ok(set)
}
