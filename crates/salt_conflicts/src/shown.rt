//! The locks that are shown.

ghost use Rattle.salt_model.specs.declared.shown.Item.{Item};
ghost use Rattle.salt_conflicts.specs.Shown.{owned_by, owned_by_bases, owned_by_units};
ghost use Rattle.std.specs.Prelude.{IfOk, OnOk, map, ◌++◌, ◌≡◌};

use salt_locks::{LockTable, TakenLock};
use salt_model::{Item, Items, Owner};
use salt_values::Id;
use std::alloc::{AllocError, Global};

/// Adds locks, without their numbers.
fn add_taken(items: &mut Items, taken: Vec<TakenLock>) -> Result<(), AllocError>
    ensures { OnOk result (items.new ≡ items.old ++ map (λ t. Item.Lock t.lock) taken.items) }
{
    for one in taken {
        let TakenLock {
            number: _number,
            lock,
        } = one;
        items.push(Item::Lock(lock))?;
    }
    Ok(())
}

/// Adds an owner's locks, in the order taken.
fn add_owned(
    alloc: Global,
    locks: &LockTable,
    owner: Owner,
    items: &mut Items,
) -> Result<(), AllocError>
    ensures { OnOk result (items.new ≡ items.old ++ owned_by locks.now owner) }
{
    add_taken(items, locks.of_owner(alloc, owner)?)
}

fn add_bases(
    alloc: Global,
    locks: &LockTable,
    bases: &[Id],
    items: &mut Items,
) -> Result<(), AllocError>
    ensures { OnOk result (items.new ≡ items.old ++ owned_by_bases locks.now bases.now) }
{
    for base in bases {
        add_owned(alloc, locks, Owner::Base(*base), items)?;
    }
    Ok(())
}

fn add_units(
    alloc: Global,
    locks: &LockTable,
    units: &[Id],
    items: &mut Items,
) -> Result<(), AllocError>
    ensures { OnOk result (items.new ≡ items.old ++ owned_by_units locks.now units.now) }
{
    for unit in units {
        add_owned(alloc, locks, Owner::Unit(*unit), items)?;
    }
    Ok(())
}

/// The locks of these programs and then those of these units, of each owner in the order taken.
pub fn lock_items(
    alloc: Global,
    locks: &LockTable,
    bases: &[Id],
    units: &[Id],
) -> Result<Items, AllocError>
    ensures { IfOk result (λ items. items ≡ owned_by_bases locks.now bases.now ++ owned_by_units locks.now units.now) }
{
    let mut items = Items::new(alloc);
    add_bases(alloc, locks, bases, &mut items)?;
    add_units(alloc, locks, units, &mut items)?;
    Ok(items)
}
