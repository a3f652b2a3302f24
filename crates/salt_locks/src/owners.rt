//! Owners of locks, each once and in order.

ghost use Rattle.salt_model.specs.Locks.{is_same_owner};
ghost use Rattle.salt_model.specs.declared.events.Owner.{Owner};
ghost use Rattle.std.specs.Prelude.{IfOk, OnOk, map, ◌++◌, ◌≡◌};

use salt_model::{Owner, Owners};
use salt_values::{Id, is_same_id};
use std::alloc::{AllocError, Global};

/// Whether both are one unit, or both one program.
pub fn is_same_owner(left: Owner, right: Owner) -> bool
    ensures { result ≡ is_same_owner left right }
{
    match (left, right) {
        (Owner::Unit(unit), Owner::Unit(other)) => is_same_id(unit, other),
        (Owner::Base(base), Owner::Base(other)) => is_same_id(base, other),
        _ => false,
    }
}

fn add_units(owners: &mut Owners, units: &[Id]) -> Result<(), AllocError>
    ensures { OnOk result (owners.new ≡ owners.old ++ map Owner.Unit units.now) }
{
    let mut at = 0;
    while at < units.len() {
        owners.push(Owner::Unit(units[at]))?;
        at += 1;
    }
    Ok(())
}

fn add_bases(owners: &mut Owners, bases: &[Id]) -> Result<(), AllocError>
    ensures { OnOk result (owners.new ≡ owners.old ++ map Owner.Base bases.now) }
{
    let mut at = 0;
    while at < bases.len() {
        owners.push(Owner::Base(bases[at]))?;
        at += 1;
    }
    Ok(())
}

/// Units before programs.
pub fn joined(alloc: Global, units: &[Id], bases: &[Id]) -> Result<Owners, AllocError>
    ensures { IfOk result (λ owners. owners ≡ map Owner.Unit units.now ++ map Owner.Base bases.now) }
{
    let mut owners = Owners::new(alloc);
    add_units(&mut owners, units)?;
    add_bases(&mut owners, bases)?;
    Ok(owners)
}
