//! The victim of a deadlock.

ghost use Rattle.std.specs.Prelude.{◌≡◌, IfOk, option_map};
ghost use Rattle.std.specs.Option.{option_copied};
ghost use Rattle.salt_waits.specs.declared.units.WaitUnit.{WaitUnit};
ghost use Rattle.salt_waits.specs.Victims.{IsRightVictim, gives_way, gives_way_to};

use crate::graph::graph_of;
use crate::walk::is_on_cycle;
use salt_values::{Id, Ids};
use std::alloc::{AllocError, Global};

/// A waiting unit: its name, whether it is an ACID one, and the units that it waits for, of which some may not wait themselves.
#[derive(Drop)]
pub struct WaitUnit {
    pub unit: Id,
    pub acid: bool,
    pub edges: Ids,
}

/// Whether the first of two units on circles is given up before the second: an ACID unit before a subtransaction, and of two of a
/// kind the younger one.
fn gives_way(first: &WaitUnit, second: &WaitUnit) -> bool
    ensures { result ≡ gives_way first.now second.now }
{
    match (first.acid, second.acid) {
        (true, false) => true,
        (false, true) => false,
        _ => second.unit < first.unit,
    }
}

/// Whether a unit is given up before the one that was found so far.
fn is_better(unit: &WaitUnit, best: Option<&WaitUnit>) -> bool
    ensures { result ≡ gives_way_to unit.now (option_copied best.entry) }
{
    match best {
        Some(best) => gives_way(unit, best),
        None => true,
    }
}

/// The unit's name.
fn name_of(unit: Option<&WaitUnit>) -> Option<Id>
    ensures { result ≡ option_map (λ (u : WaitUnit). u.unit) (option_copied unit.entry) }
{
    match unit {
        Some(unit) => Some(unit.unit),
        None => None,
    }
}

/// The unit to be given up: of those on a circle of units that wait for each other the youngest ACID one; if there is none, the
/// youngest subtransaction. None exactly where there is no circle. An edge to a unit that isn't listed leads nowhere.
pub fn victim(alloc: Global, list: &[WaitUnit]) -> Result<Option<Id>, AllocError>
    ensures { IfOk result (λ found. IsRightVictim list.now found) }
{
    let graph = graph_of(alloc, list)?;
    let mut best: Option<&WaitUnit> = None;
    for (at, unit) in list.iter().enumerate() {
        if is_better(unit, best) && is_on_cycle(alloc, &graph, at)? {
            best = Some(unit);
        }
    }
    Ok(name_of(best))
}
