//! Who waits for whom.

ghost use Rattle.salt_deps.specs.Kept.{dependencies};
ghost use Rattle.law_states.specs.KeptWaits.{edges_of, graph_unit, is_base_of, waiting_for};
ghost use Rattle.salt_locks.specs.Tables.{locks_in};
ghost use Rattle.salt_values.specs.declared.id.Id.{Id};
ghost use Rattle.salt_waits.specs.Victims.{graph_of, in_story};
ghost use Rattle.salt_conflicts.specs.Waiters.{asker_of, askers};
ghost use Rattle.salt_conflicts.specs.Watched.{AreSourcesOf};
ghost use Rattle.std.specs.List.{flat_map, list_any};
ghost use Rattle.std.specs.Prelude.{IfOk, List, OnOk, map, not, ◌&&◌, ◌++◌, ◌≡◌};

use crate::served::against;
use crate::waiters::{Waiter, has_program};
use salt_deps::Deps;
use salt_locks::LockTable;
use salt_model::Owner;
use salt_values::{Id, Ids, has_id};
use salt_waits::WaitUnit;
use std::alloc::{AllocError, Global};

/// Whether it is an unfinished program of these.
fn is_awaited(deps: &Deps, base: Option<Id>, among: &[Id]) -> bool
    ensures { result ≡ list_any (λ b. not ((dependencies deps.now).finished b) && is_base_of base b) among.now }
{
    match base {
        Some(base) => has_id(among, base) && !deps.is_finished(base),
        None => false,
    }
}

/// Adds the waiting units of the unfinished programs among these.
fn add_waiting(
    deps: &Deps,
    waits: &[Waiter],
    among: &[Id],
    edges: &mut Ids,
) -> Result<(), AllocError>
    ensures { OnOk result (edges.new ≡ edges.old ++ waiting_for (dependencies deps.now) (askers waits.now) among.now) }
{
    for waiter in waits {
        if is_awaited(deps, waiter.base, among) {
            edges.push(waiter.unit)?;
        }
    }
    Ok(())
}

/// Adds the units that one waits for, where it waits for a lock of this owner. What a program reads from is looked at only where a unit of
/// some program waits.
fn add_edges(deps: &Deps, waits: &[Waiter], owner: Owner, edges: &mut Ids) -> Result<(), AllocError>
    ensures { OnOk result ((sources : Id → List Id) → AreSourcesOf (dependencies deps.now) sources →
        edges.new ≡ edges.old ++ edges_of (dependencies deps.now) (askers waits.now) sources owner) }
{
    match owner {
        Owner::Unit(unit) => edges.push(unit),
        Owner::Base(base) => {
            if !has_program(waits) {
                return Ok(());
            }
            add_waiting(deps, waits, deps.sources(base)?.as_slice(), edges)
        }
    }
}

/// The units that one waits for, where it waits for locks of these owners.
fn edges_to(
    alloc: Global,
    deps: &Deps,
    waits: &[Waiter],
    owners: &[Owner],
) -> Result<Ids, AllocError>
    ensures { IfOk result (λ edges. (sources : Id → List Id) → AreSourcesOf (dependencies deps.now) sources →
        edges ≡ flat_map (edges_of (dependencies deps.now) (askers waits.now) sources) owners.now) }
{
    let mut edges = Ids::new(alloc);
    for owner in owners {
        add_edges(deps, waits, *owner, &mut edges)?;
    }
    Ok(edges)
}

/// A waiting unit with those that it waits for.
fn wait_unit(
    alloc: Global,
    locks: &LockTable,
    deps: &Deps,
    waits: &[Waiter],
    waiter: &Waiter,
) -> Result<WaitUnit, AllocError>
    ensures { IfOk result (λ unit. (sources : Id → List Id) → AreSourcesOf (dependencies deps.now) sources →
        in_story unit ≡ graph_unit (dependencies deps.now) (locks_in locks.now) (askers waits.now) sources (asker_of waiter.now)) }
{
    let owners = against(alloc, locks, waiter)?;
    Ok(WaitUnit {
        unit: waiter.unit,
        acid: waiter.base.is_none(),
        edges: edges_to(alloc, deps, waits, owners.as_slice())?,
    })
}

/// Each waiting unit with those that it waits for.
pub fn wait_graph(
    alloc: Global,
    locks: &LockTable,
    deps: &Deps,
    waits: &[Waiter],
) -> Result<Vec<WaitUnit>, AllocError>
    ensures { IfOk result (λ graph. (sources : Id → List Id) → AreSourcesOf (dependencies deps.now) sources →
        graph_of graph.items ≡ map (graph_unit (dependencies deps.now) (locks_in locks.now) (askers waits.now) sources) (askers waits.now)) }
{
    let mut graph = Vec::new(alloc);
    for waiter in waits {
        graph.push(wait_unit(alloc, locks, deps, waits, waiter)?)?;
    }
    Ok(graph)
}
