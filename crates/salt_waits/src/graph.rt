//! Waiting units by their places, so that a walk looks up no names.

ghost use Rattle.std.specs.Prelude.{IfOk};
ghost use Rattle.salt_waits.specs.Graphs.{AreTargets, IsGraphOf};

use crate::units::WaitUnit;
use std::alloc::{AllocError, Global};

/// The places of the units that one names.
fn targets(alloc: Global, list: &[WaitUnit], unit: &WaitUnit) -> Result<Vec<usize>, AllocError>
    ensures { IfOk result (λ targets. AreTargets list.now unit.now targets.items) }
{
    let edges = unit.edges.as_slice();
    let mut targets = Vec::new(alloc);
    for (at, other) in list.iter().enumerate() {
        if edges.contains(&other.unit) {
            targets.push(at)?;
        }
    }
    Ok(targets)
}

/// Of each unit the places of those that it waits for.
pub fn graph_of(alloc: Global, list: &[WaitUnit]) -> Result<Vec<Vec<usize>>, AllocError>
    ensures { IfOk result (λ graph. IsGraphOf list.now graph.items) }
{
    let mut graph = Vec::new(alloc);
    for unit in list {
        graph.push(targets(alloc, list, unit)?)?;
    }
    Ok(graph)
}
