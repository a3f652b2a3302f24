//! Walks along the edges of a graph whose vertices are numbers.

ghost use Rattle.std.specs.List.{All};
ghost use Rattle.std.specs.Prelude.{◌<◌, ◌↔◌, ◌∷◌, [], IfOk, OnOk, IsTrue, length};
ghost use Rattle.salt_waits.specs.Graphs.{InRange, Leads};
ghost use Rattle.salt_waits.specs.Walks.{Adds, IsStarted};

use smallvec::SmallVec;
use std::alloc::{AllocError, Global};

/// The places that are kept without asking for memory.
const PLACES: usize = 16;

/// What a walk has come to: of each vertex whether it was seen, and the vertices seen whose edges are still to be followed.
#[derive(Drop)]
struct Walk {
    seen: Vec<bool>,
    left: SmallVec<usize, PLACES>,
}

impl Walk {
    /// Nothing is seen.
    fn new(alloc: Global, vertices: usize) -> Result<Walk, AllocError>
        ensures { IfOk result (λ walk. IsStarted vertices walk) }
    {
        Ok(Walk {
            seen: Vec::from_elem(alloc, false, vertices)?,
            left: SmallVec::new(alloc),
        })
    }

    /// Sees a vertex; where it is new, its edges are to be followed.
    fn see(&mut self, vertex: usize) -> Result<(), AllocError>
        requires { vertex < length self.old.seen.items }
        ensures { OnOk result (Adds (vertex ∷ []) self.old self.new) }
    {
        if !self.seen[vertex] {
            self.seen[vertex] = true;
            self.left.push(vertex)?;
        }
        Ok(())
    }

    /// Sees these vertices.
    fn see_all(&mut self, vertices: &[usize]) -> Result<(), AllocError>
        requires { All (λ v. v < length self.old.seen.items) vertices.now }
        ensures { OnOk result (Adds vertices.now self.old self.new) }
    {
        for vertex in vertices {
            self.see(*vertex)?;
        }
        Ok(())
    }
}

/// Whether edges lead from a vertex back to it.
pub fn is_on_cycle(alloc: Global, graph: &[Vec<usize>], start: usize) -> Result<bool, AllocError>
    requires graph { InRange graph.now (length graph.now) }
    requires start { start < length graph.now }
    ensures { IfOk result (λ yes. IsTrue yes ↔ Leads graph.now start start) }
{
    let mut walk = Walk::new(alloc, graph.len())?;
    walk.see_all(&graph[start])?;
    while let Some(vertex) = walk.left.pop() {
        walk.see_all(&graph[vertex])?;
    }
    Ok(walk.seen[start])
}
