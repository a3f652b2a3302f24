//! Units that wait for each other.

use salt_values::Id;
use salt_waits::{WaitUnit, victim};
use sqlite_items::Items;
use std::alloc::{AllocError, Global};

/// Whom each unit waits for.
#[derive(Clone, Copy, Debug, PartialEq, Eq)]
pub enum Edges {
    /// The next one, and the last for none.
    Next,
    /// All later ones.
    Later,
    /// The next one, and the last for the first.
    Round,
}

fn id(seq: u32) -> Id {
    Id {
        boot: 1,
        seq: u64::from(seq),
    }
}

/// The unit of a number, of so many.
fn unit(alloc: Global, many: u32, at: u32, edges: Edges) -> Result<WaitUnit, AllocError> {
    let next = at.saturating_add(1);
    let end = if edges == Edges::Later {
        many
    } else {
        next.saturating_add(1).min(many)
    };
    let mut names = Items::new(alloc);
    for other in next..end {
        names.push(id(other))?;
    }
    if edges == Edges::Round && next == many {
        names.push(id(0))?;
    }
    Ok(WaitUnit {
        unit: id(at),
        acid: true,
        edges: names,
    })
}

/// Looks so often for the victim of so many units; how often there is one.
pub fn found(alloc: Global, many: u32, times: u32, edges: Edges) -> Result<u64, AllocError> {
    let mut list = Vec::new(alloc);
    for at in 0..many {
        list.push(unit(alloc, many, at, edges)?)?;
    }
    let mut found: u64 = 0;
    for _ in 0..times {
        if victim(alloc, &list)?.is_some() {
            found = found.saturating_add(1);
        }
    }
    Ok(found)
}
