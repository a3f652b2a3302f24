//! Copies of changes.

ghost use Rattle.std.specs.Prelude.{IfOk, ◌≡◌};

use salt_values::{Change, TryCopy};
use std::alloc::{AllocError, Global};

/// Copies of changes, in their order, for a unit that is prepared.
pub fn changes_copied(alloc: Global, changes: &[Change]) -> Result<Vec<Change>, AllocError>
    ensures { IfOk result (λ made. made.items ≡ changes.now) }
{
    let mut made = Vec::with_capacity(alloc, changes.len())?;
    for change in changes {
        made.push(change.copy(alloc)?)?;
    }
    Ok(made)
}
