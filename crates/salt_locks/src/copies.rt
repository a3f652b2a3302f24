//! Copies of locks.

ghost use Rattle.std.specs.Prelude.{IfOk, ◌≡◌};

use salt_model::Lock;
use salt_ranges::KeyRange;
use salt_values::{Key, TryCopy};
use std::alloc::{AllocError, Global};

/// The same end.
pub fn copy_end(alloc: Global, end: &Option<Key>) -> Result<Option<Key>, AllocError>
    ensures { IfOk result (λ made. made ≡ end.now) }
{
    match end {
        Some(key) => Ok(Some(key.copy(alloc)?)),
        None => Ok(None),
    }
}

/// The same keys.
pub fn copy_range(alloc: Global, range: &KeyRange) -> Result<KeyRange, AllocError>
    ensures { IfOk result (λ made. made ≡ range.now) }
{
    Ok(KeyRange {
        lo: copy_end(alloc, &range.lo)?,
        hi: copy_end(alloc, &range.hi)?,
    })
}

/// The same lock.
pub fn copy_lock(alloc: Global, lock: &Lock) -> Result<Lock, AllocError>
    ensures { IfOk result (λ made. made ≡ lock.now) }
{
    Ok(Lock {
        owner: lock.owner,
        family: lock.family,
        mode: lock.mode,
        table: lock.table,
        range: copy_range(alloc, &lock.range)?,
    })
}
