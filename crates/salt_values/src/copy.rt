//! Copies that may find no memory.

ghost use Rattle.std.specs.Prelude.{◌≡◌, IfOk};

use sqlite_items::Items;
use std::alloc::{AllocError, Global};

/// What can be copied where there is memory for it.
pub trait TryCopy: Sized {
    /// An equal value.
    fn copy(&self, alloc: Global) -> Result<Self, AllocError>
        ensures { IfOk result (λ made. made ≡ self.now) };

    /// Copies, in their order; room for all of them is asked for at once.
    fn copy_all(alloc: Global, items: &[Self]) -> Result<Items<Self>, AllocError>
    where
        Self: Drop,
        ensures { IfOk result (λ made. made ≡ items.now) }
    {
        let mut made = Vec::with_capacity(alloc, items.len())?;
        for item in items {
            made.push(item.copy(alloc)?)?;
        }
        Ok(Items::from_vec(made))
    }
}

impl TryCopy for u8 {
    fn copy(&self, _alloc: Global) -> Result<u8, AllocError> {
        Ok(*self)
    }

    fn copy_all(alloc: Global, items: &[u8]) -> Result<Items<u8>, AllocError> {
        Items::from_slice(alloc, items)
    }
}

/// Copies, in their order.
pub fn copies<T: TryCopy + Drop>(alloc: Global, items: &[T]) -> Result<Items<T>, AllocError>
    ensures { IfOk result (λ made. made ≡ items.now) }
{
    T::copy_all(alloc, items)
}

impl<T: TryCopy + Drop> TryCopy for Items<T> {
    fn copy(&self, alloc: Global) -> Result<Items<T>, AllocError> {
        copies(alloc, self.as_slice())
    }
}

impl<T: TryCopy + Drop> TryCopy for Option<T> {
    fn copy(&self, alloc: Global) -> Result<Option<T>, AllocError> {
        match self {
            Some(value) => Ok(Some(value.copy(alloc)?)),
            None => Ok(None),
        }
    }
}
