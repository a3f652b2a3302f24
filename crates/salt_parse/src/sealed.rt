//! What is read, while more is read around it.

ghost use Rattle.std.specs.Prelude.{◌≡◌, [], ◌∷◌, ◌++◌, IfOk, OnOk};

use salt_ast::Shared;
use sqlite_items::Items;
use std::alloc::{AllocError, Global};
use std::marker::Model;

/// What is read, which contracts see as itself: a proof that passes it on, or drops it, sees none of its parts.
pub struct Sealed<T> {
    inner: T,
}

impl<T> Model for Sealed<T> {
    ghost Value = { T };

    ghost coded = { T.code };

    ghost view = { λ s. s.inner };
}

impl<T: Drop> Drop for Sealed<T> {
    fn drop(self) {
        let Sealed { inner: _inner } = self;
    }
}

impl<T> Sealed<T> {
    pub fn new(inner: T) -> Self
        ensures { result ≡ inner }
    {
        Sealed { inner }
    }

    pub fn into_inner(self) -> T
        ensures { result ≡ self }
    {
        let Sealed { inner } = self;
        inner
    }
}

impl<T: Drop> Sealed<T> {
    /// Moves it behind these items.
    pub fn push_to(self, items: &mut Items<T>) -> Result<(), AllocError>
        ensures { OnOk result (items.new ≡ items.old ++ self ∷ []) }
    {
        let Sealed { inner } = self;
        items.push(inner)
    }

    /// Gives it one holder.
    pub fn share(self, alloc: Global) -> Result<Shared<T>, AllocError>
        ensures { IfOk result (λ made. made ≡ self) }
    {
        let Sealed { inner } = self;
        Shared::new(alloc, inner)
    }
}
