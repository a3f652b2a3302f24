//! Values with several owners.

ghost use Rattle.std.specs.Prelude.{IfOk, ◌≡◌};

use crate::printer::{Canonical, Printer};
use salt_io::Sink;
use salt_values::TryCopy;
use std::alloc::{AllocError, Global};
use std::marker::Model;
use std::rc::Rc;

/// A value that several hold, which contracts see as the value. A copy is one holder more, and takes no memory: so a statement goes from its
/// line, or from its program, into what is asked of the storage and into the story without being built anew.
#[derive(Drop)]
pub struct Shared<T> {
    inner: Rc<T>,
}

impl<T> Model for Shared<T> {
    ghost Value = { T };

    ghost coded = { T.code };

    ghost view = { λ s. s.inner.value };
}

impl<T> Shared<T> {
    /// The value.
    pub fn get(&self) -> &T
        ensures { result.now ≡ self.now }
    {
        self.inner.as_ref()
    }
}

impl<T: Drop> Shared<T> {
    /// A value with one holder.
    pub fn new(alloc: Global, value: T) -> Result<Shared<T>, AllocError>
        ensures { IfOk result (λ made. made ≡ value) }
    {
        Ok(Shared {
            inner: Rc::new(alloc, value)?,
        })
    }
}

impl<T: Drop> TryCopy for Shared<T> {
    fn copy(&self, _alloc: Global) -> Result<Shared<T>, AllocError> {
        Ok(Shared {
            inner: self.inner.clone()?,
        })
    }
}

impl<T: Canonical> Canonical for Shared<T> {
    ghost text = { T.text };

    fn print<K: Sink>(&self, out: &mut Printer<'_, K>) {
        self.get().print(out);
    }
}
