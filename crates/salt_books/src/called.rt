//! The names by which programs were called.

ghost use Rattle.salt_values.specs.Id.{has_id};
ghost use Rattle.salt_values.specs.Id.{is_same_id};
ghost use Rattle.std.specs.Option.{option_copied};
ghost use Rattle.std.specs.Prelude.{None, OnOk, Some, if◌then◌else◌, ◌≡◌};

use salt_values::{Id, Name, TryCopy};
use std::alloc::{AllocError, Global};
use std::collections::BTreeMap;

/// The names by which BASE programs under way were called. Contracts see what is told of each.
#[derive(Drop)]
pub struct CalledNames {
    alloc: Global,
    names: BTreeMap<Id, Name>,
}

impl CalledNames {
    ghost use Rattle.salt_books.specs.Called.{name_told};

    /// No names.
    pub fn new(alloc: Global) -> CalledNames
        ensures { (b : Id) → name_told result b ≡ None }
    {
        CalledNames {
            alloc,
            names: BTreeMap::new(alloc),
        }
    }

    /// The name by which a program was called.
    pub fn name(&self, base: Id) -> Option<&Name>
        ensures { option_copied result ≡ name_told self.now base }
    {
        self.names.get(&base)
    }

    /// A program is called by a name. An `AllocError` leaves the names in no state that is told.
    pub fn call(&mut self, base: Id, name: &Name) -> Result<(), AllocError>
        ensures ok { OnOk result ((b : Id) → name_told self.new b ≡ (if is_same_id b base then Some name.now else name_told self.old b)) }
    {
        let name = name.copy(self.alloc)?;
        self.names.insert(base, name)?;
        Ok(())
    }

    /// A program is no longer under way.
    pub fn forget(&mut self, base: Id)
        ensures { (b : Id) → name_told self.new b ≡ (if is_same_id b base then None else name_told self.old b) }
    {
        self.names.remove(&base);
    }

    /// Programs are no longer under way.
    pub fn forget_all(&mut self, bases: &[Id])
        ensures { (b : Id) → name_told self.new b ≡ (if has_id b bases.now then None else name_told self.old b) }
    {
        for base in bases {
            self.forget(*base);
        }
    }
}
