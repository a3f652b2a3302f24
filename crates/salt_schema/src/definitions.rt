//! Definitions in the order in which they were made, each found by its name or its number.

ghost use Rattle.std.specs.Prelude.{◌≡◌, ◌<◌, ◌++◌, ◌∷◌, [], IfSome, None, OnErr, OnOk, Some, find, length, slice_get};
ghost use Rattle.std.specs.HashMap.{values};
ghost use Rattle.std.specs.Option.{option_copied};
ghost use Rattle.salt_schema.specs.Definitions.{AreDistinct, AreKeyed, definition_named, is_named, number_named};

use crate::named::Named;
use crate::names::is_same_name;
use indexmap::IndexMap;
use salt_values::Name;
use std::alloc::{AllocError, Global};
use std::marker::Model;

/// Definitions with different names, numbered from 0 in the order in which they were made. Contracts see their list.
#[derive(Drop)]
pub struct Definitions<T: Named> {
    entries: IndexMap<Vec<u8>, T>,
}

impl<T: Named> Model for Definitions<T> {
    ghost use Rattle.std.specs.Prelude.{List};
    ghost use Rattle.std.specs.Coded.{coded_list};
    ghost use Rattle.std.specs.HashMap.{values};
    ghost use Rattle.salt_schema.specs.Definitions.{AreDistinct, AreKeyed};

    ghost Value = { List T };

    ghost coded = { coded_list T.code };

    ghost view = { λ s. values s.entries };

    ghost invariant = { λ s. AreKeyed (λ k. k.items) T.name s.entries.entries × AreDistinct T.name (values s.entries) };
}

impl<T: Named + Drop> Definitions<T> {
    /// No definitions.
    pub fn new(alloc: Global) -> Definitions<T>
        ensures { result ≡ [] }
    {
        Definitions {
            entries: IndexMap::new(alloc),
        }
    }

    /// The allocator of the names and definitions.
    pub fn allocator(&self) -> Global {
        *self.entries.allocator()
    }

    /// How many there are.
    pub fn len(&self) -> usize
        ensures { result ≡ length self.now }
    {
        self.entries.len()
    }

    /// The definition that was made first, if it has this name.
    fn first_of(&self, name: &Name) -> Option<&T>
        ensures within { IfSome result (λ def. 0 < length self.now) }
        ensures number { IfSome result (λ def. number_named T.name name.now self.now ≡ Some 0) }
        ensures named { IfSome result (λ def. Some def.now ≡ definition_named T.name name.now self.now) }
    {
        let def = self.get(0)?;
        if is_same_name(name, def.name()) {
            Some(def)
        } else {
            None
        }
    }

    /// The number of the definition of this name. The first one is looked at before a name is hashed, which costs more.
    pub fn number(&self, name: &Name) -> Option<usize>
        ensures value { result ≡ number_named T.name name.now self.now }
        ensures within { IfSome result (λ n. n < length self.now) }
    {
        match self.first_of(name) {
            Some(_) => Some(0),
            None => self.entries.get_index_of(name.as_slice()),
        }
    }

    /// The definition of this number.
    pub fn get(&self, number: usize) -> Option<&T>
        ensures value { option_copied result ≡ slice_get self.now number }
        // Names are different.
        ensures distinct { AreDistinct T.name self.now }
    {
        let (_, def) = self.entries.get_index(number)?;
        Some(def)
    }

    /// The definition of this name.
    pub fn named(&self, name: &Name) -> Option<&T>
        ensures { option_copied result ≡ definition_named T.name name.now self.now }
    {
        match self.first_of(name) {
            Some(def) => Some(def),
            None => self.entries.get(name.as_slice()),
        }
    }

    /// Adds a definition of a new name, which takes the next number. An `Err` changes nothing.
    pub fn add(&mut self, def: T) -> Result<(), AllocError>
        requires new { number_named T.name (T.name def) self.old ≡ None }
        ensures ok { OnOk result (self.new ≡ self.old ++ def ∷ []) }
        ensures err { OnErr result (self.new ≡ self.old) }
    {
        put(&mut self.entries, def)
    }
}

/// Puts a definition of a new name behind the others.
fn put<T: Named + Drop>(entries: &mut IndexMap<Vec<u8>, T>, def: T) -> Result<(), AllocError>
    requires keyed { AreKeyed (λ k. k.items) T.name entries.old.entries }
    requires distinct { AreDistinct T.name (values entries.old) }
    requires new { number_named T.name (T.name def) (values entries.old) ≡ None }
    ensures keyed { AreKeyed (λ k. k.items) T.name entries.new.entries }
    ensures distinct { AreDistinct T.name (values entries.new) }
    ensures ok { OnOk result (values entries.new ≡ values entries.old ++ def ∷ []) }
    ensures err { OnErr result (values entries.new ≡ values entries.old) }
{
    let key = Vec::from_slice(*entries.allocator(), def.name().as_slice())?;
    let _old = entries.insert(key, def)?;
    Ok(())
}
