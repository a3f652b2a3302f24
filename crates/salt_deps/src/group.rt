//! The group, in which programs read from one another.

ghost use Rattle.salt_deps.specs.Group.{are_mutual, is_mutual};
ghost use Rattle.salt_values.specs.Id.{has_id, is_same_id};
ghost use Rattle.salt_values.specs.declared.id.Id.{Id};
ghost use Rattle.std.specs.Prelude.{◌≡◌, ◌&&◌, ◌||◌, IfOk, false, not};

use crate::sets::{is_in, set_of, take_out};
use salt_values::Id;
use std::alloc::{AllocError, Global};
use std::collections::BTreeSet;

/// Each of these readers reads from each of these sources, other than itself. So many pairs are told by the names alone.
#[derive(Drop)]
pub struct Group {
    pub readers: BTreeSet<Id>,
    pub sources: BTreeSet<Id>,
}

impl Group {
    /// No program is in it.
    pub fn new(alloc: Global) -> Group
        ensures { (x y : Id) → is_mutual result x y ≡ false }
    {
        Group {
            readers: BTreeSet::new(alloc),
            sources: BTreeSet::new(alloc),
        }
    }

    /// Each of these programs reads from each other one.
    pub fn of(alloc: Global, names: &[Id]) -> Result<Group, AllocError>
        ensures { IfOk result (λ group. (x y : Id) → is_mutual group x y ≡ are_mutual names.now names.now x y) }
    {
        let readers = set_of(alloc, names)?;
        let sources = set_of(alloc, names)?;
        Ok(Group { readers, sources })
    }

    /// Whether a program reads from another.
    pub fn reads(&self, reader: Id, source: Id) -> bool
        ensures { result ≡ is_mutual self.now reader source }
    {
        is_in(&self.readers, reader) && is_in(&self.sources, source) && source != reader
    }

    /// The program reads from none; others still read from it.
    pub fn drop_reader(&mut self, reader: Id)
        ensures { (x y : Id) → is_mutual self.new x y ≡ (is_mutual self.old x y && not (is_same_id x reader)) }
    {
        self.readers.remove(&reader);
    }

    /// These programs read from none, and none reads from them.
    pub fn forget_all(&mut self, names: &[Id])
        ensures { (x y : Id) → is_mutual self.new x y ≡ (is_mutual self.old x y && not (has_id x names.now || has_id y names.now)) }
    {
        take_out(&mut self.readers, names);
        take_out(&mut self.sources, names);
    }
}
