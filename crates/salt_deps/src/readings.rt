//! Who reads from whom: by pairs, and in the group.

ghost use Rattle.salt_deps.specs.Group.{are_mutual, is_told, reads_in};
ghost use Rattle.salt_deps.specs.Maps.{is_source};
ghost use Rattle.salt_values.specs.Id.{has_id, is_same_id};
ghost use Rattle.salt_values.specs.declared.id.Id.{Id};
ghost use Rattle.std.specs.Prelude.{◌≡◌, ◌&&◌, ◌||◌, IfOk, OnErr, OnOk, false, not, true};

use crate::group::Group;
use crate::links::Links;
use crate::sets::{is_in, listed};
use salt_values::Id;
use std::alloc::{AllocError, Global};

/// The pairs that came by reading, and the group of the last early opening.
#[derive(Drop)]
pub struct Readings {
    pub links: Links,
    pub group: Group,
}

impl Readings {
    /// No program reads.
    pub fn new(alloc: Global) -> Readings
        ensures { (x y : Id) → reads_in result x y ≡ false }
    {
        Readings {
            links: Links::new(alloc),
            group: Group::new(alloc),
        }
    }

    /// Each of these programs reads from each other one.
    pub fn of_group(alloc: Global, names: &[Id]) -> Result<Readings, AllocError>
        ensures { IfOk result (λ readings. (x y : Id) → reads_in readings x y ≡ are_mutual names.now names.now x y) }
    {
        let group = Group::of(alloc, names)?;
        Ok(Readings {
            links: Links::new(alloc),
            group,
        })
    }

    /// Whether a program reads from another.
    pub fn reads(&self, reader: Id, source: Id) -> bool
        ensures { result ≡ reads_in self.now reader source }
    {
        self.links.reads(reader, source) || self.group.reads(reader, source)
    }

    /// What a walk sees from a reader on: the programs from which it reads by pairs, and, of the group, all sources, unless the walk
    /// has met a reader of the group before.
    pub fn sources_ahead(&self, reader: Id, met: bool) -> Result<Vec<Id>, AllocError>
        ensures { IfOk result (λ names. (y : Id) → has_id y names.items ≡ (is_source self.now.links.sources reader y || is_told met self.now.group.readers.keys self.now.group.sources.keys reader y)) }
    {
        let mut names = self.links.sources_of(reader)?;
        if met || !is_in(&self.group.readers, reader) {
            return Ok(names);
        }
        let members = listed(self.links.alloc, &self.group.sources)?;
        names.extend_from_slice(&members)?;
        Ok(names)
    }

    /// What a walk against the readings sees from a source on: the programs that read from it by pairs, and, of the group, all
    /// readers, unless the walk has met a source of the group before.
    pub fn readers_ahead(&self, source: Id, met: bool) -> Result<Vec<Id>, AllocError>
        ensures { IfOk result (λ names. (x : Id) → has_id x names.items ≡ (is_source self.now.links.sources x source || is_told met self.now.group.sources.keys self.now.group.readers.keys source x)) }
    {
        let mut names = self.links.readers_of(source)?;
        if met || !is_in(&self.group.sources, source) {
            return Ok(names);
        }
        let members = listed(self.links.alloc, &self.group.readers)?;
        names.extend_from_slice(&members)?;
        Ok(names)
    }

    /// The program reads from these too. Gives whether there is one of them. Want of memory leaves all as it was.
    pub fn add(&mut self, reader: Id, fresh: &[Id]) -> Result<bool, AllocError>
        ensures ok { OnOk result ((x y : Id) → reads_in self.new x y ≡ (reads_in self.old x y || (is_same_id x reader && has_id y fresh.now))) }
        ensures none { IfOk result (λ some. some ≡ false → (x y : Id) → reads_in self.new x y ≡ reads_in self.old x y) }
        ensures err { OnErr result ((x y : Id) → reads_in self.new x y ≡ reads_in self.old x y) }
        ensures kept { (x y : Id) → reads_in self.old x y ≡ true → reads_in self.new x y ≡ true }
    {
        self.links.add(reader, fresh)
    }

    /// The program reads from none.
    pub fn drop_reader(&mut self, reader: Id)
        ensures { (x y : Id) → reads_in self.new x y ≡ (reads_in self.old x y && not (is_same_id x reader)) }
    {
        self.links.drop_reader(reader);
        self.group.drop_reader(reader);
    }

    /// These programs read from none, and none reads from them.
    pub fn forget_all(&mut self, names: &[Id])
        ensures { (x y : Id) → reads_in self.new x y ≡ (reads_in self.old x y && not (has_id x names.now || has_id y names.now)) }
    {
        self.links.forget_all(names);
        self.group.forget_all(names);
    }
}
