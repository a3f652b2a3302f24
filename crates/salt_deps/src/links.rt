//! Which programs read from which.

ghost use Rattle.salt_deps.specs.Maps.{is_listed, is_source, items_in, readers_at};
ghost use Rattle.salt_values.specs.Id.{has_id};
ghost use Rattle.salt_values.specs.Id.{is_same_id};
ghost use Rattle.salt_values.specs.declared.id.Id.{Id};
ghost use Rattle.std.specs.Prelude.{◌≡◌, ◌&&◌, ◌||◌, IfOk, OnErr, OnOk, false, filter, not, true};

use crate::sets::{is_in, listed, set_of};
use salt_values::Id;
use std::alloc::{AllocError, Global};
use std::collections::{BTreeMap, BTreeSet};

/// Which programs read from which: the sources of each reader, and the readers of each source.
#[derive(Drop)]
pub struct Links {
    pub alloc: Global,
    pub sources: BTreeMap<Id, BTreeSet<Id>>,
    pub readers: BTreeMap<Id, Vec<Id>>,
    ghost listed: { (x y : Id) → is_source sources x y ≡ true → is_listed readers x y ≡ true },
}

/// Lists a reader of a program.
fn list_reader(
    alloc: Global,
    readers: &mut BTreeMap<Id, Vec<Id>>,
    reader: Id,
    source: Id,
) -> Result<(), AllocError>
    ensures ok { OnOk result ((x y : Id) → is_listed readers.new x y ≡ (is_listed readers.old x y || (is_same_id x reader && is_same_id y source))) }
    ensures kept { (x y : Id) → is_listed readers.old x y ≡ true → is_listed readers.new x y ≡ true }
{
    if let Some(names) = readers.get_mut(&source) {
        names.push(reader)?;
        return Ok(());
    }
    let mut names = Vec::new(alloc);
    names.push(reader)?;
    readers.insert(source, names)?;
    Ok(())
}

/// The names, none where there is no list.
fn unless_none(alloc: Global, names: Option<Vec<Id>>) -> Vec<Id>
    ensures { result.items ≡ items_in names }
{
    match names {
        Some(names) => names,
        None => Vec::new(alloc),
    }
}

/// Strikes a source of a reader.
fn unlink(sources: &mut BTreeMap<Id, BTreeSet<Id>>, reader: Id, source: Id)
    ensures { (x y : Id) → is_source sources.new x y ≡ (is_source sources.old x y && not (is_same_id x reader && is_same_id y source)) }
{
    if let Some(names) = sources.get_mut(&reader) {
        names.remove(&source);
    }
}

/// Lists a reader at each of these programs.
fn list_readers(
    alloc: Global,
    readers: &mut BTreeMap<Id, Vec<Id>>,
    reader: Id,
    sources: &[Id],
) -> Result<(), AllocError>
    ensures ok { OnOk result ((x y : Id) → is_listed readers.new x y ≡ (is_listed readers.old x y || (is_same_id x reader && has_id y sources.now))) }
    ensures kept { (x y : Id) → is_listed readers.old x y ≡ true → is_listed readers.new x y ≡ true }
{
    for source in sources {
        list_reader(alloc, readers, reader, *source)?;
    }
    Ok(())
}

/// Strikes a source of each of these readers.
fn unlink_all(sources: &mut BTreeMap<Id, BTreeSet<Id>>, readers: &[Id], source: Id)
    ensures { (x y : Id) → is_source sources.new x y ≡ (is_source sources.old x y && not (has_id x readers.now && is_same_id y source)) }
{
    for reader in readers {
        unlink(sources, *reader, source);
    }
}

impl Links {
    /// No program reads.
    pub fn new(alloc: Global) -> Links
        ensures { (x y : Id) → is_source result.sources x y ≡ false }
    {
        Links {
            alloc,
            sources: BTreeMap::new(alloc),
            readers: BTreeMap::new(alloc),
        }
    }

    /// Whether a program reads from another.
    pub fn reads(&self, reader: Id, source: Id) -> bool
        ensures { result ≡ is_source self.now.sources reader source }
    {
        match self.sources.get(&reader) {
            Some(names) => is_in(names, source),
            None => false,
        }
    }

    /// The programs from which one reads.
    pub fn sources_of(&self, reader: Id) -> Result<Vec<Id>, AllocError>
        ensures { IfOk result (λ names. (y : Id) → has_id y names.items ≡ is_source self.now.sources reader y) }
    {
        match self.sources.get(&reader) {
            Some(names) => listed(self.alloc, names),
            None => Ok(Vec::new(self.alloc)),
        }
    }

    /// Those of the names that read from a program.
    fn reading(&self, names: &[Id], source: Id) -> Result<Vec<Id>, AllocError>
        ensures { IfOk result (λ left. left.items ≡ filter (λ x. is_source self.now.sources x source) names.now) }
    {
        let mut left = Vec::from_slice(self.alloc, names)?;
        left.retain(|name| self.reads(*name, source));
        Ok(left)
    }

    /// The programs that are listed at a source.
    fn listed_at(&self, source: Id) -> &[Id]
        ensures { result.now ≡ readers_at self.now.readers source }
    {
        match self.readers.get(&source) {
            Some(names) => names.as_slice(),
            None => &[],
        }
    }

    /// The programs that read from one.
    pub fn readers_of(&self, source: Id) -> Result<Vec<Id>, AllocError>
        ensures { IfOk result (λ names. (x : Id) → has_id x names.items ≡ is_source self.now.sources x source) }
    {
        let left = self.reading(self.listed_at(source), source)?;
        Ok(left)
    }

    /// The program reads from these too. Gives whether there is one of them. Want of memory leaves all as it was.
    pub fn add(&mut self, reader: Id, fresh: &[Id]) -> Result<bool, AllocError>
        ensures ok { OnOk result ((x y : Id) → is_source self.new.sources x y ≡ (is_source self.old.sources x y || (is_same_id x reader && has_id y fresh.now))) }
        ensures none { IfOk result (λ some. some ≡ false → (x y : Id) → is_source self.new.sources x y ≡ is_source self.old.sources x y) }
        ensures err { OnErr result ((x y : Id) → is_source self.new.sources x y ≡ is_source self.old.sources x y) }
        ensures kept { (x y : Id) → is_source self.old.sources x y ≡ true → is_source self.new.sources x y ≡ true }
    {
        if fresh.is_empty() {
            return Ok(false);
        }
        let mut names = self.sources_of(reader)?;
        names.extend_from_slice(fresh)?;
        let set = set_of(self.alloc, &names)?;
        list_readers(self.alloc, &mut self.readers, reader, fresh)?;
        self.sources.insert(reader, set)?;
        Ok(true)
    }

    /// The program reads from none.
    pub fn drop_reader(&mut self, reader: Id)
        ensures { (x y : Id) → is_source self.new.sources x y ≡ (is_source self.old.sources x y && not (is_same_id x reader)) }
    {
        self.sources.remove(&reader);
    }

    /// The program reads from none, and none reads from it.
    fn forget(&mut self, name: Id)
        ensures { (x y : Id) → is_source self.new.sources x y ≡ (is_source self.old.sources x y && not (is_same_id x name || is_same_id y name)) }
    {
        let readers = unless_none(self.alloc, self.readers.remove(&name));
        unlink_all(&mut self.sources, &readers, name);
        self.sources.remove(&name);
    }

    /// These programs read from none, and none reads from them.
    pub fn forget_all(&mut self, names: &[Id])
        ensures { (x y : Id) → is_source self.new.sources x y ≡ (is_source self.old.sources x y && not (has_id x names.now || has_id y names.now)) }
    {
        for name in names {
            self.forget(*name);
        }
    }
}
