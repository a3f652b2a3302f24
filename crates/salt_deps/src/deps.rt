//! What is kept of writers, readers and finished programs.

use crate::due::{due, is_still_known};
use crate::places::Writers;
use crate::readings::Readings;
use crate::sets::{listed, take_out};
use crate::walks::reached;
use crate::writers::fresh_sources;
use salt_ranges::KeyRange;
use salt_values::{Id, Ids, Key};
use sqlite_items::Items;
use std::alloc::{AllocError, Global};
use std::collections::BTreeSet;
use std::marker::Model;

/// Of the programs that are neither released nor given up: which wrote a key last, which read from which, and which are
/// finished.
#[derive(Drop)]
pub struct Deps {
    alloc: Global,
    writers: Writers,
    readings: Readings,
    finished: BTreeSet<Id>,
    /// Whether it is known that no finished program is to be released.
    none_due: bool,
}

impl Model for Deps {
    ghost use Rattle.salt_deps.specs.Due.{NoneSettled};
    ghost use Rattle.salt_deps.specs.Group.{reads_in};
    ghost use Rattle.salt_deps.specs.Shown.{ShownDeps, pairs_in};
    ghost use Rattle.std.specs.Prelude.{IsTrue};

    ghost Value = { ShownDeps };

    ghost view = { λ x. record { writers = x.writers.last.entries; reads = pairs_in x.readings; finished = x.finished.keys } };

    ghost invariant = { λ x. IsTrue x.none_due → NoneSettled (reads_in x.readings) x.finished.keys };
}

impl Deps {
    ghost use Rattle.salt_deps.specs.Kept.{dependencies};
    ghost use Rattle.law_states.specs.DependencyCalls.{AreSame, HasAbandoned, HasFinished, HasRead, Wrote};
    ghost use Rattle.law_states.specs.KeptCover.{group_of};
    ghost use Rattle.law_states.specs.KeptSources.{Through, no_dependencies};
    ghost use Rattle.law_states.specs.Members.{In};
    ghost use Rattle.law_states.specs.Rising.{Rising};
    ghost use Rattle.salt_model.specs.Tables.{place};
    ghost use Rattle.salt_model.specs.declared.locks.Mode.{Mode};
    ghost use Rattle.salt_values.specs.declared.id.Id.{Id};
    ghost use Rattle.salt_model.specs.declared.locks.Reach.{Reach};
    ghost use Rattle.std.specs.Prelude.{◌≡◌, ◌↔◌, IfOk, OnOk, OnErr, false};

    /// Nothing is kept.
    pub fn new(alloc: Global) -> Deps
        ensures { dependencies result ≡ no_dependencies }
    {
        Deps {
            alloc,
            writers: Writers::new(alloc),
            readings: Readings::new(alloc),
            finished: BTreeSet::new(alloc),
            none_due: true,
        }
    }

    /// Each of these programs reads from each other one, none has written a key, and none is finished.
    pub fn of_group(alloc: Global, names: &[Id]) -> Result<Deps, AllocError>
        ensures { IfOk result (λ deps. AreSame (group_of names.now) (dependencies deps)) }
    {
        let readings = Readings::of_group(alloc, names)?;
        Ok(Deps {
            alloc,
            writers: Writers::new(alloc),
            readings,
            finished: BTreeSet::new(alloc),
            none_due: true,
        })
    }

    /// A unit that commits wrote the key: one of the program `base`, or, with none, an ACID unit, after which no program is the
    /// key's last writer. Want of memory leaves all as it was.
    pub fn wrote(&mut self, base: Option<Id>, table: u16, key: &Key) -> Result<(), AllocError>
        ensures ok { OnOk result (Wrote base (place table key.now) (dependencies self.old) (dependencies self.new)) }
        ensures err { OnErr result (AreSame (dependencies self.old) (dependencies self.new)) }
    {
        match base {
            Some(base) => self.writers.write(base, table, key),
            None => self.writers.forget(table, key),
        }
    }

    /// A unit of the program `base` read a range of a table: the program reads from each other one that is the last writer of a
    /// key there. Gives whether it did not read from one of them before; if not, all is as it was, as it is for want of memory.
    pub fn read(&mut self, base: Id, table: u16, range: &KeyRange) -> Result<bool, AllocError>
        ensures ok { OnOk result ((mode : Mode) → HasRead base (record { table = table; range = range.now; mode = mode }) (dependencies self.old) (dependencies self.new)) }
        ensures same { IfOk result (λ more. more ≡ false → AreSame (dependencies self.old) (dependencies self.new)) }
        ensures err { OnErr result (AreSame (dependencies self.old) (dependencies self.new)) }
    {
        if range.is_empty() {
            return Ok(false);
        }
        let fresh = fresh_sources(
            self.alloc,
            &self.readings,
            &self.writers,
            base,
            table,
            range,
        )?;
        let more = self.readings.add(base, &fresh)?;
        Ok(more)
    }

    /// The program, whose first part failed, reads nothing: it is no last writer and no source.
    pub fn abandon(&mut self, base: Id)
        ensures { HasAbandoned base (dependencies self.old) (dependencies self.new) }
    {
        self.none_due = is_still_known(self.none_due, &self.finished, base);
        self.readings.drop_reader(base);
    }

    /// The program is finished: those that are released by this are given, in order of names, and forgotten. They are the
    /// finished programs that read, directly or through programs, from finished ones alone. Want of memory leaves all as it was.
    pub fn finished(&mut self, base: Id) -> Result<Ids, AllocError>
        ensures ok { IfOk result (λ released. HasFinished base released (dependencies self.old) (dependencies self.new)) }
        ensures order { IfOk result Rising }
        ensures err { OnErr result (AreSame (dependencies self.old) (dependencies self.new)) }
    {
        let due = due(
            self.alloc,
            &self.readings,
            &self.finished,
            base,
            self.none_due,
        )?;
        let released = listed(self.alloc, &due)?;
        self.finished.insert(base)?;
        self.writers.drop_programs(&released);
        self.readings.forget_all(&released);
        take_out(&mut self.finished, &released);
        self.none_due = true;
        Ok(Items::from_vec(released))
    }

    /// Whether the program is finished and not yet released.
    pub fn is_finished(&self, base: Id) -> bool
        ensures { result ≡ (dependencies self.now).finished base }
    {
        self.finished.contains(&base)
    }

    /// The program and all that it reads from, directly or through programs, in order of names.
    pub fn sources(&self, base: Id) -> Result<Ids, AllocError>
        ensures all { IfOk result (λ sources. (c : Id) → In c sources ↔ Through (dependencies self.now).reads base c) }
        ensures order { IfOk result Rising }
    {
        let sources = reached(self.alloc, &self.readings, base)?;
        let names = listed(self.alloc, &sources)?;
        Ok(Items::from_vec(names))
    }
}
