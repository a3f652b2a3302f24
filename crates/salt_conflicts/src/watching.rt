//! Locks, waits, unreleased programs, and who reads from whom.

ghost use Rattle.salt_ast.specs.declared.trees.Statement.{Statement};
ghost use Rattle.salt_deps.specs.Kept.{dependencies};
ghost use Rattle.law_states.specs.Circles.{BringsNoWait};
ghost use Rattle.law_states.specs.DependencyCalls.{AreSame, IsCommitted, WroteAll};
ghost use Rattle.law_states.specs.KeptCover.{group_of};
ghost use Rattle.law_states.specs.KeptLocks.{clash_in, numbered_from};
ghost use Rattle.law_states.specs.KeptSources.{no_dependencies};
ghost use Rattle.law_states.specs.KeptWaits.{Asker, AreDistinct, served_in, victim_in};
ghost use Rattle.law_states.specs.Members.{SameMembers};
ghost use Rattle.law_states.specs.Readings.{WatchReading, locks_by, locks_in};
ghost use Rattle.law_states.specs.UnitFacts.{UnitFacts};
ghost use Rattle.law_states.specs.WatchSteps.{base_by, first_by};
ghost use Rattle.law_states.specs.Watches.{Watch};
ghost use Rattle.salt_model.specs.Locks.{family_of, owners_of};
ghost use Rattle.salt_values.specs.Id.{has_id, in_order, without};
ghost use Rattle.salt_model.specs.declared.events.Answer.{Answer};
ghost use Rattle.salt_model.specs.declared.events.End.{End};
ghost use Rattle.salt_model.specs.declared.events.End.TheVariants.{Committed};
ghost use Rattle.salt_model.specs.declared.events.Event.TheVariants.{Accepted, Did, Early, Ended, Released, Waits};
ghost use Rattle.salt_model.specs.declared.events.Owner.{Owner};
ghost use Rattle.salt_model.specs.declared.shown.Item.{Item};
ghost use Rattle.salt_conflicts.specs.Calls.{HasGivenUp, HasReached, HasReadBy, handed_over, is_unreleased};
ghost use Rattle.salt_conflicts.specs.Waiters.{HoldsAlready, has_program, waiter_of};
ghost use Rattle.salt_conflicts.specs.Watched.{GoesBy, IsFinishing, IsWatch, place_of};
ghost use Rattle.std.specs.List.{filter, flat_map};
ghost use Rattle.std.specs.Option.{option_copied};
ghost use Rattle.std.specs.Prelude.{IfOk, List, OnOk, [], false, length, map, true, ℕ, ◌++◌, ◌∷◌, ◌≡◌};

use crate::graph::wait_graph;
use crate::holders::holds_without;
use crate::programs::Programs;
use crate::served::{clashing, holds, served};
use crate::shown::lock_items;
use crate::waiters::{Waiter, has_program, leave};
use salt_deps::{Deps, set_of};
use salt_locks::{FEW, LockTable};
use salt_model::{Family, Items, Owner, Owners, Reach};
use salt_values::{Change, Id, Ids, next_number};
use salt_waits::victim;
use std::alloc::{AllocError, Global};
use std::collections::VecDeque;
use std::marker::Model;

/// The locks that are held and how many were taken, the waiting units, the longest first, the accepted programs that are not
/// released, in order of their names, and who wrote, read and has finished. A call that wants memory may leave it anywhere.
pub struct Watching {
    alloc: Global,
    locks: LockTable,
    taken: u64,
    waits: Vec<Waiter>,
    programs: Programs,
    deps: Deps,
    /// Each waiting unit is held up by a lock of one of these owners. Where it is not set, one may be held up by none.
    held: bool,
    holders: Vec<Owner>,
}

impl Model for Watching {
    ghost use Rattle.salt_conflicts.specs.Holders.{KnowsHolders};
    ghost use Rattle.salt_conflicts.specs.Parts.{Parts};

    ghost Value = { Parts };

    ghost view = { λ x. record { locks = x.locks; taken = x.taken; waits = x.waits.items; programs = x.programs.names; deps = x.deps } };

    ghost invariant = { λ x. KnowsHolders x.held x.holders.items x.locks x.waits.items };
}

impl Drop for Watching {
    fn drop(self) {
        let Watching {
            alloc: _alloc,
            locks: _locks,
            taken: _taken,
            waits: _waits,
            programs: _programs,
            deps: _deps,
            held: _held,
            holders: _holders,
        } = self;
    }
}

/// Locks of these programs go, one program after another. Those of the last go first: as a rule they stand last, and so nothing
/// behind them moves.
fn release_each(locks: &mut LockTable, bases: &[Id])
    ensures { locks.new ≡ filter (is_unreleased bases.now) locks.old }
{
    let mut left = bases.len();
    while left > 0 {
        left -= 1;
        locks.drop_owner(Owner::Base(bases[left]));
    }
}

/// Locks of these programs go: those of a few one after another, those of many in one pass over all that are held.
fn release(alloc: Global, locks: &mut LockTable, bases: &[Id]) -> Result<(), AllocError>
    ensures { OnOk result (locks.new ≡ filter (is_unreleased bases.now) locks.old) }
{
    if bases.len() > FEW {
        let set = set_of(alloc, bases)?;
        locks.drop_programs(&set);
    } else {
        release_each(locks, bases);
    }
    Ok(())
}

/// A unit that commits hands its locks over to its program; those of an ACID unit go.
fn hand_over(locks: &mut LockTable, unit: Id, base: Option<Id>)
    ensures { locks.new ≡ handed_over unit base locks.old }
{
    match base {
        Some(base) => locks.to_saline(unit, base),
        None => locks.drop_owner(Owner::Unit(unit)),
    }
}

/// A unit of the program, or an ACID one, that commits has changed these places.
fn wrote(deps: &mut Deps, base: Option<Id>, changes: &VecDeque<Change>) -> Result<(), AllocError>
    ensures { OnOk result (WroteAll base (map place_of changes.now.items) (dependencies deps.old) (dependencies deps.new)) }
{
    for at in 0..changes.len() {
        let change = &changes[at];
        deps.wrote(base, change.table, &change.key)?;
    }
    Ok(())
}

/// A program's unit reads what is reached; an ACID unit has no sources. Gives whether the program reads from one from which it did
/// not read before.
fn read(deps: &mut Deps, base: Option<Id>, reach: &Reach) -> Result<bool, AllocError>
    ensures reads { OnOk result (HasReadBy base reach.now (dependencies deps.old) (dependencies deps.new)) }
    ensures same { IfOk result (λ more. more ≡ false → AreSame (dependencies deps.old) (dependencies deps.new)) }
{
    match base {
        Some(base) => deps.read(base, reach.table, &reach.range),
        None => Ok(false),
    }
}

/// A program whose first part ends without a commit reads nothing.
fn give_up(deps: &mut Deps, first: Option<Id>)
    ensures { HasGivenUp first (dependencies deps.old) (dependencies deps.new) }
{
    match first {
        Some(base) => deps.abandon(base),
        None => {}
    }
}

impl Watching {
    /// Nothing is held, waits or was read, and these programs, in order of their names, are not released.
    pub fn new(alloc: Global, programs: Vec<Id>) -> Watching
        ensures { IsWatch result (record { table = []; taken = 0; waits = []; programs = programs.items; dependencies = no_dependencies }) }
    {
        Watching {
            alloc,
            locks: LockTable::new(alloc),
            taken: 0,
            waits: Vec::new(alloc),
            programs: Programs::new(programs),
            deps: Deps::new(alloc),
            held: false,
            holders: Vec::new(alloc),
        }
    }

    /// What an early opening leaves: these locks, so many, are all that is held; nothing waits; the programs that it names, in order of
    /// their names, are not released, and each of them reads from each other one.
    pub fn resumed(
        alloc: Global,
        locks: LockTable,
        taken: u64,
        deps: Deps,
        programs: Vec<Id>,
    ) -> Watching
        ensures { (w : Watch) (f : UnitFacts) → SameMembers locks (numbered_from 0 f.cover) → taken ≡ length f.cover →
            AreSame (group_of programs.items) (dependencies deps) → GoesBy f (Early programs.items) w result }
    {
        Watching {
            alloc,
            locks,
            taken,
            waits: Vec::new(alloc),
            programs: Programs::new(programs),
            deps,
            held: false,
            holders: Vec::new(alloc),
        }
    }

    /// What a unit's statement reached is locked with the next number, and read by its program. Gives whether that reads from one
    /// from which it did not read before.
    fn reached(
        &mut self,
        unit: Id,
        base: Option<Id>,
        family: Family,
        reach: &Reach,
    ) -> Result<bool, AllocError>
        ensures all { OnOk result (HasReached unit base family reach.now self.old self.new) }
        ensures same { IfOk result (λ more. more ≡ false → AreSame (dependencies self.old.deps) (dependencies self.new.deps)) }
    {
        let next = next_number(self.taken)?;
        self.locks
            .grant(self.alloc, self.taken, Owner::Unit(unit), family, reach)?;
        self.taken = next;
        read(&mut self.deps, base, reach)
    }

    /// A unit's statement, that clashed with nothing, is done: it waits no more, and what was reached is locked and read by its
    /// program. Gives whether that reads from one from which it did not read before: if not, no circle of waits comes by it. Want of
    /// memory also where no greater number of a lock is left.
    pub fn did(
        &mut self,
        unit: Id,
        base: Option<Id>,
        family: Family,
        reach: Option<&Reach>,
    ) -> Result<bool, AllocError>
        ensures goes { OnOk result ((w : Watch) (f : UnitFacts) (st : Statement) (a : Answer) → IsWatch self.old w → base_by f ≡ base →
            family_of f.kind ≡ family → f.reach ≡ option_copied reach.entry → GoesBy f (Did unit st a) w self.new) }
        ensures quiet { IfOk result (λ more. more ≡ false → (w : Watch) (f : UnitFacts) (st : Statement) (a : Answer) → IsWatch self.old w →
            base_by f ≡ base → f.reach ≡ option_copied reach.entry → BringsNoWait f (Did unit st a) w) }
    {
        leave(&mut self.waits, unit);
        match reach {
            Some(reach) => self.reached(unit, base, family, reach),
            None => Ok(false),
        }
    }

    /// A unit waits from now on.
    pub fn wait(&mut self, waiter: Waiter) -> Result<(), AllocError>
        ensures { OnOk result ((w : Watch) (f : UnitFacts) (a : Asker) (owners : List Owner) → IsWatch self.old w → f.asks ≡ a ∷ [] →
            waiter_of a ≡ waiter → GoesBy f (Waits waiter.unit owners) w self.new) }
    {
        self.held = false;
        leave(&mut self.waits, waiter.unit);
        self.waits.push(waiter)?;
        Ok(())
    }

    /// A unit commits these changes: it waits no more, its locks are its program's, and that is the last writer of the changed
    /// keys. Of an ACID unit locks go, and the keys have no last writer.
    pub fn commit(
        &mut self,
        unit: Id,
        base: Option<Id>,
        changes: &VecDeque<Change>,
    ) -> Result<(), AllocError>
        ensures { OnOk result ((w : Watch) (f : UnitFacts) (n : ℕ) → IsWatch self.old w → base_by f ≡ base →
            map (λ e. e.0) f.changes ≡ map place_of changes.now.items → GoesBy f (Ended unit (Committed n)) w self.new) }
    {
        leave(&mut self.waits, unit);
        self.held = holds_without(self.held, &self.holders, Owner::Unit(unit));
        hand_over(&mut self.locks, unit, base);
        wrote(&mut self.deps, base, changes)
    }

    /// A unit ends without a commit: it waits no more, and its locks go. The program whose first part it is, if any, is given up.
    pub fn end(&mut self, unit: Id, first: Option<Id>)
        ensures { (w : Watch) (f : UnitFacts) (end : End) → IsWatch self.old w → (IsCommitted end → ⊥) → first_by f ≡ first →
            GoesBy f (Ended unit end) w self.new }
    {
        leave(&mut self.waits, unit);
        self.held = holds_without(self.held, &self.holders, Owner::Unit(unit));
        self.locks.drop_owner(Owner::Unit(unit));
        give_up(&mut self.deps, first);
    }

    /// A program is accepted.
    pub fn accept(&mut self, base: Id) -> Result<(), AllocError>
        ensures { OnOk result ((w : Watch) (f : UnitFacts) → IsWatch self.old w → GoesBy f (Accepted base) w self.new) }
    {
        self.programs.insert(self.alloc, base)
    }

    /// A program has come to its end: those that are released by this, in order of their names. They are forgotten, and their locks
    /// go; where there is none, only the program's mark is set.
    pub fn finish(&mut self, base: Id) -> Result<Ids, AllocError>
        ensures due { IfOk result (λ due. (w : Watch) (r : WatchReading w) → IsFinishing base self.old w → due ≡ in_order r.due) }
        ensures none { IfOk result (λ due. (w : Watch) → IsFinishing base self.old w → due ≡ [] → IsWatch self.new w) }
        ensures released { IfOk result (λ due. (w : Watch) (f : UnitFacts) → IsFinishing base self.old w → GoesBy f (Released due) w self.new) }
    {
        let due = self.deps.finished(base)?;
        if due.is_empty() {
            return Ok(due);
        }
        self.held = false;
        release(self.alloc, &mut self.locks, due.as_slice())?;
        self.programs.drop_all(self.alloc, due.as_slice());
        Ok(due)
    }

    /// Whether a unit is seen to hold just what it asks for: then nothing clashes with it. It may hold it where this gives false.
    pub fn holds(&self, unit: Id, family: Family, reach: Option<&Reach>) -> bool
        ensures { result ≡ true → (w : Watch) → IsWatch self.now w → HoldsAlready (Owner.Unit unit) family (option_copied reach.entry) (locks_in w) }
    {
        holds(&self.locks, unit, family, reach)
    }

    /// The owners whose locks clash with what a unit asks, units before programs, each in order of their names.
    pub fn clashing(
        &self,
        unit: Id,
        family: Family,
        reach: Option<&Reach>,
    ) -> Result<Owners, AllocError>
        ensures { IfOk result (λ owners. (w : Watch) → IsWatch self.now w →
            owners ≡ owners_of (clash_in (Owner.Unit unit) family (option_copied reach.entry) (locks_in w))) }
    {
        clashing(self.alloc, &self.locks, unit, family, reach)
    }

    /// The unit that has waited longest of those that clash with nothing any more. Where none was found, none is looked for until a unit
    /// waits, or locks go that hold up one.
    pub fn served(&mut self) -> Result<Option<Id>, AllocError>
        ensures { IfOk result (λ unit. (w : Watch) → IsWatch self.old w → (unit ≡ served_in (locks_in w) w.waits) × IsWatch self.new w) }
    {
        if self.held {
            return Ok(None);
        }
        let unit = served(&self.locks, &self.waits, &mut self.holders)?;
        self.held = unit.is_none();
        Ok(unit)
    }

    /// Whether a unit of a program waits. Where none does, nobody waits for another through a lock of a program.
    pub fn has_waiting_program(&self) -> bool
        ensures { (w : Watch) → IsWatch self.now w → result ≡ has_program w.waits }
    {
        has_program(&self.waits)
    }

    /// The unit to be given up where units wait for each other in a circle. That no unit waits twice comes from the law
    /// `waiting_units_are_distinct`.
    pub fn victim(&self) -> Result<Option<Id>, AllocError>
        ensures { IfOk result (λ unit. (w : Watch) (r : WatchReading w) → IsWatch self.now w → AreDistinct (map (λ (a : Asker). a.unit) w.waits) →
            unit ≡ victim_in w.dependencies (locks_in w) w.waits r.sources) }
    {
        if self.waits.is_empty() {
            return Ok(None);
        }
        let graph = wait_graph(self.alloc, &self.locks, &self.deps, &self.waits)?;
        victim(self.alloc, &graph)
    }

    /// The locks of the unreleased programs and then those of these units, of each owner in the order taken.
    pub fn lock_items(&self, units: &[Id]) -> Result<Items, AllocError>
        ensures { IfOk result (λ items. (w : Watch) (r : WatchReading w) → IsWatch self.now w → items ≡
            map Item.Lock (flat_map (λ b. locks_by r (Owner.Base b)) w.programs) ++ map Item.Lock (flat_map (λ u. locks_by r (Owner.Unit u)) units.now)) }
    {
        lock_items(self.alloc, &self.locks, self.programs.names(), units)
    }

    /// The accepted programs that are not released, in order of their names.
    pub fn programs(&self) -> &[Id]
        ensures { (w : Watch) → IsWatch self.now w → result.now ≡ w.programs }
    {
        self.programs.names()
    }

    /// Whether the program is accepted and not released.
    pub fn is_unreleased(&self, base: Id) -> bool
        ensures { (w : Watch) → IsWatch self.now w → result ≡ has_id base w.programs }
    {
        self.programs.has(base)
    }

    /// Takes those of some names out that are of such programs.
    pub fn strike_unreleased(&self, others: &mut Vec<Id>)
        ensures { (w : Watch) → IsWatch self.now w → others.new.items ≡ without w.programs others.old.items }
    {
        self.programs.strike(others);
    }

    /// The accepted programs that are not released, put in order of their names.
    pub fn programs_in_order(&self) -> Result<Vec<Id>, AllocError>
        ensures { IfOk result (λ bases. (w : Watch) → IsWatch self.now w → bases.items ≡ in_order w.programs) }
    {
        self.programs.in_order(self.alloc)
    }

    /// Whether the program has come to its end and is not yet released.
    pub fn is_finished(&self, base: Id) -> bool
        ensures { (w : Watch) → IsWatch self.now w → result ≡ w.dependencies.finished base }
    {
        self.deps.is_finished(base)
    }
}
