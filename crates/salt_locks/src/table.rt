//! The lock table.

ghost use Rattle.law_states.specs.KeptLocks.{Numbered};
ghost use Rattle.law_states.specs.Members.{In};
ghost use Rattle.salt_locks.specs.Tables.{AnswersAsk, is_of_another, is_of_none, locks_in, owners_against, put, salted};
ghost use Rattle.salt_locks.specs.Turns.{locks_in_turn, numbered_of};
ghost use Rattle.salt_locks.specs.declared.table.TakeErr.TheVariants.{Memory};
ghost use Rattle.salt_model.specs.Locks.{clashes, lock_of};
ghost use Rattle.std.specs.List.{filter, find};
ghost use Rattle.std.specs.Option.{option_copied};
ghost use Rattle.std.specs.Prelude.{IfOk, OnErr, OnOk, [], length, map, true, ◌≡◌};

use crate::alike::is_lock_of;
use crate::clash::{first_against, owners_against};
use crate::clear::{cover, is_clear, met};
use crate::copies::copy_range;
use crate::drops::{FEW, drop_all, drop_at, drop_few};
use crate::leaving::Leaving;
use crate::places::count_no_later;
use crate::salts::salt;
use crate::spots::Spots;
use crate::turns::{TakenLock, locks_in_turn};
use salt_model::{Family, Lock, Owner, Owners, Reach};
use salt_values::Id;
use std::alloc::{AllocError, Global};
use std::collections::{BTreeSet, VecDeque};
use std::marker::Model;

/// Why no lock is taken.
#[derive(Drop)]
pub enum TakeErr {
    /// Those whose locks clash with it, units before programs, each in order of their names.
    Conflict(Owners),
    /// Memory ran out.
    Memory,
}

impl From<AllocError> for TakeErr {
    ghost from_gives = { λ _ e. e ≡ Memory };

    fn from(_e: AllocError) -> TakeErr {
        TakeErr::Memory
    }
}

/// The held locks, by table and then by lower end, those without one first, of each the number of its statement, and whether it
/// is clear, so that a search need not look before it; and where each owner has locks. Contracts see a list of locks with their numbers.
#[derive(Drop)]
pub struct LockTable {
    numbers: VecDeque<u64>,
    clear: VecDeque<bool>,
    locks: VecDeque<Lock>,
    spots: Spots,
}

impl Model for LockTable {
    ghost use Rattle.law_states.specs.KeptLocks.{Numbered};
    ghost use Rattle.salt_locks.specs.Clear.{IsMarked};
    ghost use Rattle.salt_locks.specs.Places.{AreInOrder};
    ghost use Rattle.salt_locks.specs.Spots.{AreSpotted};
    ghost use Rattle.salt_locks.specs.Tables.{numbered};
    ghost use Rattle.std.specs.Prelude.{List, length, ◌≡◌};

    ghost Value = { List Numbered };

    ghost view = { λ t. numbered t.numbers.items t.locks.items };

    ghost invariant = { λ t. (length t.numbers.items ≡ length t.locks.items) × AreInOrder t.locks.items × IsMarked t.clear.items t.locks.items × AreSpotted t.spots t.locks.items };
}

fn lock_of(alloc: Global, owner: Owner, family: Family, reach: &Reach) -> Result<Lock, AllocError>
    ensures { IfOk result (λ lock. lock ≡ lock_of owner family reach.now) }
{
    Ok(Lock {
        owner,
        family,
        mode: reach.mode,
        table: reach.table,
        range: copy_range(alloc, &reach.range)?,
    })
}

impl LockTable {
    /// No lock is held.
    pub fn new(alloc: Global) -> LockTable
        ensures { result ≡ [] }
    {
        LockTable {
            numbers: VecDeque::new(alloc),
            clear: VecDeque::new(alloc),
            locks: VecDeque::new(alloc),
            spots: Spots::new(alloc),
        }
    }

    /// How many locks are held.
    pub fn count(&self) -> usize
        ensures { result ≡ length (locks_in self.now) }
    {
        self.locks.len()
    }

    /// An owner's locks with the numbers of their statements, which ascend; where a number is there twice, the last of the two in
    /// the table.
    pub fn of_owner(&self, alloc: Global, owner: Owner) -> Result<Vec<TakenLock>, AllocError>
        ensures { IfOk result (λ taken. map numbered_of taken.items ≡ locks_in_turn owner self.now) }
    {
        locks_in_turn(alloc, owner, &self.numbers, &self.locks)
    }

    /// The owners whose locks clash with what is asked, units before programs, each in order of their names. Takes no lock.
    pub fn clashing(
        &self,
        alloc: Global,
        owner: Owner,
        family: Family,
        reach: &Reach,
    ) -> Result<Owners, AllocError>
        ensures { IfOk result (λ owners. owners ≡ owners_against owner family reach.now (locks_in self.now)) }
    {
        let part = met(&self.locks, &self.clear, reach.table, &reach.range);
        owners_against(alloc, &self.locks, part, owner, family, reach)
    }

    /// The first of the held locks that clashes with what is asked, if one does.
    pub fn first_clash(&self, owner: Owner, family: Family, reach: &Reach) -> Option<&Lock>
        ensures { option_copied result ≡ find (clashes owner family reach.now) (locks_in self.now) }
    {
        let part = met(&self.locks, &self.clear, reach.table, &reach.range);
        first_against(&self.locks, part, owner, family, reach)
    }

    /// Whether the last of the held locks that begin where this reach does is just the one that is asked for. It may be held where this
    /// gives false.
    pub fn holds(&self, owner: Owner, family: Family, reach: &Reach) -> bool
        ensures { result ≡ true → In (lock_of owner family reach.now) (locks_in self.now) }
    {
        let behind = count_no_later(&self.locks, reach.table, &reach.range.lo);
        if behind == 0 {
            return false;
        }
        is_lock_of(owner, family, reach, &self.locks[behind - 1])
    }

    /// Puts a lock in its place; without memory all stays.
    fn put(&mut self, number: u64, lock: Lock) -> Result<(), AllocError>
        ensures ok { OnOk result (self.new ≡ put (record { number = number; lock = lock }) self.old) }
        ensures err { OnErr result (self.new ≡ self.old) }
    {
        let place = count_no_later(&self.locks, lock.table, &lock.range.lo);
        let is_clear = is_clear(&self.locks, &self.clear, place, &lock);
        cover(&mut self.clear, &self.locks, place, &lock);
        self.numbers.reserve(1)?;
        self.clear.reserve(1)?;
        self.locks.insert(place, lock)?;
        self.clear.insert(place, is_clear)?;
        self.numbers.insert(place, number)?;
        self.spots.list(&self.locks[place]);
        Ok(())
    }

    /// Takes a lock on what is reached, for the statement of this number, where the caller knows of no clash. Without memory nothing
    /// is taken.
    pub fn grant(
        &mut self,
        alloc: Global,
        number: u64,
        owner: Owner,
        family: Family,
        reach: &Reach,
    ) -> Result<(), AllocError>
        ensures ok { OnOk result (self.new ≡ put (record { number = number; lock = lock_of owner family reach.now }) self.old) }
        ensures err { OnErr result (self.new ≡ self.old) }
    {
        self.put(number, lock_of(alloc, owner, family, reach)?)
    }

    /// Takes a lock on what is reached, for the statement of this number. Conflict, with all owners whose locks clash with it, where
    /// there are some; then, and without memory, nothing is taken.
    pub fn take(
        &mut self,
        alloc: Global,
        number: u64,
        owner: Owner,
        family: Family,
        reach: &Reach,
    ) -> Result<(), TakeErr>
        ensures { AnswersAsk number owner family reach.now self.old self.new result }
    {
        let owners = self.clashing(alloc, owner, family, reach)?;
        if !owners.is_empty() {
            return Err(TakeErr::Conflict(owners));
        }
        self.grant(alloc, number, owner, family, reach)?;
        Ok(())
    }

    /// A unit's locks become saline ones of its program.
    pub fn to_saline(&mut self, unit: Id, base: Id)
        ensures { self.new ≡ map (salted unit base) self.old }
    {
        let owner = Owner::Unit(unit);
        let few = self.spots.are_few(owner, FEW);
        salt(unit, base, few, self.spots.of_owner(owner), &mut self.locks);
        self.spots.hand_over(unit, base);
    }

    /// An owner's locks go.
    pub fn drop_owner(&mut self, owner: Owner)
        ensures { self.new ≡ filter (is_of_another owner) self.old }
    {
        if self.spots.are_few(owner, FEW) {
            drop_at(
                owner,
                self.spots.of_owner(owner),
                &mut self.numbers,
                &mut self.clear,
                &mut self.locks,
            );
            self.spots.forget(owner);
            return;
        }
        self.spots.forget(owner);
        if drop_few(owner, &mut self.numbers, &mut self.clear, &mut self.locks) == 0 {
            return;
        }
        drop_all(
            &Leaving::One(owner),
            &mut self.numbers,
            &mut self.clear,
            &mut self.locks,
        );
    }

    /// The locks of these programs go, in one pass over all locks.
    pub fn drop_programs(&mut self, bases: &BTreeSet<Id>)
        ensures { self.new ≡ filter (is_of_none bases.now.keys) self.old }
    {
        self.spots.forget_programs(bases);
        drop_all(
            &Leaving::Programs(bases),
            &mut self.numbers,
            &mut self.clear,
            &mut self.locks,
        );
    }
}
