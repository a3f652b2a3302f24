//! Whom waiting units clash with, and which of them is served next.

ghost use Rattle.law_states.specs.KeptLocks.{clash_in};
ghost use Rattle.law_states.specs.KeptWaits.{clash_owners, served_in};
ghost use Rattle.salt_locks.specs.Tables.{locks_in};
ghost use Rattle.salt_model.specs.Locks.{owners_of};
ghost use Rattle.salt_model.specs.Words.{is_empty};
ghost use Rattle.law_states.specs.Members.{In};
ghost use Rattle.salt_conflicts.specs.Waiters.{HoldsAlready, asker_of, askers, holds_up};
ghost use Rattle.salt_model.specs.declared.locks.Lock.{Lock};
ghost use Rattle.std.specs.Option.{option_copied};
ghost use Rattle.salt_conflicts.specs.Holders.{AreHeldUp};
ghost use Rattle.std.specs.Prelude.{IfOk, None, Some, is_some, not, true, ◌≡◌};

use crate::holders::note;
use crate::waiters::Waiter;
use salt_locks::{LockTable, clashes};
use salt_model::{Family, Lock, Owner, Owners, Reach};
use salt_values::Id;
use std::alloc::{AllocError, Global};

/// The owners whose locks clash with what a unit asks, units before programs, each in order of their names.
pub fn clashing(
    alloc: Global,
    locks: &LockTable,
    unit: Id,
    family: Family,
    reach: Option<&Reach>,
) -> Result<Owners, AllocError>
    ensures { IfOk result (λ owners. owners ≡ owners_of (clash_in (Owner.Unit unit) family (option_copied reach.entry) (locks_in locks.now))) }
{
    match reach {
        Some(reach) => locks.clashing(alloc, Owner::Unit(unit), family, reach),
        None => Ok(Owners::new(alloc)),
    }
}

/// Whether a unit is seen to hold just what it asks for.
pub fn holds(locks: &LockTable, unit: Id, family: Family, reach: Option<&Reach>) -> bool
    ensures { result ≡ true → HoldsAlready (Owner.Unit unit) family (option_copied reach.entry) (locks_in locks.now) }
{
    match reach {
        Some(reach) => locks.holds(Owner::Unit(unit), family, reach),
        None => false,
    }
}

/// The owners whose locks a waiting unit waits for.
pub fn against(alloc: Global, locks: &LockTable, waiter: &Waiter) -> Result<Owners, AllocError>
    ensures { IfOk result (λ owners. owners ≡ clash_owners (locks_in locks.now) (asker_of waiter.now)) }
{
    match &waiter.reach {
        Some(reach) => clashing(alloc, locks, waiter.unit, waiter.family, Some(reach)),
        None => Ok(Owners::new(alloc)),
    }
}

/// Whether a lock, if one is given, holds up a waiting unit.
fn holds_up(lock: Option<&Lock>, waiter: &Waiter) -> bool
    ensures { result ≡ holds_up (option_copied lock.entry) waiter.now.reach waiter.now.unit waiter.now.family }
{
    match (lock, &waiter.reach) {
        (Some(lock), Some(reach)) => {
            clashes(Owner::Unit(waiter.unit), waiter.family, reach, lock)
        }
        _ => false,
    }
}

/// The first lock that holds up a waiting unit.
fn first_clash<'a>(locks: &'a LockTable, waiter: &Waiter) -> Option<&'a Lock>
    ensures held { (l : Lock) → option_copied result ≡ Some l → In l (locks_in locks.now) }
    ensures clashes { (l : Lock) → option_copied result ≡ Some l → holds_up (Some l) waiter.now.reach waiter.now.unit waiter.now.family ≡ true }
    ensures free { is_empty (clash_owners (locks_in locks.now) (asker_of waiter.now)) ≡ not (is_some result) }
{
    match &waiter.reach {
        Some(reach) => locks.first_clash(Owner::Unit(waiter.unit), waiter.family, reach),
        None => None,
    }
}

/// A lock that holds up a waiting unit: the one given, if it does.
fn clash_of<'a>(locks: &'a LockTable, last: Option<&'a Lock>, waiter: &Waiter) -> Option<&'a Lock>
    requires { (l : Lock) → option_copied last ≡ Some l → In l (locks_in locks.now) }
    ensures held { (l : Lock) → option_copied result ≡ Some l → In l (locks_in locks.now) }
    ensures clashes { (l : Lock) → option_copied result ≡ Some l → holds_up (Some l) waiter.now.reach waiter.now.unit waiter.now.family ≡ true }
    ensures free { is_empty (clash_owners (locks_in locks.now) (asker_of waiter.now)) ≡ not (is_some result) }
{
    if holds_up(last, waiter) {
        last
    } else {
        first_clash(locks, waiter)
    }
}

/// The first of the waiting units that clashes with nothing. Where there is none, owners whose locks hold them up are noted. What has held
/// up one is tried first on the next, since as a rule many wait for one lock.
pub fn served(
    locks: &LockTable,
    waits: &[Waiter],
    holders: &mut Vec<Owner>,
) -> Result<Option<Id>, AllocError>
    ensures told { IfOk result (λ unit. unit ≡ served_in (locks_in locks.now) (askers waits.now)) }
    ensures held { IfOk result (λ unit. unit ≡ None → AreHeldUp holders.new.items (locks_in locks.now) waits.now) }
{
    holders.clear();
    let mut last: Option<&Lock> = None;
    for waiter in waits {
        match clash_of(locks, last, waiter) {
            Some(lock) => {
                note(holders, lock.owner)?;
                last = Some(lock);
            }
            None => return Ok(Some(waiter.unit)),
        }
    }
    Ok(None)
}
