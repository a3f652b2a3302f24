//! Which held locks clash with what is asked.

ghost use Rattle.salt_locks.specs.Tables.{bases_in, owners_against, units_in};
ghost use Rattle.salt_model.specs.Locks.{clashes, is_clash, is_read, is_same_owner};
ghost use Rattle.salt_model.specs.declared.locks.Lock.{Lock};
ghost use Rattle.salt_ranges.specs.Ranges.{meets};
ghost use Rattle.std.specs.List.{find};
ghost use Rattle.std.specs.Option.{option_copied};
ghost use Rattle.std.specs.Prelude.{IfOk, List, OnOk, drop, length, not, take, ◌&&◌, ◌-◌, ◌==◌, ◌∷◌, ◌≡◌, ◌≤◌};

use crate::owners::{is_same_owner, joined};
use salt_model::{Family, Lock, Mode, Owner, Owners, Reach};
use salt_values::{Id, insert_id};
use std::alloc::{AllocError, Global};
use std::collections::VecDeque;

fn is_read(mode: Mode) -> bool
    ensures { result ≡ is_read mode }
{
    match mode {
        Mode::Read => true,
        Mode::Write => false,
    }
}

fn is_clash(held: Family, mode: Mode, asked: Family, other: Mode) -> bool
    ensures { result ≡ is_clash held mode asked other }
{
    match (held, asked) {
        (Family::Saline, Family::Alkaline) => false,
        _ => !(is_read(mode) && is_read(other)),
    }
}

/// Whether a held lock is another owner's, and has a key in common with what an owner asks.
fn is_against(owner: Owner, reach: &Reach, lock: &Lock) -> bool
    ensures { result ≡ (not (is_same_owner owner lock.now.owner) && (lock.now.table == reach.now.table) && meets lock.now.range reach.now.range) }
{
    !is_same_owner(owner, lock.owner) && lock.table == reach.table && lock.range.meets(&reach.range)
}

/// Whether a held lock clashes with what an owner asks. Whether the two may stand together is looked at first: keys cost more to
/// compare, and where many locks stand on one row they are as a rule those of programs, which let each other's statements pass.
pub fn clashes(owner: Owner, family: Family, reach: &Reach, lock: &Lock) -> bool
    ensures { result ≡ clashes owner family reach.now lock.now }
{
    is_clash(lock.family, lock.mode, family, reach.mode) && is_against(owner, reach, lock)
}

/// The first of the locks from one place to another that clashes with what an owner asks. None is looked at behind it.
pub fn first_against<'a>(
    locks: &'a VecDeque<Lock>,
    part: (usize, usize),
    owner: Owner,
    family: Family,
    reach: &Reach,
) -> Option<&'a Lock>
    requires { part.1 ≤ length locks.now.items }
    ensures { option_copied result ≡ find (clashes owner family reach.now) (take (part.1 - part.0) (drop part.0 locks.now.items)) }
{
    let (from, to) = part;
    let mut at = from;
    while at < to {
        let lock = &locks[at];
        if clashes(owner, family, reach, lock) {
            return Some(lock);
        }
        at += 1;
    }
    None
}

/// Puts an owner among the units or among the programs.
fn insert_owner(owner: Owner, units: &mut Vec<Id>, bases: &mut Vec<Id>) -> Result<(), AllocError>
    ensures units { OnOk result ((l : Lock) (ls : List Lock) → l.owner ≡ owner → units.old.items ≡ units_in ls → units.new.items ≡ units_in (l ∷ ls)) }
    ensures bases { OnOk result ((l : Lock) (ls : List Lock) → l.owner ≡ owner → bases.old.items ≡ bases_in ls → bases.new.items ≡ bases_in (l ∷ ls)) }
{
    match owner {
        Owner::Unit(unit) => insert_id(units, unit),
        Owner::Base(base) => insert_id(bases, base),
    }
}

/// The owners of those of the locks from one place to another that clash with what an owner asks.
pub fn owners_against(
    alloc: Global,
    locks: &VecDeque<Lock>,
    part: (usize, usize),
    owner: Owner,
    family: Family,
    reach: &Reach,
) -> Result<Owners, AllocError>
    requires order { part.0 ≤ part.1 }
    requires within { part.1 ≤ length locks.now.items }
    ensures { IfOk result (λ owners. owners ≡ owners_against owner family reach.now (take (part.1 - part.0) (drop part.0 locks.now.items))) }
{
    let (from, to) = part;
    let mut units = Vec::new(alloc);
    let mut bases = Vec::new(alloc);
    let mut left = to;
    while left > from {
        left -= 1;
        let lock = &locks[left];
        if clashes(owner, family, reach, lock) {
            insert_owner(lock.owner, &mut units, &mut bases)?;
        }
    }
    joined(alloc, &units, &bases)
}
