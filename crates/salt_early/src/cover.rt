//! The cover: the first of the programs holds all keys of each base table to write.

ghost use Rattle.law_states.specs.KeptLocks.{numbered_from};
ghost use Rattle.law_states.specs.Members.{SameMembers};
ghost use Rattle.law_states.specs.Restoring.{TakenEach, whole};
ghost use Rattle.salt_model.specs.Locks.{cover_lock, cover_of};
ghost use Rattle.salt_model.specs.Words.{first_of_list};
ghost use Rattle.salt_model.specs.declared.locks.Family.TheVariants.{Alkaline};
ghost use Rattle.std.specs.Prelude.{IfOk, OnOk, [], length, map, ◌≡◌};

use salt_locks::LockTable;
use salt_model::{Family, Mode, Owner, Reach};
use salt_ranges::KeyRange;
use salt_values::Id;
use std::alloc::{AllocError, Global};

/// All keys of a table, to write.
fn whole(table: u16) -> Reach
    ensures { result ≡ whole table }
{
    Reach {
        table,
        range: KeyRange { lo: None, hi: None },
        mode: Mode::Write,
    }
}

/// A unit takes each of these tables whole. The numbers of its locks begin at 0.
fn take_each(
    alloc: Global,
    locks: &mut LockTable,
    unit: Id,
    tables: &[u16],
) -> Result<(), AllocError>
    ensures { OnOk result (TakenEach unit Alkaline 0 tables.now locks.old locks.new) }
{
    for (at, table) in tables.iter().enumerate() {
        let reach = whole(*table);
        locks.grant(
            alloc,
            at as u64,
            Owner::Unit(unit),
            Family::Alkaline,
            &reach,
        )?;
    }
    Ok(())
}

/// One unit takes the tables, and its locks become a program's.
fn covered_by(alloc: Global, unit: Id, base: Id, tables: &[u16]) -> Result<LockTable, AllocError>
    ensures { IfOk result (λ locks. SameMembers locks (numbered_from 0 (map (cover_lock base) tables.now))) }
{
    let mut locks = LockTable::new(alloc);
    take_each(alloc, &mut locks, unit, tables)?;
    locks.to_saline(unit, base);
    Ok(locks)
}

/// The cover of these tables for these programs; without a program there is none. The unit that takes it has the number 0, which no
/// unit of a boot has.
pub fn cover(
    alloc: Global,
    boot: u64,
    tables: &[u16],
    named: &[Id],
) -> Result<LockTable, AllocError>
    ensures { IfOk result (λ locks. SameMembers locks (numbered_from 0 (cover_of [] tables.now (first_of_list named.now)))) }
{
    match named.first() {
        Some(first) => covered_by(alloc, Id { boot, seq: 0 }, *first, tables),
        None => Ok(LockTable::new(alloc)),
    }
}

/// How many locks the cover has.
pub fn cover_count(tables: &[u16], named: &[Id]) -> u64
    ensures { result ≡ length (cover_of [] tables.now (first_of_list named.now)) }
{
    match named.first() {
        Some(_first) => tables.len() as u64,
        None => 0,
    }
}
