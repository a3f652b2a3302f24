//! Locks that are taken and dropped beside others.

use salt_locks::{LockTable, TakeErr};
use salt_model::{Family, Mode, Owner, Reach};
use salt_ranges::KeyRange;
use salt_values::{Id, Value};
use std::alloc::{AllocError, Global};

/// One key of a table.
fn reach(key: i64) -> Reach {
    Reach {
        table: 1,
        range: KeyRange {
            lo: Some(Value::Int(key)),
            hi: Some(Value::Int(key)),
        },
        mode: Mode::Write,
    }
}

fn take(
    table: &mut LockTable,
    alloc: Global,
    number: u64,
    owner: Owner,
    key: i64,
) -> Result<(), AllocError> {
    match table.take(alloc, number, owner, Family::Acid, &reach(key)) {
        Ok(()) | Err(TakeErr::Conflict(_)) => Ok(()),
        Err(TakeErr::Memory) => Err(AllocError),
    }
}

/// A table in which one unit holds locks on the keys from 1 to so many.
fn held(alloc: Global, many: u32) -> Result<LockTable, AllocError> {
    let mut table = LockTable::new(alloc);
    let first = Owner::Unit(Id { boot: 1, seq: 1 });
    for at in 0..many {
        take(
            &mut table,
            alloc,
            u64::from(at),
            first,
            i64::from(at).saturating_add(1),
        )?;
    }
    Ok(table)
}

/// So often takes a lock of another unit on a key beside so many, and drops it; how many are held then.
pub fn taken_one(alloc: Global, many: u32, times: u32, key: i64) -> Result<u64, AllocError> {
    let mut table = held(alloc, many)?;
    let other = Owner::Unit(Id { boot: 1, seq: 2 });
    for at in 0..times {
        let number = u64::from(many).saturating_add(u64::from(at));
        take(&mut table, alloc, number, other, key)?;
        table.drop_owner(other);
    }
    Ok(table.count() as u64)
}

/// So often takes locks of another unit beside so many, on the keys from one on, up or down, a tenth as many and at least ten, and
/// drops them together; how many are held then.
pub fn taken_many(
    alloc: Global,
    many: u32,
    times: u32,
    key: i64,
    step: i64,
) -> Result<u64, AllocError> {
    let mut table = held(alloc, many)?;
    let other = Owner::Unit(Id { boot: 1, seq: 2 });
    let more = i64::from((many / 10).max(10));
    for _ in 0..times {
        for at in 0..more {
            let key = key.saturating_add(at.saturating_mul(step));
            take(&mut table, alloc, u64::from(many), other, key)?;
        }
        table.drop_owner(other);
    }
    Ok(table.count() as u64)
}
