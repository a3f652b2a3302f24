//! The locks of one owner, in the order of their statements.

ghost use Rattle.law_states.specs.KeptLocks.{Sooner};
ghost use Rattle.law_states.specs.Members.{Ascends};
ghost use Rattle.salt_locks.specs.Tables.{numbered};
ghost use Rattle.salt_locks.specs.Turns.{at_numbers, locks_in_turn, numbered_of, put_in_turn};
ghost use Rattle.std.specs.Prelude.{IfOk, OnOk, length, map, ◌≡◌};

use crate::copies::copy_lock;
use crate::owners::is_same_owner;
use salt_model::{Lock, Owner};
use std::alloc::{AllocError, Global};
use std::collections::{BTreeMap, VecDeque};

/// A lock with the number of the statement that it was taken for.
#[derive(Drop)]
pub struct TakenLock {
    pub number: u64,
    pub lock: Lock,
}

/// Puts a copy of a lock at its number, unless one is there.
fn put_in_turn(
    alloc: Global,
    taken: &mut BTreeMap<u64, Lock>,
    number: u64,
    lock: &Lock,
) -> Result<(), AllocError>
    ensures { OnOk result (Ascends Sooner (at_numbers taken.old.entries) → at_numbers taken.new.entries ≡ put_in_turn (λ n. n.number) (record { number = number; lock = lock.now }) (at_numbers taken.old.entries)) }
{
    if taken.contains_key(&number) {
        return Ok(());
    }
    taken.insert(number, copy_lock(alloc, lock)?)?;
    Ok(())
}

/// The locks of a map, in order of their numbers.
fn listed(alloc: Global, taken: BTreeMap<u64, Lock>) -> Result<Vec<TakenLock>, AllocError>
    ensures { IfOk result (λ list. map numbered_of list.items ≡ at_numbers taken.entries) }
{
    let mut list = Vec::new(alloc);
    list.reserve(taken.len())?;
    for (number, lock) in taken {
        list.push(TakenLock { number, lock })?;
    }
    Ok(list)
}

/// Those of the locks that are an owner's, in order of their numbers, of each number one.
pub fn locks_in_turn(
    alloc: Global,
    owner: Owner,
    numbers: &VecDeque<u64>,
    locks: &VecDeque<Lock>,
) -> Result<Vec<TakenLock>, AllocError>
    requires { length numbers.now.items ≡ length locks.now.items }
    ensures { IfOk result (λ taken. map numbered_of taken.items ≡ locks_in_turn owner (numbered numbers.now.items locks.now.items)) }
{
    let mut taken = BTreeMap::new(alloc);
    let mut left = locks.len();
    while left > 0 {
        left -= 1;
        let lock = &locks[left];
        if is_same_owner(owner, lock.owner) {
            put_in_turn(alloc, &mut taken, numbers[left], lock)?;
        }
    }
    listed(alloc, taken)
}
