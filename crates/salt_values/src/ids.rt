//! Lists of names.

ghost use Rattle.salt_values.specs.Id.{has_id, in_order, insert_id, is_older, is_same_id, without};
ghost use Rattle.std.specs.Prelude.{IfOk, OnOk, ◌+◌, ◌++◌, ◌≡◌};

use crate::id::Id;
use std::alloc::{AllocError, Global};

/// The number behind another one. Behind the greatest there is none, which is told as want of memory.
pub fn next_number(number: u64) -> Result<u64, AllocError>
    ensures { IfOk result (λ next. next ≡ number + 1) }
{
    number.checked_add(1).ok_or(AllocError)
}

/// Whether two names are one.
pub fn is_same_id(left: Id, right: Id) -> bool
    ensures { result ≡ is_same_id left right }
{
    left.boot == right.boot && left.seq == right.seq
}

/// Whether the first name is the older one.
pub fn is_older(left: Id, right: Id) -> bool
    ensures { result ≡ is_older left right }
{
    left.boot < right.boot || (left.boot == right.boot && left.seq < right.seq)
}

/// Whether the name is among these.
pub fn has_id(ids: &[Id], id: Id) -> bool
    ensures { result ≡ has_id id ids.now }
{
    ids.iter().any(|other| id == *other)
}

/// Drops the names that are among these.
pub fn drop_ids(ids: &mut Vec<Id>, dropped: &[Id])
    ensures { ids.new.items ≡ without dropped.now ids.old.items }
{
    ids.retain(|id| !has_id(dropped, *id));
}

/// Puts a name into names in their order, once. Where memory runs out they stay as they were.
pub fn insert_id(ids: &mut Vec<Id>, id: Id) -> Result<(), AllocError>
    ensures { OnOk result (ids.new.items ≡ insert_id id ids.old.items) }
{
    let mut at = 0;
    while at < ids.len() {
        let here = ids[at];
        if id < here {
            break;
        }
        if id == here {
            return Ok(());
        }
        at += 1;
    }
    ids.insert(at, id)?;
    Ok(())
}

/// Names in their order, each once.
pub fn in_order(alloc: Global, ids: &[Id]) -> Result<Vec<Id>, AllocError>
    ensures { IfOk result (λ ordered. ordered.items ≡ in_order ids.now) }
{
    let mut ordered = Vec::new(alloc);
    let mut left = ids.len();
    while left > 0 {
        left -= 1;
        insert_id(&mut ordered, ids[left])?;
    }
    Ok(ordered)
}

/// Two lists of names together, in their order, each once.
pub fn both_in_order(alloc: Global, first: &[Id], second: &[Id]) -> Result<Vec<Id>, AllocError>
    ensures { IfOk result (λ ordered. ordered.items ≡ in_order (first.now ++ second.now)) }
{
    let mut ordered = in_order(alloc, second)?;
    let mut left = first.len();
    while left > 0 {
        left -= 1;
        insert_id(&mut ordered, first[left])?;
    }
    Ok(ordered)
}
