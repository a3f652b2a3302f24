//! Changes put into changes that are in order of their places.

ghost use Rattle.std.specs.Prelude.{◌≡◌, ◌<◌, ◌≤◌, ◌+◌, IfOk, IsOk, OnErr, OnOk, length, reverse, vec_len};
ghost use Rattle.law_states.specs.Overlays.{AreInOrder, edits_of, put_all};
ghost use Rattle.std.specs.VecDeque.{deque_capacity, deque_len};
ghost use Rattle.salt_units.specs.Putting.{put_change, put_each};

use crate::edits::{count_before, is_change_at};
use salt_values::{Change, Changes};
use std::alloc::{AllocError, Global};
use std::collections::VecDeque;

/// Puts a change in its place, and in the place of one that is there. With room it succeeds; an error leaves the changes.
fn put_change(changes: &mut VecDeque<Change>, change: Change) -> Result<(), AllocError>
    requires { AreInOrder (edits_of changes.old.items) }
    ensures put { OnOk result (changes.new.items ≡ put_change change changes.old.items) }
    ensures in_order { OnOk result (AreInOrder (edits_of changes.new.items)) }
    ensures err { OnErr result (changes.new.items ≡ changes.old.items) }
    ensures room { deque_len changes.old < deque_capacity changes.old → IsOk result }
    ensures capacity { deque_capacity changes.old ≤ deque_capacity changes.new }
    ensures len { deque_len changes.new ≤ deque_len changes.old + 1 }
{
    let at = count_before(changes, change.table, &change.key);
    if at < changes.len() && is_change_at(&changes[at], change.table, &change.key) {
        changes[at] = change;
        return Ok(());
    }
    changes.insert(at, change)?;
    Ok(())
}

/// The changes from the last to the first.
fn reversed(alloc: Global, mut changes: Changes) -> Result<Vec<Change>, AllocError>
    ensures { IfOk result (λ turned. turned.items ≡ reverse changes) }
{
    let mut turned = Vec::new(alloc);
    while let Some(change) = changes.pop() {
        turned.push(change)?;
    }
    Ok(turned)
}

/// Puts changes that wait from the last to the first. There has to be room for each.
fn put_waiting(changes: &mut VecDeque<Change>, mut waiting: Vec<Change>)
    requires in_order { AreInOrder (edits_of changes.old.items) }
    requires room { deque_len changes.old + vec_len waiting ≤ deque_capacity changes.old }
    ensures { changes.new.items ≡ put_each (reverse waiting.items) changes.old.items }
{
    while let Some(change) = waiting.pop() {
        if put_change(changes, change).is_err() {
            unreachable!();
        }
    }
}

/// Puts one change, or none. An error leaves those that there are.
fn put_one(changes: &mut VecDeque<Change>, mut new: Changes) -> Result<(), AllocError>
    requires in_order { AreInOrder (edits_of changes.old.items) }
    requires few { length new < 2 }
    ensures put { OnOk result (edits_of changes.new.items ≡ put_all new (edits_of changes.old.items)) }
    ensures err { OnErr result (changes.new.items ≡ changes.old.items) }
{
    match new.pop() {
        Some(change) => put_change(changes, change),
        None => Ok(()),
    }
}

/// Puts changes into changes in order, one after another; those put may be in any order, and repeat places. An error leaves
/// those that there are.
pub fn put_changes(
    alloc: Global,
    changes: &mut VecDeque<Change>,
    new: Changes,
) -> Result<(), AllocError>
    requires { AreInOrder (edits_of changes.old.items) }
    ensures put { OnOk result (edits_of changes.new.items ≡ put_all new (edits_of changes.old.items)) }
    ensures err { OnErr result (changes.new.items ≡ changes.old.items) }
{
    if new.len() < 2 {
        return put_one(changes, new);
    }
    let waiting = reversed(alloc, new)?;
    changes.reserve(waiting.len())?;
    put_waiting(changes, waiting);
    Ok(())
}
