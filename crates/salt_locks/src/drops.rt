//! Locks go, with what stands beside them.

ghost use Rattle.salt_locks.specs.Clear.{IsMarked};
ghost use Rattle.salt_locks.specs.Leaving.{stays};
ghost use Rattle.salt_locks.specs.Places.{AreInOrder};
ghost use Rattle.salt_locks.specs.Spots.{AreAt, spot_of};
ghost use Rattle.salt_locks.specs.Tables.{is_of_another, numbered};
ghost use Rattle.salt_locks.specs.declared.spots.Spot.{Spot};
ghost use Rattle.salt_model.specs.declared.locks.Lock.{Lock};
ghost use Rattle.std.specs.List.{filter, remove};
ghost use Rattle.std.specs.Prelude.{List, get_or, length, map, ℕ, ◌<◌, ◌∷◌, ◌≡◌, ◌≤◌};

use crate::clear::{ends_by, mark};
use crate::leaving::Leaving;
use crate::owners::is_same_owner;
use crate::places::{count_below, count_no_later};
use crate::spots::Spot;
use salt_model::{Lock, Owner};
use std::collections::VecDeque;

/// So many locks, and the locks of so many programs, go one after another; where there are more, all go in one pass.
pub const FEW: usize = 8;

/// The lock at a place goes. Whether it was on more than one key.
fn remove_at(
    at: usize,
    numbers: &mut VecDeque<u64>,
    clear: &mut VecDeque<bool>,
    locks: &mut VecDeque<Lock>,
) -> bool
    requires below { at < length locks.old.items }
    requires numbers { length numbers.old.items ≡ length locks.old.items }
    requires clear { length clear.old.items ≡ length locks.old.items }
    ensures numbers { numbers.new.items ≡ remove numbers.old.items at }
    ensures clear { clear.new.items ≡ remove clear.old.items at }
    ensures locks { locks.new.items ≡ remove locks.old.items at }
{
    let _number = numbers.remove(at);
    let _clear = clear.remove(at);
    match locks.remove(at) {
        Some(lock) => !ends_by(&lock, &lock),
        None => false,
    }
}

/// An owner's locks of one spot go, which stand between these places. Whether one of them was on more than one key.
fn drop_between(
    owner: Owner,
    spot: &Spot,
    from: usize,
    to: usize,
    numbers: &mut VecDeque<u64>,
    clear: &mut VecDeque<bool>,
    locks: &mut VecDeque<Lock>,
) -> bool
    requires numbers { length numbers.old.items ≡ length locks.old.items }
    requires order { AreInOrder locks.old.items }
    requires marked { IsMarked clear.old.items locks.old.items }
    requires within { to ≤ length locks.old.items }
    requires before { (k : ℕ) (d : Lock) → k < from → spot_of (get_or locks.old.items k d) ≡ spot.now → ⊥ }
    requires behind { (k : ℕ) (d : Lock) → to ≤ k → k < length locks.old.items → spot_of (get_or locks.old.items k d) ≡ spot.now → ⊥ }
    ensures numbers { length numbers.new.items ≡ length locks.new.items }
    ensures order { AreInOrder locks.new.items }
    ensures marked { IsMarked clear.new.items locks.new.items }
    ensures others { filter (is_of_another owner) (numbered numbers.new.items locks.new.items) ≡ filter (is_of_another owner) (numbered numbers.old.items locks.old.items) }
    ensures gone { (rest : List Spot) → AreAt owner (spot.now ∷ rest) locks.old.items → AreAt owner rest locks.new.items }
{
    let mut is_long = false;
    let mut left = to;
    while left > from {
        left -= 1;
        if is_same_owner(owner, locks[left].owner) {
            is_long = remove_at(left, numbers, clear, locks) || is_long;
        }
    }
    is_long
}

/// An owner's locks of one spot go. Whether one of them was on more than one key.
fn drop_spot(
    owner: Owner,
    spot: &Spot,
    numbers: &mut VecDeque<u64>,
    clear: &mut VecDeque<bool>,
    locks: &mut VecDeque<Lock>,
) -> bool
    requires numbers { length numbers.old.items ≡ length locks.old.items }
    requires order { AreInOrder locks.old.items }
    requires marked { IsMarked clear.old.items locks.old.items }
    ensures numbers { length numbers.new.items ≡ length locks.new.items }
    ensures order { AreInOrder locks.new.items }
    ensures marked { IsMarked clear.new.items locks.new.items }
    ensures others { filter (is_of_another owner) (numbered numbers.new.items locks.new.items) ≡ filter (is_of_another owner) (numbered numbers.old.items locks.old.items) }
    ensures gone { (rest : List Spot) → AreAt owner (spot.now ∷ rest) locks.old.items → AreAt owner rest locks.new.items }
{
    let from = count_below(locks, spot.table, &spot.low);
    let to = count_no_later(locks, spot.table, &spot.low);
    drop_between(owner, spot, from, to, numbers, clear, locks)
}

/// An owner's locks go, which all begin at these spots. No others are looked at.
pub fn drop_at(
    owner: Owner,
    spots: &[Spot],
    numbers: &mut VecDeque<u64>,
    clear: &mut VecDeque<bool>,
    locks: &mut VecDeque<Lock>,
)
    requires numbers { length numbers.old.items ≡ length locks.old.items }
    requires order { AreInOrder locks.old.items }
    requires marked { IsMarked clear.old.items locks.old.items }
    requires all { AreAt owner spots.now locks.old.items }
    ensures numbers { length numbers.new.items ≡ length locks.new.items }
    ensures order { AreInOrder locks.new.items }
    ensures marked { IsMarked clear.new.items locks.new.items }
    ensures all { numbered numbers.new.items locks.new.items ≡ filter (is_of_another owner) (numbered numbers.old.items locks.old.items) }
{
    let mut is_long = false;
    for spot in spots {
        is_long = drop_spot(owner, spot, numbers, clear, locks) || is_long;
    }
    if is_long {
        mark(clear, locks);
    }
}

/// An owner's locks go, from the last one on, until a few have. How many locks it has not looked at.
pub fn drop_few(
    owner: Owner,
    numbers: &mut VecDeque<u64>,
    clear: &mut VecDeque<bool>,
    locks: &mut VecDeque<Lock>,
) -> usize
    requires numbers { length numbers.old.items ≡ length locks.old.items }
    requires order { AreInOrder locks.old.items }
    requires marked { IsMarked clear.old.items locks.old.items }
    ensures numbers { length numbers.new.items ≡ length locks.new.items }
    ensures order { AreInOrder locks.new.items }
    ensures marked { IsMarked clear.new.items locks.new.items }
    ensures others { filter (is_of_another owner) (numbered numbers.new.items locks.new.items) ≡ filter (is_of_another owner) (numbered numbers.old.items locks.old.items) }
    ensures all { result ≡ 0 → numbered numbers.new.items locks.new.items ≡ filter (is_of_another owner) (numbered numbers.old.items locks.old.items) }
{
    let mut is_long = false;
    let mut gone = 0;
    let mut left = locks.len();
    while left > 0 && gone < FEW {
        left -= 1;
        if is_same_owner(owner, locks[left].owner) {
            is_long = remove_at(left, numbers, clear, locks) || is_long;
            gone += 1;
        }
    }
    if is_long {
        mark(clear, locks);
    }
    left
}

/// Leaves the numbers of the locks that stay.
fn drop_numbers(leaving: &Leaving<'_>, numbers: &mut VecDeque<u64>, locks: &VecDeque<Lock>)
    requires { length numbers.old.items ≡ length locks.now.items }
    ensures { numbers.new.items ≡ map (λ n. n.number) (filter (stays leaving.now) (numbered numbers.old.items locks.now.items)) }
{
    let mut kept = 0;
    let mut at = 0;
    while at < locks.len() {
        let lock = &locks[at];
        if !leaving.has(lock.owner) {
            numbers[kept] = numbers[at];
            kept += 1;
        }
        at += 1;
    }
    numbers.truncate(kept);
}

/// Locks go, all at once.
pub fn drop_all(
    leaving: &Leaving<'_>,
    numbers: &mut VecDeque<u64>,
    clear: &mut VecDeque<bool>,
    locks: &mut VecDeque<Lock>,
)
    requires numbers { length numbers.old.items ≡ length locks.old.items }
    requires order { AreInOrder locks.old.items }
    requires clear { length clear.old.items ≡ length locks.old.items }
    ensures numbers { length numbers.new.items ≡ length locks.new.items }
    ensures order { AreInOrder locks.new.items }
    ensures marked { IsMarked clear.new.items locks.new.items }
    ensures all { numbered numbers.new.items locks.new.items ≡ filter (stays leaving.now) (numbered numbers.old.items locks.old.items) }
{
    drop_numbers(leaving, numbers, locks);
    locks.retain(|lock| !leaving.has(lock.owner));
    clear.truncate(locks.len());
    mark(clear, locks);
}
