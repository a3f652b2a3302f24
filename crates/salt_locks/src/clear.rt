//! Which locks are clear, and where a search may begin.

ghost use Rattle.salt_locks.specs.Clear.{IsMarked, ends_by, ends_no_later, is_high_at_most, is_met, is_reaching};
ghost use Rattle.salt_locks.specs.Places.{AreInOrder, is_low_at_most, is_up_to};
ghost use Rattle.salt_model.specs.declared.locks.Lock.{Lock};
ghost use Rattle.std.specs.List.{filter, prefix_len};
ghost use Rattle.std.specs.Prelude.{Bool, drop, false, get_or, length, take, true, ℕ, ◌-◌, ◌<◌, ◌≡◌, ◌≤◌};

use crate::places::{count_below, count_to};
use salt_model::Lock;
use salt_ranges::KeyRange;
use salt_values::Key;
use std::collections::VecDeque;

fn is_high_at_most(hi: &Option<Key>, lo: &Option<Key>) -> bool
    ensures { result ≡ is_high_at_most hi.now lo.now }
{
    match (hi, lo) {
        (Some(hi), Some(lo)) => hi <= lo,
        _ => false,
    }
}

/// Whether an upper end is at most another. None at all is the greatest.
pub fn ends_no_later(hi: &Option<Key>, other: &Option<Key>) -> bool
    ensures { result ≡ ends_no_later hi.now other.now }
{
    match (hi, other) {
        (_, None) => true,
        (None, Some(_)) => false,
        (Some(hi), Some(other)) => hi <= other,
    }
}

/// Whether a lock is on another table, or its upper end is at most the other's lower end.
pub fn ends_by(lock: &Lock, other: &Lock) -> bool
    ensures { result ≡ ends_by lock.now other.now }
{
    lock.table != other.table || is_high_at_most(&lock.range.hi, &other.range.lo)
}

/// Whether the lock at a place is clear.
fn is_clear_at(clear: &VecDeque<bool>, at: usize) -> bool
    requires { at < length clear.now.items }
    ensures { result ≡ get_or clear.now.items at false }
{
    clear[at]
}

/// The first place from which a search for locks that reach up to a lower end has to begin.
pub fn first_reaching(
    locks: &VecDeque<Lock>,
    clear: &VecDeque<bool>,
    table: u16,
    low: &Option<Key>,
) -> usize
    requires order { AreInOrder locks.now.items }
    requires marked { IsMarked clear.now.items locks.now.items }
    ensures { (k : ℕ) (d : Lock) → k < result → is_reaching table low.now (get_or locks.now.items k d) ≡ false }
{
    let mut left = count_below(locks, table, low);
    while left > 0 {
        let last = &locks[left - 1];
        if last.table != table {
            return left;
        }
        left -= 1;
        if is_clear_at(clear, left) {
            return left;
        }
    }
    left
}

/// Where a part of the locks begins and ends in which all stand that are on a table and have a key in common with a range.
pub fn met(
    locks: &VecDeque<Lock>,
    clear: &VecDeque<bool>,
    table: u16,
    range: &KeyRange,
) -> (usize, usize)
    requires order { AreInOrder locks.now.items }
    requires marked { IsMarked clear.now.items locks.now.items }
    ensures part { filter (is_met table range.now) (take (result.1 - result.0) (drop result.0 locks.now.items)) ≡ filter (is_met table range.now) locks.now.items }
    ensures order { result.0 ≤ result.1 }
    ensures within { result.1 ≤ length locks.now.items }
{
    let to = count_to(locks, table, &range.hi);
    let from = first_reaching(locks, clear, table, &range.lo).min(to);
    (from, to)
}

/// Whether all locks before the place of a new one end by it.
pub fn is_clear(locks: &VecDeque<Lock>, clear: &VecDeque<bool>, place: usize, lock: &Lock) -> bool
    requires order { AreInOrder locks.now.items }
    requires marked { IsMarked clear.now.items locks.now.items }
    requires place { place ≡ prefix_len (is_up_to lock.now.table (λ lo. is_low_at_most lo lock.now.range.lo)) locks.now.items }
    requires bound { place ≤ length locks.now.items }
    ensures { result ≡ true → (k : ℕ) (d : Lock) → k < place → ends_by (get_or locks.now.items k d) lock.now ≡ true }
{
    let mut left = place;
    while left > 0 {
        left -= 1;
        let before = &locks[left];
        if !ends_by(before, lock) {
            return false;
        }
        if is_clear_at(clear, left) {
            return true;
        }
        if before.table != lock.table {
            return true;
        }
    }
    true
}

/// Those of the locks behind the place of a new one that begin before it ends are clear no more.
pub fn cover(clear: &mut VecDeque<bool>, locks: &VecDeque<Lock>, place: usize, lock: &Lock)
    requires order { AreInOrder locks.now.items }
    requires marked { IsMarked clear.old.items locks.now.items }
    requires place { place ≡ prefix_len (is_up_to lock.now.table (λ lo. is_low_at_most lo lock.now.range.lo)) locks.now.items }
    requires bound { place ≤ length locks.now.items }
    ensures marked { IsMarked clear.new.items locks.now.items }
    ensures later { (k : ℕ) (d : Lock) (b : Bool) → place ≤ k → k < length locks.now.items → get_or clear.new.items k b ≡ true → ends_by lock.now (get_or locks.now.items k d) ≡ true }
{
    let mut at = place;
    while at < locks.len() {
        if ends_by(lock, &locks[at]) {
            return;
        }
        clear[at] = false;
        at += 1;
    }
}

/// Says of each lock whether it is clear.
pub fn mark(clear: &mut VecDeque<bool>, locks: &VecDeque<Lock>)
    requires order { AreInOrder locks.now.items }
    requires length { length clear.old.items ≡ length locks.now.items }
    ensures { IsMarked clear.new.items locks.now.items }
{
    let mut last = 0;
    let mut at = 0;
    while at < locks.len() {
        let lock = &locks[at];
        let longest = &locks[last];
        let is_clear = ends_by(longest, lock);
        clear[at] = is_clear;
        if is_clear || ends_no_later(&longest.range.hi, &lock.range.hi) {
            last = at;
        }
        at += 1;
    }
}
