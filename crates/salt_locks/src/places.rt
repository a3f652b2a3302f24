//! Where locks stand.

ghost use Rattle.salt_locks.specs.Places.{AreInOrder, is_low_at_most, is_up_to};
ghost use Rattle.salt_model.specs.declared.locks.Lock.{Lock};
ghost use Rattle.salt_ranges.specs.Ranges.{ends_meet};
ghost use Rattle.std.specs.List.{prefix_len};
ghost use Rattle.std.specs.Prelude.{length, not, ◌≡◌, ◌≤◌};

use salt_model::Lock;
use salt_ranges::ends_meet;
use salt_values::Key;
use std::collections::VecDeque;

/// Whether a lower end is at most another. None at all is the least.
pub fn is_low_at_most(lo: &Option<Key>, other: &Option<Key>) -> bool
    ensures { result ≡ is_low_at_most lo.now other.now }
{
    match (lo, other) {
        (Some(lo), Some(other)) => lo <= other,
        (Some(_), None) => false,
        (None, _) => true,
    }
}

/// How many of the locks are on lesser tables, or on this one with a lower end that is not above an upper end.
pub fn count_to(locks: &VecDeque<Lock>, table: u16, hi: &Option<Key>) -> usize
    requires { AreInOrder locks.now.items }
    ensures value { result ≡ prefix_len (is_up_to table (λ lo. ends_meet lo hi.now)) locks.now.items }
    ensures bound { result ≤ length locks.now.items }
{
    locks.partition_point(
        |lock: &Lock| -> bool
            ensures { result ≡ is_up_to table (λ lo. ends_meet lo hi.entry.now) lock.now }
        { lock.table < table || (lock.table == table && ends_meet(&lock.range.lo, hi)) },
    )
}

/// How many of the locks stand no later than one on this table with this lower end.
pub fn count_no_later(locks: &VecDeque<Lock>, table: u16, low: &Option<Key>) -> usize
    requires { AreInOrder locks.now.items }
    ensures value { result ≡ prefix_len (is_up_to table (λ lo. is_low_at_most lo low.now)) locks.now.items }
    ensures bound { result ≤ length locks.now.items }
{
    locks.partition_point(
        |lock: &Lock| -> bool
            ensures { result ≡ is_up_to table (λ lo. is_low_at_most lo low.entry.now) lock.now }
        { lock.table < table || (lock.table == table && is_low_at_most(&lock.range.lo, low)) },
    )
}

/// How many of the locks are on lesser tables, or on this one with a lower end below this one.
pub fn count_below(locks: &VecDeque<Lock>, table: u16, low: &Option<Key>) -> usize
    requires { AreInOrder locks.now.items }
    ensures value { result ≡ prefix_len (is_up_to table (λ lo. not (is_low_at_most low.now lo))) locks.now.items }
    ensures bound { result ≤ length locks.now.items }
{
    locks.partition_point(
        |lock: &Lock| -> bool
            ensures { result ≡ is_up_to table (λ lo. not (is_low_at_most low.entry.now lo)) lock.now }
        { lock.table < table || (lock.table == table && !is_low_at_most(low, &lock.range.lo)) },
    )
}
