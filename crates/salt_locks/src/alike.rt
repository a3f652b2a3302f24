//! Whether a lock is just the one that is asked for.

ghost use Rattle.salt_locks.specs.Alike.{is_lock_of, is_same_family, is_same_mode, is_same_range};
ghost use Rattle.std.specs.Prelude.{◌≡◌};

use crate::clear::ends_no_later;
use crate::owners::is_same_owner;
use crate::places::is_low_at_most;
use salt_model::{Family, Lock, Mode, Owner, Reach};
use salt_ranges::KeyRange;

fn is_same_family(left: Family, right: Family) -> bool
    ensures { result ≡ is_same_family left right }
{
    match (left, right) {
        (Family::Acid, Family::Acid) => true,
        (Family::Alkaline, Family::Alkaline) => true,
        (Family::Saline, Family::Saline) => true,
        _ => false,
    }
}

fn is_same_mode(left: Mode, right: Mode) -> bool
    ensures { result ≡ is_same_mode left right }
{
    match (left, right) {
        (Mode::Read, Mode::Read) => true,
        (Mode::Write, Mode::Write) => true,
        _ => false,
    }
}

fn is_same_range(left: &KeyRange, right: &KeyRange) -> bool
    ensures { result ≡ is_same_range left.now right.now }
{
    is_low_at_most(&left.lo, &right.lo)
        && is_low_at_most(&right.lo, &left.lo)
        && ends_no_later(&left.hi, &right.hi)
        && ends_no_later(&right.hi, &left.hi)
}

/// Whether a lock is just the one that an owner would take on what is reached.
pub fn is_lock_of(owner: Owner, family: Family, reach: &Reach, lock: &Lock) -> bool
    ensures { result ≡ is_lock_of owner family reach.now lock.now }
{
    is_same_owner(owner, lock.owner)
        && is_same_family(family, lock.family)
        && is_same_mode(reach.mode, lock.mode)
        && lock.table == reach.table
        && is_same_range(&reach.range, &lock.range)
}
