//! A unit's locks become saline ones of its program.

ghost use Rattle.salt_locks.specs.Places.{AreInOrder};
ghost use Rattle.salt_locks.specs.Spots.{AreCounted, IsOwnBetween};
ghost use Rattle.salt_locks.specs.Tables.{salted_lock};
ghost use Rattle.salt_model.specs.declared.events.Owner.{Owner};
ghost use Rattle.salt_locks.specs.declared.spots.Spot.{Spot};
ghost use Rattle.std.specs.Prelude.{List, length, map, true, ◌∷◌, ◌≡◌, ◌≤◌};

use crate::owners::is_same_owner;
use crate::places::{count_below, count_no_later};
use crate::spots::Spot;
use salt_model::{Family, Lock, Owner};
use salt_values::Id;
use std::collections::VecDeque;

fn salt_lock(unit: Id, base: Id, lock: &mut Lock)
    ensures { lock.new ≡ salted_lock unit base lock.old }
{
    if is_same_owner(Owner::Unit(unit), lock.owner) {
        lock.owner = Owner::Base(base);
        lock.family = Family::Saline;
    }
}

/// Looks at all locks.
fn salt_all(unit: Id, base: Id, locks: &mut VecDeque<Lock>)
    ensures { locks.new.items ≡ map (salted_lock unit base) locks.old.items }
{
    let mut at = 0;
    while at < locks.len() {
        salt_lock(unit, base, &mut locks[at]);
        at += 1;
    }
}

/// The place of one of an owner's locks between these places, the last of them.
fn last_own(owner: Owner, from: usize, to: usize, locks: &VecDeque<Lock>) -> Option<usize>
    requires { to ≤ length locks.now.items }
    ensures { IsOwnBetween owner from to locks.now.items result }
{
    let mut left = to;
    while left > from {
        left -= 1;
        if is_same_owner(owner, locks[left].owner) {
            return Some(left);
        }
    }
    None
}

/// Looks for one lock at a spot. The newest stands last, and is the unit's as a rule.
fn salt_spot(unit: Id, base: Id, spot: &Spot, locks: &mut VecDeque<Lock>)
    requires { AreInOrder locks.old.items }
    ensures order { AreInOrder locks.new.items }
    ensures salted { map (salted_lock unit base) locks.new.items ≡ map (salted_lock unit base) locks.old.items }
    ensures gone { (rest : List Spot) → AreCounted (Owner.Unit unit) (spot.now ∷ rest) locks.old.items → AreCounted (Owner.Unit unit) rest locks.new.items }
{
    let from = count_below(locks, spot.table, &spot.low);
    let to = count_no_later(locks, spot.table, &spot.low);
    match last_own(Owner::Unit(unit), from, to, locks) {
        Some(at) => salt_lock(unit, base, &mut locks[at]),
        None => {}
    }
}

/// Looks for as many locks as there are entries: the unit has no more at any of these spots, and none at others.
fn salt_at(unit: Id, base: Id, spots: &[Spot], locks: &mut VecDeque<Lock>)
    requires order { AreInOrder locks.old.items }
    requires all { AreCounted (Owner.Unit unit) spots.now locks.old.items }
    ensures { locks.new.items ≡ map (salted_lock unit base) locks.old.items }
{
    for spot in spots {
        salt_spot(unit, base, spot, locks);
    }
}

/// A unit's locks become saline ones of its program. Where all of them are listed, one is looked for at each entry's spot.
pub fn salt(unit: Id, base: Id, listed: bool, spots: &[Spot], locks: &mut VecDeque<Lock>)
    requires order { AreInOrder locks.old.items }
    requires all { listed ≡ true → AreCounted (Owner.Unit unit) spots.now locks.old.items }
    ensures { locks.new.items ≡ map (salted_lock unit base) locks.old.items }
{
    if listed {
        salt_at(unit, base, spots, locks);
    } else {
        salt_all(unit, base, locks);
    }
}
