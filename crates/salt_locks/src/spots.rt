//! Where each owner has locks.

ghost use Rattle.law_states.specs.KeptLocks.{is_base_among, is_owned_by};
ghost use Rattle.law_states.specs.Members.{In};
ghost use Rattle.salt_locks.specs.Spots.{AreSpotted, id_cmp, spot_of, spots_at, spots_in};
ghost use Rattle.salt_locks.specs.Tables.{salted_lock};
ghost use Rattle.salt_model.specs.Locks.{is_same_owner};
ghost use Rattle.salt_model.specs.declared.events.Owner.{Owner};
ghost use Rattle.salt_model.specs.declared.locks.Lock.{Lock};
ghost use Rattle.salt_values.specs.Id.{is_same_id};
ghost use Rattle.salt_values.specs.declared.id.Id.{Id};
ghost use Rattle.std.specs.BTreeMap.{get};
ghost use Rattle.std.specs.Prelude.{IfOk, IsTrue, List, OnOk, [], false, if◌then◌else◌, map, true, ◌++◌, ◌∷◌, ◌≡◌};

use crate::copies::copy_end;
use salt_model::{Lock, Owner};
use salt_values::{Id, Key};
use std::alloc::{AllocError, Global};
use std::collections::{BTreeMap, BTreeSet};

/// Where a lock begins: its table, and the lower end of its range.
#[derive(Drop)]
pub struct Spot {
    pub table: u16,
    pub low: Option<Key>,
}

/// Of each unit and each program the spots at which locks of it begin, as often as there is one; locks may have gone since. Where
/// memory ran out as a spot was to be listed the lists are not whole, and nothing is taken from them any more.
#[derive(Drop)]
pub struct Spots {
    pub alloc: Global,
    pub whole: bool,
    pub units: BTreeMap<Id, Vec<Spot>>,
    pub bases: BTreeMap<Id, Vec<Spot>>,
}

/// The spots, none where there is no list.
fn unless_none(alloc: Global, spots: Option<Vec<Spot>>) -> Vec<Spot>
    ensures { result.items ≡ spots_in spots }
{
    match spots {
        Some(spots) => spots,
        None => Vec::new(alloc),
    }
}

/// The spots that are listed at a name.
fn listed_at(lists: &BTreeMap<Id, Vec<Spot>>, name: Id) -> &[Spot]
    ensures { result.now ≡ spots_in (get id_cmp lists.now name) }
{
    match lists.get(&name) {
        Some(spots) => spots.as_slice(),
        None => &[],
    }
}

/// A list of the one spot of a lock.
fn one_spot(alloc: Global, lock: &Lock) -> Result<Vec<Spot>, AllocError>
    ensures { IfOk result (λ spots. spots.items ≡ spot_of lock.now ∷ []) }
{
    let mut spots = Vec::new(alloc);
    spots.push(Spot {
        table: lock.table,
        low: copy_end(alloc, &lock.range.lo)?,
    })?;
    Ok(spots)
}

/// The spots behind those that are listed; the list itself where there is none yet.
fn behind(listed: Option<Vec<Spot>>, mut spots: Vec<Spot>) -> Result<Vec<Spot>, AllocError>
    ensures { IfOk result (λ all. all.items ≡ spots_in listed ++ spots.items) }
{
    match listed {
        Some(mut listed) => {
            listed.append(&mut spots)?;
            Ok(listed)
        }
        None => Ok(spots),
    }
}

/// Lists more spots at a name, behind those that are listed there.
fn list_more(
    lists: &mut BTreeMap<Id, Vec<Spot>>,
    name: Id,
    spots: Vec<Spot>,
) -> Result<(), AllocError>
    ensures { OnOk result ((b : Id) → spots_in (get id_cmp lists.new b) ≡ (if is_same_id b name then spots_in (get id_cmp lists.old b) ++ spots.items else spots_in (get id_cmp lists.old b))) }
{
    let listed = behind(lists.remove(&name), spots)?;
    lists.insert(name, listed)?;
    Ok(())
}

impl Spots {
    /// No spot.
    pub fn new(alloc: Global) -> Spots
        ensures { IsTrue result.whole }
    {
        Spots {
            alloc,
            whole: true,
            units: BTreeMap::new(alloc),
            bases: BTreeMap::new(alloc),
        }
    }

    /// The spots that are listed of an owner.
    pub fn of_owner(&self, owner: Owner) -> &[Spot]
        ensures { result.now ≡ spots_at self.now owner }
    {
        match owner {
            Owner::Unit(unit) => listed_at(&self.units, unit),
            Owner::Base(base) => listed_at(&self.bases, base),
        }
    }

    /// Whether an owner's locks are all listed, and at most so many of them.
    pub fn are_few(&self, owner: Owner, most: usize) -> bool
        ensures { result ≡ true → IsTrue self.now.whole }
    {
        self.whole && self.of_owner(owner).len() <= most
    }

    /// Lists the spot of a lock at its owner, if there is memory for it.
    fn try_list(&mut self, lock: &Lock) -> Result<(), AllocError>
        ensures { OnOk result ((ls : List Lock) → AreSpotted self.old ls → AreSpotted self.new (lock.now ∷ ls)) }
    {
        let spots = one_spot(self.alloc, lock)?;
        match lock.owner {
            Owner::Unit(unit) => list_more(&mut self.units, unit, spots),
            Owner::Base(base) => list_more(&mut self.bases, base, spots),
        }
    }

    /// Lists the spot of a lock at its owner.
    pub fn list(&mut self, lock: &Lock)
        ensures { (ls : List Lock) → AreSpotted self.old ls → AreSpotted self.new (lock.now ∷ ls) }
    {
        match self.try_list(lock) {
            Ok(_) => {}
            Err(_) => self.whole = false,
        }
    }

    /// The spots of an owner, of which none are listed any more.
    fn take(&mut self, owner: Owner) -> Vec<Spot>
        ensures spots { result.items ≡ spots_at self.old owner }
        ensures others { (o : Owner) → is_same_owner owner o ≡ false → spots_at self.new o ≡ spots_at self.old o }
        ensures whole { self.new.whole ≡ self.old.whole }
    {
        match owner {
            Owner::Unit(unit) => unless_none(self.alloc, self.units.remove(&unit)),
            Owner::Base(base) => unless_none(self.alloc, self.bases.remove(&base)),
        }
    }

    /// An owner has no lock any more.
    pub fn forget(&mut self, owner: Owner)
        ensures { (ls : List Lock) → AreSpotted self.old ls → ((l : Lock) → In l ls → is_owned_by owner l ≡ false) → AreSpotted self.new ls }
    {
        let _spots = self.take(owner);
    }

    /// These programs have no lock any more.
    pub fn forget_programs(&mut self, bases: &BTreeSet<Id>)
        ensures { (ls : List Lock) → AreSpotted self.old ls → ((l : Lock) → In l ls → is_base_among bases.now.keys l.owner ≡ false) → AreSpotted self.new ls }
    {
        for base in bases {
            self.forget(Owner::Base(*base));
        }
    }

    /// A unit's locks are those of its program.
    pub fn hand_over(&mut self, unit: Id, base: Id)
        ensures { (ls : List Lock) → AreSpotted self.old ls → AreSpotted self.new (map (salted_lock unit base) ls) }
    {
        let spots = self.take(Owner::Unit(unit));
        match list_more(&mut self.bases, base, spots) {
            Ok(_) => {}
            Err(_) => self.whole = false,
        }
    }
}
