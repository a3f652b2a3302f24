//! The last writers of keys, and the places that each program wrote.

ghost use Rattle.law_states.specs.KeptSources.{unless_among};
ghost use Rattle.law_states.specs.Members.{In};
ghost use Rattle.salt_deps.specs.Written.{AreListed, HasDropped, is_writer, places_at, places_in};
ghost use Rattle.salt_model.specs.Tables.{place, place_cmp};
ghost use Rattle.salt_model.specs.declared.places.Place.{Place};
ghost use Rattle.salt_values.specs.declared.id.Id.{Id};
ghost use Rattle.std.specs.BTreeMap.{get};
ghost use Rattle.std.specs.Ordering.{is_eq};
ghost use Rattle.std.specs.Prelude.{IfOk, None, OnErr, OnOk, Some, [], if◌then◌else◌, ◌∷◌, ◌≡◌};

use salt_model::Place;
use salt_values::{Id, Key, TryCopy};
use std::alloc::{AllocError, Global};
use std::collections::BTreeMap;

/// The last writer of each key, and of each program the places that it wrote, as often as it did. Others may have written there
/// since; so what goes with a program is looked up, and no other place.
#[derive(Drop)]
pub struct Writers {
    pub alloc: Global,
    pub last: BTreeMap<Place, Id>,
    pub places: BTreeMap<Id, Vec<Place>>,
    ghost listed: { AreListed last places },
}

/// Where a key of a table stands.
fn place_of(alloc: Global, table: u16, key: &Key) -> Result<Place, AllocError>
    ensures { IfOk result (λ p. p ≡ place table key.now) }
{
    Ok(Place {
        table,
        key: key.copy(alloc)?,
    })
}

/// Lists a place at a program.
fn list_place(
    alloc: Global,
    places: &mut BTreeMap<Id, Vec<Place>>,
    base: Id,
    place: Place,
) -> Result<(), AllocError>
    ensures added { OnOk result (In place (places_at places.new base)) }
    ensures kept { (b : Id) (q : Place) → In q (places_at places.old b) → In q (places_at places.new b) }
{
    if let Some(listed) = places.get_mut(&base) {
        listed.push(place)?;
        return Ok(());
    }
    let mut listed = Vec::new(alloc);
    listed.push(place)?;
    places.insert(base, listed)?;
    Ok(())
}

/// The places, none where there is no list.
fn unless_none(alloc: Global, places: Option<Vec<Place>>) -> Vec<Place>
    ensures { result.items ≡ places_in places }
{
    match places {
        Some(places) => places,
        None => Vec::new(alloc),
    }
}

/// Whether a program is the last writer of a place.
fn is_last(last: &BTreeMap<Place, Id>, place: &Place, name: Id) -> bool
    ensures { result ≡ is_writer name (get place_cmp last.now place.now) }
{
    match last.get(place) {
        Some(writer) => *writer == name,
        None => false,
    }
}

/// A program is no more the last writer of a place.
fn drop_at(last: &mut BTreeMap<Place, Id>, place: &Place, name: Id)
    ensures { HasDropped name (place.now ∷ []) (get place_cmp last.old) (get place_cmp last.new) }
{
    if is_last(last, place, name) {
        last.remove(place);
    }
}

/// A program is no more the last writer of any of these places.
fn drop_each(last: &mut BTreeMap<Place, Id>, places: &[Place], name: Id)
    ensures { HasDropped name places.now (get place_cmp last.old) (get place_cmp last.new) }
{
    for place in places {
        drop_at(last, place, name);
    }
}

impl Writers {
    /// No key has a last writer.
    pub fn new(alloc: Global) -> Writers
        ensures { (q : Place) → get place_cmp result.last q ≡ None }
    {
        Writers {
            alloc,
            last: BTreeMap::new(alloc),
            places: BTreeMap::new(alloc),
        }
    }

    /// A program is the last writer of a key. Want of memory leaves all last writers as they were.
    pub fn write(&mut self, base: Id, table: u16, key: &Key) -> Result<(), AllocError>
        ensures ok { OnOk result ((q : Place) → get place_cmp self.new.last q ≡ (if is_eq (place_cmp (place table key.now) q) then Some base else get place_cmp self.old.last q)) }
        ensures err { OnErr result ((q : Place) → get place_cmp self.new.last q ≡ get place_cmp self.old.last q) }
    {
        let listed = place_of(self.alloc, table, key)?;
        let place = place_of(self.alloc, table, key)?;
        list_place(self.alloc, &mut self.places, base, listed)?;
        self.last.insert(place, base)?;
        Ok(())
    }

    /// A key has no last writer. Want of memory leaves all last writers as they were.
    pub fn forget(&mut self, table: u16, key: &Key) -> Result<(), AllocError>
        ensures ok { OnOk result ((q : Place) → get place_cmp self.new.last q ≡ (if is_eq (place_cmp (place table key.now) q) then None else get place_cmp self.old.last q)) }
        ensures err { OnErr result ((q : Place) → get place_cmp self.new.last q ≡ get place_cmp self.old.last q) }
    {
        let place = place_of(self.alloc, table, key)?;
        self.last.remove(&place);
        Ok(())
    }

    /// A program is the last writer of no key.
    fn drop_program(&mut self, name: Id)
        ensures { (q : Place) → get place_cmp self.new.last q ≡ unless_among (name ∷ []) (get place_cmp self.old.last q) }
    {
        let places = unless_none(self.alloc, self.places.remove(&name));
        drop_each(&mut self.last, &places, name);
    }

    /// These programs are the last writers of no key.
    pub fn drop_programs(&mut self, names: &[Id])
        ensures { (q : Place) → get place_cmp self.new.last q ≡ unless_among names.now (get place_cmp self.old.last q) }
    {
        for name in names {
            self.drop_program(*name);
        }
    }
}
