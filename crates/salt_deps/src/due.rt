//! Which finished programs are to be released.

ghost use Rattle.salt_deps.specs.Due.{AreHeld, AreSettled, IsHeld, SettledComeTo};
ghost use Rattle.law_states.specs.Members.{In};
ghost use Rattle.salt_deps.specs.Group.{ReadsAmong, reads_in};
ghost use Rattle.salt_deps.specs.Maps.{sources_at};
ghost use Rattle.salt_values.specs.Id.{has_id};
ghost use Rattle.salt_values.specs.declared.id.Id.{Id};
ghost use Rattle.std.specs.List.{list_all};
ghost use Rattle.std.specs.Prelude.{IfOk, IsTrue, [], not, true, ◌&&◌, ◌||◌, ◌∷◌, ◌≡◌};

use crate::group::Group;
use crate::links::Links;
use crate::readings::Readings;
use crate::sets::{is_in, listed};
use crate::walks::comers;
use salt_values::Id;
use std::alloc::{AllocError, Global};
use std::collections::BTreeSet;

/// Whether a program is the one that has just finished, or finished before.
pub fn is_done(finished: &BTreeSet<Id>, base: Id, name: Id) -> bool
    ensures { result ≡ has_id name (base ∷ finished.now.keys) }
{
    name == base || is_in(finished, name)
}

/// Whether a program reads, by pairs, from none but this one and those of a set. No more of its sources are looked at than up to the
/// first other one.
fn links_among(links: &Links, set: &BTreeSet<Id>, base: Id, name: Id) -> bool
    ensures { result ≡ list_all (λ y. has_id y (base ∷ set.now.keys)) (sources_at links.now.sources name) }
{
    match links.sources.get(&name) {
        Some(sources) => sources.iter().all(|source| is_done(set, base, *source)),
        None => true,
    }
}

/// Whether the group's sources are this one and those of a set.
fn group_among(group: &Group, set: &BTreeSet<Id>, base: Id) -> bool
    ensures { result ≡ list_all (λ y. has_id y (base ∷ set.now.keys)) group.now.sources.keys }
{
    group
        .sources
        .iter()
        .all(|source| is_done(set, base, *source))
}

/// Whether this one is no reader of the group, or the group's sources are it and those of a set.
fn group_fits(group: &Group, set: &BTreeSet<Id>, base: Id) -> bool
    ensures { result ≡ (not (has_id base group.now.readers.keys) || list_all (λ y. has_id y (base ∷ set.now.keys)) group.now.sources.keys) }
{
    !is_in(&group.readers, base) || group_among(group, set, base)
}

/// Whether a program that is this one or in a set reads from none but these, where it is known whether the group's sources are
/// among them.
fn reads_among(readings: &Readings, set: &BTreeSet<Id>, base: Id, name: Id, whole: bool) -> bool
    requires here { has_id name (base ∷ set.now.keys) ≡ true }
    requires whole { has_id name readings.now.group.readers.keys ≡ true → whole ≡ list_all (λ y. has_id y (base ∷ set.now.keys)) readings.now.group.sources.keys }
    ensures { ReadsAmong (reads_in readings.now) (base ∷ set.now.keys) name result }
{
    links_among(&readings.links, set, base, name)
        && (whole || !is_in(&readings.group.readers, name))
}

/// Whether a program reads from none but itself and those of a set. The group is looked at only if the program reads in it.
fn base_among(readings: &Readings, set: &BTreeSet<Id>, base: Id) -> bool
    ensures { ReadsAmong (reads_in readings.now) (base ∷ set.now.keys) base result }
{
    let whole = group_fits(&readings.group, set, base);
    reads_among(readings, set, base, base, whole)
}

/// Whether a program is not finished, or reads from one that is not among these.
fn is_held(
    readings: &Readings,
    finished: &BTreeSet<Id>,
    base: Id,
    found: &BTreeSet<Id>,
    name: Id,
    whole: bool,
) -> bool
    requires here { has_id name (base ∷ found.now.keys) ≡ true }
    requires whole { whole ≡ list_all (λ y. has_id y (base ∷ found.now.keys)) readings.now.group.sources.keys }
    ensures { IsHeld (reads_in readings.now) (base ∷ finished.now.keys) (base ∷ found.now.keys) name result }
{
    !is_done(finished, base, name) || !reads_among(readings, found, base, name, whole)
}

/// Those of the names that are held, where all of them are found.
fn held(
    alloc: Global,
    readings: &Readings,
    finished: &BTreeSet<Id>,
    base: Id,
    found: &BTreeSet<Id>,
    names: &[Id],
) -> Result<Vec<Id>, AllocError>
    requires { (x : Id) → In x names.now → In x found.now.keys }
    ensures { IfOk result (λ held. AreHeld (reads_in readings.now) (base ∷ finished.now.keys) (base ∷ found.now.keys) names.now held.items) }
{
    let whole = group_among(&readings.group, found, base);
    let mut held = Vec::new(alloc);
    for name in names {
        if is_held(readings, finished, base, found, *name, whole) {
            held.push(*name)?;
        }
    }
    Ok(held)
}

/// The programs that come to finished ones alone, all of which come to one of these. That is sought among the finished ones that
/// come to these through finished ones: who comes through another one does not come to finished ones alone.
fn settled_from(
    alloc: Global,
    readings: &Readings,
    finished: &BTreeSet<Id>,
    base: Id,
    starts: &[Id],
) -> Result<BTreeSet<Id>, AllocError>
    requires here { In base starts.now }
    requires come { SettledComeTo (reads_in readings.now) (base ∷ finished.now.keys) starts.now }
    ensures { IfOk result (λ settled. AreSettled (reads_in readings.now) (base ∷ finished.now.keys) settled.keys) }
{
    let mut found = comers(alloc, readings, finished, base, starts)?;
    let names = listed(alloc, &found)?;
    let held = held(alloc, readings, finished, base, &found, &names)?;
    let struck = comers(alloc, readings, finished, base, &held)?;
    found.retain(|name| !is_in(&struck, *name));
    Ok(found)
}

/// The programs that come to finished ones alone, where one more has just finished. If all of them are known to come to that
/// one, only those are looked at that do, and none if it reads from one that is not finished.
pub fn due(
    alloc: Global,
    readings: &Readings,
    finished: &BTreeSet<Id>,
    base: Id,
    known: bool,
) -> Result<BTreeSet<Id>, AllocError>
    requires { IsTrue known → SettledComeTo (reads_in readings.now) (base ∷ finished.now.keys) (base ∷ []) }
    ensures { IfOk result (λ due. AreSettled (reads_in readings.now) (base ∷ finished.now.keys) due.keys) }
{
    if !known {
        let mut names = listed(alloc, finished)?;
        names.push(base)?;
        return Ok(settled_from(alloc, readings, finished, base, &names)?);
    }
    if !base_among(readings, finished, base) {
        return Ok(BTreeSet::new(alloc));
    }
    Ok(settled_from(alloc, readings, finished, base, &[base])?)
}

/// Whether none that is finished is due, where that was known or not, and one program reads from none any more.
pub fn is_still_known(known: bool, finished: &BTreeSet<Id>, base: Id) -> bool
    ensures { result ≡ (known && not (has_id base finished.now.keys)) }
{
    known && !is_in(finished, base)
}
