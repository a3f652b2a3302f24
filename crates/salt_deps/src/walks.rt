//! Walks along who reads from whom.

ghost use Rattle.salt_deps.specs.Due.{AreComers, AreReached, reads_done};
ghost use Rattle.salt_deps.specs.Group.{is_told, reads_in};
ghost use Rattle.salt_deps.specs.Maps.{is_source};
ghost use Rattle.salt_values.specs.Id.{has_id};
ghost use Rattle.salt_values.specs.declared.id.Id.{Id};
ghost use Rattle.std.specs.Prelude.{IfOk, ◌&&◌, ◌||◌, ◌∷◌, ◌≡◌};

use crate::due::is_done;
use crate::readings::Readings;
use crate::sets::{is_in, see, see_all};
use salt_values::Id;
use std::alloc::{AllocError, Global};
use std::collections::BTreeSet;

/// Whether a walk met one of these before, or meets one now.
fn has_met(met: bool, members: &BTreeSet<Id>, next: Id) -> bool
    ensures { result ≡ (met || has_id next members.now.keys) }
{
    met || is_in(members, next)
}

/// The program and all that it reads from, directly or through programs. The group is gone through once.
pub fn reached(alloc: Global, readings: &Readings, name: Id) -> Result<BTreeSet<Id>, AllocError>
    ensures { IfOk result (λ names. AreReached (reads_in readings.now) name names.keys) }
{
    let mut seen = BTreeSet::new(alloc);
    let mut ahead = Vec::new(alloc);
    let mut met = false;
    see(name, &mut seen, &mut ahead)?;
    while let Some(next) = ahead.pop() {
        let sources = readings.sources_ahead(next, met)?;
        see_all(&sources, &mut seen, &mut ahead)?;
        met = has_met(met, &readings.group.readers, next);
    }
    Ok(seen)
}

/// The finished ones among the readers that a walk sees from a source on.
fn finished_readers(
    readings: &Readings,
    finished: &BTreeSet<Id>,
    base: Id,
    source: Id,
    met: bool,
) -> Result<Vec<Id>, AllocError>
    ensures { IfOk result (λ names. (x : Id) → has_id x names.items ≡ ((is_source readings.now.links.sources x source || is_told met readings.now.group.sources.keys readings.now.group.readers.keys source x) && has_id x (base ∷ finished.now.keys))) }
{
    let mut readers = readings.readers_ahead(source, met)?;
    readers.retain(|name| is_done(finished, base, *name));
    Ok(readers)
}

/// These programs, and all finished ones that read from them, directly or through finished ones. Nothing is looked at behind a
/// program that is not finished, and the group is gone through once.
pub fn comers(
    alloc: Global,
    readings: &Readings,
    finished: &BTreeSet<Id>,
    base: Id,
    starts: &[Id],
) -> Result<BTreeSet<Id>, AllocError>
    ensures { IfOk result (λ names. AreComers (reads_done (reads_in readings.now) (base ∷ finished.now.keys)) starts.now names.keys) }
{
    let mut seen = BTreeSet::new(alloc);
    let mut ahead = Vec::new(alloc);
    let mut met = false;
    see_all(starts, &mut seen, &mut ahead)?;
    while let Some(next) = ahead.pop() {
        let readers = finished_readers(readings, finished, base, next, met)?;
        see_all(&readers, &mut seen, &mut ahead)?;
        met = has_met(met, &readings.group.sources, next);
    }
    Ok(seen)
}
