//! Who read from whom goes on with each event.

ghost use Rattle.law_states.specs.Overlays.{edit_of, edits_of};
ghost use Rattle.salt_model.specs.Tables.{place, place_cmp};
ghost use Rattle.salt_values.specs.Id.{has_id, is_same_id};
ghost use Rattle.salt_values.specs.declared.id.Id.{Id};
ghost use Rattle.salt_verdict.specs.Ledger.{run_by};
ghost use Rattle.salt_judge.specs.ReadAfter.{IsReadAfter, changers, is_elsewhere, is_written_within, last_at, last_by, opened_early, openings_by, parts_by, put_edits, reach_by, released_by, sources_by, writing_of, written_first};
ghost use Rattle.salt_audit.specs.Marks.{is_marked};
ghost use Rattle.salt_judge.specs.Reads.{freed_in, is_named, sources_in, units_read};
ghost use Rattle.salt_model.specs.Programs.{shares};
ghost use Rattle.salt_values.specs.Id.{without};
ghost use Rattle.std.specs.Option.{option_copied};
ghost use Rattle.std.specs.Prelude.{IfOk, OnOk, [], if◌then◌else◌, ◌++◌, ◌||◌, ◌∷◌, ◌≡◌};

use crate::reads::{Opening, Reads, Sources, Writing};
use salt_ast::Statement;
use salt_audit::{Marks, mark_all};
use salt_books::program_of;
use salt_eval::ViewErr;
use salt_model::{End, Event, Reach};
use salt_scheduler::shares;
use salt_values::{Change, Id, Ids, TryCopy, drop_ids};
use salt_verdict::{Again, Ledger, add_if, run_again};
use sqlite_items::Items;
use std::alloc::{AllocError, Global};
use std::cmp::Ordering;
use std::collections::BTreeMap;
use std::mem;

/// What a statement of the unit would reach.
pub fn reach_of(
    alloc: Global,
    ledger: &Ledger,
    unit: Id,
    statement: &Statement,
) -> Result<Option<Reach>, ViewErr>
    ensures { IfOk result (λ found. found ≡ reach_by ledger.now unit statement.now) }
{
    let again = run_again(alloc, ledger, unit)?;
    let found = again.unit.ask(alloc, &ledger.state.schema, statement)?;
    Ok(found)
}

fn is_written_within(reach: &Reach, writing: &Writing) -> bool
    ensures { result ≡ is_written_within reach.now writing.now }
{
    reach.table == writing.table && reach.range.has(&writing.key)
}

/// The last writers of the keys in a reach.
fn changers(alloc: Global, last: &[Writing], reach: Option<&Reach>) -> Result<Ids, AllocError>
    ensures { IfOk result (λ ids. ids ≡ changers last.now (option_copied reach.entry)) }
{
    let mut ids = Items::new(alloc);
    let Some(reach) = reach else {
        return Ok(ids);
    };
    for writing in last {
        let is = is_written_within(reach, writing);
        add_if(&mut ids, writing.unit, is)?;
    }
    Ok(ids)
}

fn taken_sources(alloc: Global, sources: Option<Sources>) -> Ids
    ensures { result ≡ units_read sources }
{
    match sources {
        Some(sources) => sources.units,
        None => Items::new(alloc),
    }
}

/// A unit has read from more.
fn put_sources(
    alloc: Global,
    sources: &mut BTreeMap<Id, Sources>,
    unit: Id,
    more: Ids,
) -> Result<(), AllocError>
    ensures { OnOk result ((u : Id) → sources_in u sources.new ≡ (if is_same_id u unit then more ++ sources_in u sources.old else sources_in u sources.old)) }
{
    let mut units = more;
    let old = taken_sources(alloc, sources.remove(&unit));
    units.append(old)?;
    sources.insert(unit, Sources { units })?;
    Ok(())
}

fn place_cmp(writing: &Writing, other: &Writing) -> Ordering
    ensures { result ≡ place_cmp (place writing.now.table writing.now.key) (place other.now.table other.now.key) }
{
    writing
        .table
        .cmp(&other.table)
        .then(writing.key.cmp(&other.key))
}

fn is_elsewhere(writing: &Writing, other: &Writing) -> bool
    ensures { result ≡ is_elsewhere writing.now other.now }
{
    place_cmp(writing, other).is_ne()
}

/// A unit's change of a place is the last one there.
fn put_change(
    alloc: Global,
    last: &mut Vec<Writing>,
    unit: Id,
    change: &Change,
) -> Result<(), AllocError>
    ensures { OnOk result (last.new.items ≡ written_first (writing_of unit (edit_of change.now)) last.old.items) }
{
    let writing = Writing {
        unit,
        table: change.table,
        key: change.key.copy(alloc)?,
    };
    last.retain(|other| is_elsewhere(&writing, other));
    last.insert(0, writing)?;
    Ok(())
}

fn put_changes(
    alloc: Global,
    last: &mut Vec<Writing>,
    unit: Id,
    changes: &[Change],
) -> Result<(), AllocError>
    ensures { OnOk result (last.new.items ≡ put_edits unit (edits_of changes.now) last.old.items) }
{
    let mut left = changes.len();
    while left > 0 {
        left -= 1;
        put_change(alloc, last, unit, &changes[left])?;
    }
    Ok(())
}

/// What a commit changes is the last change there.
fn put_commit(
    alloc: Global,
    ledger: &Ledger,
    last: &mut Vec<Writing>,
    unit: Id,
) -> Result<(), ViewErr>
    ensures { OnOk result (last.new.items ≡ put_edits unit (run_by ledger.now unit).changes.list last.old.items) }
{
    let again = run_again(alloc, ledger, unit)?;
    let Again {
        answers: _answers,
        unit: done,
    } = again;
    let changes = done.into_changes().into_vec();
    put_changes(alloc, last, unit, changes.as_slice())?;
    Ok(())
}

fn note_end(
    alloc: Global,
    ledger: &Ledger,
    last: &mut Vec<Writing>,
    unit: Id,
    end: &End,
) -> Result<(), ViewErr>
    ensures { OnOk result (last.new.items ≡ last_at end.now unit ledger.now last.old.items) }
{
    match end {
        End::Committed(_) => put_commit(alloc, ledger, last, unit),
        _ => Ok(()),
    }
}

fn note_commit(
    alloc: Global,
    ledger: &Ledger,
    last: &mut Vec<Writing>,
    event: &Event,
) -> Result<(), ViewErr>
    ensures { OnOk result (last.new.items ≡ last_by event.now ledger.now last.old.items) }
{
    match event {
        Event::Ended { unit, end } => note_end(alloc, ledger, last, *unit, end),
        _ => Ok(()),
    }
}

fn note_sources(
    alloc: Global,
    ledger: &Ledger,
    last: &[Writing],
    sources: &mut BTreeMap<Id, Sources>,
    event: &Event,
) -> Result<(), ViewErr>
    ensures { OnOk result ((u : Id) → sources_in u sources.new ≡ sources_by event.now ledger.now last.now sources.old u) }
{
    match event {
        Event::Did {
            unit,
            statement,
            ..
        } => {
            let reach = reach_of(alloc, ledger, *unit, statement.get())?;
            let units = changers(alloc, last, reach.as_ref())?;
            put_sources(alloc, sources, *unit, units)?;
            Ok(())
        }
        _ => Ok(()),
    }
}

/// Adds what an early opening passed, if it named one of these.
fn add_passed(
    alloc: Global,
    ids: &mut Ids,
    opening: &Opening,
    bases: &[Id],
) -> Result<(), AllocError>
    ensures { OnOk result (ids.new ≡ ids.old ++ (if shares opening.now.named bases.now then opening.now.passed else [])) }
{
    if shares(opening.named.as_slice(), bases) {
        ids.append(Items::from_slice(alloc, opening.passed.as_slice())?)?;
    }
    Ok(())
}

/// The programs that these free, by early openings that named one of them.
fn freed_in(alloc: Global, bases: &[Id], openings: &[Opening]) -> Result<Ids, AllocError>
    ensures { IfOk result (λ ids. ids ≡ freed_in bases.now openings.now) }
{
    let mut ids = Items::new(alloc);
    for opening in openings {
        add_passed(alloc, &mut ids, opening, bases)?;
    }
    Ok(ids)
}

/// Programs are released by their names, and some with them.
fn release(
    alloc: Global,
    openings: &[Opening],
    released: &mut Marks,
    bases: &[Id],
) -> Result<(), AllocError>
    ensures { OnOk result ((b : Id) → is_marked b released.new ≡ (has_id b bases.now || (has_id b (freed_in bases.now openings.now) || is_marked b released.old))) }
{
    let freed = freed_in(alloc, bases, openings)?;
    mark_all(released, freed.as_slice())?;
    mark_all(released, bases)?;
    Ok(())
}

fn note_released(
    alloc: Global,
    ledger: &Ledger,
    openings: &[Opening],
    released: &mut Marks,
    event: &Event,
) -> Result<(), AllocError>
    ensures { OnOk result ((b : Id) → is_marked b released.new ≡ released_by event.now ledger.now.state.bases openings.now released.old b) }
{
    match event {
        Event::Released(bases) => release(alloc, openings, released, bases.as_slice()),
        Event::Ready => mark_all(released, ledger.state.bases.as_slice()),
        _ => Ok(()),
    }
}

/// The programs that are not among these.
fn others(alloc: Global, bases: &[Id], named: &[Id]) -> Result<Ids, AllocError>
    ensures { IfOk result (λ ids. ids ≡ without named.now bases.now) }
{
    let mut left = Vec::from_slice(alloc, bases)?;
    drop_ids(&mut left, named);
    Ok(Items::from_vec(left))
}

fn open_early(
    alloc: Global,
    openings: &mut Items<Opening>,
    bases: &[Id],
    named: &[Id],
) -> Result<(), AllocError>
    ensures { OnOk result (openings.new ≡ opened_early bases.now named.now ∷ openings.old) }
{
    let mut made = Items::new(alloc);
    made.push(Opening {
        named: Items::from_slice(alloc, named)?,
        passed: others(alloc, bases, named)?,
    })?;
    made.append(mem::replace(openings, Items::new(alloc)))?;
    *openings = made;
    Ok(())
}

fn note_opening(
    alloc: Global,
    ledger: &Ledger,
    openings: &mut Items<Opening>,
    event: &Event,
) -> Result<(), AllocError>
    ensures { OnOk result (openings.new ≡ openings_by event.now ledger.now.state.bases openings.old) }
{
    match event {
        Event::Early(named) => {
            open_early(
                alloc,
                openings,
                ledger.state.bases.as_slice(),
                named.as_slice(),
            )
        }
        _ => Ok(()),
    }
}

fn note_part(
    alloc: Global,
    parts: &mut BTreeMap<Id, Sources>,
    unit: Id,
    program: Option<Id>,
) -> Result<(), AllocError>
    ensures { OnOk result ((b : Id) → sources_in b parts.new ≡ (if is_named b program then unit ∷ sources_in b parts.old else sources_in b parts.old)) }
{
    match program {
        Some(base) => {
            let units = Items::from_slice(alloc, &[unit])?;
            put_sources(alloc, parts, base, units)?;
            Ok(())
        }
        None => Ok(()),
    }
}

fn note_parts(
    alloc: Global,
    parts: &mut BTreeMap<Id, Sources>,
    event: &Event,
) -> Result<(), AllocError>
    ensures { OnOk result ((b : Id) → sources_in b parts.new ≡ parts_by event.now parts.old b) }
{
    match event {
        Event::Began { unit, kind } => note_part(alloc, parts, *unit, program_of(kind)),
        _ => Ok(()),
    }
}

/// Takes over an event by what is known before it: what is known of who read from whom is then what is known behind it. An `Err`
/// leaves it in no state that is told.
pub fn take_reads(
    alloc: Global,
    ledger: &Ledger,
    reads: &mut Reads,
    event: &Event,
) -> Result<(), ViewErr>
    ensures { OnOk result (IsReadAfter ledger.now reads.old reads.new event.now) }
{
    note_sources(
        alloc,
        ledger,
        reads.last.as_slice(),
        &mut reads.sources,
        event,
    )?;
    note_commit(alloc, ledger, &mut reads.last, event)?;
    note_released(
        alloc,
        ledger,
        reads.openings.as_slice(),
        &mut reads.released,
        event,
    )?;
    note_opening(alloc, ledger, &mut reads.openings, event)?;
    note_parts(alloc, &mut reads.parts, event)?;
    Ok(())
}
