//! Who met what goes on with each event, and is judged.

ghost use Rattle.salt_model.specs.Locks.{touches};
ghost use Rattle.salt_values.specs.Id.{is_same_id};
ghost use Rattle.salt_values.specs.declared.id.Id.{Id};
ghost use Rattle.salt_judge.specs.Meetings.{IsMetAfter, committed_by, has_committed, is_commit, is_live, met_by, met_if_acid, met_of, taken_by, touches_of, unwhole_by};
ghost use Rattle.salt_judge.specs.declared.met.Touch.{Touch};
ghost use Rattle.salt_judge.specs.ReadAfter.{reach_by};
ghost use Rattle.salt_judge.specs.Reads.{is_free, program_in};
ghost use Rattle.std.specs.List.{filter};
ghost use Rattle.std.specs.Option.{option_copied};
ghost use Rattle.std.specs.Prelude.{IfOk, OnOk, [], if◌then◌else◌, not, ◌++◌, ◌∷◌, ◌≡◌};

use crate::met::{Ending, Meetings, Met, Touch};
use crate::readers::reach_of;
use crate::reads::Reads;
use crate::salted::{is_free, program_in};
use salt_ast::Statement;
use salt_eval::ViewErr;
use salt_model::{End, Event, Mode, Reach};
use salt_values::{Id, Ids, is_same_id};
use salt_verdict::{Ledger, add_if};
use sqlite_items::Items;
use std::alloc::{AllocError, Global};
use std::collections::BTreeMap;
use std::mem;

/// Whether two reaches touch: they have a key in common, and one of them writes.
fn touches(reach: &Reach, other: &Reach) -> bool
    ensures { result ≡ touches reach.now other.now }
{
    reach.table == other.table
        && reach.range.meets(&other.range)
        && !(reach.mode == Mode::Read && other.mode == Mode::Read)
}

/// Whether what has been done is of a program that is not released.
fn is_live(ledger: &Ledger, reads: &Reads, touch: &Touch) -> bool
    ensures { result ≡ is_live ledger.now reads.now touch.now }
{
    !is_free(&reads.released, program_in(ledger, touch.unit))
}

fn add_met(met: &mut Items<Met>, acid: Id, part: Id, is: bool) -> Result<(), AllocError>
    ensures { OnOk result (met.new ≡ met.old ++ (if is then record { acid = acid; part = part } ∷ [] else [])) }
{
    if is {
        met.push(Met { acid, part })?;
    }
    Ok(())
}

/// Whom a statement of an ACID unit meets.
fn met_of(
    alloc: Global,
    acid: Id,
    reach: Option<&Reach>,
    taken: &[Touch],
) -> Result<Items<Met>, AllocError>
    ensures { IfOk result (λ met. met ≡ met_of acid (option_copied reach.entry) taken.now) }
{
    let mut met = Items::new(alloc);
    let Some(reach) = reach else {
        return Ok(met);
    };
    for touch in taken {
        let is = touches(&touch.reach, reach);
        add_met(&mut met, acid, touch.unit, is)?;
    }
    Ok(met)
}

/// The ACID units that met what a part has done that has committed.
pub fn unwhole(alloc: Global, meetings: &Meetings) -> Result<Ids, AllocError>
    ensures { IfOk result (λ ids. ids ≡ unwhole_by meetings.now) }
{
    let mut ids = Items::new(alloc);
    for met in meetings.met.as_slice() {
        let is = has_committed(&meetings.endings, met.part);
        add_if(&mut ids, met.acid, is)?;
    }
    Ok(ids)
}

fn has_committed(endings: &BTreeMap<Id, Ending>, unit: Id) -> bool
    ensures { result ≡ has_committed endings.now unit }
{
    match endings.get(&unit) {
        Some(ending) => ending.committed,
        None => false,
    }
}

fn met_if_acid(
    alloc: Global,
    ledger: &Ledger,
    unit: Id,
    reach: Option<&Reach>,
    taken: &[Touch],
) -> Result<Items<Met>, AllocError>
    ensures { IfOk result (λ met. met ≡ met_if_acid ledger.now unit (option_copied reach.entry) taken.now) }
{
    match program_in(ledger, unit) {
        Some(_) => Ok(Items::new(alloc)),
        None => met_of(alloc, unit, reach, taken),
    }
}

/// Puts meetings before those that are known.
fn put_met(alloc: Global, met: &mut Items<Met>, more: Items<Met>) -> Result<(), AllocError>
    ensures { OnOk result (met.new ≡ more ++ met.old) }
{
    let mut made = more;
    made.append(mem::replace(met, Items::new(alloc)))?;
    *met = made;
    Ok(())
}

fn push_touch(taken: &mut Vec<Touch>, unit: Id, reach: Option<Reach>) -> Result<(), AllocError>
    ensures { OnOk result (taken.new.items ≡ taken.old.items ++ touches_of unit reach) }
{
    match reach {
        Some(reach) => {
            taken.push(Touch { unit, reach })?;
            Ok(())
        }
        None => Ok(()),
    }
}

fn push_unless(
    taken: &mut Vec<Touch>,
    unit: Id,
    reach: Option<Reach>,
    is: bool,
) -> Result<(), AllocError>
    ensures { OnOk result (taken.new.items ≡ taken.old.items ++ (if is then [] else touches_of unit reach)) }
{
    if is {
        return Ok(());
    }
    push_touch(taken, unit, reach)
}

/// A statement that is done meets what others have done, and reaches what it reaches.
fn note_did(
    alloc: Global,
    ledger: &Ledger,
    reads: &Reads,
    meetings: &mut Meetings,
    unit: Id,
    statement: &Statement,
) -> Result<(), ViewErr>
    ensures taken { OnOk result (meetings.new.taken.items ≡ meetings.old.taken.items ++ (if is_free reads.now.released (program_in ledger.now unit) then [] else touches_of unit (reach_by ledger.now unit statement.now))) }
    ensures met { OnOk result (meetings.new.met ≡ met_if_acid ledger.now unit (reach_by ledger.now unit statement.now) meetings.old.taken.items ++ meetings.old.met) }
    ensures endings { OnOk result (meetings.new.endings ≡ meetings.old.endings) }
{
    let reach = reach_of(alloc, ledger, unit, statement)?;
    let made = met_if_acid(
        alloc,
        ledger,
        unit,
        reach.as_ref(),
        meetings.taken.as_slice(),
    )?;
    put_met(alloc, &mut meetings.met, made)?;
    let is = is_free(&reads.released, program_in(ledger, unit));
    push_unless(&mut meetings.taken, unit, reach, is)?;
    Ok(())
}

/// Forgets what has been done of programs that are released.
fn forget(ledger: &Ledger, reads: &Reads, taken: &mut Vec<Touch>)
    ensures { taken.new.items ≡ filter (is_live ledger.now reads.now) taken.old.items }
{
    taken.retain(|touch| is_live(ledger, reads, touch));
}

fn is_commit(end: &End) -> bool
    ensures { result ≡ is_commit end.now }
{
    matches!(end, End::Committed(_))
}

fn forget_unit(taken: &mut Vec<Touch>, unit: Id)
    ensures { taken.new.items ≡ filter (λ (t : Touch). not (is_same_id t.unit unit)) taken.old.items }
{
    taken.retain(|touch| !is_same_id(touch.unit, unit));
}

/// Forgets what a unit has done, if it ends by no commit.
fn give_up(taken: &mut Vec<Touch>, unit: Id, end: &End)
    ensures { taken.new.items ≡ (if is_commit end.now then taken.old.items else filter (λ (t : Touch). not (is_same_id t.unit unit)) taken.old.items) }
{
    if !is_commit(end) {
        forget_unit(taken, unit);
    }
}

fn note_touch(
    alloc: Global,
    ledger: &Ledger,
    reads: &Reads,
    meetings: &mut Meetings,
    event: &Event,
) -> Result<(), ViewErr>
    ensures taken { OnOk result (meetings.new.taken.items ≡ taken_by event.now ledger.now reads.now meetings.old.taken.items) }
    ensures met { OnOk result (meetings.new.met ≡ met_by event.now ledger.now meetings.old.taken.items meetings.old.met) }
    ensures endings { OnOk result (meetings.new.endings ≡ meetings.old.endings) }
{
    match event {
        Event::Did {
            unit,
            statement,
            ..
        } => note_did(alloc, ledger, reads, meetings, *unit, statement.get()),
        Event::Released(_) => {
            forget(ledger, reads, &mut meetings.taken);
            Ok(())
        }
        Event::Ended { unit, end } => {
            give_up(&mut meetings.taken, *unit, end);
            Ok(())
        }
        Event::Ready => {
            forget(ledger, reads, &mut meetings.taken);
            Ok(())
        }
        _ => Ok(()),
    }
}

fn put_ending(
    endings: &mut BTreeMap<Id, Ending>,
    unit: Id,
    committed: bool,
) -> Result<(), AllocError>
    ensures { OnOk result ((u : Id) → has_committed endings.new u ≡ (if is_same_id u unit then committed else has_committed endings.old u)) }
{
    endings.insert(unit, Ending { committed })?;
    Ok(())
}

fn note_ending(endings: &mut BTreeMap<Id, Ending>, event: &Event) -> Result<(), AllocError>
    ensures { OnOk result ((u : Id) → has_committed endings.new u ≡ committed_by event.now endings.old u) }
{
    match event {
        Event::Began { unit, .. } => put_ending(endings, *unit, false),
        Event::Did { unit, .. } => put_ending(endings, *unit, false),
        Event::Waits { unit, .. } => put_ending(endings, *unit, false),
        Event::Ended { unit, end } => put_ending(endings, *unit, is_commit(end)),
        _ => Ok(()),
    }
}

/// Takes over an event by what is known before it, and behind it of what is released. An `Err` leaves it in no state that is told.
pub fn take_meetings(
    alloc: Global,
    ledger: &Ledger,
    reads: &Reads,
    meetings: &mut Meetings,
    event: &Event,
) -> Result<(), ViewErr>
    ensures { OnOk result (IsMetAfter ledger.now reads.now meetings.old meetings.new event.now) }
{
    note_touch(alloc, ledger, reads, meetings, event)?;
    note_ending(&mut meetings.endings, event)?;
    Ok(())
}
