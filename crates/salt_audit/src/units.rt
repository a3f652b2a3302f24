//! Units begin, do their statements, and end.

ghost use Rattle.salt_audit.specs.Standing.{begun_in};
ghost use Rattle.salt_audit.specs.Telling.{begins_as, one_more, over};
ghost use Rattle.salt_values.specs.Id.{is_same_id};
ghost use Rattle.salt_values.specs.declared.id.Id.{Id};
ghost use Rattle.std.specs.Prelude.{IfOk, OnOk, Some, if◌then◌else◌, option_map, ◌≡◌};

use crate::blocks::block;
use crate::state::{Begun, State, Units};
use salt_model::UnitKind;
use salt_values::{Id, TryCopy, next_number};
use std::alloc::{AllocError, Global};

/// What is noted of a unit of this name and kind as it begins.
pub fn note_of(alloc: Global, state: &State, unit: Id, kind: &UnitKind) -> Result<Begun, AllocError>
    ensures { IfOk result (λ note. note ≡ begins_as state.now unit kind.now) }
{
    let statements = block(alloc, &state.catalogue, state.conts.as_slice(), kind)?;
    let own = kind.copy(alloc)?;
    Ok(Begun {
        name: unit,
        kind: own,
        is_open: true,
        block: statements,
        done: 0,
    })
}

/// A unit has begun.
pub fn add(units: &mut Units, note: Begun) -> Result<(), AllocError>
    ensures { OnOk result ((u : Id) → begun_in u units.new ≡ (if is_same_id u note.name then Some note else begun_in u units.old)) }
{
    let name = note.name;
    units.insert(name, note)?;
    Ok(())
}

/// A unit has done one statement more. An `AllocError` leaves it as it was.
pub fn count(units: &mut Units, unit: Id) -> Result<(), AllocError>
    ensures { OnOk result ((u : Id) → begun_in u units.new
        ≡ (if is_same_id u unit then option_map one_more (begun_in u units.old) else begun_in u units.old)) }
{
    let Some(note) = units.get_mut(&unit) else {
        return Ok(());
    };
    let done = next_number(note.done)?;
    note.done = done;
    Ok(())
}

/// A unit is over, and its block is let go.
pub fn close(units: &mut Units, unit: Id)
    ensures { (u : Id) → begun_in u units.new
        ≡ (if is_same_id u unit then option_map over (begun_in u units.old) else begun_in u units.old) }
{
    let Some(note) = units.get_mut(&unit) else {
        return;
    };
    note.is_open = false;
    note.block = None;
}
