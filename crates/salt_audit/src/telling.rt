//! The state behind an event.

ghost use Rattle.salt_ast.specs.declared.trees.Statement.{Statement};
ghost use Rattle.salt_audit.specs.Standing.{is_formed_at};
ghost use Rattle.salt_audit.specs.Telling.{IsBehind, with_base};
ghost use Rattle.salt_cont.specs.Catalogues.{AllLeadOn};
ghost use Rattle.salt_model.specs.declared.events.Answer.{Answer};
ghost use Rattle.salt_model.specs.declared.events.Event.TheVariants.{Accepted, Began, Did, Ended, Finished, Opened};
ghost use Rattle.std.specs.Prelude.{OnOk, true, ℕ, ◌≡◌};

use crate::conts::end_part;
use crate::definitions::define;
use crate::formed::begun;
use crate::names::Names;
use crate::state::State;
use crate::units::{add, close, count, note_of};
use salt_books::program_of;
use salt_model::{End, Event, UnitKind};
use salt_values::Id;
use std::alloc::{AllocError, Global};

fn name_base(bases: &mut Names, base: Option<Id>) -> Result<(), AllocError>
    ensures { OnOk result (bases.new ≡ with_base base bases.old) }
{
    match base {
        Some(base) => {
            bases.push(base)?;
            Ok(())
        }
        None => Ok(()),
    }
}

/// A unit begins.
fn begin(alloc: Global, state: &mut State, unit: Id, kind: &UnitKind) -> Result<(), AllocError>
    ensures { OnOk result (IsBehind state.old state.new (Began unit kind.now)) }
{
    let note = note_of(alloc, state, unit, kind)?;
    let base = program_of(kind);
    name_base(&mut state.bases, base)?;
    add(&mut state.units, note)?;
    Ok(())
}

/// A unit has done a statement.
fn act(state: &mut State, unit: Id) -> Result<(), AllocError>
    ensures { OnOk result ((statement : Statement) (answer : Answer) → IsBehind state.old state.new (Did unit statement answer)) }
{
    count(&mut state.units, unit)?;
    Ok(())
}

/// A unit ends.
fn end_unit(alloc: Global, state: &mut State, unit: Id, how: &End) -> Result<(), AllocError>
    requires { AllLeadOn state.old.catalogue }
    ensures { OnOk result (IsBehind state.old state.new (Ended unit how.now)) }
{
    let note = begun(&state.units, unit);
    end_part(alloc, &state.catalogue, &mut state.conts, note, how)?;
    close(&mut state.units, unit);
    Ok(())
}

/// A program is accepted.
fn accept(state: &mut State, base: Id) -> Result<(), AllocError>
    ensures { OnOk result (IsBehind state.old state.new (Accepted base)) }
{
    state.accepted.push(base)?;
    Ok(())
}

/// A program has finished.
fn finish(state: &mut State, base: Id) -> Result<(), AllocError>
    ensures { OnOk result (IsBehind state.old state.new (Finished base)) }
{
    state.finished.push(base)?;
    Ok(())
}

/// The database is opened.
fn be_opened(state: &mut State)
    ensures { (boot n : ℕ) → IsBehind state.old state.new (Opened boot n) }
{
    state.opened = true;
}

/// Takes over an event that may come: the state is then what is known behind it. An `AllocError` leaves it in no state that is told.
pub fn tell(alloc: Global, state: &mut State, event: &Event) -> Result<(), AllocError>
    requires formed { is_formed_at state.old event.now ≡ true }
    requires leads { AllLeadOn state.old.catalogue }
    ensures behind { OnOk result (IsBehind state.old state.new event.now) }
    ensures leads { OnOk result (AllLeadOn state.new.catalogue) }
{
    match event {
        Event::Began { unit, kind } => begin(alloc, state, *unit, kind),
        Event::Did { unit, .. } => act(state, *unit),
        Event::Ended { unit, end: how } => end_unit(alloc, state, *unit, how),
        Event::Accepted(base) => accept(state, *base),
        Event::Finished(base) => finish(state, *base),
        Event::Opened { .. } => {
            be_opened(state);
            Ok(())
        }
        Event::Defined { text, .. } => define(alloc, state, text.as_slice()),
        Event::Waits { .. } => Ok(()),
        Event::Released(_) => Ok(()),
        Event::Early(_) => Ok(()),
        Event::Down(_) => Ok(()),
        Event::Ready => Ok(()),
        Event::Refused(_) => Ok(()),
        Event::Armed(_) => Ok(()),
        Event::Shown(_) => Ok(()),
    }
}
