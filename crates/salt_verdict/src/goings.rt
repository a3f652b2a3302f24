//! Where programs go on, with their variables.

ghost use Rattle.salt_audit.specs.Standing.{begun_in, is_formed_at, is_of};
ghost use Rattle.salt_audit.specs.Telling.{IsBehind, conts_by, program_by};
ghost use Rattle.salt_cont.specs.Catalogues.{AllLeadOn};
ghost use Rattle.salt_model.specs.Kept.{change_cont};
ghost use Rattle.salt_model.specs.declared.events.End.TheVariants.{Committed};
ghost use Rattle.salt_model.specs.declared.events.Event.TheVariants.{Ended};
ghost use Rattle.salt_verdict.specs.Goings.{conts_noted, put_before, put_behind, put_for, set_values, values_behind, with_values};
ghost use Rattle.std.specs.List.{position_from};
ghost use Rattle.std.specs.Option.{option_copied};
ghost use Rattle.std.specs.Prelude.{IfOk, OnOk, true, ◌≡◌};

use crate::variables::{cont_named, values_named};
use salt_audit::{Begun, State, begun, tell};
use salt_books::values_kept;
use salt_model::{Binding, End, Event, UnitKind};
use salt_program::Catalogue;
use salt_values::{Cont, Conts, Id, Row, TryCopy, is_same_id};
use std::alloc::{AllocError, Global};

fn place_of(conts: &[Cont], base: Id) -> Option<usize>
    ensures { result ≡ position_from (is_of base) 0 conts.now }
{
    conts.iter().position(|cont| is_same_id(base, cont.base))
}

fn with_values(alloc: Global, cont: &Cont, values: Row) -> Result<Cont, AllocError>
    ensures { IfOk result (λ made. made ≡ with_values values cont.now) }
{
    Ok(Cont {
        base: cont.base,
        accepted: cont.accepted,
        program: cont.program.copy(alloc)?,
        args: cont.args.copy(alloc)?,
        vars: values,
        next: cont.next,
        tries: cont.tries,
    })
}

/// The continuation at this place, if there is one, has these values of its variables.
fn set_values(alloc: Global, conts: &mut Conts, at: usize, values: Row) -> Result<(), AllocError>
    ensures { OnOk result (conts.new ≡ set_values at values conts.old) }
{
    let Some(cont) = conts.get(at) else {
        return Ok(());
    };
    let made = with_values(alloc, cont, values)?;
    conts.set(at, made);
    Ok(())
}

/// The program has these values of its variables where it goes on.
fn change_values(alloc: Global, conts: &mut Conts, base: Id, values: Row) -> Result<(), AllocError>
    ensures { OnOk result (conts.new ≡ change_cont base (with_values values) conts.old) }
{
    match place_of(conts.as_slice(), base) {
        Some(at) => set_values(alloc, conts, at, values),
        None => Ok(()),
    }
}

/// The program has what it keeps of a unit's variables where it goes on.
fn put_for(
    alloc: Global,
    catalogue: &Catalogue,
    conts: &mut Conts,
    base: Id,
    vars: &[Binding],
) -> Result<(), AllocError>
    ensures { OnOk result (conts.new ≡ put_for base vars.now (program_by catalogue.now conts.old base) conts.old) }
{
    let Some(cont) = cont_named(conts.as_slice(), base) else {
        return Ok(());
    };
    let Some(def) = catalogue.find(&cont.program) else {
        return Ok(());
    };
    let values = values_kept(alloc, def, vars)?;
    change_values(alloc, conts, base, values)?;
    Ok(())
}

/// A program of which a later part commits has the unit's variables before it is moved.
fn put_before(
    alloc: Global,
    catalogue: &Catalogue,
    conts: &mut Conts,
    note: Option<&Begun>,
    vars: &[Binding],
) -> Result<(), AllocError>
    ensures { OnOk result (conts.new ≡ put_before catalogue.now vars.now (option_copied note.entry) conts.old) }
{
    let Some(note) = note else {
        return Ok(());
    };
    match &note.kind {
        UnitKind::Acid { .. } => Ok(()),
        UnitKind::Call { .. } => Ok(()),
        UnitKind::First { .. } => Ok(()),
        UnitKind::Later { base, .. } => put_for(alloc, catalogue, conts, *base, vars),
    }
}

/// What a program that begins to go on keeps of the variables of its first part.
fn values_behind(
    alloc: Global,
    catalogue: &Catalogue,
    note: Option<&Begun>,
    vars: &[Binding],
) -> Result<Option<Row>, AllocError>
    ensures { IfOk result (λ values. values ≡ values_behind catalogue.now vars.now (option_copied note.entry)) }
{
    let Some(note) = note else {
        return Ok(None);
    };
    match &note.kind {
        UnitKind::Acid { .. } => Ok(None),
        UnitKind::Call { .. } => Ok(None),
        UnitKind::First { program, .. } => {
            Ok(Some(values_named(alloc, catalogue, program, vars)?))
        }
        UnitKind::Later { .. } => Ok(None),
    }
}

fn put_behind(
    alloc: Global,
    conts: &mut Conts,
    at: usize,
    values: Option<Row>,
) -> Result<(), AllocError>
    ensures { OnOk result (conts.new ≡ put_behind at values conts.old) }
{
    match values {
        Some(values) => set_values(alloc, conts, at, values),
        None => Ok(()),
    }
}

/// A unit commits with these variables by the decision of this number. An `AllocError` leaves the state in none that is told.
pub fn tell_commit(
    alloc: Global,
    state: &mut State,
    unit: Id,
    number: u64,
    vars: &[Binding],
) -> Result<(), AllocError>
    requires formed { is_formed_at state.old (Ended unit (Committed number)) ≡ true }
    requires leads { AllLeadOn state.old.catalogue }
    ensures behind { OnOk result (IsBehind state.old (record state.new { conts = conts_by (Ended unit (Committed number)) state.old }) (Ended unit (Committed number))) }
    ensures conts { OnOk result (state.new.conts ≡ conts_noted state.old.catalogue number vars.now (begun_in unit state.old.units) state.old.conts) }
    ensures leads { OnOk result (AllLeadOn state.new.catalogue) }
{
    let note = begun(&state.units, unit);
    let values = values_behind(alloc, &state.catalogue, note, vars)?;
    put_before(alloc, &state.catalogue, &mut state.conts, note, vars)?;
    let last = state.conts.len();
    let event = Event::Ended {
        unit,
        end: End::Committed(number),
    };
    tell(alloc, state, &event)?;
    put_behind(alloc, &mut state.conts, last, values)?;
    Ok(())
}
