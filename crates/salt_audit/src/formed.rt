//! Whether an event may come next.

ghost use Rattle.std.specs.Prelude.{◌≡◌, IfOk, Some, is_none, option_map};
ghost use Rattle.std.specs.List.{list_all};
ghost use Rattle.std.specs.Option.{option_copied};
ghost use Rattle.salt_ast.specs.Judgement.{statement_fault};
ghost use Rattle.salt_ast.specs.ProgramJudgement.{program_named, session_scope};
ghost use Rattle.salt_audit.specs.Formed.{fits_call, is_first_opening, is_part, is_same_statement};
ghost use Rattle.salt_audit.specs.Standing.{begun_in, fits_unit, goes_on, is_formed_at, is_open_unit, may_begin_by, may_come_by, may_define_by, may_do_by, next_due, next_of};
ghost use Rattle.law_definitions.specs.Texts.{definition_in};
ghost use Rattle.salt_events.specs.Definitions as of;
ghost use Rattle.salt_scheduler.specs.Refusals.{HasFewParts};
ghost use Rattle.salt_values.specs.Id.{has_id};

use crate::state::{Begun, State, Units};
use law_definitions::definitions_are_read;
use salt_ast::{Line, Scope, Shared, Statement, print_statement, same_bytes};
use salt_cont::limited_are_few;
use salt_events::read_definition;
use salt_model::{Event, UnitKind};
use salt_program::Catalogue;
use salt_scheduler::line_refusal;
use salt_schema::{Schema, SchemaErr};
use salt_values::{Cont, Id, Name, Row, is_same_id};
use sqlite_items::Items;
use std::alloc::{AllocError, Global};

/// The unit of this name that has begun.
pub fn begun(units: &Units, unit: Id) -> Option<&Begun>
    ensures { option_copied result ≡ begun_in unit units.now }
{
    units.get(&unit)
}

fn is_open(units: &Units, unit: Id) -> bool
    ensures { result ≡ is_open_unit (begun_in unit units.now) }
{
    match begun(units, unit) {
        Some(note) => note.is_open,
        None => false,
    }
}

/// Whether a program of the kind is defined that takes these arguments.
fn fits_call(catalogue: &Catalogue, base: bool, name: &Name, args: &Row) -> bool
    ensures { result ≡ fits_call base args.now (program_named catalogue.now name.now) }
{
    match catalogue.find(name) {
        Some(def) => def.is_base() == base && catalogue.fits(name, args),
        None => false,
    }
}

/// The part at which the program goes on.
fn next_due(conts: &[Cont], base: Id) -> Option<u32>
    ensures { result ≡ next_due base conts.now }
{
    let cont = conts.iter().find(|cont| is_same_id(base, cont.base))?;
    Some(cont.next)
}

fn is_due(conts: &[Cont], base: Id, part: u32) -> bool
    ensures { result ≡ is_part part (next_due base conts.now) }
{
    match next_due(conts, base) {
        Some(next) => part == next,
        None => false,
    }
}

fn goes_on(state: &State, base: Id) -> bool
    ensures { result ≡ goes_on state.now base }
{
    state.accepted.has(base) && !state.finished.has(base)
}

fn may_begin(state: &State, kind: &UnitKind) -> bool
    ensures { result ≡ may_begin_by state.now kind.now }
{
    match kind {
        UnitKind::Acid { session: _session } => true,
        UnitKind::Call {
            session: _session,
            program,
            args,
        } => fits_call(&state.catalogue, false, program, args),
        UnitKind::First {
            session: _session,
            base,
            program,
            args,
        } => { !state.bases.has(*base) && fits_call(&state.catalogue, true, program, args) }
        UnitKind::Later { base, part } => {
            goes_on(state, *base) && is_due(state.conts.as_slice(), *base, *part)
        }
    }
}

/// Whether two statements have one canonical text.
fn is_same(alloc: Global, statement: &Statement, other: &Statement) -> Result<bool, AllocError>
    ensures { IfOk result (λ same. same ≡ is_same_statement statement.now (Some other.now)) }
{
    let mut text = Vec::new(alloc);
    print_statement(&mut text, statement)?;
    let mut wanted = Vec::new(alloc);
    print_statement(&mut wanted, other)?;
    Ok(same_bytes(text.as_slice(), wanted.as_slice()))
}

/// The statement that the unit has to do next.
fn next_of(note: &Begun) -> Option<&Shared<Statement>>
    ensures { option_copied result ≡ next_of note.now }
{
    match &note.block {
        Some(block) => block.as_slice().get(note.done as usize),
        None => None,
    }
}

/// Whether the unit has to do the statement next.
fn is_next(alloc: Global, statement: &Statement, note: &Begun) -> Result<bool, AllocError>
    ensures { IfOk result (λ same. same ≡ is_same_statement statement.now (next_of note.now)) }
{
    match next_of(note) {
        Some(next) => is_same(alloc, statement, next.get()),
        None => Ok(false),
    }
}

/// Whether nothing is refused of a session's statement.
fn fits_tables(alloc: Global, schema: &Schema, statement: &Statement) -> Result<bool, AllocError>
    ensures { IfOk result (λ fits. fits ≡ is_none (statement_fault schema.now session_scope statement.now)) }
{
    let scope = Scope {
        params: Items::new(alloc),
        vars: Items::new(alloc),
    };
    match schema.check(statement, &scope) {
        Ok(()) => Ok(true),
        Err(SchemaErr::Memory) => Err(AllocError),
        Err(_) => Ok(false),
    }
}

fn fits_unit(
    alloc: Global,
    state: &State,
    statement: &Statement,
    note: &Begun,
) -> Result<bool, AllocError>
    ensures { IfOk result (λ fits. fits ≡ fits_unit state.now statement.now note.now) }
{
    match &note.kind {
        UnitKind::Acid { .. } => fits_tables(alloc, &state.schema, statement),
        UnitKind::Call { .. } => is_next(alloc, statement, note),
        UnitKind::First { .. } => is_next(alloc, statement, note),
        UnitKind::Later { .. } => is_next(alloc, statement, note),
    }
}

fn may_do(alloc: Global, state: &State, unit: Id, statement: &Statement) -> Result<bool, AllocError>
    ensures { IfOk result (λ may. may ≡ may_do_by state.now statement.now (begun_in unit state.now.units)) }
{
    match begun(&state.units, unit) {
        Some(note) => {
            if !note.is_open {
                return Ok(false);
            }
            fits_unit(alloc, state, statement, note)
        }
        None => Ok(false),
    }
}

/// Whether nothing is refused of the definition that the line asks for.
fn is_accepted(alloc: Global, state: &State, line: &Line) -> Result<bool, AllocError>
    requires { HasFewParts line.now }
    ensures { IfOk result (λ may. may ≡ may_define_by state.now (Some line.now)) }
{
    let refusal = line_refusal(alloc, &state.schema, &state.catalogue, 0, line)?;
    Ok(refusal.is_none())
}

fn may_define(alloc: Global, state: &State, text: &[u8]) -> Result<bool, AllocError>
    ensures { IfOk result (λ may. may ≡ may_define_by state.now (option_map of.line_defining (definition_in text.now))) }
{
    definitions_are_read();
    limited_are_few();
    match read_definition(alloc, text)? {
        Some(line) => is_accepted(alloc, state, &line),
        None => Ok(false),
    }
}

fn are_known(state: &State, bases: &[Id]) -> bool
    ensures { result ≡ list_all (λ b. has_id b state.now.bases) bases.now }
{
    bases.iter().all(|base| state.bases.has(*base))
}

/// Behind the first opening.
fn may_come(alloc: Global, state: &State, event: &Event) -> Result<bool, AllocError>
    ensures { IfOk result (λ may. may ≡ may_come_by state.now event.now) }
{
    match event {
        Event::Began { unit, kind } => Ok(
            begun(&state.units, *unit).is_none() && may_begin(state, kind),
        ),
        Event::Did {
            unit,
            statement,
            answer: _answer,
        } => may_do(alloc, state, *unit, statement.get()),
        Event::Waits {
            unit,
            owners: _owners,
        } => Ok(is_open(&state.units, *unit)),
        Event::Ended { unit, end: _end } => Ok(is_open(&state.units, *unit)),
        Event::Accepted(base) => Ok(state.bases.has(*base)),
        Event::Finished(base) => Ok(state.bases.has(*base)),
        Event::Released(bases) => Ok(are_known(state, bases.as_slice())),
        Event::Early(bases) => Ok(are_known(state, bases.as_slice())),
        Event::Defined {
            number: _number,
            text,
        } => may_define(alloc, state, text.as_slice()),
        _ => Ok(true),
    }
}

/// An empty database is opened for the first time.
fn is_first_opening(event: &Event) -> bool
    ensures { result ≡ is_first_opening event.now }
{
    match event {
        Event::Opened { boot, decisions } => *boot == 1 && *decisions == 0,
        _ => false,
    }
}

/// Whether the story so far with the event behind it is formed, where it was without.
pub fn is_formed(alloc: Global, state: &State, event: &Event) -> Result<bool, AllocError>
    ensures { IfOk result (λ formed. formed ≡ is_formed_at state.now event.now) }
{
    if !state.opened {
        return Ok(is_first_opening(event));
    }
    may_come(alloc, state, event)
}
