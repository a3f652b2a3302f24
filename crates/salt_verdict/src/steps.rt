//! What is known goes on with each event.

ghost use Rattle.salt_audit.specs.Standing.{is_formed_at};
ghost use Rattle.salt_cont.specs.Catalogues.{AllLeadOn};
ghost use Rattle.salt_model.specs.declared.events.End.TheVariants.{Committed};
ghost use Rattle.salt_model.specs.declared.events.Event.TheVariants.{Began, Did, Ended};
ghost use Rattle.salt_values.specs.declared.id.Id.{Id};
ghost use Rattle.salt_verdict.specs.After.{IsAfter, act_by, active_by, commit_in, commit_of, order_by};
ghost use Rattle.salt_verdict.specs.Again.{GivesOutcome};
ghost use Rattle.salt_verdict.specs.Ledger.{act_in, run_by};
ghost use Rattle.std.specs.Prelude.{IfOk, None, OnOk, [], true, ◌++◌, ◌∷◌, ◌≡◌};

use crate::acts::{act_of, begin, copy_answer, copy_vars, forget, note};
use crate::again::Again;
use crate::goings::tell_commit;
use crate::laws::runs_make_the_tables;
use crate::ledger::{Acts, Ledger};
use crate::variables::vars_begun;
use salt_ast::{Shared, Statement};
use salt_audit::{State, tell};
use salt_eval::ViewErr;
use salt_model::{Answer, End, Event, UnitKind};
use salt_values::{Id, Ids, TryCopy, drop_ids};
use sqlite_items::Items;
use std::alloc::{AllocError, Global};

/// The commit of a unit by the decision of a number.
#[derive(Clone, Copy)]
pub struct Commit {
    pub unit: Id,
    pub number: u64,
}

fn commit_of(unit: Id, end: &End) -> Option<Commit>
    ensures { result ≡ commit_of unit end.now }
{
    match end {
        End::Committed(number) => Some(Commit {
            unit,
            number: *number,
        }),
        _ => None,
    }
}

/// The commit that an event tells.
fn commit_in(event: &Event) -> Option<Commit>
    ensures { result ≡ commit_in event.now }
{
    match event {
        Event::Ended { unit, end } => commit_of(*unit, end),
        _ => None,
    }
}

/// What a unit's statements give where they are done again.
pub fn run_again(alloc: Global, ledger: &Ledger, unit: Id) -> Result<Again, ViewErr>
    ensures { IfOk result (λ again. GivesOutcome again (run_by ledger.now unit)) }
{
    let schema = &ledger.state.schema;
    match act_of(&ledger.acts, unit) {
        Some(act) => {
            let vars = copy_vars(alloc, act.vars.as_slice())?;
            ledger
                .rows
                .do_again(alloc, schema, vars, act.done.as_slice())
        }
        None => ledger.rows.do_again(alloc, schema, Items::new(alloc), &[]),
    }
}

fn note_began(
    alloc: Global,
    state: &State,
    acts: &mut Acts,
    order: &mut Ids,
    unit: Id,
    kind: &UnitKind,
) -> Result<(), AllocError>
    ensures acts { OnOk result ((u : Id) → act_in u acts.new ≡ act_by (Began unit kind.now) state.now acts.old u) }
    ensures order { OnOk result (order.new ≡ order.old ++ unit ∷ []) }
{
    let vars = vars_begun(alloc, &state.catalogue, state.conts.as_slice(), kind)?;
    begin(alloc, acts, unit, vars)?;
    order.push(unit)?;
    Ok(())
}

fn note_did(
    alloc: Global,
    state: &State,
    acts: &mut Acts,
    unit: Id,
    statement: &Shared<Statement>,
    answer: &Answer,
) -> Result<(), AllocError>
    ensures { OnOk result ((u : Id) → act_in u acts.new ≡ act_by (Did unit statement.now answer.now) state.now acts.old u) }
{
    let statement = statement.copy(alloc)?;
    let answer = copy_answer(alloc, answer)?;
    note(alloc, acts, unit, statement, answer)?;
    Ok(())
}

/// What an event tells of what units have done.
fn note_event(
    alloc: Global,
    state: &State,
    acts: &mut Acts,
    order: &mut Ids,
    event: &Event,
) -> Result<(), AllocError>
    ensures acts { OnOk result ((u : Id) → act_in u acts.new ≡ act_by event.now state.now acts.old u) }
    ensures order { OnOk result (order.new ≡ order_by event.now order.old) }
{
    match event {
        Event::Began { unit, kind } => note_began(alloc, state, acts, order, *unit, kind),
        Event::Did {
            unit,
            statement,
            answer,
        } => note_did(alloc, state, acts, *unit, statement, answer),
        Event::Ended { unit, .. } => {
            forget(acts, *unit);
            Ok(())
        }
        _ => Ok(()),
    }
}

/// What an event tells of the units that are open.
fn note_active(active: &mut Vec<Id>, event: &Event) -> Result<(), AllocError>
    ensures { OnOk result (active.new.items ≡ active_by event.now active.old.items) }
{
    match event {
        Event::Began { unit, .. } => {
            active.push(*unit)?;
            Ok(())
        }
        Event::Ended { unit, .. } => {
            drop_ids(active, &[*unit]);
            Ok(())
        }
        _ => Ok(()),
    }
}

/// A unit commits.
fn take_commit(alloc: Global, ledger: &mut Ledger, unit: Id, number: u64) -> Result<(), ViewErr>
    requires formed { is_formed_at ledger.old.state (Ended unit (Committed number)) ≡ true }
    requires leads { AllLeadOn ledger.old.state.catalogue }
    ensures after { OnOk result (IsAfter ledger.old ledger.new (Ended unit (Committed number))) }
    ensures leads { OnOk result (AllLeadOn ledger.new.state.catalogue) }
{
    runs_make_the_tables();
    let again = run_again(alloc, ledger, unit)?;
    let Again {
        answers: _answers,
        unit: done,
    } = again;
    tell_commit(alloc, &mut ledger.state, unit, number, done.vars.as_slice())?;
    ledger.rows.commit(alloc, done.into_changes())?;
    forget(&mut ledger.acts, unit);
    drop_ids(&mut ledger.active, &[unit]);
    Ok(())
}

/// Takes over an event that is no commit.
fn take_other(alloc: Global, ledger: &mut Ledger, event: &Event) -> Result<(), AllocError>
    requires formed { is_formed_at ledger.old.state event.now ≡ true }
    requires leads { AllLeadOn ledger.old.state.catalogue }
    requires other { commit_in event.now ≡ None }
    ensures after { OnOk result (IsAfter ledger.old ledger.new event.now) }
    ensures leads { OnOk result (AllLeadOn ledger.new.state.catalogue) }
{
    note_event(
        alloc,
        &ledger.state,
        &mut ledger.acts,
        &mut ledger.order,
        event,
    )?;
    note_active(&mut ledger.active, event)?;
    tell(alloc, &mut ledger.state, event)?;
    Ok(())
}

/// Takes over an event that may come: what is known is then what is known behind it. An `Err` leaves it in no state that is told.
pub fn take_event(alloc: Global, ledger: &mut Ledger, event: &Event) -> Result<(), ViewErr>
    requires formed { is_formed_at ledger.old.state event.now ≡ true }
    requires leads { AllLeadOn ledger.old.state.catalogue }
    ensures after { OnOk result (IsAfter ledger.old ledger.new event.now) }
    ensures leads { OnOk result (AllLeadOn ledger.new.state.catalogue) }
{
    match commit_in(event) {
        Some(commit) => {
            take_commit(alloc, ledger, commit.unit, commit.number)?;
            Ok(())
        }
        None => {
            take_other(alloc, ledger, event)?;
            Ok(())
        }
    }
}
