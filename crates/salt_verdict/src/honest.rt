//! Which units are not honest.

ghost use Rattle.salt_model.specs.declared.events.Event.TheVariants.{Ended};
ghost use Rattle.salt_values.specs.declared.id.Id.{Id};
ghost use Rattle.salt_verdict.specs.Ledger.{amiss_by, amiss_of, is_unfaithful, may_change, replays_by, unfaithful_by};
ghost use Rattle.std.specs.Prelude.{IfOk, OnOk, [], if◌then◌else◌, ◌&&◌, ◌++◌, ◌∷◌, ◌≡◌};

use crate::acts::{act_of, copy_vars};
use crate::answers::are_same_answers;
use crate::ledger::Ledger;
use salt_audit::is_amiss;
use salt_eval::ViewErr;
use salt_model::{End, Event};
use salt_values::{Id, Ids, is_same_id};
use sqlite_items::Items;
use std::alloc::{AllocError, Global};

/// Whether a unit's answers are those of doing its statements again.
fn replays(alloc: Global, ledger: &Ledger, unit: Id) -> Result<bool, ViewErr>
    ensures { IfOk result (λ same. same ≡ replays_by ledger.now unit) }
{
    let Some(act) = act_of(&ledger.acts, unit) else {
        return Ok(true);
    };
    let vars = copy_vars(alloc, act.vars.as_slice())?;
    let schema = &ledger.state.schema;
    let done = act.done.as_slice();
    let again = ledger.rows.do_again(alloc, schema, vars, done)?;
    Ok(are_same_answers(act.answers.as_slice(), again.answers.as_slice()))
}

/// Whether a replay does not give a unit's answers.
fn is_unfaithful(alloc: Global, ledger: &Ledger, unit: Id) -> Result<bool, ViewErr>
    ensures { IfOk result (λ is. is ≡ is_unfaithful ledger.now unit) }
{
    Ok(!replays(alloc, ledger, unit)?)
}

/// Puts a name behind these, if it is to be there.
pub fn add_if(ids: &mut Ids, unit: Id, is: bool) -> Result<(), AllocError>
    ensures { OnOk result (ids.new ≡ ids.old ++ (if is then unit ∷ [] else [])) }
{
    if is {
        ids.push(unit)?;
    }
    Ok(())
}

fn is_commit(end: &End) -> bool
    ensures { (unit of : Id) → result ≡ may_change (Ended of end.now) unit }
{
    matches!(end, End::Committed(_))
}

/// Whether the event may change what a replay of the unit gives.
fn may_change(event: &Event, unit: Id) -> bool
    ensures { result ≡ may_change event.now unit }
{
    match event {
        Event::Did { unit: done, .. } => is_same_id(unit, *done),
        Event::Ended { end, .. } => is_commit(end),
        Event::Defined { .. } => true,
        _ => false,
    }
}

fn is_unfaithful_by(
    alloc: Global,
    ledger: &Ledger,
    event: &Event,
    unit: Id,
) -> Result<bool, ViewErr>
    ensures { IfOk result (λ is. is ≡ (may_change event.now unit && is_unfaithful ledger.now unit)) }
{
    if !may_change(event, unit) {
        return Ok(false);
    }
    is_unfaithful(alloc, ledger, unit)
}

/// The open units whose answers a replay behind an event does not give, but for those whose replay it may not change.
pub fn unfaithful(alloc: Global, ledger: &Ledger, event: &Event) -> Result<Ids, ViewErr>
    ensures { IfOk result (λ ids. ids ≡ unfaithful_by event.now ledger.now) }
{
    let mut ids = Items::new(alloc);
    for unit in ledger.active.as_slice() {
        let is = is_unfaithful_by(alloc, ledger, event, *unit)?;
        add_if(&mut ids, *unit, is)?;
    }
    Ok(ids)
}

fn amiss_of(ledger: &Ledger, unit: Id, event: &Event) -> bool
    ensures { amiss_of ledger.now unit event.now ≡ (if result then unit ∷ [] else []) }
{
    match act_of(&ledger.acts, unit) {
        Some(act) => is_amiss(event, act.answers.as_slice()),
        None => is_amiss(event, &[]),
    }
}

/// The unit of the event, where it is amiss behind the unit's answers.
pub fn amiss(alloc: Global, ledger: &Ledger, event: &Event) -> Result<Ids, AllocError>
    ensures { IfOk result (λ ids. ids ≡ amiss_by ledger.now event.now) }
{
    let mut ids = Items::new(alloc);
    let unit = match event {
        Event::Did { unit, .. } => *unit,
        Event::Ended { unit, .. } => *unit,
        _ => return Ok(ids),
    };
    if amiss_of(ledger, unit, event) {
        ids.push(unit)?;
    }
    Ok(ids)
}
