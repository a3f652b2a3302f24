//! The first law that an event breaks, and the least unit that breaks it.

ghost use Rattle.salt_audit.specs.Laws.{least_of};
ghost use Rattle.salt_audit.specs.Retelling.{retold, told};
ghost use Rattle.salt_audit.specs.Standing.{is_formed_at};
ghost use Rattle.salt_audit.specs.Verdicts.{breaking, broken_by};
ghost use Rattle.salt_cont.specs.Catalogues.{AllLeadOn};
ghost use Rattle.salt_model.specs.Trace.{Trace};
ghost use Rattle.salt_model.specs.Words.{first_of_list};
ghost use Rattle.salt_judge.specs.Judging.{HoldsAll, broken_in};
ghost use Rattle.std.specs.Prelude.{IfOk, None, Ok, OnOk, [], true, ◌≡◌};

use crate::laws::{
    meeting_goes_on, reading_goes_on, salted_is_exact, settling_goes_on, whole_is_exact,
};
use crate::meetings::{take_meetings, unwhole};
use crate::met::Meetings;
use crate::readers::take_reads;
use crate::reads::Reads;
use crate::salted::unsalted;
use crate::start::{no_meetings, no_reads};
use salt_audit::{Law, Marks, judging_is_exact, no_marks};
use salt_eval::ViewErr;
use salt_model::Event;
use salt_values::{Id, Ids, in_order};
use salt_verdict::{
    Ledger, amiss, changes_tell_the_unfaithful, holding_goes_on, honest_is_exact, nothing_told,
    take_event, unfaithful,
};
use std::alloc::{AllocError, Global};

/// What is known behind the events so far, for the three laws.
#[derive(Drop)]
pub struct Judge {
    pub ledger: Ledger,
    pub reads: Reads,
    pub meetings: Meetings,
    /// Units from which no chain leads to what is not released, whatever comes.
    pub settled: Marks,
}

/// Nothing is known before the first event.
pub fn nothing_judged(alloc: Global) -> Judge
    ensures holds { HoldsAll result (retold []) }
    ensures leads { AllLeadOn result.ledger.state.catalogue }
{
    Judge {
        ledger: nothing_told(alloc),
        reads: no_reads(alloc),
        meetings: no_meetings(alloc),
        settled: no_marks(alloc),
    }
}

fn first(ids: &[Id]) -> Option<Id>
    ensures { result ≡ first_of_list ids.now }
{
    match ids {
        [first, ..] => Some(*first),
        [] => None,
    }
}

fn least(alloc: Global, ids: &[Id]) -> Result<Option<Id>, AllocError>
    ensures { IfOk result (λ least. least ≡ least_of ids.now) }
{
    let ordered = in_order(alloc, ids)?;
    Ok(first(ordered.as_slice()))
}

/// A law with the least of the units that break it.
fn breaking(alloc: Global, law: Law, ids: &[Id]) -> Result<Option<(Law, Id)>, AllocError>
    ensures { IfOk result (λ found. found ≡ breaking law ids.now) }
{
    match least(alloc, ids)? {
        Some(unit) => Ok(Some((law, unit))),
        None => Ok(None),
    }
}

/// The first law that is broken by what is known behind an event; these were amiss before it, and those break salted.
fn broken(
    alloc: Global,
    judge: &Judge,
    amiss: Ids,
    salted: Ids,
    event: &Event,
) -> Result<Option<(Law, Id)>, ViewErr>
    ensures { IfOk result (λ found. found ≡ broken_in judge.now amiss salted event.now) }
{
    let mut dishonest = unfaithful(alloc, &judge.ledger, event)?;
    dishonest.append(amiss)?;
    let whole = unwhole(alloc, &judge.meetings)?;
    let first = breaking(alloc, Law::Honest, dishonest.as_slice())?;
    let second = breaking(alloc, Law::Salted, salted.as_slice())?;
    let third = breaking(alloc, Law::Whole, whole.as_slice())?;
    Ok(first.or(second.or(third)))
}

/// Takes over an event that may come, and judges it: the first law that is broken at the front which ends with it, with the least
/// unit that breaks it. Where one is broken, and where it is an `Err`, what is known is left in no state that is told.
pub fn judge_event(
    alloc: Global,
    judge: &mut Judge,
    event: &Event,
) -> Result<Option<(Law, Id)>, ViewErr>
    requires formed { is_formed_at judge.old.ledger.state event.now ≡ true }
    requires leads { AllLeadOn judge.old.ledger.state.catalogue }
    ensures broken { IfOk result (λ found. (trace : Trace) → HoldsAll judge.old trace → found ≡ broken_by trace event.now) }
    ensures holds { result ≡ Ok None → (trace : Trace) → HoldsAll judge.old trace → HoldsAll judge.new (told trace event.now) }
    ensures leads { OnOk result (AllLeadOn judge.new.ledger.state.catalogue) }
{
    judging_is_exact();
    holding_goes_on();
    reading_goes_on();
    meeting_goes_on();
    settling_goes_on();
    changes_tell_the_unfaithful();
    honest_is_exact();
    salted_is_exact();
    whole_is_exact();
    let amiss = amiss(alloc, &judge.ledger, event)?;
    take_reads(alloc, &judge.ledger, &mut judge.reads, event)?;
    take_meetings(
        alloc,
        &judge.ledger,
        &judge.reads,
        &mut judge.meetings,
        event,
    )?;
    take_event(alloc, &mut judge.ledger, event)?;
    let salted = unsalted(
        alloc,
        &judge.ledger,
        &judge.reads,
        &mut judge.settled,
        event,
    )?;
    let found = broken(alloc, judge, amiss, salted, event)?;
    Ok(found)
}
