//! What a unit has done.

ghost use Rattle.salt_verdict.specs.Ledger.{act_in, answers_in, done_in, vars_in};
ghost use Rattle.std.specs.Option.{option_copied};
ghost use Rattle.salt_verdict.specs.After.{fresh, one_more};
ghost use Rattle.salt_values.specs.Id.{is_same_id};
ghost use Rattle.salt_values.specs.declared.id.Id.{Id};
ghost use Rattle.std.specs.Prelude.{IfOk, None, OnOk, Some, [], if◌then◌else◌, ◌≡◌};

use crate::ledger::{Act, Acts};
use salt_ast::{Shared, Statement};
use salt_model::{Answer, Binding, Vars};
use salt_values::{Id, TryCopy};
use sqlite_items::Items;
use std::alloc::{AllocError, Global};

/// What the unit of this name has done.
pub fn act_of(acts: &Acts, unit: Id) -> Option<&Act>
    ensures { option_copied result ≡ act_in unit acts.now }
{
    acts.get(&unit)
}

fn no_act(alloc: Global) -> Act
    ensures { result ≡ fresh [] }
{
    Act {
        vars: Items::new(alloc),
        done: Items::new(alloc),
        answers: Items::new(alloc),
    }
}

/// A unit begins with these variables.
pub fn begin(alloc: Global, acts: &mut Acts, unit: Id, vars: Vars) -> Result<(), AllocError>
    ensures { OnOk result ((u : Id) → act_in u acts.new ≡ (if is_same_id u unit then Some (fresh vars) else act_in u acts.old)) }
{
    let act = Act {
        vars,
        done: Items::new(alloc),
        answers: Items::new(alloc),
    };
    acts.insert(unit, act)?;
    Ok(())
}

fn taken(alloc: Global, act: Option<Act>) -> Act
    ensures vars { result.vars ≡ vars_in act }
    ensures done { result.done ≡ done_in act }
    ensures answers { result.answers ≡ answers_in act }
{
    match act {
        Some(act) => act,
        None => no_act(alloc),
    }
}

/// A unit has done a statement more. An `AllocError` leaves it in no state that is told.
pub fn note(
    alloc: Global,
    acts: &mut Acts,
    unit: Id,
    statement: Shared<Statement>,
    answer: Answer,
) -> Result<(), AllocError>
    ensures { OnOk result ((u : Id) → act_in u acts.new
        ≡ (if is_same_id u unit then Some (one_more statement answer (act_in unit acts.old)) else act_in u acts.old)) }
{
    let mut act = taken(alloc, acts.remove(&unit));
    act.done.push(statement)?;
    act.answers.push(answer)?;
    acts.insert(unit, act)?;
    Ok(())
}

/// What a unit has done is forgotten.
pub fn forget(acts: &mut Acts, unit: Id)
    ensures { (u : Id) → act_in u acts.new ≡ (if is_same_id u unit then None else act_in u acts.old) }
{
    acts.remove(&unit);
}

/// Variables, copied.
pub fn copy_vars(alloc: Global, vars: &[Binding]) -> Result<Vars, AllocError>
    ensures { IfOk result (λ made. made ≡ vars.now) }
{
    let mut made = Items::new(alloc);
    for binding in vars {
        made.push(Binding {
            name: binding.name.copy(alloc)?,
            value: binding.value.copy(alloc)?,
        })?;
    }
    Ok(made)
}

/// An answer, copied.
pub fn copy_answer(alloc: Global, answer: &Answer) -> Result<Answer, AllocError>
    ensures { IfOk result (λ made. made ≡ answer.now) }
{
    match answer {
        Answer::Count(count) => Ok(Answer::Count(*count)),
        Answer::Rows(rows) => Ok(Answer::Rows(rows.copy(alloc)?)),
        Answer::Cell(value) => Ok(Answer::Cell(value.copy(alloc)?)),
        Answer::Stored(value) => Ok(Answer::Stored(value.copy(alloc)?)),
        Answer::Held => Ok(Answer::Held),
        Answer::Failed(cause) => Ok(Answer::Failed(*cause)),
    }
}
