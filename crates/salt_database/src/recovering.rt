//! What is to come in an opening is performed.

ghost use Rattle.salt_books.specs.Coming.{event_meant};
ghost use Rattle.law_openings.specs.Draining.{statements_at};
ghost use Rattle.salt_database.specs.Performing.{CanTakeUp, ComesInOpening, MayStep};
ghost use Rattle.salt_disk.specs.Disks.{HasCause};
ghost use Rattle.salt_engine.specs.Giving.{CanTake, coming_of};
ghost use Rattle.salt_engine.specs.declared.stage.Stage.TheVariants.{Lost};
ghost use Rattle.law_states.specs.States.{State};
ghost use Rattle.salt_model.specs.declared.events.Event.{Event};
ghost use Rattle.salt_drain.specs.Follows.{comes_behind};
ghost use Rattle.salt_drain.specs.Recovering.{AnswersWith, behind_of, books_of};
ghost use Rattle.salt_storage.specs.Answers.{disk_err};
ghost use Rattle.salt_place.specs.Placement.{GivesPlaceOf, TakesEachKey};
ghost use Rattle.std.specs.Prelude.{IfOk, IsTrue, None, OnErr, OnOk, Some, false, true, ◌+◌, ◌≡◌};

use crate::opening::Opening;
use salt_books::Coming;
use salt_disk::Disks;
use salt_drain::Recovery;
use salt_engine::{Given, Stage, provide};
use salt_model::Event;
use salt_place::{PlaceKind, Placement};
use salt_storage::{Halt, Storage};
use salt_values::{Key, Steps};
use std::alloc::AllocError;
use std::sync::ledger::Ledger;

/// What is to come in an opening is done, with what was given for it: one step where it is a statement.
fn take_up<L: Ledger>(
    recovery: &mut Recovery,
    given: Given,
    steps: &mut Steps<L>,
) -> Result<Option<Event>, AllocError>
    requires { CanTake (books_of recovery.old) given }
    ensures gives { IfOk result (λ next. (s : State) → CanTakeUp recovery.old given s → AnswersWith s (event_meant s.units (coming_of given)) recovery.new next) }
    ensures ticks { IfOk result (λ next. (s : State) → CanTakeUp recovery.old given s → steps.new ≡ steps.old + statements_at next) }
    ensures short { OnErr result ((s : State) → CanTakeUp recovery.old given s → MayStep (event_meant s.units (coming_of given)) steps.old steps.new) }
{
    match given {
        Given::Nothing => Ok(None),
        Given::Told(event) => Ok(Some(event)),
        Given::Rows { asking, rows } => {
            let event = recovery.done(asking, &rows, steps)?;
            Ok(Some(event))
        }
        Given::Committed { unit, made, number } => {
            let event = recovery.committed(unit, made, number)?;
            Ok(Some(event))
        }
        Given::Branched {
            unit,
            base,
            cause,
            made,
            number,
        } => {
            let event = recovery.branched(unit, base, cause, made, number)?;
            Ok(Some(event))
        }
    }
}

fn comes_in_opening(event: &Event) -> bool
    ensures { result ≡ true → ComesInOpening event.now }
{
    match event {
        Event::Armed(_pairs) => false,
        Event::Down(_why) => false,
        Event::Opened { .. } => false,
        _ => true,
    }
}

/// An event of an opening, where it is one. Where the disks tell it always is, so it is looked at over others alone.
pub(crate) fn of_opening<D: Disks>(disks: &D, next: Option<Event>) -> Option<Event>
    ensures same { IsTrue (D.view disks.now).told → result ≡ next }
    ensures of { (e : Event) → result ≡ Some e → next ≡ Some e }
    ensures plain { (D.view disks.now).told ≡ false → (e : Event) → result ≡ Some e → ComesInOpening e }
{
    if disks.is_told() {
        return next;
    }
    let Some(event) = next else {
        return None;
    };
    if comes_in_opening(&event) {
        Some(event)
    } else {
        None
    }
}

impl<S: Storage> Opening<S> {
    ghost use Rattle.salt_database.specs.Openings.{GoesOnOut, GoesOnOver, IsToOpenOver, PerformsOut, SendsBehind, SendsPerformed, StaysOpening};

    /// What is to come in an opening, which is an event of it.
    pub(crate) fn perform_in_opening<D: Disks, F: Fn(PlaceKind, &Key, u32) -> u32, L: Ledger>(
        &mut self,
        disks: &mut D,
        place: &Placement<F>,
        recovery: Recovery,
        coming: Coming,
        steps: &mut Steps<L>,
    ) -> Result<Event, Halt>
        requires callable { TakesEachKey (F.pre place.now.place) }
        requires answers { GivesPlaceOf (F.post place.now.place) }
        requires lost { self.old.stage ≡ Lost }
        requires none { self.old.in_flight ≡ None }
        requires able { S.able (D.view disks.old) self.old.storage }
        requires ready { IsTrue (D.view disks.old).told → (s : State) × IsToOpenOver S.holds S.is_new (D.view disks.old) self.old recovery coming s }
        ensures able { S.able (D.view disks.new) self.new.storage }
        ensures plain { IfOk result ComesInOpening }
        ensures comes { PerformsOut S.holds S.is_new S.leaves S.fills (D.view disks.old) (D.view disks.new) recovery coming self.old self.new result }
        ensures ticks { IfOk result (λ e. (s : State) → IsToOpenOver S.holds S.is_new (D.view disks.old) self.old recovery coming s → steps.new ≡ steps.old + statements_at (Some e)) }
        ensures short { OnErr result ((s : State) → IsToOpenOver S.holds S.is_new (D.view disks.old) self.old recovery coming s → MayStep (event_meant s.units coming) steps.old steps.new) }
        ensures sent { OnOk result (SendsPerformed S.holds S.is_new S.asked S.net (D.view disks.old) recovery coming self.old self.new) }
        ensures stays { StaysOpening S.asked (D.view disks.old) (D.view disks.new) self.old self.new }
        ensures cause { HasCause (D.view disks.old) (D.view disks.new) (disk_err result) }
    {
        let mut recovery = recovery;
        match provide(
            self.alloc,
            &mut self.storage,
            disks,
            place,
            recovery.books(),
            &mut self.in_flight,
            coming,
        ) {
            Ok(given) => {
                self.storage.stands(disks);
                let next = take_up(&mut recovery, given, steps)?;
                let Some(event) = of_opening(disks, next) else {
                    return Err(self.storage.reject(disks));
                };
                self.stage = Stage::Going(recovery);
                Ok(event)
            }
            Err(halt) => Err(self.stage.break_off(recovery.into_books(), halt)),
        }
    }

    /// What comes behind the event at hand of an opening.
    pub(crate) fn go_on_in_opening<D: Disks, F: Fn(PlaceKind, &Key, u32) -> u32, L: Ledger>(
        &mut self,
        disks: &mut D,
        place: &Placement<F>,
        recovery: Recovery,
        steps: &mut Steps<L>,
    ) -> Result<Event, Halt>
        requires callable { TakesEachKey (F.pre place.now.place) }
        requires answers { GivesPlaceOf (F.post place.now.place) }
        requires lost { self.old.stage ≡ Lost }
        requires none { self.old.in_flight ≡ None }
        requires able { S.able (D.view disks.old) self.old.storage }
        requires stands { IsTrue (D.view disks.old).told → (s : State) × GoesOnOver S.holds S.is_new (D.view disks.old) self.old recovery s }
        ensures able { S.able (D.view disks.new) self.new.storage }
        ensures plain { IfOk result ComesInOpening }
        ensures comes { GoesOnOut S.holds S.is_new S.leaves S.fills (D.view disks.old) (D.view disks.new) recovery self.old self.new result }
        ensures ticks { IfOk result (λ e. (s : State) → GoesOnOver S.holds S.is_new (D.view disks.old) self.old recovery s → steps.new ≡ steps.old + statements_at (Some e)) }
        ensures short { OnErr result ((s : State) → GoesOnOver S.holds S.is_new (D.view disks.old) self.old recovery s → MayStep (comes_behind (behind_of recovery) s.units) steps.old steps.new) }
        ensures sent { OnOk result (SendsBehind S.holds S.is_new S.asked S.net (D.view disks.old) recovery self.old self.new) }
        ensures stays { StaysOpening S.asked (D.view disks.old) (D.view disks.new) self.old self.new }
        ensures cause { HasCause (D.view disks.old) (D.view disks.new) (disk_err result) }
    {
        let mut recovery = recovery;
        self.storage.stands(disks);
        let coming = recovery.go_on()?;
        self.perform_in_opening(disks, place, recovery, coming, steps)
    }
}
