//! What is to come in a line is performed.

ghost use Rattle.salt_books.specs.Coming.{event_meant};
ghost use Rattle.salt_books.specs.declared.coming.Coming.TheVariants.{Nothing};
ghost use Rattle.salt_disk.specs.Disks.{HasCause};
ghost use Rattle.salt_engine.specs.Giving.{CanTake, CanTakeUp, coming_of};
ghost use Rattle.salt_engine.specs.Performing.{TurnsTo, comes_plain};
ghost use Rattle.salt_engine.specs.Standing.{follow_in};
ghost use Rattle.law_states.specs.Nexts.{turned_next};
ghost use Rattle.law_states.specs.Readings.{WatchReading};
ghost use Rattle.law_states.specs.States.{State, turned_to};
ghost use Rattle.salt_scheduler.specs.Standing.{AnswersWith, AnswersWithComing, behind_in, books_of};
ghost use Rattle.salt_storage.specs.Answers.{disk_err};
ghost use Rattle.salt_place.specs.Placement.{GivesPlaceOf, TakesEachKey};
ghost use Rattle.std.specs.Prelude.{IfOk, IsTrue, None, OnOk, Some, false, true, ◌≡◌};

use crate::engine::Engine;
use crate::given::{Given, provide};
use crate::stage::Stage;
use salt_ast::Line;
use salt_books::Coming;
use salt_disk::Disks;
use salt_model::Event;
use salt_place::{PlaceKind, Placement};
use salt_scheduler::Scheduler;
use salt_storage::{Halt, Storage};
use salt_values::{Id, Key};
use std::alloc::AllocError;

/// A program has its turn: what that brings.
fn turn_to(scheduler: &mut Scheduler, line: &Line, base: Id) -> Result<Coming, AllocError>
    ensures { IfOk result (λ coming. (s : State) (r : WatchReading s.watch) → TurnsTo line.now base scheduler.old s
        → AnswersWithComing (turned_to base s) (turned_next s r base) scheduler.new coming) }
{
    scheduler.turn(base)?;
    scheduler.go(line, base)
}

/// What is to come is done, with what was given for it.
fn take_up(scheduler: &mut Scheduler, given: Given) -> Result<Option<Event>, AllocError>
    requires { CanTake (books_of scheduler.old) given }
    ensures { IfOk result (λ next. (s : State) → CanTakeUp scheduler.old given s → AnswersWith s (event_meant s.units (coming_of given)) scheduler.new next) }
{
    match given {
        Given::Nothing => Ok(None),
        Given::Told(event) => Ok(Some(event)),
        Given::Rows { asking, rows } => {
            let event = scheduler.done(asking, &rows)?;
            Ok(Some(event))
        }
        Given::Committed { unit, made, number } => {
            let event = scheduler.committed(unit, made, number)?;
            Ok(Some(event))
        }
        Given::Branched {
            unit,
            base,
            cause,
            made,
            number,
        } => {
            let event = scheduler.branched(unit, base, cause, made, number)?;
            Ok(Some(event))
        }
    }
}

fn is_plain(event: &Event) -> bool
    ensures { result ≡ comes_plain (Some event.now) }
{
    match event {
        Event::Refused(_refusal) => false,
        Event::Armed(_pairs) => false,
        Event::Defined { .. } => false,
        Event::Down(_why) => false,
        Event::Opened { .. } => false,
        _ => true,
    }
}

/// Whether what was done fits no segment. Where the disks tell it always fits, so it is looked at over others alone.
fn is_strange<D: Disks>(disks: &D, next: &Option<Event>) -> bool
    ensures untold { result ≡ true → (D.view disks.now).told ≡ false }
    ensures fits { result ≡ false → (D.view disks.now).told ≡ false → comes_plain next.now ≡ true }
{
    if disks.is_told() {
        return false;
    }
    match next {
        Some(event) => !is_plain(event),
        None => false,
    }
}

impl<S: Storage> Engine<S> {
    ghost use Rattle.salt_engine.specs.Serving.{GoesOnOut, GoesOnOver, IsToServeOver, PerformsOut, SendsBehind, SendsPerformed, SendsTurn, StaysServing, TurnsOut, TurnsOver};

    /// What is to come in a line, behind its preparations.
    pub(crate) fn perform<D: Disks, F: Fn(PlaceKind, &Key, u32) -> u32>(
        &mut self,
        disks: &mut D,
        place: &Placement<F>,
        coming: Coming,
    ) -> Result<Option<Event>, Halt>
        requires callable { TakesEachKey (F.pre place.now.place) }
        requires answers { GivesPlaceOf (F.post place.now.place) }
        requires none { self.old.in_flight ≡ None }
        requires able { S.able (D.view disks.old) self.old.storage }
        requires ready { IsTrue (D.view disks.old).told → (s : State) × IsToServeOver S.holds S.is_new (D.view disks.old) self.old coming s }
        ensures able { S.able (D.view disks.new) self.new.storage }
        ensures plain { IfOk result (λ next. comes_plain next ≡ true) }
        ensures comes { PerformsOut S.holds S.is_new S.leaves S.fills (D.view disks.old) (D.view disks.new) coming self.old self.new result }
        ensures sent { OnOk result (SendsPerformed S.holds S.is_new S.asked S.net (D.view disks.old) coming self.old self.new) }
        ensures stays { StaysServing S.asked (D.view disks.old) (D.view disks.new) self.old self.new }
        ensures cause { HasCause (D.view disks.old) (D.view disks.new) (disk_err result) }
        ensures still { coming ≡ Nothing → IsTrue (D.view disks.old).told → disks.new ≡ disks.old }
    {
        self.storage.stands(disks);
        let Stage::Going(scheduler) = &mut self.stage else {
            return Err(self.storage.reject(disks));
        };
        let given = provide(
            self.alloc,
            &mut self.storage,
            disks,
            place,
            scheduler.books(),
            &mut self.in_flight,
            coming,
        )?;
        self.storage.stands(disks);
        let next = take_up(scheduler, given)?;
        if is_strange(disks, &next) {
            return Err(self.storage.reject(disks));
        }
        Ok(next)
    }

    /// What comes behind the event at hand in a line.
    pub(crate) fn go_on_in_line<D: Disks, F: Fn(PlaceKind, &Key, u32) -> u32>(
        &mut self,
        disks: &mut D,
        place: &Placement<F>,
        line: &Line,
    ) -> Result<Option<Event>, Halt>
        requires callable { TakesEachKey (F.pre place.now.place) }
        requires answers { GivesPlaceOf (F.post place.now.place) }
        requires none { self.old.in_flight ≡ None }
        requires able { S.able (D.view disks.old) self.old.storage }
        requires ready { IsTrue (D.view disks.old).told → (s : State) × GoesOnOver S.holds S.is_new (D.view disks.old) self.old line.now s }
        ensures able { S.able (D.view disks.new) self.new.storage }
        ensures plain { IfOk result (λ next. comes_plain next ≡ true) }
        ensures comes { GoesOnOut S.holds S.is_new S.leaves S.fills (D.view disks.old) (D.view disks.new) line.now self.old self.new result }
        ensures sent { OnOk result (SendsBehind S.holds S.is_new S.asked S.net (D.view disks.old) line.now self.old self.new) }
        ensures stays { StaysServing S.asked (D.view disks.old) (D.view disks.new) self.old self.new }
        ensures cause { HasCause (D.view disks.old) (D.view disks.new) (disk_err result) }
        ensures still { (s : State) (r : WatchReading s.watch) → GoesOnOver S.holds S.is_new (D.view disks.old) self.old line.now s
            → behind_in s r (follow_in self.old.stage) ≡ None → IsTrue (D.view disks.old).told → disks.new ≡ disks.old }
    {
        self.storage.stands(disks);
        let Stage::Going(scheduler) = &mut self.stage else {
            return Err(self.storage.reject(disks));
        };
        let coming = scheduler.go_on(line)?;
        self.perform(disks, place, coming)
    }

    /// A program has its turn, and what that brings is performed.
    pub(crate) fn turn_in_line<D: Disks, F: Fn(PlaceKind, &Key, u32) -> u32>(
        &mut self,
        disks: &mut D,
        place: &Placement<F>,
        line: &Line,
        base: Id,
    ) -> Result<Option<Event>, Halt>
        requires callable { TakesEachKey (F.pre place.now.place) }
        requires answers { GivesPlaceOf (F.post place.now.place) }
        requires none { self.old.in_flight ≡ None }
        requires able { S.able (D.view disks.old) self.old.storage }
        requires ready { IsTrue (D.view disks.old).told → (s : State) × TurnsOver S.holds S.is_new (D.view disks.old) self.old line.now base s }
        ensures able { S.able (D.view disks.new) self.new.storage }
        ensures plain { IfOk result (λ next. comes_plain next ≡ true) }
        ensures comes { TurnsOut S.holds S.is_new S.leaves S.fills (D.view disks.old) (D.view disks.new) line.now base self.old self.new result }
        ensures sent { OnOk result (SendsTurn S.holds S.is_new S.asked S.net (D.view disks.old) line.now base self.old self.new) }
        ensures stays { StaysServing S.asked (D.view disks.old) (D.view disks.new) self.old self.new }
        ensures cause { HasCause (D.view disks.old) (D.view disks.new) (disk_err result) }
    {
        self.storage.stands(disks);
        let Stage::Going(scheduler) = &mut self.stage else {
            return Err(self.storage.reject(disks));
        };
        let coming = turn_to(scheduler, line, base)?;
        self.perform(disks, place, coming)
    }
}
