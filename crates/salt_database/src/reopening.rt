//! What an opening does, as its moves from point to point.

ghost use Rattle.salt_books.specs.Books.{tables_in};
ghost use Rattle.salt_books.specs.declared.books.Books.{Books};
ghost use Rattle.salt_database.specs.Standing.{CanFind, IsFoundStage, ServesBehind, ends_opening, left_in, opening_books};
ghost use Rattle.salt_disk.specs.Disks.{HasCause};
ghost use Rattle.salt_engine.specs.Flights.{flight_of};
ghost use Rattle.salt_engine.specs.Standing.{IsGoingStage, KnowUnits, KnowsUnits};
ghost use Rattle.law_states.specs.OpenUnits.{UnitState};
ghost use Rattle.law_states.specs.Points.{Point};
ghost use Rattle.law_states.specs.Steps.{units_after};
ghost use Rattle.salt_model.specs.declared.events.Event.{Event};
ghost use Rattle.salt_model.specs.declared.events.Why.{Why};
ghost use Rattle.law_openings.specs.Draining.{statements_at};
ghost use Rattle.salt_driver.specs.Counting.{CountsStops};
ghost use Rattle.salt_driver.specs.Draining.{MayTick};
ghost use Rattle.salt_driver.specs.Opening.{IsFallenFrom, MayFailAt, OpensAt};
ghost use Rattle.salt_driver.specs.Standing.{IsSoundPoint, WasTold};
ghost use Rattle.law_states.specs.Laws.{is_of_run};
ghost use Rattle.salt_database.specs.Performing.{ComesInOpening};
ghost use Rattle.salt_scheduler.specs.Standing.{StandsForState};
ghost use Rattle.salt_storage.specs.Answers.{IsLater, disk_err, disk_err_of, numbers_told, open_disk_err};
ghost use Rattle.salt_storage.specs.Staying.{StaysWithin};
ghost use Rattle.salt_storage.specs.Writing.{OfBoot, OfOpening};
ghost use Rattle.salt_storage.specs.declared.halt.Halt.TheVariants.{DeviceFull, Memory};
ghost use Rattle.salt_storage.specs.OpenErr.{OpenErr};
ghost use Rattle.salt_place.specs.Placement.{GivesPlaceOf, TakesEachKey};
ghost use Rattle.std.specs.Prelude.{Err, IfErr, IfOk, IsTrue, None, OnErr, OnOk, Some, false, ℕ, [], true, ◌++◌, ◌+◌, ◌<◌, ◌∷◌, ◌≡◌};

use crate::onward::Onward;
use crate::opening::Opening;
use salt_books::Books;
use salt_disk::Disks;
use salt_drain::Recovery;
use salt_engine::{Stage, flight_of, resume};
use salt_model::{Event, Flight, Story};
use salt_place::{PlaceKind, Placement};
use salt_scheduler::Scheduler;
use salt_schema::Schema;
use salt_storage::{Halt, OpenErr, Storage};
use salt_values::{Key, Steps};
use std::alloc::{AllocError, Global};
use std::mem;
use std::sync::ledger::Ledger;

/// Whether an opening ends by an event.
fn ends_opening(event: &Event) -> bool
    ensures { result ≡ ends_opening event.now }
{
    match event {
        Event::Ready => true,
        Event::Early(_bases) => true,
        _ => false,
    }
}

/// What serves lines behind the end of an opening: behind a Ready nothing is watched, behind an Early the programs that it names.
fn served_behind(alloc: Global, books: Books, end: &Event) -> Result<Scheduler, AllocError>
    requires { ends_opening end.now ≡ true }
    ensures { IfOk result (λ scheduler. ServesBehind end.now books (λ s. StandsForState scheduler s)) }
{
    match end {
        Event::Early(_bases) => resume(alloc, books),
        _ => Ok(Scheduler::new(alloc, books)),
    }
}

/// An opening ends: its last event is told, and what serves lines behind it is given. Want of memory leaves the story as it was.
fn end(
    alloc: Global,
    books: Books,
    event: Event,
    story: &mut Story,
) -> Result<Scheduler, AllocError>
    requires { ends_opening event ≡ true }
    ensures serves { IfOk result (λ scheduler. ServesBehind event books (λ s. StandsForState scheduler s)) }
    ensures tells { OnOk result (story.new ≡ story.old ++ event ∷ []) }
    ensures untold { OnErr result (story.new ≡ story.old) }
{
    let scheduler = served_behind(alloc, books, &event)?;
    story.push(event)?;
    Ok(scheduler)
}

/// The books of a run that has fallen.
fn books_fallen(books: Books) -> Books
    ensures { (s : UnitState) (why : Why) → KnowUnits books s → KnowUnits result (units_after (Event.Down why) s) }
{
    let mut books = books;
    books.fall();
    books
}

/// What is left of an opening behind a fall: the books, which go to no further program of a `go all`.
fn fallen(stage: Stage<Recovery>) -> Stage<Recovery>
    ensures books { (s : UnitState) (why : Why) → KnowsUnits (opening_books stage) s → KnowsUnits (opening_books result) (units_after (Event.Down why) s) }
    ensures down { IsGoingStage result → ⊥ }
{
    match &stage {
        Stage::Going(_) => Stage::Down(books_fallen(stage.going().into_books())),
        Stage::Down(_) => Stage::Down(books_fallen(stage.down())),
        Stage::Lost => Stage::Lost,
    }
}

/// An event is told that fits nothing, over disks that tell nothing: a fault is counted, and nothing comes behind it.
pub(crate) fn strayed<S: Storage, D: Disks>(
    storage: &S,
    disks: &mut D,
    event: Event,
    story: &mut Story,
) -> Halt
    requires untold { (D.view disks.old).told ≡ false }
    requires able { S.able (D.view disks.old) storage.now }
    ensures able { S.able (D.view disks.new) storage.now }
    ensures broken { WasTold result event story.old story.new }
    ensures within { StaysWithin (S.asked storage.now) (S.asked storage.now) (D.view disks.old) (D.view disks.new) }
    ensures cause { HasCause (D.view disks.old) (D.view disks.new) (Some (disk_err_of result)) }
{
    match story.push(event) {
        Ok(()) => storage.reject(disks),
        Err(_) => Halt::Memory,
    }
}

impl<S: Storage + Drop> Opening<S> {
    ghost use Rattle.salt_database.specs.Halves.{IfNext, next_of};
    ghost use Rattle.salt_database.specs.Openings.{BreaksOver, CanOpenAt, IsFallen, IsLeftAt, IsOpeningOver, MovesOn, StandsForOver, SendsOnward, StaysBegun, WhereFallen, WhereOpening};

    /// Finds behind a fall what its devices stand for. What is found already is not looked for again.
    pub(crate) fn find<D: Disks, F: Fn(PlaceKind, &Key, u32) -> u32>(
        &mut self,
        disks: &mut D,
        place: &Placement<F>,
    ) -> Result<(), OpenErr>
        requires callable { TakesEachKey (F.pre place.now.place) }
        requires answers { GivesPlaceOf (F.post place.now.place) }
        requires able { S.able (D.view disks.old) self.old.storage }
        requires settled { CanFind (D.view disks.old).told (S.settled (D.view disks.old) self.old.storage) self.old.found self.old.stage }
        requires down { IsTrue (D.view disks.old).told → IsFallen S.holds S.leaves (D.view disks.old) self.old }
        ensures able { S.able (D.view disks.new) self.new.storage }
        ensures found { OnOk result (IsFoundStage (D.view disks.new).told self.new.found self.new.stage) }
        ensures again { (result ≡ Err OpenErr.Memory → ⊥) → WhereFallen S.holds S.leaves (D.view disks.old) self.old (CanOpenAt S.holds S.leaves (D.view disks.new) self.new) }
        ensures stands { WhereFallen S.holds S.leaves (D.view disks.old) self.old (IsLeftAt S.holds S.leaves S.rests (D.view disks.new) self.new (numbers_told result)) }
        ensures later { IfErr result (λ e. WhereFallen S.holds S.leaves (D.view disks.old) self.old (λ room p. MayFailAt room p e)) }
        ensures late { IfErr result IsLater }
        ensures flies { flight_of self.new.in_flight ≡ flight_of self.old.in_flight }
        ensures full { (dev : ℕ) → result ≡ Err (OpenErr.Full dev) → S.fills (D.view disks.new) self.new.storage OfOpening dev }
        ensures begun { StaysBegun S.asked S.net self.old self.new }
        ensures within { StaysWithin (S.asked self.old.storage) (S.asked self.new.storage) (D.view disks.old) (D.view disks.new) }
        ensures counts { CountsStops (D.view disks.old) (D.view disks.new) (open_disk_err result) [] 0 }
    {
        match self.found {
            Some(_numbers) => Ok(()),
            None => self.find_behind(disks, place),
        }
    }

    /// Opens over what it has found, and tells that it has: a new boot begins. It gives the first event of the opening. An error leaves
    /// the story as it was.
    pub(crate) fn open<D: Disks>(&mut self, disks: &mut D, story: &mut Story) -> Result<Event, Halt>
        requires found { IsFoundStage (D.view disks.old).told self.old.found self.old.stage }
        requires able { S.able (D.view disks.old) self.old.storage }
        requires down { IsTrue (D.view disks.old).told → IsFallen S.holds S.leaves (D.view disks.old) self.old }
        ensures able { S.able (D.view disks.new) self.new.storage }
        ensures opens { IfOk result (λ next. WhereFallen S.holds S.leaves (D.view disks.old) self.old
            (λ room p. OpensAt (StandsForOver S.holds S.is_new (D.view disks.new) self.new) room p story.old next story.new)) }
        ensures reopens { IfErr result (λ halt. (halt ≡ Memory → ⊥) → WhereFallen S.holds S.leaves (D.view disks.old) self.old
            (λ room p. CanOpenAt S.holds S.leaves (D.view disks.new) self.new (room + 1) p)) }
        ensures stands { OnErr result (WhereFallen S.holds S.leaves (D.view disks.old) self.old
            (λ room p. IsLeftAt S.holds S.leaves S.rests (D.view disks.new) self.new None (room + 1) p)) }
        ensures flies { OnErr result (flight_of self.new.in_flight ≡ flight_of self.old.in_flight) }
        ensures untold { OnErr result (story.new ≡ story.old) }
        ensures tells { OnOk result ((boot : ℕ) × (number : ℕ) × (story.new ≡ story.old ++ Event.Opened boot number ∷ [])) }
        ensures plain { IfOk result ComesInOpening }
        ensures full { (dev : ℕ) → result ≡ Err (DeviceFull dev) → S.fills (D.view disks.new) self.new.storage OfBoot dev }
        ensures sent { OnOk result (S.net self.new.storage ≡ S.net self.old.storage) }
        ensures unfound { self.new.found ≡ None }
        ensures within { StaysWithin (S.asked self.old.storage) (S.asked self.new.storage) (D.view disks.old) (D.view disks.new) }
        ensures counts { CountsStops (D.view disks.old) (D.view disks.new) (disk_err result) [] 0 }
    {
        let Some(numbers) = self.found else {
            unreachable!()
        };
        self.found = None;
        let Stage::Down(_) = &self.stage else {
            self.storage.stands(disks);
            return Err(self.storage.reject(disks));
        };
        let books = mem::replace(&mut self.stage, Stage::Lost).down();
        match self.storage.boot(disks) {
            Ok(boot) => {
                self.storage.stands(disks);
                self.open_boot(disks, books, boot, numbers.decisions, story)
            }
            Err(halt) => {
                self.stage = Stage::Down(books);
                Err(halt)
            }
        }
    }

    /// Tells what comes next in an opening, and gives what comes after it: a step where that is a statement, which is done then; and behind
    /// its end what serves lines. An error leaves the story as it was, or with this event.
    pub(crate) fn go_on<D: Disks, F: Fn(PlaceKind, &Key, u32) -> u32, L: Ledger>(
        &mut self,
        disks: &mut D,
        place: &Placement<F>,
        event: Event,
        story: &mut Story,
        steps: &mut Steps<L>,
    ) -> Result<Onward, Halt>
        requires callable { TakesEachKey (F.pre place.now.place) }
        requires answers { GivesPlaceOf (F.post place.now.place) }
        requires able { S.able (D.view disks.old) self.old.storage }
        requires plain { is_of_run event ≡ false }
        requires stands { IsTrue (D.view disks.old).told → (p : Point) × IsSoundPoint p × IsOpeningOver S.holds S.is_new (D.view disks.old) self.old event p }
        ensures able { S.able (D.view disks.new) self.new.storage }
        ensures plain { IfOk result (λ onward. IfNext onward ComesInOpening) }
        ensures broken { IfErr result (λ halt. WasTold halt event story.old story.new) }
        ensures moves { IfOk result (λ onward. WhereOpening S.holds S.is_new (D.view disks.old) self.old event (MovesOn S.holds S.is_new (D.view disks.new) self.new event onward)) }
        ensures tells { OnOk result (story.new ≡ story.old ++ event ∷ []) }
        ensures halts { IfErr result (λ halt. WhereOpening S.holds S.is_new (D.view disks.old) self.old event
            (BreaksOver S.holds S.leaves S.rests S.fills (D.view disks.new) self.new halt event story.old story.new)) }
        ensures ticks { IfOk result (λ onward. WhereOpening S.holds S.is_new (D.view disks.old) self.old event (λ p. steps.new ≡ steps.old + statements_at (next_of onward))) }
        ensures short { OnErr result (WhereOpening S.holds S.is_new (D.view disks.old) self.old event (λ p. MayTick p event story.old story.new steps.old steps.new)) }
        ensures less { IfOk result (λ onward. IsTrue (D.view disks.old).told → left_in self.new.stage (next_of onward) < left_in self.old.stage (Some event)) }
        ensures sent { IfOk result (SendsOnward S.holds S.is_new S.asked S.net (D.view disks.old) self.old self.new event) }
        ensures unfound { self.new.found ≡ self.old.found }
        ensures within { StaysWithin (S.asked self.old.storage) (S.asked self.new.storage) (D.view disks.old) (D.view disks.new) }
        ensures counts { CountsStops (D.view disks.old) (D.view disks.new) (disk_err result) [] 0 }
    {
        self.storage.stands(disks);
        let Stage::Going(_) = &self.stage else {
            return Err(strayed(&self.storage, disks, event, story));
        };
        let recovery = mem::replace(&mut self.stage, Stage::Lost).going();
        if ends_opening(&event) {
            let scheduler = end(self.alloc, recovery.into_books(), event, story)?;
            self.in_flight = None;
            Ok(Onward::Served(scheduler))
        } else {
            story.push(event)?;
            self.in_flight = None;
            Ok(Onward::Next(self.go_on_in_opening(disks, place, recovery, steps)?))
        }
    }

    /// Falls: the devices are started again.
    pub(crate) fn fall<D: Disks>(&mut self, disks: &mut D)
        requires { S.able (D.view disks.old) self.old.storage }
        ensures able { S.able (D.view disks.new) self.new.storage }
        ensures reopens { (room : ℕ) (p q : Point) → CanOpenAt S.holds S.leaves (D.view disks.old) self.old room p → IsFallenFrom p q
            → CanOpenAt S.holds S.leaves (D.view disks.new) self.new room q }
        ensures settled { CanFind (D.view disks.new).told (S.settled (D.view disks.new) self.new.storage) self.new.found self.new.stage }
        ensures flies { flight_of self.new.in_flight ≡ flight_of self.old.in_flight }
        ensures unfound { self.new.found ≡ None }
        ensures within { StaysWithin (S.asked self.old.storage) (S.asked self.new.storage) (D.view disks.old) (D.view disks.new) }
        ensures faults { (D.view disks.new).faults ≡ (D.view disks.old).faults }
        ensures stops { (D.view disks.new).armed ≡ (D.view disks.old).armed }
    {
        self.storage.stands(disks);
        self.storage.restart(disks);
        self.storage.stands(disks);
        self.found = None;
        self.stage = fallen(mem::replace(&mut self.stage, Stage::Lost));
    }

    /// The tables that are defined, unless memory ran out.
    pub fn schema(&self) -> &Schema
        ensures { (x : Books) → opening_books self.now.stage ≡ Some x → result.now ≡ tables_in x }
    {
        match &self.stage {
            Stage::Going(recovery) => recovery.books().known().schema(),
            Stage::Down(books) => books.known().schema(),
            Stage::Lost => &self.no_tables,
        }
    }

    /// It is given up: what was in flight where it was broken off.
    pub fn flight(self) -> Option<Flight>
        ensures { result ≡ flight_of self.in_flight }
    {
        let Opening { in_flight, .. } = self;
        flight_of(in_flight)
    }
}
