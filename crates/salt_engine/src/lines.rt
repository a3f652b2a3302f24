//! A line is begun.

ghost use Rattle.salt_ast.specs.declared.lines.Line.TheVariants as line_of;
ghost use Rattle.salt_engine.specs.Flights.{definition_of};
ghost use Rattle.salt_model.specs.Refusals.{defines};
ghost use Rattle.salt_engine.specs.Performing.{DefinesSomething, IsServed, Rejects};
ghost use Rattle.salt_driver.specs.Standing.{IsOfSegment};
ghost use Rattle.salt_engine.specs.Deciding.{StaysStored};
ghost use Rattle.salt_scheduler.specs.Refusals.{HasFewParts};
ghost use Rattle.salt_scheduler.specs.Serving.{is_prepared_line};
ghost use Rattle.law_states.specs.Readings.{clash_by, items_by};
ghost use Rattle.law_states.specs.KeptWaits.{AreDistinct};
ghost use Rattle.law_states.specs.Nexts.{refusal_of};
ghost use Rattle.law_states.specs.States.{State, asked_of};
ghost use Rattle.law_states.specs.Told.{line_in};
ghost use Rattle.salt_model.specs.Trace.{Tree};
ghost use Rattle.salt_model.specs.Words.{Every};
ghost use Rattle.salt_model.specs.declared.events.Event.TheVariants.{Refused};
ghost use Rattle.salt_model.specs.declared.events.Refusal.{Refusal};
ghost use Rattle.salt_driver.specs.Counting.{CountsStops, armed_told};
ghost use Rattle.salt_scheduler.specs.Standing.{DoesAllowed, IsDefinable, StandsForState, books_of};
ghost use Rattle.salt_storage.specs.Answers.{disk_err};
ghost use Rattle.salt_storage.specs.Staying.{StaysWithin};
ghost use Rattle.salt_place.specs.Placement.{GivesPlaceOf, TakesEachKey};
ghost use Rattle.std.specs.Prelude.{IfOk, IsTrue, None, Ok, OnOk, Some, false, true, ℕ, ◌++◌, ◌≡◌, ◌≤◌};

use crate::engine::Engine;
use crate::flights::InFlight;
use crate::stage::Stage;
use law_decisions::definitions_may_be_kept;
use salt_ast::{Line, Pairs};
use salt_books::{program_text, table_text};
use salt_disk::Disks;
use salt_model::{Event, Refusal};
use salt_place::{PlaceKind, Placement};
use salt_scheduler::Scheduler;
use salt_storage::{Halt, Storage};
use salt_values::{Key, TryCopy};
use sqlite_items::Items;
use std::alloc::{AllocError, Global};

/// What a line asks of the storage that defines something.
fn definition_of(alloc: Global, line: &Line) -> Result<InFlight, AllocError>
    requires { defines line.now ≡ true }
    ensures { IfOk result (λ asked. definition_of line.now ≡ Some asked) }
{
    match line {
        Line::Table(def) => Ok(InFlight::Table {
            def: def.copy(alloc)?,
            text: table_text(alloc, def)?,
        }),
        Line::Program(def) => Ok(InFlight::Program {
            def: def.copy(alloc)?,
            text: program_text(alloc, def)?,
        }),
        _ => unreachable!(),
    }
}

/// Whether a line's definition is refused. Where the disks tell it was asked, and is not; so it is looked at over others alone.
fn is_undefinable<D: Disks>(
    disks: &D,
    scheduler: &Scheduler,
    line: &Line,
) -> Result<bool, AllocError>
    requires { HasFewParts line.now }
    ensures untold { result ≡ Ok true → (D.view disks.now).told ≡ false }
    ensures fits { result ≡ Ok false → (D.view disks.now).told ≡ false → IsDefinable line.now (books_of scheduler.now) }
{
    if disks.is_told() {
        return Ok(false);
    }
    scheduler.is_refused(line)
}

/// What a line defines has been decided: it is defined.
fn defined(scheduler: &mut Scheduler, line: &Line) -> Result<Event, AllocError>
    requires definition { defines line.now ≡ true }
    requires allowed { IsDefinable line.now (books_of scheduler.old) }
    requires parts { HasFewParts line.now }
    ensures event { IfOk result (λ e. DefinesSomething e) }
    ensures does { IfOk result (λ e. DoesAllowed (λ s r. line_in s.units (clash_by s) (items_by s r) line.now) line.now scheduler.old scheduler.new e) }
{
    match line {
        Line::Table(def) => scheduler.table_defined(line, def),
        Line::Program(def) => scheduler.program_defined(line, def),
        _ => unreachable!(),
    }
}

/// A line is asked: what is refused of it.
fn ask(
    scheduler: &mut Scheduler,
    line: &Line,
    can_stop: bool,
    over_net: bool,
) -> Result<Option<Refusal>, AllocError>
    requires { HasFewParts line.now }
    ensures { IfOk result (λ refusal. (s : State) → StandsForState scheduler.old s → s.can_stop ≡ can_stop → s.over_net ≡ over_net → AreDistinct s.watch.programs
        → (refusal ≡ refusal_of s (Tree line.now)) × StandsForState scheduler.new (asked_of (Tree line.now) s)) }
{
    let refusal = scheduler.refusal(line, can_stop, over_net)?;
    scheduler.ask(line)?;
    Ok(refusal)
}

/// A line whose text is refused is asked.
pub(crate) fn reject(scheduler: &mut Scheduler, refusal: Refusal) -> Result<Event, AllocError>
    ensures event { IfOk result (λ e. e ≡ Refused refusal) }
    ensures rejects { IfOk result (λ e. Rejects refusal scheduler.old scheduler.new e) }
{
    scheduler.ask(&Line::Nothing)?;
    Ok(scheduler.refuse(&Line::Nothing, refusal))
}

/// Stops are armed, one by one.
fn arm_each<S: Storage, D: Disks>(
    storage: &mut S,
    disks: &mut D,
    pairs: &[(u64, u8)],
) -> Result<(), AllocError>
    requires able { IsTrue (D.view disks.old).can_stop }
    requires picks { Every (λ (p : ℕ × ℕ). p.1 ≤ 4) pairs.now }
    ensures stored { StaysStored S.holds S.is_new (D.view disks.old) (D.view disks.new) storage.old storage.new }
    ensures ok { OnOk result ((D.view disks.new).armed ≡ (D.view disks.old).armed ++ pairs.now) }
    ensures faults { (D.view disks.new).faults ≡ (D.view disks.old).faults }
    ensures net { S.net storage.new ≡ S.net storage.old }
    ensures able { S.able (D.view disks.old) storage.old → S.able (D.view disks.new) storage.new }
    ensures within { StaysWithin (S.asked storage.old) (S.asked storage.new) (D.view disks.old) (D.view disks.new) }
{
    for pair in pairs {
        storage.arm(disks, pair.0, pair.1)?;
    }
    Ok(())
}

impl<S: Storage> Engine<S> {
    ghost use Rattle.salt_engine.specs.Serving.{AsksLineOver, AsksOut, BeginsOut, IsToAskOver, SendsAsked, SendsBegun, StaysServing};

    /// The table or the program of a line is defined.
    fn define<D: Disks, F: Fn(PlaceKind, &Key, u32) -> u32>(
        &mut self,
        disks: &mut D,
        place: &Placement<F>,
        line: &Line,
    ) -> Result<Option<Event>, Halt>
        requires callable { TakesEachKey (F.pre place.now.place) }
        requires answers { GivesPlaceOf (F.post place.now.place) }
        requires definition { defines line.now ≡ true }
        requires none { self.old.in_flight ≡ None }
        requires served { IsServed line.now }
        requires able { S.able (D.view disks.old) self.old.storage }
        requires ready { IsTrue (D.view disks.old).told → (s : State) × AsksLineOver S.holds S.is_new (D.view disks.old) self.old line.now s }
        ensures able { S.able (D.view disks.new) self.new.storage }
        ensures plain { IfOk result IsOfSegment }
        ensures comes { BeginsOut S.holds S.is_new S.leaves S.fills (D.view disks.old) (D.view disks.new) line.now self.old self.new result }
        ensures sent { OnOk result (SendsBegun S.holds S.is_new S.asked S.net (D.view disks.old) line.now self.old self.new) }
        ensures stays { StaysServing S.asked (D.view disks.old) (D.view disks.new) self.old self.new }
        ensures counts { CountsStops (D.view disks.old) (D.view disks.new) (disk_err result) (armed_told line.now result) 0 }
    {
        definitions_may_be_kept();
        self.storage.stands(disks);
        let Stage::Going(scheduler) = &mut self.stage else {
            return Err(self.storage.reject(disks));
        };
        if is_undefinable(disks, scheduler, line)? {
            return Err(self.storage.reject(disks));
        }
        let asked = definition_of(self.alloc, line)?;
        match self.storage.define(disks, place, asked.text()) {
            Ok(_number) => {
                self.storage.stands(disks);
                self.in_flight = Some(asked);
                let event = defined(scheduler, line)?;
                Ok(Some(event))
            }
            Err(halt) => {
                self.in_flight = Some(asked);
                Err(halt)
            }
        }
    }

    /// The stops of a line are armed.
    fn arm<D: Disks>(
        &mut self,
        disks: &mut D,
        line: &Line,
        pairs: &Pairs,
    ) -> Result<Option<Event>, Halt>
        requires line { line.now ≡ line_of.Crash pairs.now }
        requires none { self.old.in_flight ≡ None }
        requires served { IsServed line.now }
        requires able { S.able (D.view disks.old) self.old.storage }
        requires ready { IsTrue (D.view disks.old).told → (s : State) × AsksLineOver S.holds S.is_new (D.view disks.old) self.old line.now s }
        ensures able { S.able (D.view disks.new) self.new.storage }
        ensures plain { IfOk result IsOfSegment }
        ensures comes { BeginsOut S.holds S.is_new S.leaves S.fills (D.view disks.old) (D.view disks.new) line.now self.old self.new result }
        ensures sent { OnOk result (SendsBegun S.holds S.is_new S.asked S.net (D.view disks.old) line.now self.old self.new) }
        ensures stays { StaysServing S.asked (D.view disks.old) (D.view disks.new) self.old self.new }
        ensures counts { CountsStops (D.view disks.old) (D.view disks.new) (disk_err result) (armed_told line.now result) 0 }
    {
        self.storage.stands(disks);
        let Stage::Going(scheduler) = &mut self.stage else {
            return Err(self.storage.reject(disks));
        };
        if !disks.can_stop() {
            return Err(self.storage.reject(disks));
        }
        let told = Items::from_slice(self.alloc, pairs.as_slice())?;
        match arm_each(&mut self.storage, disks, pairs.as_slice()) {
            Ok(()) => {
                let event = scheduler.armed(line, told);
                Ok(Some(event))
            }
            Err(_) => {
                self.storage.stands(disks);
                Err(Halt::Memory)
            }
        }
    }

    /// The pairs of messages of a line are armed.
    fn arm_net<D: Disks>(
        &mut self,
        disks: &mut D,
        line: &Line,
        pairs: &Pairs,
    ) -> Result<Option<Event>, Halt>
        requires line { line.now ≡ line_of.Net pairs.now }
        requires none { self.old.in_flight ≡ None }
        requires served { IsServed line.now }
        requires able { S.able (D.view disks.old) self.old.storage }
        requires ready { IsTrue (D.view disks.old).told → (s : State) × AsksLineOver S.holds S.is_new (D.view disks.old) self.old line.now s }
        ensures able { S.able (D.view disks.new) self.new.storage }
        ensures plain { IfOk result IsOfSegment }
        ensures comes { BeginsOut S.holds S.is_new S.leaves S.fills (D.view disks.old) (D.view disks.new) line.now self.old self.new result }
        ensures sent { OnOk result (SendsBegun S.holds S.is_new S.asked S.net (D.view disks.old) line.now self.old self.new) }
        ensures stays { StaysServing S.asked (D.view disks.old) (D.view disks.new) self.old self.new }
        ensures counts { CountsStops (D.view disks.old) (D.view disks.new) (disk_err result) (armed_told line.now result) 0 }
    {
        self.storage.stands(disks);
        let Stage::Going(scheduler) = &mut self.stage else {
            return Err(self.storage.reject(disks));
        };
        let told = Items::from_slice(self.alloc, pairs.as_slice())?;
        match self.storage.arm_net(disks, pairs.as_slice()) {
            Ok(()) => {
                let event = scheduler.armed(line, told);
                Ok(Some(event))
            }
            Err(_) => {
                self.storage.stands(disks);
                Err(Halt::Memory)
            }
        }
    }

    /// What comes first in a line that defines nothing and arms nothing.
    fn follow_line<D: Disks, F: Fn(PlaceKind, &Key, u32) -> u32>(
        &mut self,
        disks: &mut D,
        place: &Placement<F>,
        line: &Line,
    ) -> Result<Option<Event>, Halt>
        requires callable { TakesEachKey (F.pre place.now.place) }
        requires answers { GivesPlaceOf (F.post place.now.place) }
        requires plain { is_prepared_line line.now ≡ false }
        requires none { self.old.in_flight ≡ None }
        requires served { IsServed line.now }
        requires able { S.able (D.view disks.old) self.old.storage }
        requires ready { IsTrue (D.view disks.old).told → (s : State) × AsksLineOver S.holds S.is_new (D.view disks.old) self.old line.now s }
        ensures able { S.able (D.view disks.new) self.new.storage }
        ensures plain { IfOk result IsOfSegment }
        ensures comes { BeginsOut S.holds S.is_new S.leaves S.fills (D.view disks.old) (D.view disks.new) line.now self.old self.new result }
        ensures sent { OnOk result (SendsBegun S.holds S.is_new S.asked S.net (D.view disks.old) line.now self.old self.new) }
        ensures stays { StaysServing S.asked (D.view disks.old) (D.view disks.new) self.old self.new }
        ensures counts { CountsStops (D.view disks.old) (D.view disks.new) (disk_err result) (armed_told line.now result) 0 }
    {
        self.storage.stands(disks);
        let Stage::Going(scheduler) = &mut self.stage else {
            return Err(self.storage.reject(disks));
        };
        let coming = scheduler.first_of(line)?;
        self.perform(disks, place, coming)
    }

    /// A line that is not refused is begun.
    pub(crate) fn begin_line<D: Disks, F: Fn(PlaceKind, &Key, u32) -> u32>(
        &mut self,
        disks: &mut D,
        place: &Placement<F>,
        line: &Line,
    ) -> Result<Option<Event>, Halt>
        requires callable { TakesEachKey (F.pre place.now.place) }
        requires answers { GivesPlaceOf (F.post place.now.place) }
        requires none { self.old.in_flight ≡ None }
        requires served { IsServed line.now }
        requires able { S.able (D.view disks.old) self.old.storage }
        requires ready { IsTrue (D.view disks.old).told → (s : State) × AsksLineOver S.holds S.is_new (D.view disks.old) self.old line.now s }
        ensures able { S.able (D.view disks.new) self.new.storage }
        ensures plain { IfOk result IsOfSegment }
        ensures comes { BeginsOut S.holds S.is_new S.leaves S.fills (D.view disks.old) (D.view disks.new) line.now self.old self.new result }
        ensures sent { OnOk result (SendsBegun S.holds S.is_new S.asked S.net (D.view disks.old) line.now self.old self.new) }
        ensures stays { StaysServing S.asked (D.view disks.old) (D.view disks.new) self.old self.new }
        ensures counts { CountsStops (D.view disks.old) (D.view disks.new) (disk_err result) (armed_told line.now result) 0 }
    {
        match line {
            Line::Table(_def) => self.define(disks, place, line),
            Line::Program(_def) => self.define(disks, place, line),
            Line::Crash(pairs) => self.arm(disks, line, pairs),
            Line::Net(pairs) => self.arm_net(disks, line, pairs),
            _ => self.follow_line(disks, place, line),
        }
    }

    /// A line is asked: it is refused, or begun.
    pub(crate) fn ask_line<D: Disks, F: Fn(PlaceKind, &Key, u32) -> u32>(
        &mut self,
        disks: &mut D,
        place: &Placement<F>,
        line: &Line,
    ) -> Result<Option<Event>, Halt>
        requires callable { TakesEachKey (F.pre place.now.place) }
        requires answers { GivesPlaceOf (F.post place.now.place) }
        requires none { self.old.in_flight ≡ None }
        requires served { IsServed line.now }
        requires able { S.able (D.view disks.old) self.old.storage }
        requires ready { IsTrue (D.view disks.old).told → (s : State) × IsToAskOver S.holds S.is_new (D.view disks.old) self.old line.now s × (s.over_net ≡ (S.asked self.old.storage).over_net) }
        ensures able { S.able (D.view disks.new) self.new.storage }
        ensures plain { IfOk result IsOfSegment }
        ensures comes { AsksOut S.holds S.is_new S.leaves S.fills S.asked (D.view disks.old) (D.view disks.new) line.now self.old self.new result }
        ensures sent { OnOk result (SendsAsked S.holds S.is_new S.asked S.net (D.view disks.old) line.now self.old self.new) }
        ensures stays { StaysServing S.asked (D.view disks.old) (D.view disks.new) self.old self.new }
        ensures refused { (refusal : Refusal) → result ≡ Ok (Some (Refused refusal)) → IsTrue (D.view disks.old).told → disks.new ≡ disks.old }
        ensures counts { CountsStops (D.view disks.old) (D.view disks.new) (disk_err result) (armed_told line.now result) 0 }
    {
        self.storage.stands(disks);
        let Stage::Going(scheduler) = &mut self.stage else {
            return Err(self.storage.reject(disks));
        };
        let refusal = ask(scheduler, line, disks.can_stop(), self.storage.over_net())?;
        match refusal {
            Some(refusal) => Ok(Some(scheduler.refuse(line, refusal))),
            None => self.begin_line(disks, place, line),
        }
    }
}
