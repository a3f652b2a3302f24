//! A run is opened, at first and behind a fall, and through the stops that come meanwhile.

ghost use Rattle.salt_ast.specs.declared.lines.Line.TheVariants.{Nothing};
ghost use Rattle.salt_storage.specs.OpenErr.{OpenErr};
ghost use Rattle.salt_disk.specs.Disks.{stops_left};
ghost use Rattle.law_states.specs.Laws.{is_of_run};
ghost use Rattle.law_states.specs.Points.{Point};
ghost use Rattle.law_states.specs.Steps.{units_after};
ghost use Rattle.salt_model.specs.Trace.{Start, Trace};
ghost use Rattle.salt_model.specs.declared.events.Event.{Event};
ghost use Rattle.law_openings.specs.Draining.{CanDrain, rests_behind};
ghost use Rattle.salt_driver.specs.Counting.{CountsFall, CountsOpening, stops_armed};
ghost use Rattle.salt_driver.specs.Draining.{BreaksWithin, CountsOff, CountsSteps, units_in, units_told};
ghost use Rattle.salt_driver.specs.Opening.{halt_of};
ghost use Rattle.salt_driver.specs.Reopening.{BreaksOpening, OpensOrFalls, ReopensRun};
ghost use Rattle.salt_driver.specs.Serving.{HaltsRun, IsDown};
ghost use Rattle.salt_driver.specs.Standing.{IsOpeningAt, IsSoundPoint, OpensOn};
ghost use Rattle.salt_storage.specs.Answers.{IsLater, disk_err, halted_by, open_disk_err};
ghost use Rattle.salt_storage.specs.Staying.{StaysWithin};
ghost use Rattle.salt_storage.specs.declared.halt.Halt.TheVariants.{Stopped};
ghost use Rattle.salt_place.specs.Placement.{GivesPlaceOf, TakesEachKey};
ghost use Rattle.std.specs.Prelude.{Err, IfErr, IfOk, IsTrue, List, None, Ok, OnErr, OnOk, Some, [], drop, false, ◌++◌, ◌+◌, ◌<◌, ◌≡◌, ◌≤◌};

use crate::openable::Openable;
use salt_disk::Disks;
use salt_model::{Event, Story, Why};
use salt_place::{PlaceKind, Placement};
use salt_storage::{Halt, OpenErr};
use salt_values::{Key, Steps};
use std::alloc::AllocError;
use std::marker::Brand;
use std::sync::ledger::{Blank, Ledger};

/// The events of a story behind so many.
pub fn events_behind(story: &Story, count: usize) -> &[Event]
    ensures { result.now ≡ drop count story.now }
{
    story.as_slice().get(count..).unwrap_or_default()
}

/// One where an event begins a unit.
fn unit_in(event: &Event) -> u64
    ensures { result ≡ units_in event.now }
{
    match event {
        Event::Began { .. } => 1,
        _ => 0,
    }
}

/// How many units are begun.
fn units_told(events: &[Event]) -> u64
    ensures { result ≡ units_told events.now }
{
    let mut units = 0;
    for event in events {
        units += unit_in(event);
    }
    units
}

/// Tells what is left of an opening, from what comes next in it to its end, and gives the number of units that it began. Each
/// statement that is done is a step, and there are no more than the programs that go on have left. An error leaves a story that has
/// gained a front of what is told of the opening, and a database that is to be opened anew.
pub fn drain<E: Openable, D: Disks, F: Fn(PlaceKind, &Key, u32) -> u32, L: Ledger>(
    database: &mut E,
    disks: &mut D,
    place: &Placement<F>,
    first: Event,
    story: &mut Story,
    steps: &mut Steps<L>,
) -> Result<u64, Halt>
    requires callable { TakesEachKey (F.pre place.now.place) }
    requires answers { GivesPlaceOf (F.post place.now.place) }
    requires able { E.able (D.view disks.old) database.old }
    requires stands { IsTrue (D.view disks.old).told → (p : Point) × IsSoundPoint p × IsOpeningAt (E.stands_for (D.view disks.old) database.old) (Some first) p }
    requires unarmed { stops_armed Nothing first ≡ [] }
    requires plain { is_of_run first ≡ false }
    ensures able { E.able (D.view disks.new) database.new }
    ensures ok { OnOk result ((p : Point) → IsSoundPoint p → IsOpeningAt (E.stands_for (D.view disks.old) database.old) (Some first) p →
        OpensOn (E.stands_for (D.view disks.new) database.new) p story.old None story.new) }
    ensures err { IfErr result (λ halt. (p : Point) → IsSoundPoint p → IsOpeningAt (E.stands_for (D.view disks.old) database.old) (Some first) p →
        BreaksWithin (E.on_devices (D.view disks.new) database.new) (E.flight database.new) halt p story.old story.new) }
    ensures units { IfOk result (λ units. (more : List Event) → story.new ≡ story.old ++ more → units ≡ units_told more) }
    ensures ticks { OnOk result (IsTrue (D.view disks.old).told → CountsSteps first story.old story.new steps.old steps.new 0) }
    ensures short { OnErr result (IsTrue (D.view disks.old).told → CountsOff first story.old story.new steps.old steps.new) }
    ensures most { (p : Point) → IsSoundPoint p → IsOpeningAt (E.stands_for (D.view disks.old) database.old) (Some first) p →
        CanDrain (units_after first p.state.units).kept → steps.new ≤ steps.old + rests_behind first p.state.units }
    ensures within { StaysWithin (E.asked database.old) (E.asked database.new) (D.view disks.old) (D.view disks.new) }
    ensures counts { CountsOpening (D.view disks.old) (D.view disks.new) (disk_err result) story.old story.new }
{
    let told = story.len();
    let mut next = Some(first);
    while let Some(event) = next {
        next = database.go_on(disks, place, event, story, steps)?;
        // For the proof alone: the story grows, so an opening ends whatever the disks tell.
        let _length = story.len();
    }
    Ok(units_told(events_behind(story, told)))
}

/// Tells what is left of an opening, and counts no steps.
fn finish_opening<E: Openable, D: Disks, F: Fn(PlaceKind, &Key, u32) -> u32, L: Ledger>(
    database: &mut E,
    disks: &mut D,
    place: &Placement<F>,
    first: Event,
    story: &mut Story,
    blank: Blank,
) -> Result<(), Halt>
    requires callable { TakesEachKey (F.pre place.now.place) }
    requires answers { GivesPlaceOf (F.post place.now.place) }
    requires able { E.able (D.view disks.old) database.old }
    requires stands { IsTrue (D.view disks.old).told → (p : Point) × IsSoundPoint p × IsOpeningAt (E.stands_for (D.view disks.old) database.old) (Some first) p }
    requires unarmed { stops_armed Nothing first ≡ [] }
    requires plain { is_of_run first ≡ false }
    requires name { blank.name ≡ L.name }
    requires parts { blank.parts ≡ L.parts }
    requires some { 0 < blank.parts }
    ensures able { E.able (D.view disks.new) database.new }
    ensures ok { OnOk result ((p : Point) → IsSoundPoint p → IsOpeningAt (E.stands_for (D.view disks.old) database.old) (Some first) p →
        OpensOn (E.stands_for (D.view disks.new) database.new) p story.old None story.new) }
    ensures err { IfErr result (λ halt. (p : Point) → IsSoundPoint p → IsOpeningAt (E.stands_for (D.view disks.old) database.old) (Some first) p →
        BreaksWithin (E.on_devices (D.view disks.new) database.new) (E.flight database.new) halt p story.old story.new) }
    ensures within { StaysWithin (E.asked database.old) (E.asked database.new) (D.view disks.old) (D.view disks.new) }
    ensures counts { CountsOpening (D.view disks.old) (D.view disks.new) (disk_err result) story.old story.new }
{
    let mut steps = Steps::<L>::new(blank);
    let _units = drain(database, disks, place, first, story, &mut steps)?;
    Ok(())
}

/// Opens over what was found, of a run that is down: tells the events of the opening until none comes next.
pub fn open_found<E: Openable, D: Disks, F: Fn(PlaceKind, &Key, u32) -> u32>(
    database: &mut E,
    disks: &mut D,
    place: &Placement<F>,
    story: &mut Story,
) -> Result<(), Halt>
    requires callable { TakesEachKey (F.pre place.now.place) }
    requires answers { GivesPlaceOf (F.post place.now.place) }
    requires found { E.is_found (D.view disks.old) database.old }
    requires able { E.able (D.view disks.old) database.old }
    requires down { IsTrue (D.view disks.old).told → (start : Start) × (trace : Trace) × IsDown (E.on_devices (D.view disks.old) database.old) (E.flight database.old) start story.old trace }
    ensures able { E.able (D.view disks.new) database.new }
    ensures ok { OnOk result ((start : Start) (trace : Trace) → IsDown (E.on_devices (D.view disks.old) database.old) (E.flight database.old) start story.old trace →
        ReopensRun (E.stands_for (D.view disks.new) database.new) start trace story.old story.new) }
    ensures err { IfErr result (λ halt. (start : Start) (trace : Trace) → IsDown (E.on_devices (D.view disks.old) database.old) (E.flight database.old) start story.old trace →
        BreaksOpening (E.on_devices (D.view disks.new) database.new) (E.flight database.new) (halted_by halt) start trace story.old story.new) }
    ensures within { StaysWithin (E.asked database.old) (E.asked database.new) (D.view disks.old) (D.view disks.new) }
    ensures counts { CountsOpening (D.view disks.old) (D.view disks.new) (disk_err result) story.old story.new }
{
    let first = database.open(disks, story)?;
    finish_opening::<E, D, F, Brand>(database, disks, place, first, story, Blank::new(1))
}

/// Finds what the devices stand for, and opens over that, once.
fn open_once<E: Openable, D: Disks, F: Fn(PlaceKind, &Key, u32) -> u32>(
    database: &mut E,
    disks: &mut D,
    place: &Placement<F>,
    story: &mut Story,
) -> Result<(), OpenErr>
    requires callable { TakesEachKey (F.pre place.now.place) }
    requires answers { GivesPlaceOf (F.post place.now.place) }
    requires settled { E.settled (D.view disks.old) database.old }
    requires able { E.able (D.view disks.old) database.old }
    requires down { IsTrue (D.view disks.old).told → (start : Start) × (trace : Trace) × IsDown (E.on_devices (D.view disks.old) database.old) (E.flight database.old) start story.old trace }
    ensures able { E.able (D.view disks.new) database.new }
    ensures ok { OnOk result ((start : Start) (trace : Trace) → IsDown (E.on_devices (D.view disks.old) database.old) (E.flight database.old) start story.old trace →
        ReopensRun (E.stands_for (D.view disks.new) database.new) start trace story.old story.new) }
    ensures err { IfErr result (λ e. (start : Start) (trace : Trace) → IsDown (E.on_devices (D.view disks.old) database.old) (E.flight database.old) start story.old trace →
        BreaksOpening (E.on_devices (D.view disks.new) database.new) (E.flight database.new) e start trace story.old story.new) }
    ensures late { IfErr result IsLater }
    ensures within { StaysWithin (E.asked database.old) (E.asked database.new) (D.view disks.old) (D.view disks.new) }
    ensures counts { CountsOpening (D.view disks.old) (D.view disks.new) (open_disk_err result) story.old story.new }
{
    database.find(disks, place)?;
    open_found(database, disks, place, story)?;
    Ok(())
}

/// Opens once. False where a stop came meanwhile, and the run has fallen again.
fn try_open<E: Openable, D: Disks, F: Fn(PlaceKind, &Key, u32) -> u32>(
    database: &mut E,
    disks: &mut D,
    place: &Placement<F>,
    story: &mut Story,
) -> Result<bool, OpenErr>
    requires callable { TakesEachKey (F.pre place.now.place) }
    requires answers { GivesPlaceOf (F.post place.now.place) }
    requires settled { E.settled (D.view disks.old) database.old }
    requires able { E.able (D.view disks.old) database.old }
    requires down { IsTrue (D.view disks.old).told → (start : Start) × (trace : Trace) × IsDown (E.on_devices (D.view disks.old) database.old) (E.flight database.old) start story.old trace }
    ensures able { E.able (D.view disks.new) database.new }
    ensures ok { IfOk result (λ opened. (start : Start) (trace : Trace) → IsDown (E.on_devices (D.view disks.old) database.old) (E.flight database.old) start story.old trace →
        OpensOrFalls opened (E.stands_for (D.view disks.new) database.new) (E.on_devices (D.view disks.new) database.new) (E.flight database.new) start trace story.old story.new) }
    ensures settled { result ≡ Ok false → E.settled (D.view disks.new) database.new }
    ensures fewer { result ≡ Ok false → stops_left (D.view disks.new) < stops_left (D.view disks.old) }
    ensures err { IfErr result (λ e. (start : Start) (trace : Trace) → IsDown (E.on_devices (D.view disks.old) database.old) (E.flight database.old) start story.old trace →
        BreaksOpening (E.on_devices (D.view disks.new) database.new) (E.flight database.new) e start trace story.old story.new) }
    ensures unstopped { result ≡ Err OpenErr.Stopped → ⊥ }
    ensures late { IfErr result IsLater }
    ensures within { StaysWithin (E.asked database.old) (E.asked database.new) (D.view disks.old) (D.view disks.new) }
    ensures counts { CountsOpening (D.view disks.old) (D.view disks.new) (open_disk_err result) story.old story.new }
{
    match open_once(database, disks, place, story) {
        Ok(()) => Ok(true),
        Err(OpenErr::Stopped) => {
            story.push(Event::Down(Why::Stopped))?;
            database.fall(disks);
            Ok(false)
        }
        Err(e) => Err(e),
    }
}

/// Opens a run that is down, through the stops that come meanwhile. An error leaves a story that has gained a front of what is told of
/// it.
pub fn open<E: Openable, D: Disks, F: Fn(PlaceKind, &Key, u32) -> u32>(
    database: &mut E,
    disks: &mut D,
    place: &Placement<F>,
    story: &mut Story,
) -> Result<(), OpenErr>
    requires callable { TakesEachKey (F.pre place.now.place) }
    requires answers { GivesPlaceOf (F.post place.now.place) }
    requires settled { E.settled (D.view disks.old) database.old }
    requires able { E.able (D.view disks.old) database.old }
    requires down { IsTrue (D.view disks.old).told → (start : Start) × (trace : Trace) × IsDown (E.on_devices (D.view disks.old) database.old) (E.flight database.old) start story.old trace }
    ensures able { E.able (D.view disks.new) database.new }
    ensures ok { OnOk result ((start : Start) (trace : Trace) → IsDown (E.on_devices (D.view disks.old) database.old) (E.flight database.old) start story.old trace →
        ReopensRun (E.stands_for (D.view disks.new) database.new) start trace story.old story.new) }
    ensures err { IfErr result (λ e. (start : Start) (trace : Trace) → IsDown (E.on_devices (D.view disks.old) database.old) (E.flight database.old) start story.old trace →
        BreaksOpening (E.on_devices (D.view disks.new) database.new) (E.flight database.new) e start trace story.old story.new) }
    ensures unstopped { result ≡ Err OpenErr.Stopped → ⊥ }
    ensures late { IfErr result IsLater }
    ensures within { StaysWithin (E.asked database.old) (E.asked database.new) (D.view disks.old) (D.view disks.new) }
    ensures counts { CountsOpening (D.view disks.old) (D.view disks.new) (open_disk_err result) story.old story.new }
{
    'stops: while !try_open(database, disks, place, story)? {}
    Ok(())
}

/// A run that broke off in a line, by a stop or a fault, falls and is opened again, through the stops that come meanwhile. An error
/// leaves a story that has gained a front of what is told of it.
pub fn recover<E: Openable, D: Disks, F: Fn(PlaceKind, &Key, u32) -> u32>(
    database: &mut E,
    disks: &mut D,
    place: &Placement<F>,
    why: Why,
    story: &mut Story,
) -> Result<(), OpenErr>
    requires callable { TakesEachKey (F.pre place.now.place) }
    requires answers { GivesPlaceOf (F.post place.now.place) }
    requires able { E.able (D.view disks.old) database.old }
    requires halted { IsTrue (D.view disks.old).told → (start : Start) × (trace : Trace) × HaltsRun (E.on_devices (D.view disks.old) database.old) (E.flight database.old) (halt_of why) start story.old trace }
    ensures able { E.able (D.view disks.new) database.new }
    ensures ok { OnOk result ((start : Start) (trace : Trace) → HaltsRun (E.on_devices (D.view disks.old) database.old) (E.flight database.old) (halt_of why) start story.old trace →
        ReopensRun (E.stands_for (D.view disks.new) database.new) start trace story.old story.new) }
    ensures err { IfErr result (λ e. (start : Start) (trace : Trace) → HaltsRun (E.on_devices (D.view disks.old) database.old) (E.flight database.old) (halt_of why) start story.old trace →
        BreaksOpening (E.on_devices (D.view disks.new) database.new) (E.flight database.new) e start trace story.old story.new) }
    ensures unstopped { result ≡ Err OpenErr.Stopped → ⊥ }
    ensures late { IfErr result IsLater }
    ensures within { StaysWithin (E.asked database.old) (E.asked database.new) (D.view disks.old) (D.view disks.new) }
    ensures counts { CountsFall why (D.view disks.old) (D.view disks.new) (open_disk_err result) story.old story.new }
{
    story.push(Event::Down(why))?;
    database.fall(disks);
    open(database, disks, place, story)
}
