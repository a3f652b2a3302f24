//! A line is asked, its events are told until none comes next, and so is each turn behind it.

ghost use Rattle.salt_ast.specs.declared.lines.Line.TheVariants.{Nothing};
ghost use Rattle.salt_disk.specs.Disks.{HasCause};
ghost use Rattle.law_states.specs.Points.{Point};
ghost use Rattle.salt_model.specs.Trace.{Rejected, Start, Trace, Tree};
ghost use Rattle.salt_model.specs.declared.events.Event.TheVariants.{Refused};
ghost use Rattle.salt_model.specs.declared.events.Refusal.{Refusal};
ghost use Rattle.salt_driver.specs.Counting.{CountsMore};
ghost use Rattle.salt_driver.specs.Serving.{BreaksOff, GoesOn, ServesTrace};
ghost use Rattle.salt_driver.specs.Standing.{AdvancesInLine, FinishesLine, IsAt, IsOfSegment, IsSoundPoint, StopsWithin};
ghost use Rattle.salt_storage.specs.Answers.{disk_err};
ghost use Rattle.salt_storage.specs.Staying.{StaysWithin};
ghost use Rattle.law_types.specs.Played.{HasKey};
ghost use Rattle.salt_place.specs.Placement.{GivesPlaceOf, TakesEachKey};
ghost use Rattle.std.specs.Prelude.{IfErr, IfOk, IsTrue, None, OnErr, OnOk, Some, [], false, ◌++◌, ◌<◌, ◌∷◌, ◌≡◌, ◌≤◌};

use crate::engine::Stepping;
use salt_ast::Line;
use salt_disk::Disks;
use salt_model::{Event, Refusal, Story};
use salt_place::{PlaceKind, Placement};
use salt_storage::Halt;
use salt_values::Key;

/// Tells events until none comes next.
fn settle<E: Stepping, D: Disks, F: Fn(PlaceKind, &Key, u32) -> u32>(
    engine: &mut E,
    disks: &mut D,
    place: &Placement<F>,
    line: &Line,
    story: &mut Story,
    first: Option<Event>,
) -> Result<(), Halt>
    requires callable { TakesEachKey (F.pre place.now.place) }
    requires answers { GivesPlaceOf (F.post place.now.place) }
    requires able { E.able (D.view disks.old) engine.old }
    requires stands { IsTrue (D.view disks.old).told → (p : Point) × IsSoundPoint p × IsAt (E.stands_for (D.view disks.old) engine.old) line.now first p }
    requires plain { IsOfSegment first }
    ensures able { E.able (D.view disks.new) engine.new }
    ensures ok { OnOk result ((p : Point) → IsSoundPoint p → IsAt (E.stands_for (D.view disks.old) engine.old) line.now first p →
        AdvancesInLine (E.stands_for (D.view disks.new) engine.new) line.now p story.old None story.new) }
    ensures err { IfErr result (λ halt. (p : Point) → IsSoundPoint p → IsAt (E.stands_for (D.view disks.old) engine.old) line.now first p →
        StopsWithin (E.on_devices (D.view disks.new) engine.new) (E.flight engine.new) halt p story.old story.new) }
    ensures turns { OnOk result (IsTrue (D.view disks.old).told → E.turns engine.new ≤ E.turns engine.old) }
    ensures refused { (refusal : Refusal) → first ≡ Some (Refused refusal) → IsTrue (D.view disks.old).told → disks.new ≡ disks.old }
    ensures within { StaysWithin (E.asked engine.old) (E.asked engine.new) (D.view disks.old) (D.view disks.new) }
    ensures counts { CountsMore line.now (D.view disks.old) (D.view disks.new) (disk_err result) first story.old story.new }
{
    let mut next = first;
    while let Some(event) = next {
        next = engine.say(disks, place, line, event, story)?;
        // For the proof alone: the story grows, so a segment ends whatever the disks tell.
        let _length = story.len();
    }
    Ok(())
}

/// Counts a turn behind a line over disks that do not tell, where nothing else says that turns end.
fn count_turn<E: Stepping, D: Disks>(engine: &E, disks: &mut D, turns: u64) -> Result<u64, Halt>
    requires { E.able (D.view disks.old) engine.now }
    ensures more { IfOk result (λ now. (D.view disks.old).told ≡ false → turns < now) }
    ensures same { OnOk result (disks.new ≡ disks.old) }
    ensures untold { OnErr result ((D.view disks.old).told ≡ false) }
    ensures able { E.able (D.view disks.new) engine.now }
    ensures within { StaysWithin (E.asked engine.now) (E.asked engine.now) (D.view disks.old) (D.view disks.new) }
    ensures cause { HasCause (D.view disks.old) (D.view disks.new) (disk_err result) }
{
    if disks.is_told() {
        return Ok(turns);
    }
    match turns.checked_add(1) {
        Some(turns) => Ok(turns),
        None => Err(engine.reject(disks)),
    }
}

/// Does the rest of a line from its first event on: its own events, and each turn behind it.
fn finish<E: Stepping, D: Disks, F: Fn(PlaceKind, &Key, u32) -> u32>(
    engine: &mut E,
    disks: &mut D,
    place: &Placement<F>,
    line: &Line,
    story: &mut Story,
    first: Option<Event>,
) -> Result<(), Halt>
    requires callable { TakesEachKey (F.pre place.now.place) }
    requires answers { GivesPlaceOf (F.post place.now.place) }
    requires able { E.able (D.view disks.old) engine.old }
    requires stands { IsTrue (D.view disks.old).told → (p : Point) × IsSoundPoint p × IsAt (E.stands_for (D.view disks.old) engine.old) line.now first p }
    requires plain { IsOfSegment first }
    ensures able { E.able (D.view disks.new) engine.new }
    ensures ok { OnOk result ((p : Point) → IsSoundPoint p → IsAt (E.stands_for (D.view disks.old) engine.old) line.now first p →
        FinishesLine (E.stands_for (D.view disks.new) engine.new) line.now p story.old story.new) }
    ensures err { IfErr result (λ halt. (p : Point) → IsSoundPoint p → IsAt (E.stands_for (D.view disks.old) engine.old) line.now first p →
        StopsWithin (E.on_devices (D.view disks.new) engine.new) (E.flight engine.new) halt p story.old story.new) }
    ensures refused { (refusal : Refusal) (p : Point) → IsSoundPoint p → IsAt (E.stands_for (D.view disks.old) engine.old) line.now first p →
        p.state.units.to_go ≡ [] → first ≡ Some (Refused refusal) → IsTrue (D.view disks.old).told → disks.new ≡ disks.old }
    ensures within { StaysWithin (E.asked engine.old) (E.asked engine.new) (D.view disks.old) (D.view disks.new) }
    ensures counts { CountsMore line.now (D.view disks.old) (D.view disks.new) (disk_err result) first story.old story.new }
{
    settle(engine, disks, place, line, story, first)?;
    let mut turns = 0;
    while let Some(base) = engine.next_turn(disks) {
        engine.stands(disks);
        turns = count_turn(engine, disks, turns)?;
        let next = engine.turn(disks, place, line, base)?;
        settle(engine, disks, place, line, story, next)?;
    }
    Ok(())
}

/// Does a line: the trace of the engine and the story goes on by it and its whole segment. An error leaves a story that has gained a
/// front of this segment, and an engine that is to be opened anew. Where the line is refused, no device is called.
pub fn step<E: Stepping, D: Disks, F: Fn(PlaceKind, &Key, u32) -> u32>(
    engine: &mut E,
    disks: &mut D,
    place: &Placement<F>,
    line: &Line,
    story: &mut Story,
) -> Result<(), Halt>
    requires callable { TakesEachKey (F.pre place.now.place) }
    requires answers { GivesPlaceOf (F.post place.now.place) }
    requires served { E.serves line.now }
    requires key { HasKey (Tree line.now) }
    requires able { E.able (D.view disks.old) engine.old }
    requires stands { IsTrue (D.view disks.old).told → (start : Start) × (trace : Trace) × ServesTrace (E.stands_for (D.view disks.old) engine.old) start story.old trace }
    ensures able { E.able (D.view disks.new) engine.new }
    ensures segment { OnOk result (GoesOn (E.stands_for (D.view disks.old) engine.old) (E.stands_for (D.view disks.new) engine.new) story.old (Tree line.now) story.new) }
    ensures broken_off { IfErr result (λ halt. BreaksOff (E.stands_for (D.view disks.old) engine.old) (E.on_devices (D.view disks.new) engine.new) (E.flight engine.new) halt story.old (Tree line.now) story.new) }
    ensures refused { (refusal : Refusal) → story.new ≡ story.old ++ Refused refusal ∷ [] → IsTrue (D.view disks.old).told → disks.new ≡ disks.old }
    ensures within { StaysWithin (E.asked engine.old) (E.asked engine.new) (D.view disks.old) (D.view disks.new) }
    ensures counts { CountsMore line.now (D.view disks.old) (D.view disks.new) (disk_err result) None story.old story.new }
{
    let first = engine.ask(disks, place, line)?;
    finish(engine, disks, place, line, story, first)
}

/// Does a line whose text is refused, likewise: its segment is its refusal alone. No device is called.
pub fn refuse<E: Stepping, D: Disks, F: Fn(PlaceKind, &Key, u32) -> u32>(
    engine: &mut E,
    disks: &mut D,
    place: &Placement<F>,
    refusal: Refusal,
    story: &mut Story,
) -> Result<(), Halt>
    requires callable { TakesEachKey (F.pre place.now.place) }
    requires answers { GivesPlaceOf (F.post place.now.place) }
    requires able { E.able (D.view disks.old) engine.old }
    requires stands { IsTrue (D.view disks.old).told → (start : Start) × (trace : Trace) × ServesTrace (E.stands_for (D.view disks.old) engine.old) start story.old trace }
    ensures able { E.able (D.view disks.new) engine.new }
    ensures segment { OnOk result (GoesOn (E.stands_for (D.view disks.old) engine.old) (E.stands_for (D.view disks.new) engine.new) story.old (Rejected refusal) story.new) }
    ensures broken_off { IfErr result (λ halt. BreaksOff (E.stands_for (D.view disks.old) engine.old) (E.on_devices (D.view disks.new) engine.new) (E.flight engine.new) halt story.old (Rejected refusal) story.new) }
    ensures unwritten { IsTrue (D.view disks.old).told → disks.new ≡ disks.old }
    ensures within { StaysWithin (E.asked engine.old) (E.asked engine.new) (D.view disks.old) (D.view disks.new) }
    ensures counts { CountsMore Nothing (D.view disks.old) (D.view disks.new) (disk_err result) None story.old story.new }
{
    let first = engine.ask_rejected(disks, refusal)?;
    if let Some(event) = first {
        engine.say(disks, place, &Line::Nothing, event, story)?;
    }
    Ok(())
}
