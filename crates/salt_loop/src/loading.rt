//! The run of a workload: its opening, and its lines.

ghost use Rattle.salt_ast.specs.declared.lines.Line.{Line};
ghost use Rattle.salt_promise.specs.Workload.{load_lines};
ghost use Rattle.salt_values.specs.declared.limits.TheConstants.{CALLS_MOST};
ghost use Rattle.salt_model.specs.Arming.{armed_by_lines};
ghost use Rattle.salt_model.specs.Trace.{Start, Trace};
ghost use Rattle.salt_loop.specs.Counted.{CountsAdded};
ghost use Rattle.salt_loop.specs.Loading.{EndsLoading, IsLoading, load_run};
ghost use Rattle.salt_loop.specs.Serving.{IsAskable, IsToBegin};
ghost use Rattle.salt_loop.specs.Stopping.{IsLaterStop, outcome, status_of};
ghost use Rattle.salt_storage.specs.Staying.{StaysWithin};
ghost use Rattle.salt_place.specs.Placement.{GivesPlaceOf, TakesEachKey};
ghost use Rattle.std.specs.Prelude.{IfErr, IsTrue, List, OnOk, Some, length, slice_get, ℕ, ◌+◌, ◌<◌, ◌≡◌, ◌≤◌};

use crate::lines::resume;
use crate::starting::start;
use crate::stop::Stop;
use law_definitions::definitions_are_read;
use salt_ast::Line;
use salt_disk::Disks;
use salt_driver::Openable;
use salt_model::Story;
use salt_place::{PlaceKind, Placement};
use salt_values::Key;
use salt_workload::{line_count, load_line};
use std::alloc::Global;

/// How the run of a workload has ended, and how many of its lines were done, the one in which it ended among them.
#[derive(Drop)]
pub struct Loaded {
    pub lines: u64,
    pub done: Result<(), Stop>,
}

/// Does a line of the workload, and opens the run anew where it is broken off by a stop or a fault.
fn load_one<E: Openable, D: Disks, F: Fn(PlaceKind, &Key, u32) -> u32>(
    database: &mut E,
    disks: &mut D,
    place: &Placement<F>,
    calls: u64,
    i: u64,
    line: &Line,
    story: &mut Story,
) -> Result<(), Stop>
    requires callable { TakesEachKey (F.pre place.now.place) }
    requires answers { GivesPlaceOf (F.post place.now.place) }
    requires within { i < length (load_lines calls) }
    requires is { Some line.now ≡ slice_get (load_lines calls) i }
    requires serves { (line : Line) → IsAskable line → E.serves line }
    requires able { E.able (D.view disks.old) database.old }
    requires stands { IsTrue (D.view disks.old).told → (start : Start) × (first : List (ℕ × ℕ)) × IsLoading (E.stands_for (D.view disks.old) database.old) start calls i story.old first (D.view disks.old).armed }
    ensures able { E.able (D.view disks.new) database.new }
    ensures ok { OnOk result ((start : Start) (first : List (ℕ × ℕ)) → IsLoading (E.stands_for (D.view disks.old) database.old) start calls i story.old first (D.view disks.old).armed →
        IsLoading (E.stands_for (D.view disks.new) database.new) start calls (i + 1) story.new first (D.view disks.new).armed) }
    ensures err { IfErr result (λ stop. (start : Start) (first : List (ℕ × ℕ)) → IsLoading (E.stands_for (D.view disks.old) database.old) start calls i story.old first (D.view disks.old).armed →
        EndsLoading (E.on_devices (D.view disks.new) database.new) start (load_run (status_of stop) (E.flight database.new) calls (i + 1) story.new) first (D.view disks.new).armed) }
    ensures later { IfErr result IsLaterStop }
    ensures within { StaysWithin (E.asked database.old) (E.asked database.new) (D.view disks.old) (D.view disks.new) }
    ensures counts { CountsAdded (D.view disks.old) (D.view disks.new) (outcome result) story.old story.new }
{
    // For the proof alone: texts spell what the workload defines.
    definitions_are_read();
    match salt_driver::step(database, disks, place, line, story) {
        Ok(()) => Ok(()),
        Err(halt) => resume(database, disks, place, halt, story),
    }
}

/// Does line i, from 0, of the workload with so many calls.
fn serve_load_line<E: Openable, D: Disks, F: Fn(PlaceKind, &Key, u32) -> u32>(
    alloc: Global,
    database: &mut E,
    disks: &mut D,
    place: &Placement<F>,
    calls: u64,
    i: u64,
    story: &mut Story,
) -> Result<(), Stop>
    requires callable { TakesEachKey (F.pre place.now.place) }
    requires answers { GivesPlaceOf (F.post place.now.place) }
    requires least { 1 ≤ calls }
    requires most { calls ≤ CALLS_MOST }
    requires within { i < length (load_lines calls) }
    requires serves { (line : Line) → IsAskable line → E.serves line }
    requires able { E.able (D.view disks.old) database.old }
    requires stands { IsTrue (D.view disks.old).told → (start : Start) × (first : List (ℕ × ℕ)) × IsLoading (E.stands_for (D.view disks.old) database.old) start calls i story.old first (D.view disks.old).armed }
    ensures able { E.able (D.view disks.new) database.new }
    ensures ok { OnOk result ((start : Start) (first : List (ℕ × ℕ)) → IsLoading (E.stands_for (D.view disks.old) database.old) start calls i story.old first (D.view disks.old).armed →
        IsLoading (E.stands_for (D.view disks.new) database.new) start calls (i + 1) story.new first (D.view disks.new).armed) }
    ensures err { IfErr result (λ stop. (start : Start) (first : List (ℕ × ℕ)) → IsLoading (E.stands_for (D.view disks.old) database.old) start calls i story.old first (D.view disks.old).armed →
        EndsLoading (E.on_devices (D.view disks.new) database.new) start (load_run (status_of stop) (E.flight database.new) calls (i + 1) story.new) first (D.view disks.new).armed) }
    ensures later { IfErr result IsLaterStop }
    ensures within { StaysWithin (E.asked database.old) (E.asked database.new) (D.view disks.old) (D.view disks.new) }
    ensures counts { CountsAdded (D.view disks.old) (D.view disks.new) (outcome result) story.old story.new }
{
    database.stands(disks);
    match load_line(alloc, calls, i)? {
        Some(line) => load_one(database, disks, place, calls, i, &line, story),
        None => Ok(()),
    }
}

/// Opens a run that is down, and does the lines of the workload with so many calls.
pub fn load<E: Openable, D: Disks, F: Fn(PlaceKind, &Key, u32) -> u32>(
    alloc: Global,
    database: &mut E,
    disks: &mut D,
    place: &Placement<F>,
    calls: u64,
    story: &mut Story,
) -> Loaded
    requires callable { TakesEachKey (F.pre place.now.place) }
    requires answers { GivesPlaceOf (F.post place.now.place) }
    requires least { 1 ≤ calls }
    requires most { calls ≤ CALLS_MOST }
    requires serves { (line : Line) → IsAskable line → E.serves line }
    requires able { E.able (D.view disks.old) database.old }
    requires settled { E.settled (D.view disks.old) database.old }
    requires begins { IsTrue (D.view disks.old).told → (start : Start) × (trace : Trace) × IsToBegin (E.on_devices (D.view disks.old) database.old) (E.flight database.old) start story.old trace ×
        (first : List (ℕ × ℕ)) × (armed_by_lines first trace ≡ Some (D.view disks.old).armed) }
    ensures able { E.able (D.view disks.new) database.new }
    ensures ended { (start : Start) (trace : Trace) → IsToBegin (E.on_devices (D.view disks.old) database.old) (E.flight database.old) start story.old trace →
        (first : List (ℕ × ℕ)) → armed_by_lines first trace ≡ Some (D.view disks.old).armed → EndsLoading (E.on_devices (D.view disks.new) database.new) start (load_run (outcome result.done) (E.flight database.new) calls result.lines story.new) first (D.view disks.new).armed }
    ensures later { IfErr result.done IsLaterStop }
    ensures within { StaysWithin (E.asked database.old) (E.asked database.new) (D.view disks.old) (D.view disks.new) }
    ensures counts { CountsAdded (D.view disks.old) (D.view disks.new) (outcome result.done) story.old story.new }
{
    if let Err(stop) = start(database, disks, place, story) {
        return Loaded {
            lines: 0,
            done: Err(stop),
        };
    }
    for i in 0..line_count(calls) {
        if let Err(stop) = serve_load_line(alloc, database, disks, place, calls, i, story) {
            return Loaded {
                lines: i + 1,
                done: Err(stop),
            };
        }
    }
    database.stands(disks);
    Loaded {
        lines: line_count(calls),
        done: Ok(()),
    }
}
