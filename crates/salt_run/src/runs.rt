//! The runs that commands ask for, each over a database of its own.

ghost use Rattle.salt_disk.specs.Settling.{AreSettled};
ghost use Rattle.salt_disk.specs.Disks.{Rose};
ghost use Rattle.salt_io.specs.Streams.{IsAtEnd};
ghost use Rattle.salt_values.specs.declared.limits.TheConstants.{CALLS_MOST};
ghost use Rattle.law_states.specs.States.{State};
ghost use Rattle.salt_model.specs.Kept.{WellKept};
ghost use Rattle.salt_model.specs.Lines.{AskInOrder};
ghost use Rattle.salt_model.specs.Played.{IsPlayed};
ghost use Rattle.salt_model.specs.Trace.{Trace, start_of};
ghost use Rattle.salt_promise.specs.Given.{shape_of};
ghost use Rattle.salt_loop.specs.Run.{streams};
ghost use Rattle.salt_run.specs.Ending.{IsNetLeft, flight_at, flight_left};
ghost use Rattle.salt_promise.specs.Doing.{IsFrontOf};
ghost use Rattle.salt_promise.specs.Promises.{Promises};
ghost use Rattle.salt_promise.specs.Status.{ends_between};
ghost use Rattle.salt_run.specs.Running.{DoTheirRests, Runs};
ghost use Rattle.salt_run.specs.Summing.{IsSummary};
ghost use Rattle.salt_devices.specs.Holding.{setup_in};
ghost use Rattle.salt_loop.specs.Counted.{AreFaultsOf};
ghost use Rattle.salt_loop.specs.Loading.{asked_by_load};
ghost use Rattle.salt_loop.specs.Stopping.{outcome};
ghost use Rattle.salt_storage.specs.Staying.{StaysWithin};
ghost use Rattle.salt_model.specs.Summary.{summary_of};
ghost use Rattle.salt_place.specs.Placement.{GivesPlaceOf, IsParts, TakesEachKey};
ghost use Rattle.salt_promise.specs.declared.command.Command.TheVariants.{Load, Script};
ghost use Rattle.std.specs.Prelude.{IsTrue, List, None, Option, false, true, ℕ, ◌&&◌, ◌≡◌, ◌≢◌, ◌≤◌, ◌⊎◌};

use salt_database::{Database, Opening};
use salt_devices::Devices;
use salt_disk::Disks;
use salt_driver::{Openable, find};
use salt_io::{Sink, Source};
use salt_loop::{Loaded, Stop, load, serve, stop_opening, tell_unfound};
use salt_model::{Flight, Story};
use salt_net::Net;
use salt_place::{PlaceKind, Placement, Shape};
use salt_promise::{Command, Ended, Status};
use salt_values::Key;
use salt_workload::print_summary;
use sqlite_items::Items;
use std::alloc::Global;

/// The decision that was in flight where a run ends so. Where numbers are spent, they tell themselves whether it was made.
fn flight_at(status: Status, flight: Option<Flight>) -> Option<Flight>
    ensures { result ≡ flight_at status flight }
{
    match status {
        Status::NumbersSpent { .. } => None,
        _ => flight,
    }
}

/// Whether a run that ends so gives the net that its commits have gone over: where they go over messages, between two lines.
fn gives_net(over_net: bool, status: Status) -> bool
    ensures { result ≡ (over_net && ends_between status) }
{
    over_net && status.is_between()
}

/// What a database leaves that is given up where its run ends: the net that its commits have gone over, or the decision that was in flight.
struct Leaving {
    flight: Option<Flight>,
    net: Option<Net>,
}

/// Gives a database up where its run ends.
fn leave<E: Openable, D: Disks>(database: E, disks: &D, status: Status, over_net: bool) -> Leaving
    requires able { E.able (D.view disks.now) database }
    requires stands { IsTrue (D.view disks.now).told → over_net ≡ true → ends_between status ≡ true → (s : State) × E.stands_for (D.view disks.now) database None s }
    ensures flight { result.flight ≡ flight_left (over_net && ends_between status) status (E.flight database) }
    ensures net { IsNetLeft (over_net && ends_between status) (E.stands_for (D.view disks.now) database None) (E.asked database) result.net }
{
    if gives_net(over_net, status) {
        return Leaving {
            flight: None,
            net: database.into_net(disks),
        };
    }
    Leaving {
        flight: flight_at(status, database.flight()),
        net: None,
    }
}

/// How a run ends that is done, or stops.
fn status_behind(done: Result<(), Stop>) -> Status
    ensures { result ≡ outcome done }
{
    match done {
        Ok(()) => Status::Done,
        Err(stop) => Status::from(stop),
    }
}

/// Runs the script of the source over devices of this shape, and writes its story to the sink. Where it is `early`, openings end before accepted programs
/// are finished; where it is `over_net`, commits go over messages.
pub fn run_script<S: Source, K: Sink, D: Disks, F: Fn(PlaceKind, &Key, u32) -> u32>(
    alloc: Global,
    shape: Shape,
    early: bool,
    over_net: bool,
    source: &mut S,
    sink: &mut K,
    disks: &mut D,
    place: &Placement<F>,
) -> Ended
    requires parts { IsParts shape.parts }
    requires devices { 26 ≤ (D.view disks.old).count }
    requires settled { AreSettled (D.view disks.old) }
    requires callable { TakesEachKey (F.pre place.now.place) }
    requires answers { GivesPlaceOf (F.post place.now.place) }
    requires promised { (trace : Trace) → IsPlayed trace → WellKept (start_of trace).kept → Promises trace }
    requires drained { (texts : List (List ℕ)) → DoTheirRests (AskInOrder texts) }
    ensures runs { IsTrue (D.view disks.old).told → Runs (Script shape early over_net) (D.view disks.old) (D.view disks.new) result.status result.flight result.net
        (streams (S.left source.old) (S.left source.new) (K.held sink.old) (K.held sink.new)) result.story }
    ensures right { result.status ≢ Status.Usage }
    ensures done { result.status ≡ Status.Done → IsAtEnd (S.left source.new) }
    ensures read_fault { result.status ≡ Status.ReadFault → Rose (S.faults source.old) (S.faults source.new) }
    ensures write_fault { result.status ≡ Status.WriteFault → Rose (K.faults sink.old) (K.faults sink.new) }
    ensures no_read_fault { result.status ≢ Status.ReadFault → S.faults source.new ≡ S.faults source.old }
    ensures no_write_fault { result.status ≢ Status.WriteFault → K.faults sink.new ≡ K.faults sink.old }
    ensures reads_later { S.faults source.old ≤ S.faults source.new }
    ensures writes_later { K.faults sink.old ≤ K.faults sink.new }
    ensures downs { AreFaultsOf result.status (D.view disks.old).faults result.story (D.view disks.new).faults }
    ensures within { StaysWithin (setup_in shape over_net) (setup_in shape over_net) (D.view disks.old) (D.view disks.new) }
{
    let mut story = Items::new(alloc);
    let mut devices = Devices::new(alloc, shape, over_net);
    match find(&mut devices, disks, place, &mut story) {
        Ok(found) => {
            let opening = Opening::new(alloc, devices, found, early);
            let mut database = Database::Closed(opening);
            let done = serve(alloc, &mut database, disks, place, source, sink, &mut story);
            let status = status_behind(done);
            let Leaving { flight, net } = leave(database, disks, status, over_net);
            Ended {
                status,
                story,
                flight,
                net,
            }
        }
        Err(reason) => Ended {
            status: status_behind(tell_unfound(alloc, reason, sink, &story)),
            story,
            flight: None,
            net: None,
        },
    }
}

/// Writes the summary of a workload with so many calls, of which so many lines are done, unless memory ran out.
fn write_summary<K: Sink>(
    calls: u64,
    lines: u64,
    status: Status,
    sink: &mut K,
    story: &Story,
) -> Status
    requires other { status ≢ Status.WriteFault }
    ensures summed { IsSummary result (summary_of calls lines story.now) (K.held sink.old) (K.held sink.new) }
    ensures written { (result ≡ status) ⊎ ((result ≡ Status.WriteFault) × (status ≢ Status.Memory)) }
    ensures write_fault { result ≡ Status.WriteFault → Rose (K.faults sink.old) (K.faults sink.new) }
    ensures no_write_fault { result ≢ Status.WriteFault → K.faults sink.new ≡ K.faults sink.old }
    ensures writes_later { K.faults sink.old ≤ K.faults sink.new }
{
    match status {
        Status::Memory => Status::Memory,
        _ => match print_summary(sink, calls, lines, story.as_slice()) {
            Ok(()) => status,
            Err(_) => Status::WriteFault,
        },
    }
}

/// Runs the workload with so many calls over the devices, and writes the summary of its story to the sink.
pub fn run_load<K: Sink, D: Disks, F: Fn(PlaceKind, &Key, u32) -> u32>(
    alloc: Global,
    calls: u64,
    sink: &mut K,
    disks: &mut D,
    place: &Placement<F>,
) -> Ended
    requires least { 1 ≤ calls }
    requires most { calls ≤ CALLS_MOST }
    requires devices { 26 ≤ (D.view disks.old).count }
    requires settled { AreSettled (D.view disks.old) }
    requires callable { TakesEachKey (F.pre place.now.place) }
    requires answers { GivesPlaceOf (F.post place.now.place) }
    requires promised { (trace : Trace) → IsPlayed trace → WellKept (start_of trace).kept → Promises trace }
    requires drained { DoTheirRests (λ lines. IsFrontOf lines (asked_by_load calls)) }
    ensures runs { (left : Option (List ℕ)) → IsTrue (D.view disks.old).told → Runs (Load calls) (D.view disks.old) (D.view disks.new) result.status result.flight result.net
        (streams left left (K.held sink.old) (K.held sink.new)) result.story }
    ensures right { result.status ≢ Status.Usage }
    ensures unread { result.status ≢ Status.ReadFault }
    ensures write_fault { result.status ≡ Status.WriteFault → Rose (K.faults sink.old) (K.faults sink.new) }
    ensures no_write_fault { result.status ≢ Status.WriteFault → K.faults sink.new ≡ K.faults sink.old }
    ensures writes_later { K.faults sink.old ≤ K.faults sink.new }
    ensures downs { AreFaultsOf result.status (D.view disks.old).faults result.story (D.view disks.new).faults }
    ensures within { StaysWithin (setup_in (shape_of (Load calls)) false) (setup_in (shape_of (Load calls)) false) (D.view disks.old) (D.view disks.new) }
{
    let mut story = Items::new(alloc);
    let mut devices = Devices::new(alloc, Command::Load(calls).shape(), false);
    match find(&mut devices, disks, place, &mut story) {
        Ok(found) => {
            let opening = Opening::new(alloc, devices, found, false);
            let mut database = Database::Closed(opening);
            let Loaded { lines, done } = load(
                alloc,
                &mut database,
                disks,
                place,
                calls,
                &mut story,
            );
            let status = write_summary(calls, lines, status_behind(done), sink, &story);
            Ended {
                status,
                story,
                flight: flight_at(status, database.flight()),
                net: None,
            }
        }
        Err(reason) => Ended {
            status: write_summary(calls, 0, Status::from(stop_opening(reason)), sink, &story),
            story,
            flight: None,
            net: None,
        },
    }
}
