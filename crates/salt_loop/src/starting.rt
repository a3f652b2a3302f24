//! A run begins over what was found; or nothing was.

ghost use Rattle.salt_storage.specs.OpenErr.{OpenErr};
ghost use Rattle.salt_io.specs.Streams.{Rose};
ghost use Rattle.salt_model.specs.Trace.{Start, Trace};
ghost use Rattle.salt_loop.specs.Ending.{EndsOpening, IsStatusOf};
ghost use Rattle.salt_loop.specs.Run.{IsRun, script_run, streams};
ghost use Rattle.salt_loop.specs.Stopping.{IsLaterStop, answer_of, outcome};
ghost use Rattle.salt_driver.specs.Counting.{CountsOpening};
ghost use Rattle.salt_driver.specs.Opening.{IsUnfound};
ghost use Rattle.salt_driver.specs.Reopening.{ReopensRun};
ghost use Rattle.salt_driver.specs.Serving.{IsDown};
ghost use Rattle.salt_storage.specs.Answers.{IsLater};
ghost use Rattle.salt_storage.specs.Staying.{StaysWithin};
ghost use Rattle.salt_place.specs.Placement.{GivesPlaceOf, TakesEachKey};
ghost use Rattle.std.specs.Prelude.{Err, IfErr, IsTrue, List, None, OnOk, Option, ℕ, [], ◌≡◌, ◌≢◌, ◌≤◌, ◌⊎◌};

use crate::stop::{Stop, stop_opening};
use crate::telling::write_done;
use salt_disk::Disks;
use salt_driver::Openable;
use salt_io::Sink;
use salt_model::Story;
use salt_place::{PlaceKind, Placement};
use salt_schema::Schema;
use salt_storage::OpenErr;
use salt_values::Key;
use std::alloc::Global;

/// Opens a run that is down.
pub fn start<E: Openable, D: Disks, F: Fn(PlaceKind, &Key, u32) -> u32>(
    database: &mut E,
    disks: &mut D,
    place: &Placement<F>,
    story: &mut Story,
) -> Result<(), Stop>
    requires callable { TakesEachKey (F.pre place.now.place) }
    requires answers { GivesPlaceOf (F.post place.now.place) }
    requires able { E.able (D.view disks.old) database.old }
    requires settled { E.settled (D.view disks.old) database.old }
    requires down { IsTrue (D.view disks.old).told → (start : Start) × (trace : Trace) × IsDown (E.on_devices (D.view disks.old) database.old) (E.flight database.old) start story.old trace }
    ensures able { E.able (D.view disks.new) database.new }
    ensures ok { OnOk result ((start : Start) (trace : Trace) → IsDown (E.on_devices (D.view disks.old) database.old) (E.flight database.old) start story.old trace →
        ReopensRun (E.stands_for (D.view disks.new) database.new) start trace story.old story.new) }
    ensures err { IfErr result (λ stop. (start : Start) (trace : Trace) → IsDown (E.on_devices (D.view disks.old) database.old) (E.flight database.old) start story.old trace →
        EndsOpening (E.on_devices (D.view disks.new) database.new) (E.flight database.new) stop start trace story.old story.new) }
    ensures later { IfErr result IsLaterStop }
    ensures within { StaysWithin (E.asked database.old) (E.asked database.new) (D.view disks.old) (D.view disks.new) }
    ensures counts { CountsOpening (D.view disks.old) (D.view disks.new) (answer_of (outcome result)) story.old story.new }
{
    match salt_driver::open(database, disks, place, story) {
        Ok(()) => Ok(()),
        Err(e) => Err(stop_opening(e)),
    }
}

/// Ends the run of a script where nothing was found to run over: the stops that came meanwhile are told, and written. Answers why
/// nothing was found, or that the sink failed.
pub fn tell_unfound<K: Sink>(
    alloc: Global,
    reason: OpenErr,
    sink: &mut K,
    story: &Story,
) -> Result<(), Stop>
    requires unstopped { reason ≢ OpenErr.Stopped }
    requires unfound { IsUnfound story.now }
    requires empty { (story.now ≡ []) ⊎ IsLater reason }
    ensures is { IsStatusOf reason (outcome result) }
    ensures run { (start : Start) (script rest : Option (List ℕ)) → IsRun start (script_run (outcome result) None (streams script rest (K.held sink.old) (K.held sink.new)) story.now) }
    ensures unread { result ≢ Err Stop.ReadFault }
    ensures write_fault { result ≡ Err Stop.WriteFault → Rose (K.faults sink.old) (K.faults sink.new) }
    ensures no_write_fault { result ≢ Err Stop.WriteFault → K.faults sink.new ≡ K.faults sink.old }
    ensures writes_later { K.faults sink.old ≤ K.faults sink.new }
{
    let no_tables = Schema::new(alloc);
    write_done(
        sink,
        story.as_slice(),
        &no_tables,
        Err(stop_opening(reason)),
    )
}
