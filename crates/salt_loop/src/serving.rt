//! The run of a script: its opening, and its lines.

ghost use Rattle.salt_ast.specs.declared.lines.Line.{Line};
ghost use Rattle.salt_io.specs.Streams.{IsAtEnd, Rose};
ghost use Rattle.salt_model.specs.Arming.{armed_by_lines};
ghost use Rattle.salt_model.specs.Trace.{Start, Trace};
ghost use Rattle.salt_promise.specs.declared.status.Status.TheVariants.{Done};
ghost use Rattle.salt_loop.specs.Run.{script_run, streams};
ghost use Rattle.salt_loop.specs.Counted.{CountsAdded};
ghost use Rattle.salt_loop.specs.Ending.{EndsServing};
ghost use Rattle.salt_loop.specs.Serving.{IsAfterLine, IsAskable, IsBegun, IsServing, IsToBegin, text_of};
ghost use Rattle.salt_loop.specs.Stopping.{outcome, status_of};
ghost use Rattle.salt_storage.specs.Staying.{StaysWithin};
ghost use Rattle.salt_place.specs.Placement.{GivesPlaceOf, TakesEachKey};
ghost use Rattle.salt_values.specs.declared.limits.TheConstants.{SCRIPT_MOST};
ghost use Rattle.std.specs.Option.{option_copied};
ghost use Rattle.salt_io.specs.Lines.{IsReadingOf};
ghost use Rattle.std.specs.Prelude.{Err, IfErr, IfOk, IsTrue, List, Ok, OnOk, Option, Some, false, true, ℕ, ◌<◌, ◌≡◌, ◌≢◌, ◌≤◌};

use crate::lines::tell_line;
use crate::starting::start;
use crate::stop::Stop;
use crate::telling::write_done;
use salt_disk::Disks;
use salt_driver::Openable;
use salt_io::{Lines, Next, Sink, Source};
use salt_model::Story;
use salt_place::{PlaceKind, Placement};
use salt_values::Key;
use salt_values::limits::SCRIPT_MOST;
use std::alloc::Global;

/// The text of a line that was taken; none where it is too long.
fn text_of(next: Next, line: &[u8]) -> Option<&[u8]>
    ensures { option_copied result ≡ text_of next line.now }
{
    match next {
        Next::TooLong => None,
        _ => Some(line),
    }
}

/// The run of a script: the reader of its source.
#[derive(Drop)]
struct Serving {
    alloc: Global,
    lines: Lines,
    line: Vec<u8>,
}

impl Serving {
    /// Does the script's next line. False at the script's end.
    fn serve_line<E: Openable, D: Disks, S: Source, K: Sink, F: Fn(PlaceKind, &Key, u32) -> u32>(
        &mut self,
        database: &mut E,
        disks: &mut D,
        place: &Placement<F>,
        source: &mut S,
        sink: &mut K,
        story: &mut Story,
    ) -> Result<bool, Stop>
        requires callable { TakesEachKey (F.pre place.now.place) }
        requires answers { GivesPlaceOf (F.post place.now.place) }
        requires serves { (line : Line) → IsAskable line → E.serves line }
        requires of { IsReadingOf self.old.lines (S.left source.old) }
        requires able { E.able (D.view disks.old) database.old }
        requires stands { IsTrue (D.view disks.old).told → (start : Start) × (script : Option (List ℕ)) × (before : Option (List ℕ)) × (first : List (ℕ × ℕ)) ×
            IsServing (E.stands_for (D.view disks.old) database.old) start (streams script (S.left source.old) before (K.held sink.old)) self.old.lines story.old first (D.view disks.old).armed }
        ensures able { E.able (D.view disks.new) database.new }
        ensures goes { IfOk result (λ more. (start : Start) (script before : Option (List ℕ)) (first : List (ℕ × ℕ)) →
            IsServing (E.stands_for (D.view disks.old) database.old) start (streams script (S.left source.old) before (K.held sink.old)) self.old.lines story.old first (D.view disks.old).armed →
            IsAfterLine more (E.stands_for (D.view disks.new) database.new) (E.on_devices (D.view disks.new) database.new) start (script_run Done (E.flight database.new) (streams script (S.left source.new) before (K.held sink.new)) story.new) self.new.lines first (D.view disks.new).armed) }
        ensures stops { IfErr result (λ stop. (start : Start) (script before : Option (List ℕ)) (first : List (ℕ × ℕ)) →
            IsServing (E.stands_for (D.view disks.old) database.old) start (streams script (S.left source.old) before (K.held sink.old)) self.old.lines story.old first (D.view disks.old).armed →
            EndsServing (E.stands_for (D.view disks.new) database.new) (E.on_devices (D.view disks.new) database.new) start (script_run (status_of stop) (E.flight database.new) (streams script (S.left source.new) before (K.held sink.new)) story.new) first (D.view disks.new).armed) }
        ensures of { IsReadingOf self.new.lines (S.left source.new) }
        ensures end { result ≡ Ok false → IsAtEnd (S.left source.new) }
        ensures nearer { result ≡ Ok true → self.old.lines.taken < self.new.lines.taken }
        ensures most { self.new.lines.taken ≤ SCRIPT_MOST }
        ensures read_fault { result ≡ Err Stop.ReadFault → Rose (S.faults source.old) (S.faults source.new) }
        ensures write_fault { result ≡ Err Stop.WriteFault → Rose (K.faults sink.old) (K.faults sink.new) }
        ensures no_read_fault { result ≢ Err Stop.ReadFault → S.faults source.new ≡ S.faults source.old }
        ensures no_write_fault { result ≢ Err Stop.WriteFault → K.faults sink.new ≡ K.faults sink.old }
        ensures reads_later { S.faults source.old ≤ S.faults source.new }
        ensures writes_later { K.faults sink.old ≤ K.faults sink.new }
        ensures within { StaysWithin (E.asked database.old) (E.asked database.new) (D.view disks.old) (D.view disks.new) }
        ensures counts { CountsAdded (D.view disks.old) (D.view disks.new) (outcome result) story.old story.new }
    {
        database.stands(disks);
        let next = self.lines.next_line(source, &mut self.line)?;
        let text = match next {
            Next::End => return Ok(false),
            _ => text_of(next, self.line.as_slice()),
        };
        tell_line(self.alloc, database, disks, place, text, sink, story)?;
        Ok(true)
    }
}

/// Opens a run that is down, and writes what was told until then.
fn begin<E: Openable, D: Disks, K: Sink, F: Fn(PlaceKind, &Key, u32) -> u32>(
    database: &mut E,
    disks: &mut D,
    place: &Placement<F>,
    sink: &mut K,
    story: &mut Story,
) -> Result<(), Stop>
    requires callable { TakesEachKey (F.pre place.now.place) }
    requires answers { GivesPlaceOf (F.post place.now.place) }
    requires able { E.able (D.view disks.old) database.old }
    requires settled { E.settled (D.view disks.old) database.old }
    requires begins { IsTrue (D.view disks.old).told → (start : Start) × (trace : Trace) × IsToBegin (E.on_devices (D.view disks.old) database.old) (E.flight database.old) start story.old trace ×
        (first : List (ℕ × ℕ)) × (armed_by_lines first trace ≡ Some (D.view disks.old).armed) }
    ensures able { E.able (D.view disks.new) database.new }
    ensures ok { OnOk result ((start : Start) (trace : Trace) → IsToBegin (E.on_devices (D.view disks.old) database.old) (E.flight database.old) start story.old trace →
        (first : List (ℕ × ℕ)) → armed_by_lines first trace ≡ Some (D.view disks.old).armed → IsBegun (E.stands_for (D.view disks.new) database.new) start story.new (K.held sink.old) (K.held sink.new) first (D.view disks.new).armed) }
    ensures stops { IfErr result (λ stop. (start : Start) (trace : Trace) → IsToBegin (E.on_devices (D.view disks.old) database.old) (E.flight database.old) start story.old trace →
        (script rest : Option (List ℕ)) (first : List (ℕ × ℕ)) → armed_by_lines first trace ≡ Some (D.view disks.old).armed → EndsServing (E.stands_for (D.view disks.new) database.new) (E.on_devices (D.view disks.new) database.new) start (script_run (status_of stop) (E.flight database.new) (streams script rest (K.held sink.old) (K.held sink.new)) story.new) first (D.view disks.new).armed) }
    ensures unread { result ≢ Err Stop.ReadFault }
    ensures write_fault { result ≡ Err Stop.WriteFault → Rose (K.faults sink.old) (K.faults sink.new) }
    ensures no_write_fault { result ≢ Err Stop.WriteFault → K.faults sink.new ≡ K.faults sink.old }
    ensures writes_later { K.faults sink.old ≤ K.faults sink.new }
    ensures within { StaysWithin (E.asked database.old) (E.asked database.new) (D.view disks.old) (D.view disks.new) }
    ensures counts { CountsAdded (D.view disks.old) (D.view disks.new) (outcome result) story.old story.new }
{
    let done = start(database, disks, place, story);
    database.stands(disks);
    write_done(sink, story.as_slice(), database.schema(disks), done)
}

/// Opens a run that is down, and does the lines of the script. What was told until then is written too.
pub fn serve<E: Openable, D: Disks, S: Source, K: Sink, F: Fn(PlaceKind, &Key, u32) -> u32>(
    alloc: Global,
    database: &mut E,
    disks: &mut D,
    place: &Placement<F>,
    source: &mut S,
    sink: &mut K,
    story: &mut Story,
) -> Result<(), Stop>
    requires callable { TakesEachKey (F.pre place.now.place) }
    requires answers { GivesPlaceOf (F.post place.now.place) }
    requires serves { (line : Line) → IsAskable line → E.serves line }
    requires able { E.able (D.view disks.old) database.old }
    requires settled { E.settled (D.view disks.old) database.old }
    requires begins { IsTrue (D.view disks.old).told → (start : Start) × (trace : Trace) × IsToBegin (E.on_devices (D.view disks.old) database.old) (E.flight database.old) start story.old trace ×
        (first : List (ℕ × ℕ)) × (armed_by_lines first trace ≡ Some (D.view disks.old).armed) }
    ensures able { E.able (D.view disks.new) database.new }
    ensures ended { (start : Start) (trace : Trace) → IsToBegin (E.on_devices (D.view disks.old) database.old) (E.flight database.old) start story.old trace →
        (first : List (ℕ × ℕ)) → armed_by_lines first trace ≡ Some (D.view disks.old).armed → EndsServing (E.stands_for (D.view disks.new) database.new) (E.on_devices (D.view disks.new) database.new) start (script_run (outcome result) (E.flight database.new) (streams (S.left source.old) (S.left source.new) (K.held sink.old) (K.held sink.new)) story.new) first (D.view disks.new).armed }
    ensures end { OnOk result (IsAtEnd (S.left source.new)) }
    ensures read_fault { result ≡ Err Stop.ReadFault → Rose (S.faults source.old) (S.faults source.new) }
    ensures write_fault { result ≡ Err Stop.WriteFault → Rose (K.faults sink.old) (K.faults sink.new) }
    ensures no_read_fault { result ≢ Err Stop.ReadFault → S.faults source.new ≡ S.faults source.old }
    ensures no_write_fault { result ≢ Err Stop.WriteFault → K.faults sink.new ≡ K.faults sink.old }
    ensures reads_later { S.faults source.old ≤ S.faults source.new }
    ensures writes_later { K.faults sink.old ≤ K.faults sink.new }
    ensures within { StaysWithin (E.asked database.old) (E.asked database.new) (D.view disks.old) (D.view disks.new) }
    ensures counts { CountsAdded (D.view disks.old) (D.view disks.new) (outcome result) story.old story.new }
{
    begin(database, disks, place, sink, story)?;
    let mut serving = Serving {
        alloc,
        lines: Lines::new(),
        line: Vec::new(alloc),
    };
    'lines: while serving.serve_line(database, disks, place, source, sink, story)? {}
    Ok(())
}
