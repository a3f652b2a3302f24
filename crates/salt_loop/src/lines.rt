//! A line of a run: it is asked, the run is opened anew where it is broken off, and what is told is written.

ghost use Rattle.salt_ast.specs.declared.lines.Line.{Line};
ghost use Rattle.salt_io.specs.Streams.{Rose};
ghost use Rattle.salt_model.specs.Trace.{Start, Trace};
ghost use Rattle.salt_model.specs.declared.events.Event.TheVariants.{Refused};
ghost use Rattle.salt_model.specs.declared.events.Refusal.{Refusal};
ghost use Rattle.salt_loop.specs.Counted.{CountsAdded, CountsResumed};
ghost use Rattle.salt_loop.specs.Serving.{BreaksIn, ContinuesRun, EndsResuming, EndsIn, EndsTelling, IsAskable, IsToldLine, line_behind, moment};
ghost use Rattle.salt_loop.specs.Stopping.{IsLaterStop, IsOfLine, answer_of, outcome};
ghost use Rattle.salt_driver.specs.Counting.{CountsFall, CountsMore};
ghost use Rattle.salt_driver.specs.Opening.{halt_of};
ghost use Rattle.salt_driver.specs.Reopening.{ReopensRun};
ghost use Rattle.salt_driver.specs.Serving.{HaltsRun, ServesTrace};
ghost use Rattle.salt_storage.specs.Answers.{disk_err};
ghost use Rattle.salt_storage.specs.Staying.{StaysWithin};
ghost use Rattle.salt_storage.specs.declared.halt.Halt.TheVariants.{Memory};
ghost use Rattle.salt_place.specs.Placement.{GivesPlaceOf, TakesEachKey};
ghost use Rattle.std.specs.Option.{option_copied};
ghost use Rattle.std.specs.Prelude.{Err, IfErr, IsTrue, None, OnOk, [], ◌++◌, ◌∷◌, ◌≡◌, ◌≢◌, ◌≤◌};

use crate::stop::{Stop, stop_opening};
use crate::telling::write_done;
use law_decisions::read_lines_are_spelled;
use salt_disk::Disks;
use salt_driver::{Openable, events_behind};
use salt_io::Sink;
use salt_model::{Refusal, Story, Why};
use salt_place::{PlaceKind, Placement};
use salt_script::{ReadErr, read_line};
use salt_storage::Halt;
use salt_values::Key;
use std::alloc::Global;

/// Asks a line: of this text, or, where there is none, one that is too long. Where it is refused, no device is called.
fn ask_line<E: Openable, D: Disks, F: Fn(PlaceKind, &Key, u32) -> u32>(
    alloc: Global,
    database: &mut E,
    disks: &mut D,
    place: &Placement<F>,
    text: Option<&[u8]>,
    story: &mut Story,
) -> Result<(), Halt>
    requires callable { TakesEachKey (F.pre place.now.place) }
    requires answers { GivesPlaceOf (F.post place.now.place) }
    requires serves { (line : Line) → IsAskable line → E.serves line }
    requires able { E.able (D.view disks.old) database.old }
    requires stands { IsTrue (D.view disks.old).told → (start : Start) × (trace : Trace) × ServesTrace (E.stands_for (D.view disks.old) database.old) start story.old trace }
    ensures able { E.able (D.view disks.new) database.new }
    ensures ok { OnOk result ((start : Start) (trace : Trace) → ServesTrace (E.stands_for (D.view disks.old) database.old) start story.old trace →
        ContinuesRun (E.stands_for (D.view disks.new) database.new) (line_behind start trace (option_copied text.entry)) (moment story.old (D.view disks.old).armed) (moment story.new (D.view disks.new).armed)) }
    ensures err { IfErr result (λ halt. (start : Start) (trace : Trace) → ServesTrace (E.stands_for (D.view disks.old) database.old) start story.old trace →
        BreaksIn (E.on_devices (D.view disks.new) database.new) (E.flight database.new) halt (line_behind start trace (option_copied text.entry)) (moment story.old (D.view disks.old).armed) (moment story.new (D.view disks.new).armed)) }
    ensures refused { (refusal : Refusal) → story.new ≡ story.old ++ Refused refusal ∷ [] → IsTrue (D.view disks.old).told → disks.new ≡ disks.old }
    ensures within { StaysWithin (E.asked database.old) (E.asked database.new) (D.view disks.old) (D.view disks.new) }
    ensures counts { (line : Line) × CountsMore line (D.view disks.old) (D.view disks.new) (disk_err result) None story.old story.new }
{
    // For the proof alone: what a line of the grammar asks is spelled.
    read_lines_are_spelled();
    database.stands(disks);
    let Some(text) = text else {
        return salt_driver::refuse(database, disks, place, Refusal::Long, story);
    };
    match read_line(alloc, text) {
        Ok(line) => salt_driver::step(database, disks, place, &line, story),
        Err(ReadErr::Refused(refusal)) => salt_driver::refuse(
            database, disks, place, refusal, story,
        ),
        Err(ReadErr::Memory) => Err(Halt::Memory),
    }
}

/// Opens a run anew that was broken off in a line.
fn recover<E: Openable, D: Disks, F: Fn(PlaceKind, &Key, u32) -> u32>(
    database: &mut E,
    disks: &mut D,
    place: &Placement<F>,
    why: Why,
    story: &mut Story,
) -> Result<(), Stop>
    requires callable { TakesEachKey (F.pre place.now.place) }
    requires answers { GivesPlaceOf (F.post place.now.place) }
    requires able { E.able (D.view disks.old) database.old }
    requires halted { IsTrue (D.view disks.old).told → (start : Start) × (trace : Trace) × HaltsRun (E.on_devices (D.view disks.old) database.old) (E.flight database.old) (halt_of why) start story.old trace }
    ensures able { E.able (D.view disks.new) database.new }
    ensures ok { OnOk result ((start : Start) (trace : Trace) → HaltsRun (E.on_devices (D.view disks.old) database.old) (E.flight database.old) (halt_of why) start story.old trace →
        ReopensRun (E.stands_for (D.view disks.new) database.new) start trace story.old story.new) }
    ensures err { IfErr result (λ stop. (start : Start) (trace : Trace) → HaltsRun (E.on_devices (D.view disks.old) database.old) (E.flight database.old) (halt_of why) start story.old trace →
        EndsResuming (E.on_devices (D.view disks.new) database.new) (E.flight database.new) (halt_of why) stop start trace story.old story.new) }
    ensures later { IfErr result IsLaterStop }
    ensures within { StaysWithin (E.asked database.old) (E.asked database.new) (D.view disks.old) (D.view disks.new) }
    ensures counts { CountsFall why (D.view disks.old) (D.view disks.new) (answer_of (outcome result)) story.old story.new }
{
    match salt_driver::recover(database, disks, place, why, story) {
        Ok(()) => Ok(()),
        Err(e) => Err(stop_opening(e)),
    }
}

/// What follows where a run is broken off in a line: it is opened anew, or it ends.
pub fn resume<E: Openable, D: Disks, F: Fn(PlaceKind, &Key, u32) -> u32>(
    database: &mut E,
    disks: &mut D,
    place: &Placement<F>,
    halt: Halt,
    story: &mut Story,
) -> Result<(), Stop>
    requires callable { TakesEachKey (F.pre place.now.place) }
    requires answers { GivesPlaceOf (F.post place.now.place) }
    requires able { E.able (D.view disks.old) database.old }
    requires halted { IsTrue (D.view disks.old).told → (start : Start) × (trace : Trace) × HaltsRun (E.on_devices (D.view disks.old) database.old) (E.flight database.old) halt start story.old trace }
    ensures able { E.able (D.view disks.new) database.new }
    ensures ok { OnOk result ((start : Start) (trace : Trace) → HaltsRun (E.on_devices (D.view disks.old) database.old) (E.flight database.old) halt start story.old trace →
        ReopensRun (E.stands_for (D.view disks.new) database.new) start trace story.old story.new) }
    ensures err { IfErr result (λ stop. (start : Start) (trace : Trace) → HaltsRun (E.on_devices (D.view disks.old) database.old) (E.flight database.old) halt start story.old trace →
        EndsResuming (E.on_devices (D.view disks.new) database.new) (E.flight database.new) halt stop start trace story.old story.new) }
    ensures later { IfErr result IsLaterStop }
    ensures memory { halt ≡ Memory → OnOk result ⊥ }
    ensures within { StaysWithin (E.asked database.old) (E.asked database.new) (D.view disks.old) (D.view disks.new) }
    ensures counts { CountsResumed halt (D.view disks.old) (D.view disks.new) (outcome result) story.old story.new }
{
    match halt {
        Halt::Stopped => recover(database, disks, place, Why::Stopped, story),
        Halt::DiskFault => recover(database, disks, place, Why::Fault, story),
        Halt::DeviceFull(dev) => Err(Stop::DeviceFull(dev)),
        Halt::Memory => Err(Stop::Memory),
    }
}

/// Does a line, and opens the run anew where it is broken off by a stop or a fault.
fn do_line<E: Openable, D: Disks, F: Fn(PlaceKind, &Key, u32) -> u32>(
    alloc: Global,
    database: &mut E,
    disks: &mut D,
    place: &Placement<F>,
    text: Option<&[u8]>,
    story: &mut Story,
) -> Result<(), Stop>
    requires callable { TakesEachKey (F.pre place.now.place) }
    requires answers { GivesPlaceOf (F.post place.now.place) }
    requires serves { (line : Line) → IsAskable line → E.serves line }
    requires able { E.able (D.view disks.old) database.old }
    requires stands { IsTrue (D.view disks.old).told → (start : Start) × (trace : Trace) × ServesTrace (E.stands_for (D.view disks.old) database.old) start story.old trace }
    ensures able { E.able (D.view disks.new) database.new }
    ensures ok { OnOk result ((start : Start) (trace : Trace) → ServesTrace (E.stands_for (D.view disks.old) database.old) start story.old trace →
        ContinuesRun (E.stands_for (D.view disks.new) database.new) (line_behind start trace (option_copied text.entry)) (moment story.old (D.view disks.old).armed) (moment story.new (D.view disks.new).armed)) }
    ensures err { IfErr result (λ stop. (start : Start) (trace : Trace) → ServesTrace (E.stands_for (D.view disks.old) database.old) start story.old trace →
        EndsIn (E.on_devices (D.view disks.new) database.new) (E.flight database.new) stop (line_behind start trace (option_copied text.entry)) (moment story.old (D.view disks.old).armed) (moment story.new (D.view disks.new).armed)) }
    ensures later { IfErr result IsLaterStop }
    ensures within { StaysWithin (E.asked database.old) (E.asked database.new) (D.view disks.old) (D.view disks.new) }
    ensures counts { CountsAdded (D.view disks.old) (D.view disks.new) (outcome result) story.old story.new }
{
    match ask_line(alloc, database, disks, place, text, story) {
        Ok(()) => Ok(()),
        Err(halt) => resume(database, disks, place, halt, story),
    }
}

/// Does a line, and writes the events that it adds; where memory ran out, none of them.
pub fn tell_line<E: Openable, D: Disks, K: Sink, F: Fn(PlaceKind, &Key, u32) -> u32>(
    alloc: Global,
    database: &mut E,
    disks: &mut D,
    place: &Placement<F>,
    text: Option<&[u8]>,
    sink: &mut K,
    story: &mut Story,
) -> Result<(), Stop>
    requires callable { TakesEachKey (F.pre place.now.place) }
    requires answers { GivesPlaceOf (F.post place.now.place) }
    requires serves { (line : Line) → IsAskable line → E.serves line }
    requires able { E.able (D.view disks.old) database.old }
    requires stands { IsTrue (D.view disks.old).told → (start : Start) × (trace : Trace) × ServesTrace (E.stands_for (D.view disks.old) database.old) start story.old trace }
    ensures able { E.able (D.view disks.new) database.new }
    ensures ok { OnOk result ((start : Start) (trace : Trace) → ServesTrace (E.stands_for (D.view disks.old) database.old) start story.old trace →
        IsToldLine (E.stands_for (D.view disks.new) database.new) (line_behind start trace (option_copied text.entry)) (moment story.old (D.view disks.old).armed) (moment story.new (D.view disks.new).armed) (K.held sink.old) (K.held sink.new)) }
    ensures err { IfErr result (λ stop. (start : Start) (trace : Trace) → ServesTrace (E.stands_for (D.view disks.old) database.old) start story.old trace →
        EndsTelling (E.on_devices (D.view disks.new) database.new) (E.flight database.new) stop (line_behind start trace (option_copied text.entry)) (moment story.old (D.view disks.old).armed) (moment story.new (D.view disks.new).armed) (K.held sink.old) (K.held sink.new)) }
    ensures of_line { IfErr result IsOfLine }
    ensures fault { result ≡ Err Stop.WriteFault → Rose (K.faults sink.old) (K.faults sink.new) }
    ensures no_fault { result ≢ Err Stop.WriteFault → K.faults sink.new ≡ K.faults sink.old }
    ensures later { K.faults sink.old ≤ K.faults sink.new }
    ensures within { StaysWithin (E.asked database.old) (E.asked database.new) (D.view disks.old) (D.view disks.new) }
    ensures counts { CountsAdded (D.view disks.old) (D.view disks.new) (outcome result) story.old story.new }
{
    let told = story.len();
    let done = do_line(alloc, database, disks, place, text, story);
    database.stands(disks);
    write_done(
        sink,
        events_behind(story, told),
        database.schema(disks),
        done,
    )
}
