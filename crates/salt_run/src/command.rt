//! The top call.

ghost use Rattle.salt_disk.specs.Settling.{AreSettled};
ghost use Rattle.salt_promise.specs.Runs.{Runs};
ghost use Rattle.salt_promise.specs.Given.{stream, world};
ghost use Rattle.salt_place.specs.Placement.{GivesPlaceOf, TakesEachKey};
ghost use Rattle.salt_promise.specs.Words.{asks_audit, command_of};
ghost use Rattle.salt_run.specs.Auditing.{AuditsTranscript};
ghost use Rattle.std.specs.Prelude.{None, [], false, true, ◌≡◌, ◌≤◌};

use crate::audits::run_audit;
use crate::promises::{openings_do_their_rests, played_keeps_promises};
use crate::runs::{run_load, run_script};
use law_definitions::definitions_are_read;
use salt_disk::Disks;
use salt_io::{Sink, Source};
use salt_net::every_net_is_agreed;
use salt_place::{PlaceKind, Placement};
use salt_promise::{Command, Ended, Status};
use salt_values::Key;
use salt_words::{asks_audit, command_in};
use sqlite_items::Items;
use std::alloc::Global;

/// Runs the command that the words say, over the devices.
///
/// `run` reads a script from the source, line by line, does each line, and writes the story to the sink. `load` does the lines of
/// the workload instead, reads nothing, and writes the summary of its story. Both open the devices first, and again after each stop
/// or fault. There are at least 26 devices, and nothing is pending on them. `audit` reads a transcript from the source, and writes in a line what is found of
/// it; it opens no device.
/// `docs/STORY.md` says what the clauses promise; `docs/SCRIPT.md` what lines there are; `docs/DEVICES.md` what stands on devices.
pub fn run<S: Source, K: Sink, D: Disks, F: Fn(PlaceKind, &Key, u32) -> u32>(
    alloc: Global,
    words: &[String],
    source: &mut S,
    sink: &mut K,
    disks: &mut D,
    place: &Placement<F>,
) -> Ended
    requires devices { 26 ≤ (D.view disks.old).count }
    requires settled { AreSettled (D.view disks.old) }
    requires callable { TakesEachKey (F.pre place.now.place) }
    requires answers { GivesPlaceOf (F.post place.now.place) }

    // What a run promises, of what it was given and what it leaves; and where the words are no command, nothing is touched.
    ensures runs { asks_audit words.now ≡ false → Runs (record {
      command = command_of words.now;
      before = world (S.left source.old) (S.faults source.old) (K.held sink.old) (K.faults sink.old) (D.view disks.old);
      after = world (S.left source.new) (S.faults source.new) (K.held sink.new) (K.faults sink.new) (D.view disks.new);
      status = result.status;
      flight = result.flight;
      story = result.story;
      net = result.net;
    }) }
    // What an audit promises, which tells no story and touches no device.
    ensures audits { asks_audit words.now ≡ true → (result.story ≡ []) × (result.flight ≡ None) × (result.net ≡ None) × (disks.new ≡ disks.old)
        × AuditsTranscript result.status (stream (S.left source.old) (S.faults source.old)) (stream (S.left source.new) (S.faults source.new))
        (stream (K.held sink.old) (K.faults sink.old)) (stream (K.held sink.new) (K.faults sink.new)) }
    ensures untouched { result.status ≡ Status.Usage → (source.new ≡ source.old) × (sink.new ≡ sink.old) × (disks.new ≡ disks.old) }
{
    if asks_audit(words) {
        return Ended {
            status: run_audit(alloc, source, sink),
            story: Items::new(alloc),
            flight: None,
            net: None,
        };
    }
    // For the proof alone: what holds of each story and of each net, and what reads definitions.
    played_keeps_promises();
    openings_do_their_rests();
    every_net_is_agreed();
    definitions_are_read();
    match command_in(words) {
        Some(
            Command::Script {
                shape,
                early,
                over_net,
            },
        ) => run_script(alloc, shape, early, over_net, source, sink, disks, place),
        Some(Command::Load(calls)) => run_load(alloc, calls, sink, disks, place),
        None => Ended {
            status: Status::Usage,
            story: Items::new(alloc),
            flight: None,
            net: None,
        },
    }
}
