//! The texts of events, written under the tables of a schema.

ghost use Rattle.std.specs.Prelude.{◌≡◌, ◌≢◌, ◌≤◌, Err, IfErr, OnOk};
ghost use Rattle.salt_io.specs.Streams.{Gains, Rose};
ghost use Rattle.salt_model.specs.EventTexts.{story_text};
ghost use Rattle.salt_loop.specs.Serving.{EndsWriting};
ghost use Rattle.salt_loop.specs.Stopping.{IsOfDevices};
ghost use Rattle.salt_loop.specs.Telling.{StopsWriting};

use crate::stop::{Stop, ran_short};
use salt_io::Sink;
use salt_model::Event;
use salt_print::print_story;
use salt_schema::Schema;

/// Appends the texts of events, one after another, to what the sink holds. `WriteFault` where a write failed, behind some first
/// part of the texts.
pub fn write_events<K: Sink>(sink: &mut K, events: &[Event], schema: &Schema) -> Result<(), Stop>
    ensures ok { OnOk result (Gains (K.held sink.old) (story_text schema.now events.now) (K.held sink.new)) }
    ensures stops { IfErr result (StopsWriting (story_text schema.now events.now) (K.held sink.old) (K.held sink.new)) }
    ensures fault { result ≡ Err Stop.WriteFault → Rose (K.faults sink.old) (K.faults sink.new) }
    ensures no_fault { result ≢ Err Stop.WriteFault → K.faults sink.new ≡ K.faults sink.old }
    ensures later { K.faults sink.old ≤ K.faults sink.new }
{
    print_story(sink, events, schema)?;
    Ok(())
}

/// Writes the events that are told of what was done, unless memory ran out there. Answers what was done, or that the sink failed.
pub fn write_done<K: Sink>(
    sink: &mut K,
    events: &[Event],
    schema: &Schema,
    done: Result<(), Stop>,
) -> Result<(), Stop>
    requires { IfErr done IsOfDevices }
    ensures written { EndsWriting done (story_text schema.now events.now) (K.held sink.old) (K.held sink.new) result }
    ensures fault { result ≡ Err Stop.WriteFault → Rose (K.faults sink.old) (K.faults sink.new) }
    ensures no_fault { result ≢ Err Stop.WriteFault → K.faults sink.new ≡ K.faults sink.old }
    ensures later { K.faults sink.old ≤ K.faults sink.new }
{
    if ran_short(&done) {
        return done;
    }
    write_events(sink, events, schema)?;
    done
}
