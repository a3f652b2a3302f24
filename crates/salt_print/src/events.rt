//! Events and stories.

ghost use Rattle.std.specs.Prelude.{◌++◌, ◌≡◌, [], OnOk, codes};
ghost use Rattle.salt_ast.specs.Prints.{Prints};
ghost use Rattle.salt_ast.specs.ProgramTexts.{base_text};
ghost use Rattle.salt_ast.specs.Texts.{preceded, statement_text};
ghost use Rattle.salt_io.specs.Sends.{Sends};
ghost use Rattle.salt_model.specs.EventTexts.{answer_text, event_line, event_text, story_text};
ghost use Rattle.std.specs.Fmt.{decimal};

use crate::names::{print_owners, print_unit};
use crate::parts::{print_answer, print_end, print_kind, print_refusal, print_why};
use crate::shown::print_shown;
use salt_ast::{Canonical, Printer, Statement};
use salt_io::{IoFailed, Sink, WriteBuffer};
use salt_model::{Answer, Event};
use salt_schema::Schema;
use salt_values::{Bytes, Id};

/// Prints what a unit did, behind its name.
fn print_did<K: Sink>(out: &mut Printer<'_, K>, statement: &Statement, answer: &Answer)
    ensures { Prints K.held K.faults out.old out.new (codes " did " ++ (statement_text statement.now ++ (codes " -> " ++ answer_text answer.now))) }
{
    out.bytes(b" did ");
    statement.print(out);
    out.bytes(b" -> ");
    print_answer(out, answer);
}

/// Prints the name of a BASE program and what became of it.
fn print_base<K: Sink>(out: &mut Printer<'_, K>, base: Id, word: &[u8])
    ensures { Prints K.held K.faults out.old out.new (base_text base ++ word.now) }
{
    out.base(base);
    out.bytes(word);
}

/// Prints a word, and each item with a space before it.
fn print_list<T: Canonical, K: Sink>(out: &mut Printer<'_, K>, word: &[u8], items: &[T])
    ensures { Prints K.held K.faults out.old out.new (word.now ++ preceded (codes " ") T.text items.now) }
{
    out.bytes(word);
    out.preceded(b" ", items);
}

/// Prints which start of the program this is, and how many decisions the disks keep.
fn print_opened<K: Sink>(out: &mut Printer<'_, K>, boot: u64, decisions: u64)
    ensures { Prints K.held K.faults out.old out.new (codes "opened " ++ (decimal boot ++ (codes " " ++ decimal decisions))) }
{
    out.bytes(b"opened ");
    out.number(boot);
    out.bytes(b" ");
    out.number(decisions);
}

/// Prints the number of a definition, and its text.
fn print_defined<K: Sink>(out: &mut Printer<'_, K>, number: u64, text: &Bytes)
    ensures { Prints K.held K.faults out.old out.new (codes "defined " ++ (decimal number ++ (codes " " ++ text.now))) }
{
    out.bytes(b"defined ");
    out.number(number);
    out.bytes(b" ");
    out.kept(text);
}

/// Prints an event's text without the LF that ends it.
fn print_event_line<K: Sink>(out: &mut Printer<'_, K>, schema: &Schema, event: &Event)
    ensures { Prints K.held K.faults out.old out.new (event_line schema.now event.now) }
{
    match event {
        Event::Began { unit, kind } => {
            print_unit(out, *unit);
            print_kind(out, kind);
        }
        Event::Did {
            unit,
            statement,
            answer,
        } => {
            print_unit(out, *unit);
            print_did(out, statement.get(), answer);
        }
        Event::Waits { unit, owners } => {
            print_unit(out, *unit);
            out.bytes(b" waits");
            print_owners(out, owners.as_slice());
        }
        Event::Ended { unit, end } => {
            print_unit(out, *unit);
            print_end(out, *end);
        }
        Event::Accepted(base) => print_base(out, *base, b" accepted"),
        Event::Finished(base) => print_base(out, *base, b" finished"),
        Event::Released(bases) => print_list(out, b"released", bases.as_slice()),
        Event::Down(why) => {
            out.bytes(b"down ");
            print_why(out, *why);
        }
        Event::Opened { boot, decisions } => print_opened(out, *boot, *decisions),
        Event::Ready => out.bytes(b"ready"),
        Event::Early(bases) => print_list(out, b"early", bases.as_slice()),
        Event::Defined { number, text } => print_defined(out, *number, text),
        Event::Refused(refusal) => {
            out.bytes(b"refused ");
            print_refusal(out, refusal);
        }
        Event::Armed(pairs) => print_list(out, b"armed", pairs.as_slice()),
        Event::Shown(items) => print_shown(out, schema, items),
    }
}

/// Prints an event's text.
fn print_whole<K: Sink>(out: &mut Printer<'_, K>, schema: &Schema, event: &Event)
    ensures { Prints K.held K.faults out.old out.new (event_text schema.now event.now) }
{
    print_event_line(out, schema, event);
    out.bytes(b"\n");
}

/// Prints an event's text, and writes what waits.
fn print_event<K: Sink>(out: &mut Printer<'_, K>, schema: &Schema, event: &Event)
    ensures prints { Prints K.held K.faults out.old out.new (event_text schema.now event.now) }
    ensures empty { OnOk out.new.outcome (out.new.waiting ≡ []) }
{
    print_whole(out, schema, event);
    out.flush();
}

/// Prints the texts of events, one after another.
fn print_each<K: Sink>(out: &mut Printer<'_, K>, schema: &Schema, events: &[Event])
    ensures { Prints K.held K.faults out.old out.new (story_text schema.now events.now) }
{
    for event in events {
        print_whole(out, schema, event);
    }
}

/// Prints the texts of events, one after another, and writes what waits: who reads the sink sees them when they are told.
fn print_events<K: Sink>(out: &mut Printer<'_, K>, schema: &Schema, events: &[Event])
    ensures prints { Prints K.held K.faults out.old out.new (story_text schema.now events.now) }
    ensures empty { OnOk out.new.outcome (out.new.waiting ≡ []) }
{
    print_each(out, schema, events);
    out.flush();
}

/// Appends an event's text to what the sink holds, in one write for each 1,024 bytes where each takes
/// all that it is given; the schema names the tables of locks. It takes no memory. `IoFailed` where a write failed: the sink has counted the fault, and some first part of
/// the text was written, with at least one byte left out.
pub fn print<K: Sink>(sink: &mut K, event: &Event, schema: &Schema) -> Result<(), IoFailed>
    ensures { Sends K.held K.faults sink.old sink.new result (event_text schema.now event.now) }
{
    let mut out = Printer {
        sink,
        waiting: WriteBuffer::new(),
        outcome: Ok(()),
    };
    print_event(&mut out, schema, event);
    out.outcome
}

/// Appends the texts of events, one after another, to what the sink holds, in one write for each 1,024 bytes where each takes
/// all that it is given; the schema names the tables of locks. It takes no memory. `IoFailed` where a write failed: the sink has counted the
/// fault, and some first part of the texts was written, with at least one byte left out.
pub fn print_story<K: Sink>(sink: &mut K, events: &[Event], schema: &Schema) -> Result<(), IoFailed>
    ensures { Sends K.held K.faults sink.old sink.new result (story_text schema.now events.now) }
{
    if events.is_empty() {
        return Ok(());
    }
    let mut out = Printer {
        sink,
        waiting: WriteBuffer::new(),
        outcome: Ok(()),
    };
    print_events(&mut out, schema, events);
    out.outcome
}
