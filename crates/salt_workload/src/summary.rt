//! The line of a summary.

ghost use Rattle.salt_ast.specs.Prints.{Prints};
ghost use Rattle.salt_io.specs.Sends.{Sends};
ghost use Rattle.salt_model.specs.EventTexts.{cell_text};
ghost use Rattle.salt_model.specs.Summary.{summary_of};
ghost use Rattle.std.specs.Fmt.{decimal};
ghost use Rattle.std.specs.Option.{option_copied};
ghost use Rattle.std.specs.Prelude.{◌++◌, ◌≡◌, [], OnOk, codes};

use crate::counts::{counts_of, last_value};
use itoa::Integer;
use salt_ast::{Canonical, Printer};
use salt_io::{IoFailed, Sink, WriteBuffer};
use salt_model::Event;
use salt_values::Value;

/// Prints a word, and a number behind it.
fn print_count<N: Integer, K: Sink>(out: &mut Printer<'_, K>, word: &[u8], count: N)
    ensures { Prints K.held K.faults out.old out.new (word.now ++ N.text count) }
{
    out.bytes(word);
    out.number(count);
}

/// Prints the value that the last statement gave, and that there is none where it gave none.
fn print_total<K: Sink>(out: &mut Printer<'_, K>, total: Option<&Value>)
    ensures { Prints K.held K.faults out.old out.new (codes " total " ++ cell_text (option_copied total.entry)) }
{
    out.bytes(b" total ");
    match total {
        Some(value) => value.print(out),
        None => out.bytes(b"none"),
    }
}

/// Prints the line, and writes what waits.
fn print_line<K: Sink>(out: &mut Printer<'_, K>, calls: u64, lines: u64, story: &[Event])
    ensures prints { Prints K.held K.faults out.old out.new (summary_of calls lines story.now) }
    ensures empty { OnOk out.new.outcome (out.new.waiting ≡ []) }
{
    let counts = counts_of(story);
    print_count(out, b"load ", calls);
    print_count(out, b" lines ", lines);
    print_count(out, b" units ", counts.units);
    print_count(out, b" committed ", counts.committed);
    print_count(out, b" accepted ", counts.accepted);
    print_count(out, b" released ", counts.released);
    print_count(out, b" waits ", counts.waits);
    print_count(out, b" victims ", counts.victims);
    print_total(out, last_value(story));
    out.bytes(b"\n");
    out.flush();
}

/// Appends the summary of a workload with so many calls, of which so many lines were done with this story, to what the sink
/// holds. It takes no memory. `IoFailed` where a write failed: the sink has counted the fault, and some first part of the line
/// was written, with at least one byte left out.
pub fn print_summary<K: Sink>(
    sink: &mut K,
    calls: u64,
    lines: u64,
    story: &[Event],
) -> Result<(), IoFailed>
    ensures { Sends K.held K.faults sink.old sink.new result (summary_of calls lines story.now) }
{
    let mut out = Printer {
        sink,
        waiting: WriteBuffer::new(),
        outcome: Ok(()),
    };
    print_line(&mut out, calls, lines, story);
    out.outcome
}
