//! Parts of events.

ghost use Rattle.std.specs.Prelude.{◌++◌, codes};
ghost use Rattle.salt_ast.specs.Prints.{Prints};
ghost use Rattle.salt_model.specs.EventTexts.{answer_text, cause_text, cell_text, end_text, kind_text, refusal_text, why_text};

use salt_ast::{Canonical, Printer};
use salt_io::Sink;
use salt_model::{Answer, Cause, End, Refusal, UnitKind, Why};
use salt_values::Value;

/// Prints what a unit is, behind its name.
pub fn print_kind<K: Sink>(out: &mut Printer<'_, K>, kind: &UnitKind)
    ensures { Prints K.held K.faults out.old out.new (kind_text kind.now) }
{
    match kind {
        UnitKind::Acid { session } => {
            out.bytes(b" began @");
            out.natural(*session as u64);
        }
        UnitKind::Call {
            session,
            program,
            args,
        } => {
            out.bytes(b" began @");
            out.number(*session);
            out.bytes(b" call ");
            out.call(program, args);
        }
        UnitKind::First {
            session,
            base,
            program,
            args,
        } => {
            out.bytes(b" began @");
            out.number(*session);
            out.bytes(b" ");
            out.base(*base);
            out.bytes(b" part 1 of ");
            out.call(program, args);
        }
        UnitKind::Later { base, part } => {
            out.bytes(b" began ");
            out.base(*base);
            out.bytes(b" part ");
            out.number(*part);
        }
    }
}

/// Prints why a statement fails.
fn print_cause<K: Sink>(out: &mut Printer<'_, K>, cause: Cause)
    ensures { Prints K.held K.faults out.old out.new (cause_text cause) }
{
    match cause {
        Cause::Duplicate => out.bytes(b"duplicate"),
        Cause::Check => out.bytes(b"check"),
        Cause::Missing => out.bytes(b"missing"),
        Cause::Ensure => out.bytes(b"ensure"),
        Cause::Overflow => out.bytes(b"overflow"),
        Cause::TooLong => out.bytes(b"toolong"),
    }
}

/// Prints a value that may be none.
fn print_cell<K: Sink>(out: &mut Printer<'_, K>, cell: &Option<Value>)
    ensures { Prints K.held K.faults out.old out.new (cell_text cell.now) }
{
    match cell {
        None => out.bytes(b"none"),
        Some(value) => value.print(out),
    }
}

/// Prints a statement's answer.
pub fn print_answer<K: Sink>(out: &mut Printer<'_, K>, answer: &Answer)
    ensures { Prints K.held K.faults out.old out.new (answer_text answer.now) }
{
    match answer {
        Answer::Count(count) => {
            out.bytes(b"count ");
            out.natural(*count);
        }
        Answer::Rows(rows) => {
            out.bytes(b"rows");
            out.preceded(b" ", rows.as_slice());
        }
        Answer::Cell(cell) => {
            out.bytes(b"value ");
            print_cell(out, cell);
        }
        Answer::Stored(value) => {
            out.bytes(b"stored ");
            value.print(out);
        }
        Answer::Held => out.bytes(b"true"),
        Answer::Failed(cause) => {
            out.bytes(b"failed ");
            print_cause(out, *cause);
        }
    }
}

/// Prints how a unit ended, behind its name.
pub fn print_end<K: Sink>(out: &mut Printer<'_, K>, end: End)
    ensures { Prints K.held K.faults out.old out.new (end_text end) }
{
    match end {
        End::Committed(number) => {
            out.bytes(b" committed ");
            out.number(number);
        }
        End::Failed(cause) => {
            out.bytes(b" failed ");
            print_cause(out, cause);
        }
        End::Branched(number, cause) => {
            out.bytes(b" branched ");
            out.number(number);
            out.bytes(b" ");
            print_cause(out, cause);
        }
        End::RolledBack => out.bytes(b" rolled back"),
        End::Victim => out.bytes(b" victim"),
        End::Cut => out.bytes(b" cut"),
    }
}

/// Prints why the disks went down.
pub fn print_why<K: Sink>(out: &mut Printer<'_, K>, why: Why)
    ensures { Prints K.held K.faults out.old out.new (why_text why) }
{
    match why {
        Why::Stopped => out.bytes(b"stopped"),
        Why::Fault => out.bytes(b"fault"),
    }
}

/// Prints the number of a refusal, and what it names.
pub fn print_refusal<K: Sink>(out: &mut Printer<'_, K>, refusal: &Refusal)
    ensures { Prints K.held K.faults out.old out.new (refusal_text refusal.now) }
{
    match refusal {
        Refusal::Long => out.bytes(b"1 long"),
        Refusal::Byte => out.bytes(b"2 byte"),
        Refusal::Syntax => out.bytes(b"3 syntax"),
        Refusal::Limit(limit) => {
            out.bytes(b"4 limit ");
            out.bytes(limit.word());
        }
        Refusal::Unknown(name) => {
            out.bytes(b"5 unknown ");
            out.kept(name);
        }
        Refusal::Exists(name) => {
            out.bytes(b"6 exists ");
            out.kept(name);
        }
        Refusal::Mistyped => out.bytes(b"7 type"),
        Refusal::Branch(part) => {
            out.bytes(b"8 branch ");
            out.number(*part);
        }
        Refusal::State => out.bytes(b"9 state"),
        Refusal::Busy => out.bytes(b"10 busy"),
    }
}
