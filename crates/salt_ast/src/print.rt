//! Canonical texts of statements, tables, programs and values.

ghost use Rattle.std.specs.Prelude.{◌≡◌, ◌++◌, OnErr, OnOk, codes};
ghost use Rattle.salt_ast.specs.Prints.{Prints};
ghost use Rattle.salt_ast.specs.ProgramTexts.{program_text};
ghost use Rattle.salt_ast.specs.Texts.{expr_text, statement_text, table_text, value_text};
ghost use Rattle.salt_io.specs.Sends.{Sends};

use crate::appender::Appender;
use crate::printer::{Canonical, Printer};
use crate::programs::ProgramDef;
use crate::trees::{Expr, Statement, TableDef};
use salt_io::{IoFailed, Sink, WriteBuffer};
use salt_values::{Name, Value};
use std::alloc::AllocError;
use std::mem;

impl<K: Sink> Printer<'_, K> {
    /// Prints what follows the variable of a `select .. into`.
    fn from_key(&mut self, table: &Name, key: &Expr)
        ensures { Prints K.held K.faults self.old self.new (codes " from " ++ (table.now ++ (codes " where key = " ++ expr_text key.now))) }
    {
        self.bytes(b" from ");
        self.kept(table);
        self.bytes(b" where key = ");
        key.print(self);
    }
}

impl Canonical for Statement {
    ghost text = { statement_text };

    fn print<K: Sink>(&self, out: &mut Printer<'_, K>) {
        match self {
            Statement::Insert { table, values } => {
                out.bytes(b"insert into ");
                out.kept(table);
                out.bytes(b" values (");
                out.between_commas(values.as_slice());
                out.bytes(b")");
            }
            Statement::Select { what, table, scan } => {
                out.bytes(b"select ");
                what.print(out);
                out.bytes(b" from ");
                out.kept(table);
                scan.print(out);
            }
            Statement::SelectInto {
                column,
                var,
                table,
                key,
            } => {
                out.bytes(b"select ");
                out.kept(column);
                out.bytes(b" into :");
                out.kept(var);
                out.from_key(table, key);
            }
            Statement::Update { table, sets, scan } => {
                out.bytes(b"update ");
                out.kept(table);
                out.bytes(b" set ");
                out.between_commas(sets.as_slice());
                scan.print(out);
            }
            Statement::Delete { table, scan } => {
                out.bytes(b"delete from ");
                out.kept(table);
                scan.print(out);
            }
            Statement::Ensure(condition) => {
                out.bytes(b"ensure ");
                condition.print(out);
            }
        }
    }
}

impl Canonical for TableDef {
    ghost text = { table_text };

    fn print<K: Sink>(&self, out: &mut Printer<'_, K>) {
        out.bytes(b"create table ");
        out.kept(&self.name);
        out.bytes(b" (");
        out.columns(self.columns.as_slice());
        out.preceded(b", check ", self.checks.as_slice());
        out.bytes(b")");
    }
}

/// Writes the canonical text; it takes no memory. `IoFailed` where a write failed: the sink has
/// counted the fault, and some first part of the text was written, with at least one byte left out.
fn send<T: Canonical, K: Sink>(sink: &mut K, tree: &T) -> Result<(), IoFailed>
    ensures { Sends K.held K.faults sink.old sink.new result (T.text tree.now) }
{
    let mut out = Printer {
        sink,
        waiting: WriteBuffer::new(),
        outcome: Ok(()),
    };
    tree.print(&mut out);
    out.flush();
    out.outcome
}

/// Writes the canonical text of a statement; it takes no memory. `IoFailed` where a write failed:
/// the sink has counted the fault, and some first part of the text was written, with at least one
/// byte left out.
pub fn send_statement<K: Sink>(sink: &mut K, st: &Statement) -> Result<(), IoFailed>
    ensures { Sends K.held K.faults sink.old sink.new result (statement_text st.now) }
{
    send(sink, st)
}

/// Writes the text of a value, a number's digits or a text in quotes; it takes no memory. `IoFailed`
/// where a write failed: the sink has counted the fault, and some first part of the text was
/// written, with at least one byte left out.
pub fn send_value<K: Sink>(sink: &mut K, value: &Value) -> Result<(), IoFailed>
    ensures { Sends K.held K.faults sink.old sink.new result (value_text value.now) }
{
    send(sink, value)
}

/// Appends the canonical text of a statement. `AllocError` where there is no memory for it: the
/// bytes are as they were.
pub fn print_statement(out: &mut Vec<u8>, st: &Statement) -> Result<(), AllocError>
    ensures ok { OnOk result (out.new.items ≡ out.old.items ++ statement_text st.now) }
    ensures err { OnErr result (out.new.items ≡ out.old.items) }
{
    append(out, st)
}

/// Appends the canonical text of a table. `AllocError` where there is no memory for it: the bytes
/// are as they were.
pub fn print_table(out: &mut Vec<u8>, def: &TableDef) -> Result<(), AllocError>
    ensures ok { OnOk result (out.new.items ≡ out.old.items ++ table_text def.now) }
    ensures err { OnErr result (out.new.items ≡ out.old.items) }
{
    append(out, def)
}

/// Appends the canonical text of a program. `AllocError` where there is no memory for it: the bytes
/// are as they were.
pub fn print_program(out: &mut Vec<u8>, def: &ProgramDef) -> Result<(), AllocError>
    ensures ok { OnOk result (out.new.items ≡ out.old.items ++ program_text def.now) }
    ensures err { OnErr result (out.new.items ≡ out.old.items) }
{
    append(out, def)
}

/// Appends the canonical text. `AllocError` where there is no memory for it: the bytes are as they
/// were.
fn append<T: Canonical>(out: &mut Vec<u8>, tree: &T) -> Result<(), AllocError>
    ensures ok { OnOk result (out.new.items ≡ out.old.items ++ T.text tree.now) }
    ensures err { OnErr result (out.new.items ≡ out.old.items) }
{
    let start = out.len();
    let empty = Vec::new(*out.allocator());
    let mut appender = Appender {
        bytes: mem::replace(out, empty),
        faults: 0,
    };
    let sent = send(&mut appender, tree);
    let Appender {
        bytes,
        faults: _faults,
    } = appender;
    *out = bytes;
    match sent {
        Ok(()) => Ok(()),
        Err(IoFailed) => {
            out.truncate(start);
            Err(AllocError)
        }
    }
}
