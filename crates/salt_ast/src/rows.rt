//! Texts of rows, of calls of programs, of names by numbers, and of stops of the disks.

ghost use Rattle.std.specs.Prelude.{◌++◌, codes};
ghost use Rattle.salt_ast.specs.Prints.{Prints};
ghost use Rattle.salt_ast.specs.ProgramTexts.{base_text, call_text, id_text, row_text, stop_text};

use crate::printer::{Canonical, Printer};
use salt_io::Sink;
use salt_values::{Id, Name, Row};

impl<K: Sink> Printer<'_, K> {
    /// Prints the two numbers in the name of a unit or of a BASE program, as `1.2`.
    pub fn id(&mut self, id: Id)
        ensures { Prints K.held K.faults self.old self.new (id_text id) }
    {
        self.natural(id.boot);
        self.bytes(b".");
        self.natural(id.seq);
    }

    /// Prints the name of a BASE program, as `b1.2`.
    pub fn base(&mut self, base: Id)
        ensures { Prints K.held K.faults self.old self.new (base_text base) }
    {
        self.bytes(b"b");
        self.id(base);
    }

    /// Prints a program's name and its arguments.
    pub fn call(&mut self, program: &Name, args: &Row)
        ensures { Prints K.held K.faults self.old self.new (call_text program.now args.now) }
    {
        self.kept(program);
        args.print(self);
    }
}

/// A number that stands in a list of texts is that of a BASE program.
impl Canonical for Id {
    ghost text = { base_text };

    fn print<K: Sink>(&self, out: &mut Printer<'_, K>) {
        out.base(*self);
    }
}

/// Values in parentheses.
impl Canonical for Row {
    ghost text = { row_text };

    fn print<K: Sink>(&self, out: &mut Printer<'_, K>) {
        out.bytes(b"(");
        out.between_commas(self.as_slice());
        out.bytes(b")");
    }
}

/// The call of the disks that stops, and what it leaves.
impl Canonical for (u64, u8) {
    ghost text = { stop_text };

    fn print<K: Sink>(&self, out: &mut Printer<'_, K>) {
        let (call, pick) = *self;
        out.number(call);
        out.bytes(b" ");
        out.number(pick);
    }
}
