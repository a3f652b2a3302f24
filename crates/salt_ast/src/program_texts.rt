//! Texts of programs.

ghost use Rattle.std.specs.Prelude.{◌≡◌};
ghost use Rattle.salt_ast.specs.Prints.{Prints};
ghost use Rattle.salt_ast.specs.ProgramTexts.{block_text, body_text, failure_text, next_text, program_part_text};
ghost use Rattle.salt_ast.specs.ProgramTexts.{program_text, retry_text, then_text, variables_text};

use crate::printer::{Canonical, Printer};
use crate::programs::{Body, Next, PartDef, ProgramDef};
use crate::shared::Shared;
use crate::trees::{Field, Statement};
use salt_io::Sink;

impl<K: Sink> Printer<'_, K> {
    /// Prints the statements of a unit in braces.
    fn block(&mut self, block: &[Shared<Statement>])
        ensures { Prints K.held K.faults self.old self.new (block_text block.now) }
    {
        match block {
            [] => self.bytes(b"{ }"),
            [first, others @ ..] => {
                self.bytes(b"{ ");
                first.print(self);
                self.preceded(b"; ", others);
                self.bytes(b" }");
            }
        }
    }

    /// Prints where the program goes on behind a commit, if it is said.
    fn then(&mut self, way: Option<Next>)
        ensures { Prints K.held K.faults self.old self.new (then_text way) }
    {
        if let Some(next) = way {
            self.bytes(b" then ");
            next.print(self);
        }
    }

    /// Prints how often a part is tried again, if it is said.
    fn retry(&mut self, retry: Option<u8>)
        ensures { Prints K.held K.faults self.old self.new (retry_text retry) }
    {
        if let Some(tries) = retry {
            self.bytes(b"retry ");
            self.number(tries);
            self.bytes(b" then ");
        }
    }

    /// Prints where the program goes on behind a failure, if it is said, and how often the part is
    /// tried again before.
    fn failure(&mut self, retry: Option<u8>, way: Option<Next>)
        ensures { Prints K.held K.faults self.old self.new (failure_text retry way) }
    {
        if let Some(next) = way {
            self.bytes(b" on failure ");
            self.retry(retry);
            next.print(self);
        }
    }

    /// Prints the variables, if there are some.
    fn variables(&mut self, variables: &[Field])
        ensures { Prints K.held K.faults self.old self.new (variables_text variables.now) }
    {
        if let [first, others @ ..] = variables {
            self.bytes(b"var ");
            first.print(self);
            self.preceded(b", ", others);
            self.bytes(b" ");
        }
    }
}

impl Canonical for Next {
    ghost text = { next_text };

    fn print<K: Sink>(&self, out: &mut Printer<'_, K>) {
        match self {
            Next::Part(part) => {
                out.bytes(b"go ");
                out.number(*part);
            }
            Next::End => out.bytes(b"end"),
        }
    }
}

impl Canonical for PartDef {
    ghost text = { program_part_text };

    fn print<K: Sink>(&self, out: &mut Printer<'_, K>) {
        out.bytes(b"part ");
        out.block(self.block.as_slice());
        out.then(self.then);
        out.failure(self.retry, self.on_failure);
    }
}

impl Canonical for Body {
    ghost text = { body_text };

    fn print<K: Sink>(&self, out: &mut Printer<'_, K>) {
        match self {
            Body::Acid(block) => {
                out.bytes(b"acid ");
                out.block(block.as_slice());
            }
            Body::Base(parts) => {
                out.bytes(b"base");
                out.preceded(b" ", parts.as_slice());
            }
        }
    }
}

impl Canonical for ProgramDef {
    ghost text = { program_text };

    fn print<K: Sink>(&self, out: &mut Printer<'_, K>) {
        out.bytes(b"program ");
        out.kept(&self.name);
        out.bytes(b"(");
        out.between_commas(self.params.as_slice());
        out.bytes(b") ");
        out.variables(self.vars.as_slice());
        self.body.print(out);
        out.bytes(b" end");
    }
}
