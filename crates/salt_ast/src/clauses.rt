//! Texts of the parts of statements and tables.

ghost use Rattle.std.specs.Prelude.{◌++◌, ◌≡◌, codes};
ghost use Rattle.salt_ast.specs.Prints.{Prints};
ghost use Rattle.salt_ast.specs.Texts.{columns_text, field_text, filter_text, null_text, scan_text, set_text, type_text, what_text};

use crate::printer::{Canonical, Printer};
use crate::trees::{Bound, ColType, Expr, Field, Scan, Set, What};
use salt_io::Sink;
use salt_values::Name;

impl ColType {
    /// The word that names the type.
    fn word(self) -> &'static [u8]
        ensures { result.now ≡ type_text self }
    {
        match self {
            ColType::Int => b"int",
            ColType::Text => b"text",
        }
    }
}

/// What stands behind the type of a column that may hold NULL.
fn null_word(nullable: bool) -> &'static [u8]
    ensures { result.now ≡ null_text nullable }
{
    if nullable { b" null" } else { b"" }
}

impl<K: Sink> Printer<'_, K> {
    /// Prints a word with its parenthesis, and the column in it.
    fn aggregate(&mut self, word: &[u8], column: &Name)
        ensures { Prints K.held K.faults self.old self.new (word.now ++ (column.now ++ codes ")")) }
    {
        self.bytes(word);
        self.kept(column);
        self.bytes(b")");
    }

    /// Prints a filter, if there is one, behind a word.
    fn filter(&mut self, word: &[u8], filter: &Option<Expr>)
        ensures { Prints K.held K.faults self.old self.new (filter_text word.now filter.now) }
    {
        if let Some(expr) = filter {
            self.bytes(word);
            expr.print(self);
        }
    }

    /// Prints the columns of a table, the first as its key.
    pub fn columns(&mut self, columns: &[Field])
        ensures { Prints K.held K.faults self.old self.new (columns_text columns.now) }
    {
        if let [key, others @ ..] = columns {
            key.print(self);
            self.bytes(b" key");
            self.preceded(b", ", others);
        }
    }
}

impl Canonical for Field {
    ghost text = { field_text };

    fn print<K: Sink>(&self, out: &mut Printer<'_, K>) {
        out.kept(&self.name);
        out.bytes(b" ");
        out.bytes(self.kind.word());
        out.bytes(null_word(self.nullable));
    }
}

impl Canonical for Set {
    ghost text = { set_text };

    fn print<K: Sink>(&self, out: &mut Printer<'_, K>) {
        out.kept(&self.column);
        out.bytes(b" = ");
        self.value.print(out);
    }
}

impl Canonical for What {
    ghost text = { what_text };

    fn print<K: Sink>(&self, out: &mut Printer<'_, K>) {
        match self {
            What::All => out.bytes(b"*"),
            What::Columns(names) => out.between_commas(names.as_slice()),
            What::Count => out.bytes(b"count(*)"),
            What::Sum(column) => out.aggregate(b"sum(", column),
            What::Min(column) => out.aggregate(b"min(", column),
            What::Max(column) => out.aggregate(b"max(", column),
        }
    }
}

impl Canonical for Scan {
    ghost text = { scan_text };

    fn print<K: Sink>(&self, out: &mut Printer<'_, K>) {
        match &self.bound {
            Bound::All => out.filter(b" where ", &self.filter),
            Bound::Key(key) => {
                out.bytes(b" where key = ");
                key.print(out);
                out.filter(b" and ", &self.filter);
            }
            Bound::Between(low, high) => {
                out.bytes(b" where key between ");
                low.print(out);
                out.bytes(b" and ");
                high.print(out);
                out.filter(b" and ", &self.filter);
            }
        }
    }
}
