//! Texts of names and values.

ghost use Rattle.std.specs.Prelude.{◌≡◌, ◌≤◌, length};
ghost use Rattle.std.specs.List.{prefix_len};
ghost use Rattle.salt_ast.specs.Prints.{Prints};
ghost use Rattle.salt_ast.specs.Texts.{name_text, value_text};
ghost use Rattle.salt_ast.specs.Words.{is_no_quote};
ghost use Rattle.salt_ast.specs.Pieces.{doubled, quoted};

use crate::printer::{Canonical, Printer};
use salt_io::Sink;
use salt_values::{Name, Value};

/// How many bytes stand before the first quote.
#[tactic(auto, using(crate::proofs::Quotes::run_within))]
fn run_len(text: &[u8]) -> usize
    ensures value { result ≡ prefix_len is_no_quote text.now }
    ensures within { result ≤ length text.now }
{
    text.iter().take_while(|b| **b != b'\'').count()
}

impl<K: Sink> Printer<'_, K> {
    /// Prints a text with each quote doubled.
    fn doubled(&mut self, text: &[u8])
        ensures { Prints K.held K.faults self.old self.new (doubled text.now) }
    {
        let mut left = text;
        loop {
            let run = run_len(left);
            self.bytes(&left[..run]);
            if run == left.len() {
                return;
            }
            self.bytes(b"''");
            left = &left[run + 1..];
        }
    }

    /// Prints a text in quotes.
    fn quoted(&mut self, text: &[u8])
        ensures { Prints K.held K.faults self.old self.new (quoted text.now) }
    {
        self.bytes(b"'");
        self.doubled(text);
        self.bytes(b"'");
    }
}

impl Canonical for Name {
    ghost text = { name_text };

    fn print<K: Sink>(&self, out: &mut Printer<'_, K>) {
        out.kept(self);
    }
}

/// A number's digits, a text in quotes, or `null`.
impl Canonical for Value {
    ghost text = { value_text };

    fn print<K: Sink>(&self, out: &mut Printer<'_, K>) {
        match self {
            Value::Int(number) => out.number(*number),
            Value::Text(text) => out.quoted(text.as_bytes()),
            Value::Null => out.bytes(b"null"),
        }
    }
}
