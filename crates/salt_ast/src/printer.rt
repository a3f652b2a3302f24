//! A sink that is written to until a write fails, and what has a text that is written to it.

ghost use Rattle.std.specs.Prelude.{◌≡◌, [], List, OnOk, ℕ};
ghost use Rattle.salt_ast.specs.Prints.{Prints};
ghost use Rattle.salt_ast.specs.Texts.{between_commas, preceded};
ghost use Rattle.std.specs.Fmt.{decimal};

use itoa::{Buffer, Integer};
use salt_io::{IoFailed, Sink, WriteBuffer};
use salt_values::Bytes;

/// A sink, the bytes that wait to be written to it, and the outcome of the writes so far. After one
/// that failed no more are made. Nothing that is printed takes memory.
#[derive(Drop)]
pub struct Printer<'a, K> {
    pub sink: &'a mut K,
    pub waiting: WriteBuffer,
    pub outcome: Result<(), IoFailed>,
}

/// What has a canonical text.
pub trait Canonical {
    ghost text: { Self → List ℕ };

    /// Prints the text.
    fn print<K: Sink>(&self, out: &mut Printer<'_, K>)
        ensures { Prints K.held K.faults out.old out.new (text self.now) };
}

impl<K: Sink> Printer<'_, K> {
    /// Writes what waits.
    pub fn flush(&mut self)
        ensures prints { Prints K.held K.faults self.old self.new [] }
        ensures empty { OnOk self.new.outcome (self.new.waiting ≡ []) }
    {
        if self.outcome.is_ok() {
            self.outcome = self.waiting.flush(self.sink);
        }
    }

    /// Prints the bytes as they are.
    pub fn bytes(&mut self, bytes: &[u8])
        ensures { Prints K.held K.faults self.old self.new bytes.now }
    {
        if self.outcome.is_ok() {
            self.outcome = self.waiting.put(self.sink, bytes);
        }
    }

    /// Prints the bytes of a name, or of a text that was kept.
    pub fn kept(&mut self, bytes: &Bytes)
        ensures { Prints K.held K.faults self.old self.new bytes.now }
    {
        self.bytes(bytes.as_slice());
    }

    /// Prints a number's decimal digits, behind a minus sign where it is below 0.
    pub fn number<I: Integer>(&mut self, number: I)
        ensures { Prints K.held K.faults self.old self.new (I.text number) }
    {
        let mut buffer = Buffer::new();
        self.bytes(buffer.format(number).as_bytes());
    }

    /// Prints the decimal digits of a number from 0 on. A single digit, as most boots, sessions and counts have, is put as it is.
    pub fn natural(&mut self, number: u64)
        ensures { Prints K.held K.faults self.old self.new (decimal number) }
    {
        if number < 10 {
            self.bytes(&[b'0' + number as u8]);
        } else {
            self.number(number);
        }
    }

    /// Prints each item with these bytes before it.
    pub fn preceded<T: Canonical>(&mut self, before: &[u8], items: &[T])
        ensures { Prints K.held K.faults self.old self.new (preceded before.now T.text items.now) }
    {
        for item in items {
            self.bytes(before);
            item.print(self);
        }
    }

    /// Prints the items with a comma and a space between them.
    pub fn between_commas<T: Canonical>(&mut self, items: &[T])
        ensures { Prints K.held K.faults self.old self.new (between_commas T.text items.now) }
    {
        if let [first, others @ ..] = items {
            first.print(self);
            self.preceded(b", ", others);
        }
    }
}
