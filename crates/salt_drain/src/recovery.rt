//! The recovery: the books of an opening, and what follows its last event.

ghost use Rattle.salt_books.specs.Books.{AreBooks};
ghost use Rattle.law_states.specs.States.{State};
ghost use Rattle.salt_model.specs.Phases.{Opening};
ghost use Rattle.salt_model.specs.Turns.{is_statement_line};
ghost use Rattle.std.specs.Prelude.{◌≡◌};

use crate::behind::Behind;
use salt_books::Books;
use std::alloc::Global;

/// Keeps the units of an opening in memory, and chooses what comes next. With an event at hand it has done that event, and knows
/// what follows it.
pub struct Recovery {
    pub(crate) alloc: Global,
    pub(crate) books: Books,
    pub(crate) behind: Behind,
    /// Whether the last line that was asked is one statement: a unit that begins notes it.
    pub(crate) single: bool,
}

impl Drop for Recovery {
    fn drop(self) {
        let Recovery {
            alloc: _alloc,
            books: _books,
            behind: _behind,
            single: _single,
        } = self;
    }
}

impl Recovery {
    ghost use Rattle.salt_drain.specs.Recovering.{StandsForState, books_of};

    /// Behind an Opened: the books of its boot, and whether the last line that was asked is one statement.
    pub fn new(alloc: Global, books: Books, single: bool) -> Recovery
        ensures { (s : State) → AreBooks books s.units → s.units.phase ≡ Opening → single ≡ is_statement_line s.units.line → StandsForState result s }
    {
        Recovery {
            alloc,
            books,
            behind: Behind::Nothing,
            single,
        }
    }

    /// The books.
    pub fn books(&self) -> &Books
        ensures { result.now ≡ books_of self.now }
    {
        &self.books
    }

    /// The books alone.
    pub fn into_books(self) -> Books
        ensures { result ≡ books_of self }
    {
        let Recovery {
            alloc: _alloc,
            books,
            behind: _behind,
            single: _single,
        } = self;
        books
    }
}
