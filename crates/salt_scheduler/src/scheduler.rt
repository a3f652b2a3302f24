//! The scheduler: units, locks and programs together.

ghost use Rattle.salt_books.specs.Books.{AreBooks};
ghost use Rattle.salt_books.specs.Called.{name_told};
ghost use Rattle.salt_conflicts.specs.Watched.{IsWatch};
ghost use Rattle.law_states.specs.Members.{In};
ghost use Rattle.law_states.specs.Nexts.{next_turn_of};
ghost use Rattle.law_states.specs.OpenUnits.{UnitState};
ghost use Rattle.law_states.specs.States.{State, asked_of, turned_to};
ghost use Rattle.law_states.specs.Watches.{empty_watch};
ghost use Rattle.salt_model.specs.Kept.{schema_of};
ghost use Rattle.salt_model.specs.Trace.{Tree};
ghost use Rattle.salt_values.specs.declared.id.Id.{Id};
ghost use Rattle.std.specs.Prelude.{OnOk, Some, [], ◌≡◌};

use crate::follow::Follow;
use salt_ast::Line;
use salt_books::{Books, CalledNames};
use salt_conflicts::Watching;
use salt_schema::Schema;
use salt_values::Id;
use std::alloc::{AllocError, Global};

/// Keeps units, locks and programs in memory, and chooses what comes next. With an event at hand it has done that event, and
/// knows what follows it. An `AllocError` leaves it in no state that is told.
pub struct Scheduler {
    pub(crate) alloc: Global,
    pub(crate) books: Books,
    pub(crate) watch: Watching,
    pub(crate) called: CalledNames,
    pub(crate) follow: Follow,
    /// No units wait for each other in a circle. Where it is not set, some may.
    pub(crate) calm: bool,
}

impl Drop for Scheduler {
    fn drop(self) {
        let Scheduler {
            alloc: _alloc,
            books: _books,
            watch: _watch,
            called: _called,
            follow: _follow,
            calm: _calm,
        } = self;
    }
}

impl Scheduler {
    ghost use Rattle.salt_scheduler.specs.Standing.{IsTurning, StandsForState, books_of};

    /// A scheduler over these books, which have no unit: nothing is watched, and no program has been called.
    pub fn new(alloc: Global, books: Books) -> Scheduler
        ensures { (s : State) → AreBooks books s.units → s.units.units ≡ [] → s.watch ≡ empty_watch 0 → IsTurning s.units → StandsForState result s }
    {
        Scheduler {
            alloc,
            books,
            watch: Watching::new(alloc, Vec::new(alloc)),
            called: CalledNames::new(alloc),
            follow: Follow::Nothing,
            calm: true,
        }
    }

    /// A scheduler behind an early opening, over these books, which have no unit: this is watched, in which no unit waits, and by these
    /// names the programs were called that are watched.
    pub fn resumed(alloc: Global, books: Books, watch: Watching, called: CalledNames) -> Scheduler
        ensures { (s : State) → AreBooks books s.units → s.units.units ≡ [] → IsTurning s.units → IsWatch watch s.watch → s.watch.waits ≡ []
            → ((b : Id) → In b s.watch.programs → name_told called b ≡ Some (s.names b)) → StandsForState result s }
    {
        Scheduler {
            alloc,
            books,
            watch,
            called,
            follow: Follow::Nothing,
            calm: true,
        }
    }

    /// The books.
    pub fn books(&self) -> &Books
        ensures { result.now ≡ books_of self.now }
    {
        &self.books
    }

    /// The books, without locks, waits and names.
    pub fn into_books(self) -> Books
        ensures { result ≡ books_of self }
    {
        let Scheduler {
            alloc: _alloc,
            books,
            watch: _watch,
            called: _called,
            follow: _follow,
            calm: _calm,
        } = self;
        books
    }

    /// The tables defined.
    pub fn schema(&self) -> &Schema
        ensures { (s : UnitState) → AreBooks (books_of self.now) s → result.now ≡ schema_of s.kept }
    {
        self.books.known().schema()
    }

    /// A line is asked, which may be refused.
    pub fn ask(&mut self, line: &Line) -> Result<(), AllocError>
        ensures { OnOk result ((s : State) → StandsForState self.old s → StandsForState self.new (asked_of (Tree line.now) s)) }
    {
        self.books.ask(line)
    }

    /// The program that has the next turn: one of those of `go all`, and then the one owed behind the line.
    pub fn next_turn(&self) -> Option<Id>
        ensures { (s : State) → StandsForState self.now s → result ≡ next_turn_of s }
    {
        self.books.next_turn()
    }

    /// The program that is next has its turn.
    pub fn turn(&mut self, base: Id) -> Result<(), AllocError>
        ensures { OnOk result ((s : State) → StandsForState self.old s → next_turn_of s ≡ Some base → StandsForState self.new (turned_to base s)) }
    {
        self.books.turn(base)
    }
}
