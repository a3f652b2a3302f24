//! What a half in memory is doing: that of an engine, or that of an opening.

ghost use Rattle.salt_engine.specs.Performing.{WasBroken, broken_by};
ghost use Rattle.salt_engine.specs.Standing.{IsBrokenStage, IsGoingStage, serving_books};
ghost use Rattle.salt_engine.specs.declared.stage.Stage.TheVariants.{Down, Going, Lost};
ghost use Rattle.std.specs.Prelude.{◌≡◌};

use salt_books::Books;
use salt_scheduler::Scheduler;
use salt_storage::Halt;
use std::mem;

/// What a half in memory is doing: the scheduler of an engine, or the recovery of an opening.
pub enum Stage<H> {
    /// It goes on.
    Going(H),
    /// It was broken off, or has not begun: these are the books.
    Down(Books),
    /// Memory ran out.
    Lost,
}

impl<H: Drop> Drop for Stage<H> {
    fn drop(self) {
        match self {
            Stage::Going(_half) => {}
            Stage::Down(_books) => {}
            Stage::Lost => {}
        }
    }
}

impl<H: Drop> Stage<H> {
    /// What goes on.
    pub fn going(self) -> H
        requires { IsGoingStage self }
        ensures { self ≡ Going result }
    {
        match self {
            Stage::Going(half) => half,
            _ => unreachable!(),
        }
    }

    /// The books that stayed.
    pub fn down(self) -> Books
        requires { IsBrokenStage self }
        ensures { self ≡ Down result }
    {
        match self {
            Stage::Down(books) => books,
            _ => unreachable!(),
        }
    }

    /// A call of the storage was broken off: unless memory ran out, the books stay.
    pub fn break_off(&mut self, books: Books, halt: Halt) -> Halt
        requires { self.old ≡ Lost }
        ensures halt { result ≡ halt }
        ensures broken { WasBroken halt books self.new }
    {
        match halt {
            Halt::Memory => {}
            _ => {
                *self = Stage::Down(books);
            }
        }
        halt
    }
}

impl Stage<Scheduler> {
    /// The books that an engine has, unless memory ran out.
    pub(crate) fn into_books(self) -> Option<Books>
        ensures { result ≡ serving_books self }
    {
        match self {
            Stage::Going(scheduler) => Some(scheduler.into_books()),
            Stage::Down(books) => Some(books),
            Stage::Lost => None,
        }
    }

    /// A move was broken off by this halt: unless memory ran out, the books stay.
    pub(crate) fn break_by(&mut self, halt: Halt) -> Halt
        ensures halt { result ≡ halt }
        ensures broken { self.new ≡ broken_by halt self.old }
    {
        match mem::replace(self, Stage::Lost).into_books() {
            Some(books) => self.break_off(books, halt),
            None => halt,
        }
    }
}
