//! The engine: it serves lines, over a storage.

ghost use Rattle.salt_books.specs.Books.{tables_in};
ghost use Rattle.salt_books.specs.declared.books.Books.{Books};
ghost use Rattle.salt_cont.specs.Catalogues.{AllLeadOn};
ghost use Rattle.salt_engine.specs.Flights.{flight_of};
ghost use Rattle.salt_engine.specs.Resuming.{GoesOnBehindEarly};
ghost use Rattle.salt_engine.specs.Standing.{IsReadyOver, ServesFrom, serving_books};
ghost use Rattle.salt_engine.specs.declared.stage.Stage.TheVariants.{Going};
ghost use Rattle.law_states.specs.States.{State};
ghost use Rattle.std.specs.Prelude.{IfOk, None, Some, ◌≡◌};

use crate::flights::{InFlight, flight_of};
use crate::resuming::resume;
use crate::stage::Stage;
use salt_books::{Books, Known};
use salt_model::Flight;
use salt_program::Catalogue;
use salt_scheduler::Scheduler;
use salt_schema::Schema;
use salt_storage::Numbers;
use sqlite_items::Items;
use std::alloc::{AllocError, Global};
use std::mem;

/// An engine over a storage, that serves lines: a half of it chooses in memory what comes next, and what is decided or read is asked
/// of the storage. It is made behind an opening, in which the programs that were accepted have been finished, or named. After a halt it is
/// given up for an opening, with the books that stayed; after want of memory it does no more.
#[derive(Drop)]
pub struct Engine<S> {
    pub(crate) alloc: Global,
    pub(crate) storage: S,
    pub(crate) stage: Stage<Scheduler>,
    /// Whether the last line that was asked is one statement: the units of an opening note it. The opening before says it, and no line
    /// that is served depends on it.
    pub single: bool,
    /// The decision that was asked of the storage, until it is told.
    pub(crate) in_flight: Option<InFlight>,
    /// The tables where memory ran out: none.
    pub(crate) no_tables: Schema,
}

/// What an engine leaves that is given up.
#[derive(Drop)]
pub struct GivenUp<S> {
    pub alloc: Global,
    pub storage: S,
    /// Its books, unless memory ran out.
    pub books: Option<Books>,
    /// Whether the last line that was asked is one statement.
    pub single: bool,
    /// The decision that was asked of the storage, until it is told.
    pub in_flight: Option<InFlight>,
}

impl<S: Drop> Engine<S> {
    /// An engine over a storage behind the Ready of an opening: the number of the last decision that is kept, the tables and the
    /// programs that are defined, the boot, and how many units were begun in it. No accepted program is unfinished.
    pub fn new(
        alloc: Global,
        store: S,
        kept: &Numbers,
        schema: Schema,
        catalogue: Catalogue,
        boot: u64,
        begun: u64,
    ) -> Engine<S>
        requires { AllLeadOn catalogue }
        ensures store { result.storage ≡ store }
        ensures serves { (s : State) → IsReadyOver kept.now schema catalogue boot begun s → ServesFrom result.stage s }
        ensures none { result.in_flight ≡ None }
    {
        let conts = Items::new(alloc);
        let known = Known::new(alloc, schema, catalogue, conts, boot, kept.decisions);
        let scheduler = Scheduler::new(alloc, Books::new(alloc, known, begun, false));
        Engine::over(alloc, store, scheduler, false)
    }

    /// An engine over a storage behind the Early of an opening, over the books of that opening. For want of memory the storage is gone too.
    pub fn resume(alloc: Global, store: S, books: Books) -> Result<Engine<S>, AllocError>
        ensures store { IfOk result (λ engine. engine.storage ≡ store) }
        ensures serves { IfOk result (λ engine. GoesOnBehindEarly books (λ s. ServesFrom engine.stage s)) }
        ensures none { IfOk result (λ engine. engine.in_flight ≡ None) }
    {
        let scheduler = resume(alloc, books)?;
        Ok(Engine::over(alloc, store, scheduler, false))
    }

    /// An engine over a storage, by a half in memory that stands between two lines; `single` tells whether the last line that was asked is
    /// one statement.
    pub fn over(alloc: Global, storage: S, scheduler: Scheduler, single: bool) -> Engine<S>
        ensures storage { result.storage ≡ storage }
        ensures stage { result.stage ≡ Going scheduler }
        ensures single { result.single ≡ single }
        ensures none { result.in_flight ≡ None }
    {
        Engine {
            alloc,
            storage,
            stage: Stage::Going(scheduler),
            single,
            in_flight: None,
            no_tables: Schema::new(alloc),
        }
    }

    /// The tables that are defined, unless memory ran out.
    pub fn schema(&self) -> &Schema
        ensures { (x : Books) → serving_books self.now.stage ≡ Some x → result.now ≡ tables_in x }
    {
        match &self.stage {
            Stage::Going(scheduler) => scheduler.books().known().schema(),
            Stage::Down(books) => books.known().schema(),
            Stage::Lost => &self.no_tables,
        }
    }

    /// It is given up for an opening.
    pub fn given_up(self) -> GivenUp<S>
        ensures storage { result.storage ≡ self.storage }
        ensures books { result.books ≡ serving_books self.stage }
        ensures single { result.single ≡ self.single }
        ensures flies { result.in_flight ≡ self.in_flight }
    {
        let Engine {
            alloc,
            storage,
            stage,
            single,
            in_flight,
            ..
        } = self;
        GivenUp {
            alloc,
            storage,
            books: stage.into_books(),
            single,
            in_flight,
        }
    }

    /// It is given up: what was in flight where it was broken off.
    pub fn flight(self) -> Option<Flight>
        ensures { result ≡ flight_of self.in_flight }
    {
        let Engine {
            in_flight,
            storage,
            ..
        } = self;
        // a run ends so, and its process: the rows in memory need not be let go one by one
        mem::forget(storage);
        flight_of(in_flight)
    }
}
