//! An opening: what stands over a storage before an engine is made over it.

ghost use Rattle.salt_database.specs.Finding.{IsNew};
ghost use Rattle.salt_database.specs.Standing.{IsFoundStage, opening_books};
ghost use Rattle.salt_engine.specs.Engines.{EngineServes, engine_books, engine_flight, engine_storage};
ghost use Rattle.law_states.specs.States.{State};
ghost use Rattle.salt_model.specs.Kept.{Kept};
ghost use Rattle.salt_scheduler.specs.Standing.{StandsForState};
ghost use Rattle.salt_stands.specs.Stands.{are_spent};
ghost use Rattle.salt_storage.specs.Storing.{IsFound, IsSoundKept};
ghost use Rattle.std.specs.Prelude.{Bool, None, false, ◌≡◌};

use salt_books::{Books, Known};
use salt_drain::Recovery;
use salt_engine::{Engine, GivenUp, InFlight, Stage};
use salt_scheduler::Scheduler;
use salt_schema::Schema;
use salt_storage::{Found, Numbers};
use std::alloc::Global;

/// An opening over a storage: at first over what was found there, and behind each fall over what an engine has left. It begins a
/// boot, and goes on with what programs have left; behind its Ready or its Early an engine is made of it.
#[derive(Drop)]
pub struct Opening<S> {
    pub(crate) alloc: Global,
    pub(crate) storage: S,
    pub(crate) stage: Stage<Recovery>,
    /// The numbers of what the storage holds, where that is found and no boot has begun over it.
    pub(crate) found: Option<Numbers>,
    /// Whether the last line that was asked is one statement: the units of an opening note it.
    pub(crate) single: bool,
    /// The decision that was asked of the storage, until it is told.
    pub(crate) in_flight: Option<InFlight>,
    /// The tables where memory ran out: none.
    pub(crate) no_tables: Schema,
}

/// What an engine has left that was given up: its books, if it has them.
fn left_with(books: Option<Books>) -> Stage<Recovery>
    ensures { opening_books result ≡ books }
{
    match books {
        Some(books) => Stage::Down(books),
        None => Stage::Lost,
    }
}

impl<S: Drop> Opening<S> {
    /// An opening over what was found on a storage, whose numbers are not spent; `early` tells whether openings may end early. No boot has
    /// begun.
    pub fn new(alloc: Global, storage: S, found: Found, early: bool) -> Opening<S>
        requires unspent { are_spent found.boot found.decisions ≡ false }
        requires sound { (k : Kept) × IsFound found k × IsSoundKept k }
        ensures storage { result.storage ≡ storage }
        ensures found { (told : Bool) → IsFoundStage told result.found result.stage }
        ensures is_new { (k : Kept) → IsFound found k → IsSoundKept k → IsNew early k result.found result.stage result.single result.in_flight }
    {
        let Found {
            schema,
            catalogue,
            conts,
            boot,
            decisions,
        } = found;
        let known = Known::new(alloc, schema, catalogue, conts, boot, decisions);
        Opening {
            alloc,
            storage,
            stage: Stage::Down(Books::new(alloc, known, 0, early)),
            found: Some(Numbers { boot, decisions }),
            single: false,
            in_flight: None,
            no_tables: Schema::new(alloc),
        }
    }

    /// An opening of what an engine has left that is given up.
    pub fn behind(engine: Engine<S>) -> Opening<S>
        ensures storage { result.storage ≡ engine_storage engine }
        ensures books { opening_books result.stage ≡ engine_books engine }
        ensures found { result.found ≡ None }
        ensures single { result.single ≡ engine.single }
        ensures flies { result.in_flight ≡ engine_flight engine }
    {
        let GivenUp {
            alloc,
            storage,
            books,
            single,
            in_flight,
        } = engine.given_up();
        Opening {
            alloc,
            storage,
            stage: left_with(books),
            found: None,
            single,
            in_flight,
            no_tables: Schema::new(alloc),
        }
    }

    /// An engine over what an opening has left that is done, by the half in memory that it has given.
    pub fn into_engine(self, scheduler: Scheduler) -> Engine<S>
        ensures storage { engine_storage result ≡ self.storage }
        ensures serves { (s : State) → StandsForState scheduler s → EngineServes result s }
        ensures single { result.single ≡ self.single }
        ensures none { engine_flight result ≡ None }
    {
        let Opening {
            alloc,
            storage,
            single,
            ..
        } = self;
        Engine::over(alloc, storage, scheduler, single)
    }
}
