//! What was asked of the storage where an engine was broken off.

ghost use Rattle.salt_engine.specs.Flights.{flight_of, text_of, told_of};
ghost use Rattle.std.specs.Prelude.{◌≡◌};

use salt_ast::{ProgramDef, TableDef};
use salt_model::{Cause, Flight};
use salt_values::{Bytes, Id};

/// A decision that was asked of the storage, and may have been made.
pub enum InFlight {
    /// A unit commits.
    Commit(Id),
    /// A unit of a later part of this program has failed by this cause.
    Branch { unit: Id, base: Id, cause: Cause },
    /// The last line's table is defined, by its canonical text.
    Table { def: TableDef, text: Bytes },
    /// The last line's program is defined, by its canonical text.
    Program { def: ProgramDef, text: Bytes },
}

impl Drop for InFlight {
    fn drop(self) {
        match self {
            InFlight::Commit(_unit) => {}
            InFlight::Branch {
                unit: _unit,
                base: _base,
                cause: _cause,
            } => {}
            InFlight::Table {
                def: _def,
                text: _text,
            } => {}
            InFlight::Program {
                def: _def,
                text: _text,
            } => {}
        }
    }
}

impl InFlight {
    /// The text of a definition; of a unit none.
    pub fn text(&self) -> &[u8]
        ensures { result.now ≡ text_of self.now }
    {
        match self {
            InFlight::Table { text, .. } => text.as_slice(),
            InFlight::Program { text, .. } => text.as_slice(),
            _ => &[],
        }
    }

    /// What is told of it.
    pub fn flight(self) -> Flight
        ensures { result ≡ told_of self }
    {
        match self {
            InFlight::Commit(unit) => Flight::Unit(unit),
            InFlight::Branch {
                unit,
                base: _base,
                cause: _cause,
            } => Flight::Unit(unit),
            InFlight::Table { def: _def, text } => Flight::Definition(text),
            InFlight::Program { def: _def, text } => Flight::Definition(text),
        }
    }
}

/// What is told of it, if anything was asked.
pub fn flight_of(in_flight: Option<InFlight>) -> Option<Flight>
    ensures { result ≡ flight_of in_flight }
{
    match in_flight {
        Some(in_flight) => Some(in_flight.flight()),
        None => None,
    }
}
