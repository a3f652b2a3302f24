//! A database: it is closed, and opened by an opening, or open, and served by an engine.

ghost use Rattle.salt_database.specs.Standing.{CanFind, IsFoundStage, left_in};
ghost use Rattle.salt_engine.specs.Performing.{IsServed};
ghost use Rattle.salt_engine.specs.Engines.{engine_storage, engine_turns, engine_waits};
ghost use Rattle.std.specs.Prelude.{[], ⊤, ◌≡◌};

use crate::onward::Onward;
use crate::opening::Opening;
use crate::reopening::strayed;
use salt_ast::Line;
use salt_disk::Disks;
use salt_driver::{Openable, Stepping};
use salt_engine::Engine;
use salt_model::{Event, Flight, Refusal, Story};
use salt_net::Net;
use salt_place::{PlaceKind, Placement};
use salt_schema::Schema;
use salt_storage::{Halt, OpenErr, Storage};
use salt_values::{Id, Key, Steps};
use std::mem;
use std::sync::ledger::Ledger;

/// A database over a storage: behind each opening it is open, and behind each fall closed.
pub enum Database<S> {
    /// It is opened, or is to be.
    Closed(Opening<S>),
    /// Its lines are served.
    Open(Engine<S>),
    /// It goes from the one to the other.
    Moving,
}

impl<S: Drop> Drop for Database<S> {
    fn drop(self) {
        match self {
            Database::Closed(_opening) => {}
            Database::Open(_engine) => {}
            Database::Moving => {}
        }
    }
}

impl<S: Drop> Database<S> {
    ghost use Rattle.salt_database.specs.Halves.{IfClosed, IsLeftBy, IsMade};
    ghost use Rattle.salt_database.specs.declared.database.Database.TheVariants.{Closed};

    /// The opening of one that is closed.
    fn closed(self) -> Opening<S>
        requires { IfClosed (λ o. ⊤) self }
        ensures { self ≡ Closed result }
    {
        match self {
            Database::Closed(opening) => opening,
            _ => unreachable!(),
        }
    }

    /// What is opened behind a fall: the opening that has fallen, or that of what the engine has left.
    fn into_opening(self) -> Opening<S>
        requires { IsMade self }
        ensures { IsLeftBy self result }
    {
        match self {
            Database::Closed(opening) => opening,
            Database::Open(engine) => Opening::behind(engine),
            Database::Moving => unreachable!(),
        }
    }
}

impl<S: Storage + Drop> Stepping for Database<S> {
    ghost use Rattle.salt_driver.specs.Devices.{on_devices};
    ghost use Rattle.salt_database.specs.Halves.{IfEither, by_half, database_flight, database_fresh, database_stands_for_kept, database_can_reopen, database_net, database_stands_for, no_setup};

    ghost able = { λ d x. IfEither (λ o. S.able d o.storage) (λ e. S.able d (engine_storage e)) x };

    ghost stands_for = { λ d x next s. database_stands_for (S.holds d) (S.is_new d) d.can_stop x next s × database_net S.asked S.net x next s };

    ghost on_devices = { λ d x. on_devices (λ room p. database_can_reopen (S.holds d) (S.leaves d) d.can_stop x room p × database_fresh S.asked S.net x p.state)
        (λ numbers room p. database_stands_for_kept (S.holds d) (S.leaves d) (S.rests d) x numbers room p)
        (λ w dev. IfEither (λ o. S.fills d o.storage w dev) (λ e. S.fills d (engine_storage e) w dev) x) };

    ghost flight = { database_flight };

    ghost asked = { λ x. by_half (λ o. S.asked o.storage) (λ e. S.asked (engine_storage e)) no_setup x };

    ghost waiting = { λ x. by_half (λ o. []) engine_waits [] x };

    ghost turns = { λ x. by_half (λ o. 0) engine_turns 0 x };

    ghost serves = { IsServed };

    fn ask<D: Disks, F: Fn(PlaceKind, &Key, u32) -> u32>(
        &mut self,
        disks: &mut D,
        place: &Placement<F>,
        line: &Line,
    ) -> Result<Option<Event>, Halt> {
        match self {
            Database::Open(engine) => engine.ask(disks, place, line),
            Database::Closed(opening) => Err(opening.storage.reject(disks)),
            Database::Moving => unreachable!(),
        }
    }

    fn ask_rejected<D: Disks>(
        &mut self,
        disks: &mut D,
        refusal: Refusal,
    ) -> Result<Option<Event>, Halt> {
        match self {
            Database::Open(engine) => engine.ask_rejected(disks, refusal),
            Database::Closed(opening) => Err(opening.storage.reject(disks)),
            Database::Moving => unreachable!(),
        }
    }

    fn next_turn<D: Disks>(&self, disks: &D) -> Option<Id> {
        match self {
            Database::Open(engine) => engine.next_turn(disks),
            _ => None,
        }
    }

    fn turn<D: Disks, F: Fn(PlaceKind, &Key, u32) -> u32>(
        &mut self,
        disks: &mut D,
        place: &Placement<F>,
        line: &Line,
        base: Id,
    ) -> Result<Option<Event>, Halt> {
        match self {
            Database::Open(engine) => engine.turn(disks, place, line, base),
            Database::Closed(opening) => Err(opening.storage.reject(disks)),
            Database::Moving => unreachable!(),
        }
    }

    fn say<D: Disks, F: Fn(PlaceKind, &Key, u32) -> u32>(
        &mut self,
        disks: &mut D,
        place: &Placement<F>,
        line: &Line,
        event: Event,
        story: &mut Story,
    ) -> Result<Option<Event>, Halt> {
        match self {
            Database::Open(engine) => engine.say(disks, place, line, event, story),
            Database::Closed(opening) => Err(strayed(&opening.storage, disks, event, story)),
            Database::Moving => unreachable!(),
        }
    }

    fn reject<D: Disks>(&self, disks: &mut D) -> Halt {
        match self {
            Database::Closed(opening) => opening.storage.reject(disks),
            Database::Open(engine) => engine.reject(disks),
            Database::Moving => unreachable!(),
        }
    }

    fn stands<D: Disks>(&self, disks: &D) {
        match self {
            Database::Closed(opening) => opening.storage.stands(disks),
            Database::Open(engine) => engine.stands(disks),
            Database::Moving => {}
        }
    }
}

impl<S: Storage + Drop> Openable for Database<S> {
    ghost use Rattle.salt_database.specs.Halves.{IfClosed, by_half};

    ghost is_found = { λ d x. IfClosed (λ o. IsFoundStage d.told o.found o.stage) x };

    ghost settled = { λ d x. IfClosed (λ o. CanFind d.told (S.settled d o.storage) o.found o.stage) x };

    ghost to_open = { λ x next. by_half (λ o. left_in o.stage next) (λ e. 0) 0 x };

    fn find<D: Disks, F: Fn(PlaceKind, &Key, u32) -> u32>(
        &mut self,
        disks: &mut D,
        place: &Placement<F>,
    ) -> Result<(), OpenErr> {
        match self {
            Database::Closed(opening) => opening.find(disks, place),
            _ => unreachable!(),
        }
    }

    fn open<D: Disks>(&mut self, disks: &mut D, story: &mut Story) -> Result<Event, Halt> {
        match self {
            Database::Closed(opening) => opening.open(disks, story),
            _ => unreachable!(),
        }
    }

    fn go_on<D: Disks, F: Fn(PlaceKind, &Key, u32) -> u32, L: Ledger>(
        &mut self,
        disks: &mut D,
        place: &Placement<F>,
        event: Event,
        story: &mut Story,
        steps: &mut Steps<L>,
    ) -> Result<Option<Event>, Halt> {
        let Database::Closed(_) = self else {
            story.push(event)?;
            return Err(self.reject(disks));
        };
        let mut opening = mem::replace(self, Database::Moving).closed();
        match opening.go_on(disks, place, event, story, steps) {
            Ok(Onward::Served(scheduler)) => {
                *self = Database::Open(opening.into_engine(scheduler));
                Ok(None)
            }
            Ok(Onward::Next(next)) => {
                *self = Database::Closed(opening);
                Ok(Some(next))
            }
            Err(halt) => {
                *self = Database::Closed(opening);
                Err(halt)
            }
        }
    }

    fn fall<D: Disks>(&mut self, disks: &mut D) {
        let mut opening = mem::replace(self, Database::Moving).into_opening();
        opening.fall(disks);
        *self = Database::Closed(opening);
    }

    fn schema<D: Disks>(&self, _disks: &D) -> &Schema {
        match self {
            Database::Closed(opening) => opening.schema(),
            Database::Open(engine) => engine.schema(),
            Database::Moving => unreachable!(),
        }
    }

    fn flight(self) -> Option<Flight> {
        match self {
            Database::Closed(opening) => opening.flight(),
            Database::Open(engine) => engine.flight(),
            Database::Moving => None,
        }
    }

    fn into_net<D: Disks>(self, disks: &D) -> Option<Net> {
        match self {
            Database::Open(engine) => engine.into_net(disks),
            _ => None,
        }
    }
}
