//! The engine's moves at a line, at a turn behind a line and at an event.

ghost use Rattle.salt_engine.specs.Flights.{flight_of};
ghost use Rattle.salt_engine.specs.Performing.{IsServed};
ghost use Rattle.salt_engine.specs.Standing.{turns_in, waits_in};
ghost use Rattle.salt_model.specs.Trace.{Start, Trace, Tree};
ghost use Rattle.salt_model.specs.declared.events.Event.TheVariants.{Refused};
ghost use Rattle.salt_model.specs.declared.events.Refusal.{Refusal};
ghost use Rattle.salt_driver.specs.Counting.{CountsMore};
ghost use Rattle.salt_driver.specs.Serving.{BreaksOff, GoesOn, ServesTrace};
ghost use Rattle.law_states.specs.States.{State};
ghost use Rattle.salt_storage.specs.Netted.{net_told};
ghost use Rattle.salt_storage.specs.Answers.{disk_err};
ghost use Rattle.law_types.specs.Played.{HasKey};
ghost use Rattle.salt_storage.specs.Staying.{StaysWithin};
ghost use Rattle.salt_place.specs.Placement.{GivesPlaceOf, TakesEachKey};
ghost use Rattle.std.specs.Prelude.{IfErr, IsTrue, None, OnOk, option_map, [], ◌++◌, ◌∷◌, ◌≡◌};

use crate::engine::Engine;
use crate::lines::reject;
use crate::stage::Stage;
use law_decisions::read_lines_are_spelled;
use salt_ast::Line;
use salt_disk::Disks;
use salt_driver::Stepping;
use salt_model::{Event, Refusal, Story};
use salt_net::Net;
use salt_place::{PlaceKind, Placement};
use salt_scheduler::is_statement_line;
use salt_storage::{Halt, Storage};
use salt_values::{Id, Key};

impl<S: Storage + Drop> Stepping for Engine<S> {
    ghost use Rattle.salt_engine.specs.Engines.{engine_stands_for_kept, engine_can_reopen, engine_stands_for};
    ghost use Rattle.salt_driver.specs.Devices.{on_devices};
    ghost use Rattle.salt_engine.specs.Netted.{CanReopenNet, AgreesWithNet};

    ghost able = { λ d e. S.able d e.storage };

    ghost stands_for = { λ d e next s. engine_stands_for (S.holds d) (S.is_new d) d.can_stop e next s × AgreesWithNet (S.asked e.storage) (S.net e.storage) next s };

    ghost on_devices = { λ d e. on_devices (λ room p. engine_can_reopen (S.holds d) (S.leaves d) d.can_stop e room p × CanReopenNet (S.asked e.storage) (S.net e.storage) None p.state)
        (λ numbers room p. engine_stands_for_kept (S.holds d) (S.leaves d) (S.rests d) e numbers room p) (S.fills d e.storage) };

    ghost flight = { λ e. flight_of e.in_flight };

    ghost asked = { λ e. S.asked e.storage };

    ghost waiting = { λ e. waits_in e.stage };

    ghost turns = { λ e. turns_in e.stage };

    ghost serves = { IsServed };

    fn ask<D: Disks, F: Fn(PlaceKind, &Key, u32) -> u32>(
        &mut self,
        disks: &mut D,
        place: &Placement<F>,
        line: &Line,
    ) -> Result<Option<Event>, Halt> {
        read_lines_are_spelled();
        self.storage.stands(disks);
        self.single = is_statement_line(line);
        self.in_flight = None;
        match self.ask_line(disks, place, line) {
            Ok(next) => Ok(next),
            Err(halt) => Err(self.stage.break_by(halt)),
        }
    }

    fn ask_rejected<D: Disks>(
        &mut self,
        disks: &mut D,
        refusal: Refusal,
    ) -> Result<Option<Event>, Halt> {
        self.single = false;
        self.storage.stands(disks);
        let Stage::Going(scheduler) = &mut self.stage else {
            return Err(self.storage.reject(disks));
        };
        match reject(scheduler, refusal) {
            Ok(event) => Ok(Some(event)),
            Err(_) => Err(self.stage.break_by(Halt::Memory)),
        }
    }

    fn next_turn<D: Disks>(&self, _disks: &D) -> Option<Id> {
        match &self.stage {
            Stage::Going(scheduler) => scheduler.next_turn(),
            _ => None,
        }
    }

    fn turn<D: Disks, F: Fn(PlaceKind, &Key, u32) -> u32>(
        &mut self,
        disks: &mut D,
        place: &Placement<F>,
        line: &Line,
        base: Id,
    ) -> Result<Option<Event>, Halt> {
        self.storage.stands(disks);
        self.in_flight = None;
        match self.turn_in_line(disks, place, line, base) {
            Ok(next) => Ok(next),
            Err(halt) => Err(self.stage.break_by(halt)),
        }
    }

    fn say<D: Disks, F: Fn(PlaceKind, &Key, u32) -> u32>(
        &mut self,
        disks: &mut D,
        place: &Placement<F>,
        line: &Line,
        event: Event,
        story: &mut Story,
    ) -> Result<Option<Event>, Halt> {
        self.storage.stands(disks);
        match story.push(event) {
            Ok(()) => {
                self.in_flight = None;
                match self.go_on_in_line(disks, place, line) {
                    Ok(next) => Ok(next),
                    Err(halt) => Err(self.stage.break_by(halt)),
                }
            }
            Err(_) => Err(self.stage.break_by(Halt::Memory)),
        }
    }

    fn reject<D: Disks>(&self, disks: &mut D) -> Halt {
        self.storage.reject(disks)
    }

    fn stands<D: Disks>(&self, disks: &D) {
        self.storage.stands(disks);
    }
}

impl<S: Storage + Drop> Engine<S> {
    /// It is given up where nothing is missing of the last line: the net that its commits have gone over since the last opening, where
    /// they go over messages.
    pub fn into_net<D: Disks>(self, disks: &D) -> Option<Net>
        requires able { S.able (D.view disks.now) self.storage }
        requires stands { IsTrue (D.view disks.now).told → (s : State) × ⟦<Engine<S> as Stepping>⟧.stands_for (D.view disks.now) self None s }
        ensures { (s : State) → ⟦<Engine<S> as Stepping>⟧.stands_for (D.view disks.now) self None s → result ≡ option_map (λ t. t.events) (net_told (S.asked self.storage) s.net) }
    {
        let Engine { storage, .. } = self;
        storage.into_net(disks)
    }

    /// Does a line: the trace of the engine and the story goes on by it and its whole segment. An error leaves a story that has gained
    /// a front of this segment, and an engine that is to be given up. Where the line is refused, no device is called.
    pub fn step<D: Disks, F: Fn(PlaceKind, &Key, u32) -> u32>(
        &mut self,
        disks: &mut D,
        place: &Placement<F>,
        line: &Line,
        story: &mut Story,
    ) -> Result<(), Halt>
        requires callable { TakesEachKey (F.pre place.now.place) }
        requires answers { GivesPlaceOf (F.post place.now.place) }
        requires served { IsServed line.now }
        requires key { HasKey (Tree line.now) }
        requires able { S.able (D.view disks.old) self.old.storage }
        requires stands { IsTrue (D.view disks.old).told → (start : Start) × (trace : Trace) × ServesTrace (⟦<Engine<S> as Stepping>⟧.stands_for (D.view disks.old) self.old) start story.old trace }
        ensures able { S.able (D.view disks.new) self.new.storage }
        ensures segment { OnOk result (GoesOn (⟦<Engine<S> as Stepping>⟧.stands_for (D.view disks.old) self.old) (⟦<Engine<S> as Stepping>⟧.stands_for (D.view disks.new) self.new) story.old (Tree line.now) story.new) }
        ensures broken_off { IfErr result (λ halt. BreaksOff (⟦<Engine<S> as Stepping>⟧.stands_for (D.view disks.old) self.old) (⟦<Engine<S> as Stepping>⟧.on_devices (D.view disks.new) self.new) (flight_of self.new.in_flight) halt story.old (Tree line.now) story.new) }
        ensures refused { (refusal : Refusal) → story.new ≡ story.old ++ Refused refusal ∷ [] → IsTrue (D.view disks.old).told → disks.new ≡ disks.old }
        ensures within { StaysWithin (S.asked self.old.storage) (S.asked self.new.storage) (D.view disks.old) (D.view disks.new) }
        ensures counts { CountsMore line.now (D.view disks.old) (D.view disks.new) (disk_err result) None story.old story.new }
    {
        salt_driver::step(self, disks, place, line, story)
    }
}
