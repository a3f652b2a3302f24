//! What stands over devices and is opened: at first, and anew behind each fall.

ghost use Rattle.salt_disk.specs.Disks.{View};
ghost use Rattle.salt_ast.specs.declared.lines.Line.TheVariants.{Nothing};
ghost use Rattle.law_states.specs.Laws.{is_of_run};
ghost use Rattle.law_states.specs.Points.{Moves, Point, Say};
ghost use Rattle.law_states.specs.States.{State};
ghost use Rattle.salt_model.specs.Kept.{schema_of};
ghost use Rattle.salt_model.specs.Phases.{Fallen};
ghost use Rattle.salt_model.specs.declared.events.Event.TheVariants.{Opened};
ghost use Rattle.salt_model.specs.declared.events.Event.{Event};
ghost use Rattle.salt_model.specs.declared.events.Flight.{Flight};
ghost use Rattle.salt_driver.specs.Counting.{CountsStops, armed_at, stops_armed};
ghost use Rattle.law_openings.specs.Draining.{statements_at};
ghost use Rattle.salt_driver.specs.Draining.{MayTick};
ghost use Rattle.salt_driver.specs.Opening.{IsFallenFrom, MayFailAt, OpensAt};
ghost use Rattle.salt_driver.specs.Standing.{BreaksAt, IsOfSegment, IsOpenedOn, IsOpeningAt, IsSoundPoint, WasTold};
ghost use Rattle.salt_storage.specs.Answers.{IsLater, disk_err, numbers_told, open_disk_err};
ghost use Rattle.salt_storage.specs.Netted.{net_told};
ghost use Rattle.salt_storage.specs.Staying.{StaysWithin};
ghost use Rattle.salt_storage.specs.Writing.{OfBoot, OfOpening};
ghost use Rattle.salt_storage.specs.declared.halt.Halt.TheVariants.{DeviceFull, Memory};
ghost use Rattle.salt_storage.specs.OpenErr.{OpenErr};
ghost use Rattle.salt_place.specs.Placement.{GivesPlaceOf, TakesEachKey};
ghost use Rattle.std.specs.Prelude.{Err, IfErr, IfOk, IsTrue, None, OnErr, OnOk, Option, Some, false, option_map, ℕ, [], ◌++◌, ◌+◌, ◌<◌, ◌∷◌, ◌≡◌};

use crate::engine::Stepping;
use salt_disk::Disks;
use salt_model::{Event, Flight, Story};
use salt_net::Net;
use salt_place::{PlaceKind, Placement};
use salt_schema::Schema;
use salt_storage::{Halt, OpenErr};
use salt_values::{Key, Steps};
use std::sync::ledger::Ledger;

/// What stands over devices, and is opened before it serves lines: behind a fall what the devices stand for is found first, and then
/// a boot begins, in which it goes on with what programs have left. After a `Halt` it falls, and is opened anew before it is asked
/// again; after want of memory it is not asked again.
pub trait Openable: Stepping {
    /// What its devices stand for is found.
    ghost is_found: { View → Self → Type 0 };

    /// What its devices stand for is found, or can be looked for: they are there, and nothing is pending on them.
    ghost settled: { View → Self → Type 0 };

    /// What is left of an opening, with this event at hand, as a number.
    ghost to_open: { Self → Option Event → ℕ };

    /// Finds behind a fall what its devices stand for. What is found already is not looked for again.
    fn find<D: Disks, F: Fn(PlaceKind, &Key, u32) -> u32>(
        &mut self,
        disks: &mut D,
        place: &Placement<F>,
    ) -> Result<(), OpenErr>
        requires callable { TakesEachKey (F.pre place.now.place) }
        requires answers { GivesPlaceOf (F.post place.now.place) }
        requires able { Self.able (D.view disks.old) self.old }
        requires settled { settled (D.view disks.old) self.old }
        requires down { IsTrue (D.view disks.old).told → (room : ℕ) × (p : Point) × IsSoundPoint p × (p.state.units.phase ≡ Fallen) × (Self.on_devices (D.view disks.old) self.old).can_reopen_at room p }
        ensures able { Self.able (D.view disks.new) self.new }
        ensures found { OnOk result (is_found (D.view disks.new) self.new) }
        ensures again { (result ≡ Err OpenErr.Memory → ⊥) → (room : ℕ) (p : Point) → IsSoundPoint p → p.state.units.phase ≡ Fallen → (Self.on_devices (D.view disks.old) self.old).can_reopen_at room p →
            (Self.on_devices (D.view disks.new) self.new).can_reopen_at room p }
        ensures stands { (room : ℕ) (p : Point) → IsSoundPoint p → p.state.units.phase ≡ Fallen → (Self.on_devices (D.view disks.old) self.old).can_reopen_at room p → (Self.on_devices (D.view disks.new) self.new).stands_for_kept (numbers_told result) room p }
        ensures later { IfErr result (λ e. (room : ℕ) (p : Point) → IsSoundPoint p → p.state.units.phase ≡ Fallen → (Self.on_devices (D.view disks.old) self.old).can_reopen_at room p → MayFailAt room p e) }
        ensures late { IfErr result IsLater }
        ensures flies { Self.flight self.new ≡ Self.flight self.old }
        ensures full { (dev : ℕ) → result ≡ Err (OpenErr.Full dev) → (Self.on_devices (D.view disks.new) self.new).fills_device OfOpening dev }
        ensures within { StaysWithin (Self.asked self.old) (Self.asked self.new) (D.view disks.old) (D.view disks.new) }
        ensures counts { CountsStops (D.view disks.old) (D.view disks.new) (open_disk_err result) [] 0 };

    /// Opens over what it has found, and tells that it has: a new boot begins. It gives the first event of the opening. An error leaves
    /// the story as it was.
    fn open<D: Disks>(&mut self, disks: &mut D, story: &mut Story) -> Result<Event, Halt>
        requires found { is_found (D.view disks.old) self.old }
        requires able { Self.able (D.view disks.old) self.old }
        requires down { IsTrue (D.view disks.old).told → (room : ℕ) × (p : Point) × IsSoundPoint p × (p.state.units.phase ≡ Fallen) × (Self.on_devices (D.view disks.old) self.old).can_reopen_at room p }
        ensures able { Self.able (D.view disks.new) self.new }
        ensures opens { IfOk result (λ next. (room : ℕ) (p : Point) → IsSoundPoint p → p.state.units.phase ≡ Fallen → (Self.on_devices (D.view disks.old) self.old).can_reopen_at room p →
            OpensAt (Self.stands_for (D.view disks.new) self.new) room p story.old next story.new) }
        ensures reopens { IfErr result (λ halt. (halt ≡ Memory → ⊥) → (room : ℕ) (p : Point) → IsSoundPoint p → p.state.units.phase ≡ Fallen → (Self.on_devices (D.view disks.old) self.old).can_reopen_at room p →
            (Self.on_devices (D.view disks.new) self.new).can_reopen_at (room + 1) p) }
        ensures stands { OnErr result ((room : ℕ) (p : Point) → IsSoundPoint p → p.state.units.phase ≡ Fallen → (Self.on_devices (D.view disks.old) self.old).can_reopen_at room p →
            (Self.on_devices (D.view disks.new) self.new).stands_for_kept None (room + 1) p) }
        ensures flies { OnErr result (Self.flight self.new ≡ Self.flight self.old) }
        ensures untold { OnErr result (story.new ≡ story.old) }
        ensures tells { OnOk result ((boot : ℕ) × (number : ℕ) × (story.new ≡ story.old ++ Opened boot number ∷ [])) }
        ensures plain { IfOk result (λ next. is_of_run next ≡ false) }
        ensures full { (dev : ℕ) → result ≡ Err (DeviceFull dev) → (Self.on_devices (D.view disks.new) self.new).fills_device OfBoot dev }
        ensures within { StaysWithin (Self.asked self.old) (Self.asked self.new) (D.view disks.old) (D.view disks.new) }
        ensures unarmed { IfOk result (λ next. stops_armed Nothing next ≡ []) }
        ensures counts { CountsStops (D.view disks.old) (D.view disks.new) (disk_err result) [] 0 };

    /// Tells what comes next in an opening, and gives what comes after it, none behind its end: a step where that is a statement, which
    /// is done then. An error leaves the story as it was, or with this event.
    fn go_on<D: Disks, F: Fn(PlaceKind, &Key, u32) -> u32, L: Ledger>(
        &mut self,
        disks: &mut D,
        place: &Placement<F>,
        event: Event,
        story: &mut Story,
        steps: &mut Steps<L>,
    ) -> Result<Option<Event>, Halt>
        requires callable { TakesEachKey (F.pre place.now.place) }
        requires answers { GivesPlaceOf (F.post place.now.place) }
        requires able { Self.able (D.view disks.old) self.old }
        requires stands { IsTrue (D.view disks.old).told → (p : Point) × IsSoundPoint p × IsOpeningAt (Self.stands_for (D.view disks.old) self.old) (Some event) p }
        requires plain { is_of_run event ≡ false }
        ensures able { Self.able (D.view disks.new) self.new }
        ensures moves { IfOk result (λ next. (p : Point) → IsSoundPoint p → IsOpeningAt (Self.stands_for (D.view disks.old) self.old) (Some event) p →
            (q : Point) × Moves (Say event) p q × IsOpenedOn (Self.stands_for (D.view disks.new) self.new) next q) }
        ensures tells { OnOk result (story.new ≡ story.old ++ event ∷ []) }
        ensures halts { IfErr result (λ halt. (p : Point) → IsSoundPoint p → IsOpeningAt (Self.stands_for (D.view disks.old) self.old) (Some event) p →
            BreaksAt (Self.on_devices (D.view disks.new) self.new) (Self.flight self.new) halt p event story.old story.new) }
        ensures ticks { IfOk result (λ next. (p : Point) → IsSoundPoint p → IsOpeningAt (Self.stands_for (D.view disks.old) self.old) (Some event) p → steps.new ≡ steps.old + statements_at next) }
        ensures short { OnErr result ((p : Point) → IsSoundPoint p → IsOpeningAt (Self.stands_for (D.view disks.old) self.old) (Some event) p →
            MayTick p event story.old story.new steps.old steps.new) }
        ensures broken { IfErr result (λ halt. WasTold halt event story.old story.new) }
        ensures less { IfOk result (λ next. IsTrue (D.view disks.old).told → to_open self.new next < to_open self.old (Some event)) }
        ensures plain { IfOk result IsOfSegment }
        ensures within { StaysWithin (Self.asked self.old) (Self.asked self.new) (D.view disks.old) (D.view disks.new) }
        ensures unarmed { IfOk result (λ next. armed_at Nothing next ≡ []) }
        ensures counts { CountsStops (D.view disks.old) (D.view disks.new) (disk_err result) [] 0 };

    /// Falls: the devices are started again.
    fn fall<D: Disks>(&mut self, disks: &mut D)
        requires { Self.able (D.view disks.old) self.old }
        ensures able { Self.able (D.view disks.new) self.new }
        ensures reopens { (room : ℕ) (p q : Point) → (Self.on_devices (D.view disks.old) self.old).can_reopen_at room p → IsFallenFrom p q → (Self.on_devices (D.view disks.new) self.new).can_reopen_at room q }
        ensures settled { settled (D.view disks.new) self.new }
        ensures flies { Self.flight self.new ≡ Self.flight self.old }
        ensures within { StaysWithin (Self.asked self.old) (Self.asked self.new) (D.view disks.old) (D.view disks.new) }
        ensures faults { (D.view disks.new).faults ≡ (D.view disks.old).faults }
        ensures stops { (D.view disks.new).armed ≡ (D.view disks.old).armed };

    /// The tables that are defined, unless memory ran out.
    fn schema<D: Disks>(&self, disks: &D) -> &Schema
        requires able { Self.able (D.view disks.now) self.now }
        ensures serves { (p : Point) → IsSoundPoint p → Self.stands_for (D.view disks.now) self.now None p.state → result.now ≡ schema_of p.state.units.kept }
        ensures down { (room : ℕ) (p : Point) → IsSoundPoint p → (Self.on_devices (D.view disks.now) self.now).can_reopen_at room p → result.now ≡ schema_of p.state.units.kept };

    /// It is given up: what was in flight where it was broken off.
    fn flight(self) -> Option<Flight>
        ensures { result ≡ Self.flight self };

    /// It is given up where nothing is missing of the last line: the net that its commits have gone over since the last opening, where
    /// they go over messages.
    fn into_net<D: Disks>(self, disks: &D) -> Option<Net>
        requires able { Self.able (D.view disks.now) self }
        requires stands { IsTrue (D.view disks.now).told → (s : State) × Self.stands_for (D.view disks.now) self None s }
        ensures { (s : State) → Self.stands_for (D.view disks.now) self None s → result ≡ option_map (λ t. t.events) (net_told (Self.asked self) s.net) };
}
