//! What an engine does at a line, at a turn behind a line and at an event.

ghost use Rattle.salt_ast.specs.declared.lines.Line.TheVariants.{Nothing};
ghost use Rattle.salt_ast.specs.declared.lines.Line.{Line};
ghost use Rattle.salt_disk.specs.Disks.{HasCause, View};
ghost use Rattle.law_states.specs.Laws.{is_of_run};
ghost use Rattle.law_states.specs.Nexts.{next_turn_of};
ghost use Rattle.law_states.specs.Points.{Ask, Moves, Point, Say, Turn};
ghost use Rattle.law_states.specs.States.{State};
ghost use Rattle.salt_model.specs.Trace.{Rejected, Tree};
ghost use Rattle.salt_model.specs.declared.events.Event.TheVariants.{Refused};
ghost use Rattle.salt_model.specs.declared.events.Event.{Event};
ghost use Rattle.salt_model.specs.declared.events.Flight.{Flight};
ghost use Rattle.salt_model.specs.declared.events.Refusal.{Refusal};
ghost use Rattle.salt_driver.specs.Counting.{CountsStops, armed_at, armed_told};
ghost use Rattle.salt_driver.specs.Devices.{OnDevices};
ghost use Rattle.salt_driver.specs.Standing.{BreaksAt, HaltsAt, IsAt, IsIdleAt, IsOfSegment, IsSoundPoint, RunsShort, WasTold, left_to_come};
ghost use Rattle.salt_storage.specs.Answers.{disk_err, disk_err_of};
ghost use Rattle.salt_storage.specs.Staying.{Setup, StaysWithin};
ghost use Rattle.salt_storage.specs.declared.found.Numbers.{Numbers};
ghost use Rattle.salt_storage.specs.declared.halt.Halt.TheVariants.{DiskFault};
ghost use Rattle.salt_place.specs.Placement.{GivesPlaceOf, TakesEachKey};
ghost use Rattle.salt_values.specs.declared.id.Id.{Id};
ghost use Rattle.std.specs.Prelude.{IfErr, IfOk, IsTrue, List, None, Ok, OnOk, Option, Some, false, ℕ, [], ◌++◌, ◌+◌, ◌<◌, ◌∷◌, ◌≡◌, ◌≤◌, ◌⊎◌};

use salt_ast::Line;
use salt_disk::Disks;
use salt_model::{Event, Flight, Refusal, Story};
use salt_place::{PlaceKind, Placement};
use salt_storage::Halt;
use salt_values::{Id, Key};

/// An engine over devices, by what it does at each move of a run. It has moved by an event already when it gives it as what comes
/// next: `say` tells this event, and moves by the one after it. The line that is being done is lent to each call. After a `Halt`
/// it falls, and is opened anew before it is asked again; after want of memory it is not asked again. What it stands for is said
/// of disks that tell alone; over others each call may be made all the same.
pub trait Stepping {
    /// Whatever the disks tell, it can be called on them, and falls by a call: its devices are there.
    ghost able: { View → Self → Type 0 };

    /// With the event at hand it stands for the state before that event.
    ghost stands_for: { View → Self → Option Event → State → Type 0 };

    /// What is left on its devices: where it can be opened, and what they stand for behind a stop.
    ghost on_devices: { View → Self → OnDevices };

    /// What was in flight where it was broken off.
    ghost flight: { Self → Option Flight };

    /// The shape that its devices are asked for, and whether its commits go over messages.
    ghost asked: { Self → Setup };

    /// Its waiting units, behind the event at hand.
    ghost waiting: { Self → List Id };

    /// How many turns may still come behind the line: those of `go all`, and one that is owed.
    ghost turns: { Self → ℕ };

    /// The lines that it can be asked.
    ghost serves: { Line → Type 0 };

    /// Begins a line, and gives its first event.
    fn ask<D: Disks, F: Fn(PlaceKind, &Key, u32) -> u32>(
        &mut self,
        disks: &mut D,
        place: &Placement<F>,
        line: &Line,
    ) -> Result<Option<Event>, Halt>
        requires callable { TakesEachKey (F.pre place.now.place) }
        requires answers { GivesPlaceOf (F.post place.now.place) }
        requires served { serves line.now }
        requires able { able (D.view disks.old) self.old }
        requires stands { IsTrue (D.view disks.old).told → (p : Point) × IsSoundPoint p × IsIdleAt (stands_for (D.view disks.old) self.old) p }
        ensures able { able (D.view disks.new) self.new }
        ensures moves { IfOk result (λ next. (p : Point) → IsSoundPoint p → IsIdleAt (stands_for (D.view disks.old) self.old) p →
            (q : Point) × Moves (Ask (Tree line.now)) p q × IsAt (stands_for (D.view disks.new) self.new) line.now next q) }
        ensures refused { (refusal : Refusal) → result ≡ Ok (Some (Refused refusal)) → IsTrue (D.view disks.old).told → disks.new ≡ disks.old }
        ensures plain { IfOk result IsOfSegment }
        ensures halts { IfErr result (λ halt. (p : Point) → IsSoundPoint p → IsIdleAt (stands_for (D.view disks.old) self.old) p →
            RunsShort (on_devices (D.view disks.new) self.new) (flight self.new) halt p ⊎
            ((q : Point) × Moves (Ask (Tree line.now)) p q × HaltsAt (on_devices (D.view disks.new) self.new) (flight self.new) halt q)) }
        ensures within { StaysWithin (asked self.old) (asked self.new) (D.view disks.old) (D.view disks.new) }
        ensures counts { CountsStops (D.view disks.old) (D.view disks.new) (disk_err result) (armed_told line.now result) 0 };

    /// Begins a line whose text is refused, and gives its first event.
    fn ask_rejected<D: Disks>(
        &mut self,
        disks: &mut D,
        refusal: Refusal,
    ) -> Result<Option<Event>, Halt>
        requires able { able (D.view disks.old) self.old }
        requires stands { IsTrue (D.view disks.old).told → (p : Point) × IsSoundPoint p × IsIdleAt (stands_for (D.view disks.old) self.old) p }
        ensures able { able (D.view disks.new) self.new }
        ensures unwritten { IsTrue (D.view disks.old).told → disks.new ≡ disks.old }
        ensures plain { IfOk result IsOfSegment }
        ensures moves { IfOk result (λ next. (p : Point) → IsSoundPoint p → IsIdleAt (stands_for (D.view disks.old) self.old) p →
            (q : Point) × Moves (Ask (Rejected refusal)) p q × IsAt (stands_for (D.view disks.new) self.new) Nothing next q) }
        ensures halts { IfErr result (λ halt. (p : Point) → IsSoundPoint p → IsIdleAt (stands_for (D.view disks.old) self.old) p →
            RunsShort (on_devices (D.view disks.new) self.new) (flight self.new) halt p ⊎
            ((q : Point) × Moves (Ask (Rejected refusal)) p q × HaltsAt (on_devices (D.view disks.new) self.new) (flight self.new) halt q)) }
        ensures within { StaysWithin (asked self.old) (asked self.new) (D.view disks.old) (D.view disks.new) }
        ensures counts { CountsStops (D.view disks.old) (D.view disks.new) (disk_err result) (armed_told Nothing result) 0 };

    /// The program whose turn behind the line comes next.
    fn next_turn<D: Disks>(&self, disks: &D) -> Option<Id>
        ensures { (p : Point) → IsSoundPoint p → stands_for (D.view disks.now) self.now None p.state → result ≡ next_turn_of p.state };

    /// Turns to it, and gives the first event of the turn.
    fn turn<D: Disks, F: Fn(PlaceKind, &Key, u32) -> u32>(
        &mut self,
        disks: &mut D,
        place: &Placement<F>,
        line: &Line,
        base: Id,
    ) -> Result<Option<Event>, Halt>
        requires callable { TakesEachKey (F.pre place.now.place) }
        requires answers { GivesPlaceOf (F.post place.now.place) }
        requires able { able (D.view disks.old) self.old }
        requires stands { IsTrue (D.view disks.old).told → (p : Point) × IsSoundPoint p × IsAt (stands_for (D.view disks.old) self.old) line.now None p × (next_turn_of p.state ≡ Some base) }
        ensures able { able (D.view disks.new) self.new }
        ensures moves { IfOk result (λ next. (p : Point) → IsSoundPoint p → IsAt (stands_for (D.view disks.old) self.old) line.now None p → next_turn_of p.state ≡ Some base →
            (q : Point) × Moves (Turn base) p q × IsAt (stands_for (D.view disks.new) self.new) line.now next q) }
        ensures halts { IfErr result (λ halt. (p : Point) → IsSoundPoint p → IsAt (stands_for (D.view disks.old) self.old) line.now None p → next_turn_of p.state ≡ Some base →
            RunsShort (on_devices (D.view disks.new) self.new) (flight self.new) halt p ⊎
            ((q : Point) × Moves (Turn base) p q × HaltsAt (on_devices (D.view disks.new) self.new) (flight self.new) halt q)) }
        ensures fewer { OnOk result (IsTrue (D.view disks.old).told → turns self.new < turns self.old) }
        ensures plain { IfOk result IsOfSegment }
        ensures within { StaysWithin (asked self.old) (asked self.new) (D.view disks.old) (D.view disks.new) }
        ensures counts { CountsStops (D.view disks.old) (D.view disks.new) (disk_err result) (armed_told line.now result) 0 };

    /// Tells what comes next, and gives what comes after it. An error leaves the story as it was, or with this event.
    fn say<D: Disks, F: Fn(PlaceKind, &Key, u32) -> u32>(
        &mut self,
        disks: &mut D,
        place: &Placement<F>,
        line: &Line,
        event: Event,
        story: &mut Story,
    ) -> Result<Option<Event>, Halt>
        requires callable { TakesEachKey (F.pre place.now.place) }
        requires answers { GivesPlaceOf (F.post place.now.place) }
        requires able { able (D.view disks.old) self.old }
        requires stands { IsTrue (D.view disks.old).told → (p : Point) × IsSoundPoint p × IsAt (stands_for (D.view disks.old) self.old) line.now (Some event) p }
        requires plain { is_of_run event ≡ false }
        ensures able { able (D.view disks.new) self.new }
        ensures moves { IfOk result (λ next. (p : Point) → IsSoundPoint p → IsAt (stands_for (D.view disks.old) self.old) line.now (Some event) p →
            (q : Point) × Moves (Say event) p q × IsAt (stands_for (D.view disks.new) self.new) line.now next q) }
        ensures tells { OnOk result (story.new ≡ story.old ++ event ∷ []) }
        ensures broken { IfErr result (λ halt. WasTold halt event story.old story.new) }
        ensures refused { (refusal : Refusal) → event ≡ Refused refusal → IsTrue (D.view disks.old).told → disks.new ≡ disks.old }
        ensures plain { IfOk result IsOfSegment }
        ensures unarmed { IfOk result (λ next. armed_at line.now next ≡ []) }
        ensures halts { IfErr result (λ halt. (p : Point) → IsSoundPoint p → IsAt (stands_for (D.view disks.old) self.old) line.now (Some event) p →
            BreaksAt (on_devices (D.view disks.new) self.new) (flight self.new) halt p event story.old story.new) }
        ensures less { IfOk result (λ next. IsTrue (D.view disks.old).told → left_to_come (waiting self.new) next < left_to_come (waiting self.old) (Some event)) }
        ensures turns { OnOk result (IsTrue (D.view disks.old).told → turns self.new ≤ turns self.old) }
        ensures within { StaysWithin (asked self.old) (asked self.new) (D.view disks.old) (D.view disks.new) }
        ensures counts { CountsStops (D.view disks.old) (D.view disks.new) (disk_err result) (armed_told line.now result) 0 };

    /// What comes of it fits nothing that was asked, so the disks gave what was not written: a fault is counted.
    fn reject<D: Disks>(&self, disks: &mut D) -> Halt
        requires untold { (D.view disks.old).told ≡ false }
        requires able { able (D.view disks.old) self.now }
        ensures halt { result ≡ DiskFault }
        ensures able { able (D.view disks.new) self.now }
        ensures within { StaysWithin (asked self.now) (asked self.now) (D.view disks.old) (D.view disks.new) }
        ensures cause { HasCause (D.view disks.old) (D.view disks.new) (Some (disk_err_of result)) };

    /// A law: what it stands for is said of disks that tell; between lines it can be opened anew, and nothing is in flight; where it
    /// can be opened, what is left of its devices stands; and so it does where numbers are told.
    fn stands<D: Disks>(&self, disks: &D)
        ensures of_told { (next : Option Event) (s : State) → stands_for (D.view disks.now) self.now next s → IsTrue (D.view disks.now).told }
        ensures idle { (p : Point) → IsSoundPoint p → IsIdleAt (stands_for (D.view disks.now) self.now) p → (on_devices (D.view disks.now) self.now).can_reopen_at 0 p }
        ensures flown { (p : Point) → IsSoundPoint p → IsIdleAt (stands_for (D.view disks.now) self.now) p → flight self.now ≡ None }
        ensures reopens { (room : ℕ) (p : Point) → (on_devices (D.view disks.now) self.now).can_reopen_at room p → (on_devices (D.view disks.now) self.now).stands_for_kept None room p }
        ensures told { (numbers : Numbers) (room : ℕ) (p : Point) → (on_devices (D.view disks.now) self.now).stands_for_kept (Some numbers) room p →
            (on_devices (D.view disks.now) self.now).stands_for_kept None room p };
}
