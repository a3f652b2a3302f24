//! The laws, each on a function that does nothing.

ghost use Rattle.law_states.specs.Follows.{opened_in, opening_in, unit_of};
ghost use Rattle.law_states.specs.Keeps.{KeepsUnits};
ghost use Rattle.law_states.specs.Laws.{IsSound, is_of_run};
ghost use Rattle.law_states.specs.Nexts.{said_next};
ghost use Rattle.law_states.specs.OpenUnits.{UnitState};
ghost use Rattle.law_states.specs.Points.{IsIdle, KeepsPoint, TraceStep, Point, Runs, Says, point_of, told_by};
ghost use Rattle.law_states.specs.Readings.{WatchReading};
ghost use Rattle.law_states.specs.States.{After, Keeps, State, started};
ghost use Rattle.law_states.specs.Steps.{units_after};
ghost use Rattle.salt_model.specs.After.{kept};
ghost use Rattle.salt_model.specs.Everywhere.{Always};
ghost use Rattle.salt_model.specs.Kept.{WellKept, programs_of};
ghost use Rattle.salt_model.specs.Next.{decision_in};
ghost use Rattle.salt_model.specs.Phases.{Fallen, Opening, Serving, phase};
ghost use Rattle.salt_model.specs.Stops.{MayOpen};
ghost use Rattle.salt_model.specs.Trace.{Start, Trace, from, start_of, ◌says◌};
ghost use Rattle.salt_model.specs.declared.events.Event.{Event};
ghost use Rattle.salt_model.specs.declared.events.Event.TheVariants.{Down, Early, Opened, Ready};
ghost use Rattle.salt_model.specs.declared.events.Why.TheVariants.{Stopped};
ghost use Rattle.salt_model.specs.declared.events.Why.{Why};
ghost use Rattle.salt_model.specs.Words.{Every};
ghost use Rattle.law_openings.specs.Draining.{CanDrain, IsBehindFlight, LeadsOn, Stands, defined_in, left_to_open, rests_behind, statements_left};
ghost use Rattle.salt_model.specs.Rests.{DoesItsRests, done_since_opened, rests_of, statements_in, statements_told};
ghost use Rattle.law_openings.specs.Openings.{FallsAgain, FallsInOpening, Leaves, Opens};
ghost use Rattle.salt_values.specs.declared.id.Id.{Id};
ghost use Rattle.std.specs.Prelude.{IsSome, List, None, Option, Some, [], false, true, ℕ, ◌+◌, ◌<◌, ◌≡◌, ◌≤◌, ◌⊎◌};

/// A run begins at its start, falls in an opening and while it is down, is opened, and is idle behind its Ready, or its Early; until
/// then `go all` has nothing left to turn to.
pub fn openings_go_on()
    ensures start { (k : Start) → WellKept k.kept →
        KeepsPoint (record { state = started k; next = None; flight = None }) (from k) × IsSound (from k) }
    ensures falls { (old new : Point) (trace : Trace) (e : Event) → KeepsPoint old (trace says e) → IsSound (trace says e) →
        is_of_run e ≡ false → FallsInOpening old new →
        KeepsPoint new (trace says e says Event.Down Stopped) × IsSound (trace says e says Event.Down Stopped) }
    ensures falls_again { (old new : Point) (trace : Trace) → KeepsPoint old trace → IsSound trace → FallsAgain old new →
        KeepsPoint new (trace says Event.Down Stopped) × IsSound (trace says Event.Down Stopped) }
    ensures opens { (boot n : ℕ) (old new : Point) (trace : Trace) → KeepsPoint old trace → IsSound trace →
        MayOpen Fallen trace boot n → Opens boot n old new →
        KeepsPoint new (trace says Opened boot n) × IsSound (trace says Opened boot n) }
    ensures ready { (old new : Point) (trace : Trace) → KeepsPoint old trace → IsSound trace → Says Ready old new → IsIdle new }
    ensures early { (bs : List Id) (old new : Point) (trace : Trace) → KeepsPoint old trace → IsSound trace → Says (Early bs) old new →
        IsIdle new }
    ensures none_to_go { (s : UnitState) (trace : Trace) → KeepsUnits s trace → IsSound trace →
        (s.phase ≡ Fallen) ⊎ (s.phase ≡ Opening) → s.to_go ≡ [] }
{}

/// Each trace that is played moves its own point: each fall outside serving is a stop and one of these, and so is each
/// Opened. So the moves of openings leave none out.
pub fn traces_open_their_points()
    ensures stops { (trace : Trace) (why : Why) → IsSound (trace says Event.Down why) → (phase trace ≡ Serving → ⊥) → why ≡ Stopped }
    ensures falls { (trace : Trace) → IsSound (trace says Event.Down Stopped) → phase trace ≡ Opening →
        FallsInOpening (point_of trace) (point_of (trace says Event.Down Stopped)) }
    ensures falls_again { (trace : Trace) → IsSound (trace says Event.Down Stopped) → phase trace ≡ Fallen →
        FallsAgain (point_of trace) (point_of (trace says Event.Down Stopped)) }
    ensures opens { (trace : Trace) (boot n : ℕ) → IsSound (trace says Opened boot n) →
        MayOpen Fallen trace boot n × Opens boot n (point_of trace) (point_of (trace says Opened boot n)) }
{}

/// What follows an event of an opening is told by the states of units alone.
pub fn openings_tell_what_follows()
    ensures said { (e : Event) (old new : State) (x : WatchReading new.watch) (flight : Option Event) → is_of_run e ≡ false →
        new.units.phase ≡ Opening →
        said_next e old new x flight ≡ opening_in new.units e (unit_of e old.units new.units) }
    ensures opened { (boot n : ℕ) (old new : State) (x : WatchReading new.watch) (flight : Option Event) →
        said_next (Opened boot n) old new x flight ≡ opened_in new.units n flight }
{}

/// In an opening something comes next, until it is ready or ends early.
pub fn drains_never_rest()
    ensures { (p : Point) (trace : Trace) → KeepsPoint p trace → IsSound trace → p.state.units.phase ≡ Opening →
        CanDrain p.state.units.kept → IsSome p.next }
{}

/// What is left of an opening falls with each event, so it comes to its end: its Ready, or its Early.
pub fn openings_end()
    ensures { (e : Event) (old new : State) (x : WatchReading new.watch) (flight : Option Event) (trace : Trace) →
        is_of_run e ≡ false → old.units.phase ≡ Opening → Keeps old trace → IsSound (trace says e) →
        CanDrain new.units.kept → After e old new →
        left_to_open new.units (said_next e old new x flight) < left_to_open old.units (Some e) }
{}

/// The same from point to point, without a trace, by how the units stand behind the event that came last. In a played
/// trace they stand so.
pub fn drains_go_on()
    ensures stands { (s : UnitState) (trace : Trace) (e : Event) → KeepsUnits s (trace says e) → IsSound (trace says e) →
        s.phase ≡ Opening → Stands s e }
    ensures opens { (boot n : ℕ) (f : Event) (old new : Point) → Opens boot n old new → Stands new.state.units (Opened boot n) →
        decision_in old.flight ≡ old.flight → new.next ≡ Some f → Stands (units_after f new.state.units) f }
    ensures says { (e f : Event) (old new : Point) → Says e old new → is_of_run e ≡ false → new.state.units.phase ≡ Opening →
        Stands new.state.units e → new.next ≡ Some f → Stands (units_after f new.state.units) f }
    ensures comes { (e : Event) (old new : Point) → Says e old new → is_of_run e ≡ false → new.state.units.phase ≡ Opening →
        Stands new.state.units e → CanDrain new.state.units.kept → IsSome new.next }
    ensures falls { (e : Event) (old new : Point) → Says e old new → is_of_run e ≡ false → new.state.units.phase ≡ Opening →
        Stands new.state.units e → CanDrain new.state.units.kept →
        left_to_open new.state.units new.next < left_to_open old.state.units old.next }
    ensures ready { (old new : Point) → Says Ready old new →
        left_to_open new.state.units new.next < left_to_open old.state.units old.next }
    ensures early { (bs : List Id) (old new : Point) → Says (Early bs) old new →
        left_to_open new.state.units new.next < left_to_open old.state.units old.next }
{}

/// Behind the decision in flight an opening does no more statements than the rests of its continuations tell; with the one at hand,
/// and from what comes next on, whatever was in flight.
pub fn drains_do_their_rests()
    ensures one { (e : Event) (s : UnitState) (trace : Trace) → KeepsUnits s trace → IsSound (trace says e) → is_of_run e ≡ false →
        s.phase ≡ Opening → IsBehindFlight trace (Some e) → CanDrain s.kept →
        statements_left (units_after e s) + statements_in e ≤ statements_left s }
    ensures all { (ms : List TraceStep) (old new : Point) (trace : Trace) → KeepsPoint old trace → IsSound trace →
        CanDrain old.state.units.kept → old.state.units.phase ≡ Opening → IsBehindFlight trace old.next → Runs old ms new →
        new.state.units.phase ≡ Opening →
        statements_left new.state.units + statements_told (told_by ms) ≤ statements_left old.state.units }
    ensures next { (ms : List TraceStep) (old new : Point) (trace : Trace) (first e : Event) → KeepsPoint old trace → IsSound trace →
        old.state.units.phase ≡ Opening → old.next ≡ Some first → CanDrain (units_after first old.state.units).kept → Runs old ms new →
        new.state.units.phase ≡ Opening → new.next ≡ Some e →
        statements_told (told_by ms) + statements_in e ≤ rests_behind first old.state.units + statements_in first }
    ensures most { (s : UnitState) → statements_left s ≤ rests_of (programs_of s.kept) s.kept.conts }
{}

/// In each opening of a played trace no more statements are told than the programs that it found had left, where what is kept can be
/// drained everywhere.
pub fn openings_do_their_rests()
    ensures { (trace : Trace) → IsSound trace → Always (λ t. CanDrain (kept t)) trace → Always DoesItsRests trace }
{}

/// Where openings may be early, they do no statement: what goes on is left to the lines behind them.
pub fn early_openings_do_no_statement()
    ensures one { (e : Event) (s : UnitState) (trace : Trace) → KeepsUnits s (trace says e) → IsSound (trace says e) →
        s.phase ≡ Opening → s.early ≡ true → statements_in e ≡ 0 }
    ensures all { (trace : Trace) → IsSound trace → (start_of trace).early ≡ true →
        Always (λ t. phase t ≡ Opening → done_since_opened t ≡ 0) trace }
{}

/// What can be drained stays so with each event of a run, where the programs that it defines lead on.
pub fn what_can_be_drained_stays()
    ensures { (s : UnitState) (trace : Trace) (e : Event) → KeepsUnits s trace → IsSound (trace says e) → CanDrain s.kept →
        Every LeadsOn (defined_in s e) → CanDrain (units_after e s).kept }
{}

/// Behind each event of a played trace there is a state, whatever the event is: the units compute, and what is watched is
/// there. An engine that keeps no watch in an opening tells its units by it.
pub fn events_leave_a_state()
    ensures { (s : State) (trace : Trace) (e : Event) → Keeps s trace → IsSound trace → Leaves e s }
{}
