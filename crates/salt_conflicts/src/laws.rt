//! The laws, each on a function that does nothing: of the events that are no call, and of what calls and queries take of a watch.

ghost use Rattle.law_states.specs.KeptWaits.{AreDistinct, Asker};
ghost use Rattle.law_states.specs.Laws.{IsSound};
ghost use Rattle.law_states.specs.Readings.{WatchReading};
ghost use Rattle.law_states.specs.UnitFacts.{UnitFacts};
ghost use Rattle.law_states.specs.WatchSteps.{WatchBy};
ghost use Rattle.law_states.specs.Watches.{Watch, Watches};
ghost use Rattle.salt_model.specs.Trace.{Trace};
ghost use Rattle.salt_model.specs.declared.events.Event.{Event};
ghost use Rattle.salt_model.specs.declared.events.Event.TheVariants.{Finished};
ghost use Rattle.salt_values.specs.declared.id.Id.{Id};
ghost use Rattle.salt_conflicts.specs.Watched.{IsFinishing, IsOfNoWatch, IsWatch};
ghost use Rattle.salt_conflicts.specs.declared.watching.Watching.{Watching};
ghost use Rattle.std.specs.Prelude.{map};

/// An event that is of no lock, wait or program leaves a watch as it is.
pub fn other_events_leave_the_watch()
    ensures { (w : Watch) (f : UnitFacts) (e : Event) → IsOfNoWatch e → WatchBy f e w w }
{}

/// When a program's end is told, only its mark is wanting, which is set as the releases are asked for.
pub fn finishes_are_marked()
    ensures { (x : Watching) (w : Watch) (f : UnitFacts) (b : Id) → IsWatch x w → (new : Watch) × WatchBy f (Finished b) w new × IsFinishing b x new }
{}

/// What is kept of a trace that is played can be read.
pub fn readings_are_there()
    ensures { (w : Watch) (trace : Trace) → Watches w trace → IsSound trace → WatchReading w }
{}

/// No unit waits twice.
pub fn waiting_units_are_distinct()
    ensures { (w : Watch) (trace : Trace) → Watches w trace → AreDistinct (map (λ (a : Asker). a.unit) w.waits) }
{}
