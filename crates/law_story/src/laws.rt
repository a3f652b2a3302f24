//! The laws, each on a function that does nothing. `IsPlayed` (salt_model, specs/Played.antt) is a trace that a
//! run may tell; `WellKept` is what a start has to be, and the empty one is.

ghost use Rattle.salt_model.specs.After.{kept};
ghost use Rattle.salt_model.specs.Arming.{armed_behind, armed_by_lines};
ghost use Rattle.salt_model.specs.AsDeclared.{IsDeclared};
ghost use Rattle.salt_model.specs.Continuing.{IsContinued, UsesTry};
ghost use Rattle.salt_model.specs.Decided.{IsKept};
ghost use Rattle.salt_model.specs.Ends.{kept_with};
ghost use Rattle.salt_model.specs.Honest.{IsHonest};
ghost use Rattle.salt_model.specs.Isolation.{IsSalted, IsWhole};
ghost use Rattle.salt_model.specs.Kept.{AreTriesWithin, WellKept};
ghost use Rattle.salt_model.specs.Locks.{NoneConflict, held};
ghost use Rattle.salt_model.specs.Trace.{Trace, from, start_of, story_of};
ghost use Rattle.salt_model.specs.Next.{flight};
ghost use Rattle.salt_model.specs.Played.{IsPlayed};
ghost use Rattle.salt_model.specs.Everywhere.{Always, Each};
ghost use Rattle.salt_model.specs.Releasing.{ReleasesExactly};
ghost use Rattle.law_story.specs.AsEver.{IsAsEver};
ghost use Rattle.law_story.specs.ContNames.{AreNamed};
ghost use Rattle.law_story.specs.Cycles.{IsRightVictim};
ghost use Rattle.law_story.specs.Rewordings.{SourcesAreReadThrough, WritersAreLast, WritesAtEnd};
ghost use Rattle.salt_model.specs.Waiting.{victim};
ghost use Rattle.std.specs.Prelude.{List, Some, false, ℕ, ◌≡◌};

/// The answers printed for each unit are those of doing its statements one after another on the tables of
/// the commits so far; a failed answer is its last, and its end says so.
pub fn played_is_honest()
    ensures { (trace : Trace) → IsPlayed trace → IsHonest trace }
{}

/// What an ACID unit touches of a BASE program's open and committed parts, it touches when the program is
/// released: from each start whose openings are not early, and from each that is well kept.
pub fn played_is_whole()
    ensures late { (trace : Trace) → IsPlayed trace → (start_of trace).early ≡ false → IsWhole trace }
    ensures early { (trace : Trace) → IsPlayed trace → WellKept (start_of trace).kept → IsWhole trace }
{}

/// At every place, no two held locks of different owners overlap of which one writes, but for an alkaline
/// lock beside a saline one, and two saline locks.
pub fn held_locks_stand_together()
    ensures { (trace : Trace) → IsPlayed trace → Always (λ t. NoneConflict (held t)) trace }
{}

/// What an ACID unit reads comes, by any chain of readers, from no BASE program that is not released.
pub fn played_is_salted()
    ensures { (trace : Trace) → IsPlayed trace → WellKept (start_of trace).kept → IsSalted trace }
{}

/// A release comes exactly when programs are due, and names exactly those that are finished with all that
/// they read from, and not yet released.
pub fn played_releases_exactly()
    ensures { (trace : Trace) → IsPlayed trace → WellKept (start_of trace).kept → ReleasesExactly trace }
{}

/// Each accepted BASE program goes along its declared path, and each opening that is completed brings every
/// one of them to its end.
pub fn played_is_continued()
    ensures { (trace : Trace) → IsPlayed trace → WellKept (start_of trace).kept → IsContinued trace }
{}

/// Decisions are numbered one by one, through every stop. Of units of earlier boots nothing is told but the
/// decision in flight, directly after its opened, and then their cuts in order of names.
pub fn played_is_kept()
    ensures { (trace : Trace) → IsPlayed trace → WellKept (start_of trace).kept → IsKept trace }
{}

/// What is kept after a trace, with the flight or without, is as a start has to be: a next run may begin with it.
pub fn kept_stays_well_kept()
    ensures { (trace : Trace) → IsPlayed trace → WellKept (start_of trace).kept → WellKept (kept trace) × WellKept (kept_with trace (flight trace)) }
{}

/// At every place, each accepted BASE program has no more tries left than the part at which it stands is tried again, and each
/// failure uses one: while there are some, the program stays at its part.
pub fn tries_are_counted()
    ensures within { (trace : Trace) → IsPlayed trace → WellKept (start_of trace).kept → Always (λ t. AreTriesWithin (kept t)) trace }
    ensures used { (trace : Trace) → IsPlayed trace → WellKept (start_of trace).kept → Each UsesTry trace }
{}

/// The keys that a committed unit wrote, each as its statement was done, are those that its changes name
/// when all of them are done anew at its commit.
pub fn changes_are_those_written()
    ensures { (trace : Trace) → IsPlayed trace → WellKept (start_of trace).kept → Each WritesAtEnd trace }
{}

/// The sources of a BASE program are the programs that it reads through, directly or through programs, and itself.
pub fn sources_are_read_through()
    ensures { (trace : Trace) → IsPlayed trace → WellKept (start_of trace).kept → SourcesAreReadThrough trace }
{}

/// There is a victim exactly where a waiting unit waits for itself, through others or at once. It is such a unit:
/// an ACID one if there is one, and of those the one with the greatest name.
pub fn victim_is_youngest_on_cycle()
    ensures { (trace : Trace) → IsRightVictim trace (victim trace) }
{}

/// The units that are read from in a reach are those that wrote a key of it last.
pub fn writers_are_last()
    ensures { (trace : Trace) → WritersAreLast trace }
{}

/// Each statement done is the declared one: the next of its program's block, as the program is kept, or what a
/// line of its session asks. A unit that a statement's line began does that one and no other, and a unit commits
/// when it has done all that is declared.
pub fn played_is_declared()
    ensures { (trace : Trace) → IsPlayed trace → WellKept (start_of trace).kept → IsDeclared trace }
{}

/// From a start whose openings are not early no program is named, covered, left out or freed by one: what is held,
/// released, due, next to go and taken is said without them.
pub fn late_openings_are_as_ever()
    ensures { (trace : Trace) → IsPlayed trace → (start_of trace).early ≡ false → IsAsEver trace }
{}

/// A continuation has the name that its program was called by, if each of the start's has.
pub fn continuations_keep_names()
    ensures { (trace : Trace) → IsPlayed trace → WellKept (start_of trace).kept → AreNamed (from (start_of trace)) → AreNamed trace }
{}

/// Where commits do not go over messages, the stops that are armed behind a story are those that its lines arm: there `net` is
/// refused, so each Armed is of a `crash`.
pub fn stops_are_armed_by_their_lines()
    ensures { (trace : Trace) → IsPlayed trace → (start_of trace).over_net ≡ false → (first : List (ℕ × ℕ)) →
        armed_by_lines first trace ≡ armed_behind (story_of trace) (Some first) }
{}
