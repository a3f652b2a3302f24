//! The laws, each on a function that does nothing. `IsPlayed` (salt_model, specs/Played.antt) is a trace that a
//! run may tell; `WellKept` is what a start has to be.

ghost use Rattle.law_early.specs.Least.{IsLeast, is_free};
ghost use Rattle.salt_model.specs.Everywhere.{Each};
ghost use Rattle.salt_model.specs.Kept.{WellKept};
ghost use Rattle.salt_model.specs.Played.{IsPlayed};
ghost use Rattle.salt_model.specs.Programs.{named_early, released_in};
ghost use Rattle.salt_model.specs.Trace.{Asked, Trace, start_of, ◌asks◌, ◌turns◌};
ghost use Rattle.salt_model.specs.Turns.{next_to_go, owes_turn};
ghost use Rattle.salt_promise.specs.EarlyOpenings.{GivesTurns, HidesHeldBack, held_back};
ghost use Rattle.salt_values.specs.Id.{has_id};
ghost use Rattle.salt_values.specs.declared.id.Id.{Id};
ghost use Rattle.std.specs.Prelude.{IsTrue, None, false, ◌≡◌};

/// A program that is held back behind an early opening is not released; so what an ACID unit reads comes, by any chain of readers,
/// from none.
pub fn held_back_is_hidden()
    ensures unreleased { (trace : Trace) → IsPlayed trace → WellKept (start_of trace).kept →
        (b : Id) → IsTrue (has_id b (held_back trace)) → has_id b (released_in trace) ≡ false }
    ensures hidden { (trace : Trace) → IsPlayed trace → WellKept (start_of trace).kept → Each HidesHeldBack trace }
{}

/// The next line is asked where the turn that a line owes was given, or no named program can go; and a turn behind those of `go all`
/// is owed.
pub fn turns_are_given()
    ensures { (trace : Trace) → IsPlayed trace → GivesTurns trace }
{}

/// The first named program that can go, to which such a turn is given, is the least of those that are unfinished and do not wait; and
/// where a line gives none that it owes, there is none.
pub fn turns_are_of_the_least()
    ensures given { (trace : Trace) (b : Id) → IsPlayed (trace turns b) → WellKept (start_of trace).kept → next_to_go trace ≡ None →
        IsLeast trace b }
    ensures none { (trace : Trace) (asked : Asked) → IsPlayed (trace asks asked) → WellKept (start_of trace).kept →
        IsTrue (owes_turn trace) → (b : Id) → IsTrue (has_id b (named_early trace)) → is_free trace b ≡ false }
{}
