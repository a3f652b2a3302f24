//! The calls on a table are those that the definitions of what is kept ask for.

ghost use Rattle.law_states.specs.KeptLocks.{KeepsLocks, Numbered, is_owned_by};
ghost use Rattle.law_states.specs.KeptWaits.{Asker, clash_owners};
ghost use Rattle.law_states.specs.LockCalls.{HasDropped, HasSalted, HasTaken};
ghost use Rattle.salt_locks.specs.Tables.{is_of_another, owners_against, put, salted};
ghost use Rattle.salt_locks.specs.Turns.{locks_in_turn};
ghost use Rattle.salt_model.specs.declared.events.Owner.{Owner};
ghost use Rattle.salt_model.specs.declared.locks.Lock.{Lock};
ghost use Rattle.salt_model.specs.declared.locks.Reach.{Reach};
ghost use Rattle.salt_values.specs.declared.id.Id.{Id};
ghost use Rattle.std.specs.List.{filter};
ghost use Rattle.std.specs.Prelude.{List, Some, map, ℕ, ◌≡◌};

/// Those that clash with what a waiting unit asks are those whose locks are against it.
pub fn clashes_fit()
    ensures { (locks : List Lock) (w : Asker) (r : Reach) → w.reach ≡ Some r →
        clash_owners locks w ≡ owners_against (Owner.Unit w.unit) w.family r locks }
{}

/// A lock put in its place is taken.
pub fn takes_fit()
    ensures { (k : ℕ) (l : Lock) (old : List Numbered) → HasTaken k l old (put (record { number = k; lock = l }) old) }
{}

/// A unit's locks are handed over.
pub fn to_saline_fits()
    ensures { (u b : Id) (old : List Numbered) → HasSalted u b old (map (salted u b) old) }
{}

/// An owner's locks are gone.
pub fn drops_fit()
    ensures { (o : Owner) (old : List Numbered) → HasDropped o old (filter (is_of_another o) old) }
{}

/// An owner's locks by their numbers are its held ones in the order in which they were taken.
pub fn turns_fit()
    ensures { (table : List Numbered) (ls : List Lock) (o : Owner) → KeepsLocks table ls →
        map (λ n. n.lock) (locks_in_turn o table) ≡ filter (is_owned_by o) ls }
{}
