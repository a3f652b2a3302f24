//! What a played trace gives of the state that the books tell.

ghost use Rattle.salt_books.specs.Books.{IsUnitAtPart};
ghost use Rattle.law_states.specs.Keeps.{KeepsUnits};
ghost use Rattle.law_states.specs.Laws.{IsSound};
ghost use Rattle.law_states.specs.OpenUnits.{OpenUnit, UnitState, unit_named};
ghost use Rattle.salt_books.specs.Moves.{CanMove};
ghost use Rattle.salt_model.specs.Trace.{Trace};
ghost use Rattle.salt_stands.specs.OpenConts.{do_rise};
ghost use Rattle.salt_values.specs.declared.id.Id.{Id};
ghost use Rattle.std.specs.Prelude.{Some, true, ◌≡◌};

/// The part of each open unit is the one at which its program stands.
pub fn later_units_stand_at_their_parts()
    ensures { (s : UnitState) (trace : Trace) (u : Id) → KeepsUnits s trace → IsSound trace → IsUnitAtPart s u }
{}

/// Open units may move the continuations of their programs, where those that are kept rise.
pub fn units_can_move()
    ensures { (s : UnitState) (trace : Trace) (u : Id) (o : OpenUnit) → KeepsUnits s trace → IsSound trace → do_rise s.kept.conts ≡ true
        → unit_named u s.units ≡ Some o → CanMove s.kept o.kind }
{}
