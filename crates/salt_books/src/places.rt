//! Where the open unit of a name stands.

ghost use Rattle.law_states.specs.Rising.{AreInOrder};
ghost use Rattle.salt_books.specs.Names.{IsPlaceOf, has_name, names_held};
ghost use Rattle.salt_books.specs.declared.held.Held.{Held};
ghost use Rattle.salt_values.specs.Id.{is_older};
ghost use Rattle.std.specs.List.{find, position};
ghost use Rattle.std.specs.List.Sorted.{IsPartitionPoint};
ghost use Rattle.std.specs.Option.{option_copied};
ghost use Rattle.std.specs.Prelude.{IsSome, IsTrue, [], false, get_or, length, true, ◌++◌, ◌<◌, ◌∷◌, ◌≡◌, ◌≤◌};

use crate::held::Held;
use salt_values::{Id, is_older};

/// How many of some units in the order of their names are older.
fn count_older(units: &[Held], unit: Id) -> usize
    requires { AreInOrder (names_held units.now) }
    ensures counted { IsPartitionPoint (λ (h : Held). is_older h.open.unit unit ≡ true) (λ (h : Held). is_older h.open.unit unit ≡ false) units.now result }
    ensures bound { result ≤ length units.now }
{
    units.partition_point(
        |held: &Held| -> bool
            ensures { result ≡ is_older held.now.open.unit unit }
        { is_older(held.open.unit, unit) },
    )
}

/// Whether the unit at a place has this name.
fn is_at(units: &[Held], at: usize, unit: Id) -> bool
    ensures there { result ≡ true → (at < length units.now) × ((d : Held) → has_name unit (get_or units.now at d) ≡ true) }
    ensures another { result ≡ false → at < length units.now → (d : Held) → has_name unit (get_or units.now at d) ≡ false }
{
    if at < units.len() {
        units[at].is_named(unit)
    } else {
        false
    }
}

/// Where the unit of a name stands among some in the order of their names.
fn place_in_order(units: &[Held], unit: Id) -> Option<usize>
    requires { AreInOrder (names_held units.now) }
    ensures { IsPlaceOf unit units.now result }
{
    let at = count_older(units, unit);
    if is_at(units, at, unit) {
        Some(at)
    } else {
        None
    }
}

/// The same where they may stand in any order. All are looked at up to it.
fn place_in(units: &[Held], unit: Id) -> Option<usize>
    ensures { result ≡ position (has_name unit) units.now }
{
    units.iter().position(|held| held.is_named(unit))
}

/// Where the unit of a name stands, where it is known or not that all stand in the order of their names.
pub fn place_among(units: &[Held], rising: bool, unit: Id) -> Option<usize>
    requires { IsTrue rising → AreInOrder (names_held units.now) }
    ensures { IsPlaceOf unit units.now result }
{
    if rising {
        place_in_order(units, unit)
    } else {
        place_in(units, unit)
    }
}

/// Where the unit of a name stands, where there is one.
pub fn place_named(units: &[Held], rising: bool, unit: Id) -> usize
    requires ordered { IsTrue rising → AreInOrder (names_held units.now) }
    requires there { IsSome (find (has_name unit) units.now) }
    ensures within { result < length units.now }
    ensures named { (d : Held) → (get_or units.now result d).open.unit ≡ unit }
{
    match place_among(units, rising, unit) {
        Some(at) => at,
        None => unreachable!(),
    }
}

/// The unit of a name.
pub fn named_among(units: &[Held], rising: bool, unit: Id) -> Option<&Held>
    requires { IsTrue rising → AreInOrder (names_held units.now) }
    ensures { option_copied result ≡ find (has_name unit) units.now }
{
    match place_among(units, rising, unit) {
        Some(at) => Some(&units[at]),
        None => None,
    }
}

/// Whether it is known that all stand in order where one of this name is put behind them.
pub fn stays_in_order(units: &[Held], rising: bool, unit: Id) -> bool
    requires { IsTrue rising → AreInOrder (names_held units.now) }
    ensures { result ≡ true → AreInOrder (names_held units.now ++ unit ∷ []) }
{
    if rising {
        count_older(units, unit) == units.len()
    } else {
        false
    }
}
