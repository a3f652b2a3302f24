//! Units that wait.

ghost use Rattle.salt_conflicts.specs.Waiters.{is_another, is_of_program, is_this};
ghost use Rattle.std.specs.List.{filter, list_any};
ghost use Rattle.std.specs.Prelude.{◌≡◌};

use salt_model::{Family, Reach};
use salt_values::{Id, is_same_id};

/// A waiting unit: its program, where it is a subtransaction, the family of its locks, and what the statement that it asks for
/// would reach.
#[derive(Drop)]
pub struct Waiter {
    pub unit: Id,
    pub base: Option<Id>,
    pub family: Family,
    pub reach: Option<Reach>,
}

/// Whether the unit is one of those that wait.
fn is_waiting(waits: &[Waiter], unit: Id) -> bool
    ensures { result ≡ list_any (is_this unit) waits.now }
{
    waits.iter().any(|waiter| is_same_id(waiter.unit, unit))
}

/// The unit waits no more. As a rule it does not wait, and then none is moved.
pub fn leave(waits: &mut Vec<Waiter>, unit: Id)
    ensures { waits.new.items ≡ filter (is_another unit) waits.old.items }
{
    if is_waiting(waits.as_slice(), unit) {
        waits.retain(|waiter| waiter.unit != unit);
    }
}

fn is_of_program(waiter: &Waiter) -> bool
    ensures { result ≡ is_of_program waiter.now }
{
    match waiter.base {
        Some(_) => true,
        None => false,
    }
}

/// Whether one of them is a unit of a program.
pub fn has_program(waits: &[Waiter]) -> bool
    ensures { result ≡ list_any is_of_program waits.now }
{
    waits.iter().any(|waiter| is_of_program(waiter))
}
