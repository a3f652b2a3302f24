//! Which units break salted.

ghost use Rattle.salt_judge.specs.Reads.{is_free, program_in, unsalted_by, unsalted_of};
ghost use Rattle.salt_judge.specs.Searching.{AreSettled, IsLinked};
ghost use Rattle.std.specs.Prelude.{IfOk, OnOk, ◌≡◌};

use crate::reads::Reads;
use crate::search::unsettled_from;
use crate::settled::settle;
use salt_audit::{Marks, begun, is_marked};
use salt_books::program_of;
use salt_model::Event;
use salt_values::{Id, Ids};
use salt_verdict::Ledger;
use sqlite_items::Items;
use std::alloc::{AllocError, Global};

/// The program of a subtransaction.
pub fn program_in(ledger: &Ledger, unit: Id) -> Option<Id>
    ensures { result ≡ program_in ledger.now unit }
{
    match begun(&ledger.state.units, unit) {
        Some(note) => program_of(&note.kind),
        None => None,
    }
}

/// Whether a program is released; a unit of none is free.
pub fn is_free(released: &Marks, program: Option<Id>) -> bool
    ensures { result ≡ is_free released.now program }
{
    match program {
        Some(base) => is_marked(released, base),
        None => true,
    }
}

fn unsalted_of(
    alloc: Global,
    ledger: &Ledger,
    reads: &Reads,
    settled: &mut Marks,
    unit: Id,
) -> Result<Ids, AllocError>
    ensures units { IfOk result (λ ids. IsLinked ledger.now reads.now → AreSettled ledger.now reads.now settled.old → ids ≡ unsalted_of ledger.now reads.now unit) }
    ensures settled { OnOk result (AreSettled ledger.now reads.now settled.old → AreSettled ledger.now reads.now settled.new) }
{
    let mut ids = Items::new(alloc);
    if program_in(ledger, unit).is_some() {
        return Ok(ids);
    }
    let Some(found) = unsettled_from(alloc, ledger, reads, settled, unit)? else {
        ids.push(unit)?;
        return Ok(ids);
    };
    settle(ledger, reads, settled, &found)?;
    Ok(ids)
}

/// The ACID unit of an event's statement where a chain leads from it to a program that is not released, by what is known behind it. What its
/// search finds is settled, if it may be.
pub fn unsalted(
    alloc: Global,
    ledger: &Ledger,
    reads: &Reads,
    settled: &mut Marks,
    event: &Event,
) -> Result<Ids, AllocError>
    ensures units { IfOk result (λ ids. IsLinked ledger.now reads.now → AreSettled ledger.now reads.now settled.old → ids ≡ unsalted_by ledger.now reads.now event.now) }
    ensures settled { OnOk result (AreSettled ledger.now reads.now settled.old → AreSettled ledger.now reads.now settled.new) }
{
    match event {
        Event::Did { unit, .. } => unsalted_of(alloc, ledger, reads, settled, *unit),
        _ => Ok(Items::new(alloc)),
    }
}
