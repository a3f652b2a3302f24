//! Units at which a search stops: whom they are tied to stays as it is, and none of them leads to what is not released.

ghost use Rattle.salt_judge.specs.Reads.{parts_near};
ghost use Rattle.salt_audit.specs.Marks.{AreMarks};
ghost use Rattle.salt_judge.specs.Searching.{AreSettled, is_known, is_over, may_settle, rests};
ghost use Rattle.std.specs.List.{list_all};
ghost use Rattle.std.specs.Prelude.{OnOk, ◌≡◌};

use crate::reads::Reads;
use crate::salted::program_in;
use crate::search::{Found, noted};
use salt_audit::{Marks, begun, is_marked, mark_all};
use salt_books::program_of;
use salt_values::Id;
use salt_verdict::Ledger;
use std::alloc::AllocError;

fn is_over(ledger: &Ledger, reads: &Reads, program: Option<Id>) -> bool
    ensures { result ≡ is_over ledger.now reads.now program }
{
    let state = &ledger.state;
    match program {
        Some(base) => {
            is_marked(&reads.released, base) && (state.bases.has(base) && state.finished.has(base))
        }
        None => true,
    }
}

fn rests(ledger: &Ledger, reads: &Reads, unit: Id) -> bool
    ensures { result ≡ rests ledger.now reads.now unit }
{
    match begun(&ledger.state.units, unit) {
        Some(note) => !note.is_open && is_over(ledger, reads, program_of(&note.kind)),
        None => false,
    }
}

fn are_known(settled: &Marks, marks: &Marks, units: &[Id]) -> bool
    ensures { result ≡ list_all (is_known settled.now marks.now) units.now }
{
    units.iter().all(|unit| is_marked(settled, *unit) || is_marked(marks, *unit))
}

fn are_parts_known(reads: &Reads, settled: &Marks, marks: &Marks, program: Option<Id>) -> bool
    ensures { result ≡ list_all (is_known settled.now marks.now) (parts_near reads.now program) }
{
    match program {
        Some(base) => are_known(settled, marks, noted(&reads.parts, base)),
        None => true,
    }
}

fn may_settle(ledger: &Ledger, reads: &Reads, settled: &Marks, marks: &Marks, unit: Id) -> bool
    ensures { result ≡ may_settle ledger.now reads.now settled.now marks.now unit }
{
    rests(ledger, reads, unit)
        && (are_known(settled, marks, noted(&reads.sources, unit))
            && are_parts_known(reads, settled, marks, program_in(ledger, unit)))
}

fn may_all_settle(ledger: &Ledger, reads: &Reads, settled: &Marks, found: &Found) -> bool
    ensures { result ≡ list_all (may_settle ledger.now reads.now settled.now found.now.marks) found.now.ids }
{
    found.ids.as_slice().iter().all(|unit| may_settle(ledger, reads, settled, &found.marks, *unit))
}

/// Settles what a search found, where all of it may be.
pub fn settle(
    ledger: &Ledger,
    reads: &Reads,
    settled: &mut Marks,
    found: &Found,
) -> Result<(), AllocError>
    requires { AreMarks found.now.marks found.now.ids }
    ensures { OnOk result (AreSettled ledger.now reads.now settled.old → AreSettled ledger.now reads.now settled.new) }
{
    if may_all_settle(ledger, reads, settled, found) {
        mark_all(settled, found.ids.as_slice())?;
    }
    Ok(())
}
