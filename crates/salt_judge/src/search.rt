//! The units in all chains from one are searched, each once, but for those that are settled.

ghost use Rattle.salt_audit.specs.Standing.{begun_in};
ghost use Rattle.salt_values.specs.declared.id.Id.{Id};
ghost use Rattle.salt_judge.specs.Reads.{chained, near, parts_near, program_in, sources_in};
ghost use Rattle.salt_audit.specs.Marks.{AreMarks, is_marked};
ghost use Rattle.salt_judge.specs.Searching.{AreSettled, IsLinked, are_free, is_new, visited, visited_all};
ghost use Rattle.std.specs.Prelude.{[], IfOk, IfSome, None, OnOk, OnSome, if◌then◌else◌, is_some, not, slice_get, ◌&&◌, ◌+◌, ◌++◌, ◌<◌, ◌^◌, ◌∷◌, ◌≡◌};

use crate::reads::{Reads, Sources};
use crate::salted::{is_free, program_in};
use salt_audit::{Marks, begun, is_marked, mark, no_marks};
use salt_values::{Id, Ids};
use salt_verdict::Ledger;
use sqlite_items::Items;
use std::alloc::{AllocError, Global};
use std::collections::BTreeMap;

/// Units that are found, and marked.
#[derive(Drop)]
pub struct Found {
    pub ids: Ids,
    pub marks: Marks,
}

fn has_begun(ledger: &Ledger, unit: Id) -> bool
    ensures { result ≡ is_some (begun_in unit ledger.now.state.units) }
{
    match begun(&ledger.state.units, unit) {
        Some(_note) => true,
        None => false,
    }
}

/// Whether a unit has begun that is neither settled nor marked.
fn is_new(ledger: &Ledger, settled: &Marks, marks: &Marks, unit: Id) -> bool
    ensures { result ≡ (not (is_marked unit settled.now) && (is_some (begun_in unit ledger.now.state.units) && not (is_marked unit marks.now))) }
{
    !is_marked(settled, unit) && (has_begun(ledger, unit) && !is_marked(marks, unit))
}

fn add(found: &mut Ids, marks: &mut Marks, unit: Id) -> Result<(), AllocError>
    requires { AreMarks marks.old found.old }
    ensures found { OnOk result (found.new ≡ found.old ++ unit ∷ []) }
    ensures marks { OnOk result (AreMarks marks.new found.new) }
{
    found.push(unit)?;
    mark(marks, unit)?;
    Ok(())
}

fn add_new(found: &mut Ids, marks: &mut Marks, unit: Id, is: bool) -> Result<(), AllocError>
    requires { AreMarks marks.old found.old }
    ensures found { OnOk result (found.new ≡ (if is then found.old ++ unit ∷ [] else found.old)) }
    ensures marks { OnOk result (AreMarks marks.new found.new) }
{
    if is {
        add(found, marks, unit)?;
    }
    Ok(())
}

/// Finds a unit that has begun and is not settled, once.
fn visit(
    ledger: &Ledger,
    settled: &Marks,
    found: &mut Ids,
    marks: &mut Marks,
    unit: Id,
) -> Result<(), AllocError>
    requires { AreMarks marks.old found.old }
    ensures found { OnOk result (found.new ≡ visited ledger.now settled.now unit found.old) }
    ensures marks { OnOk result (AreMarks marks.new found.new) }
{
    let is = is_new(ledger, settled, marks, unit);
    add_new(found, marks, unit, is)?;
    Ok(())
}

/// Finds units.
fn visit_all(
    ledger: &Ledger,
    settled: &Marks,
    found: &mut Ids,
    marks: &mut Marks,
    units: &[Id],
) -> Result<(), AllocError>
    requires { AreMarks marks.old found.old }
    ensures found { OnOk result (found.new ≡ visited_all ledger.now settled.now units.now found.old) }
    ensures marks { OnOk result (AreMarks marks.new found.new) }
{
    for unit in units {
        visit(ledger, settled, found, marks, *unit)?;
    }
    Ok(())
}

/// The units that are noted for one.
pub fn noted(sources: &BTreeMap<Id, Sources>, unit: Id) -> &[Id]
    ensures { result.now ≡ sources_in unit sources.now }
{
    match sources.get(&unit) {
        Some(sources) => sources.units.as_slice(),
        None => &[],
    }
}

fn visit_parts(
    ledger: &Ledger,
    reads: &Reads,
    settled: &Marks,
    found: &mut Ids,
    marks: &mut Marks,
    program: Option<Id>,
) -> Result<(), AllocError>
    requires { AreMarks marks.old found.old }
    ensures found { OnOk result (found.new ≡ visited_all ledger.now settled.now (parts_near reads.now program) found.old) }
    ensures marks { OnOk result (AreMarks marks.new found.new) }
{
    match program {
        Some(base) => visit_all(ledger, settled, found, marks, noted(&reads.parts, base)),
        None => Ok(()),
    }
}

/// Finds those to whom a unit is tied.
fn visit_near(
    ledger: &Ledger,
    reads: &Reads,
    settled: &Marks,
    found: &mut Ids,
    marks: &mut Marks,
    unit: Id,
) -> Result<(), AllocError>
    requires { AreMarks marks.old found.old }
    ensures found { OnOk result (found.new ≡ visited_all ledger.now settled.now (near ledger.now reads.now unit) found.old) }
    ensures marks { OnOk result (AreMarks marks.new found.new) }
{
    visit_all(ledger, settled, found, marks, noted(&reads.sources, unit))?;
    visit_parts(
        ledger,
        reads,
        settled,
        found,
        marks,
        program_in(ledger, unit),
    )?;
    Ok(())
}

/// The name at a place, behind which there is a next place.
fn item_at(ids: &[Id], at: usize) -> Option<Id>
    ensures value { result ≡ slice_get ids.now at }
    ensures next { OnSome result (at + 1 < 2 ^ 64) }
{
    if at < ids.len() { Some(ids[at]) } else { None }
}

/// The units that are not settled to which chains lead from a unit of no program; none where one of them is of a program that is not
/// released.
pub fn unsettled_from(
    alloc: Global,
    ledger: &Ledger,
    reads: &Reads,
    settled: &Marks,
    unit: Id,
) -> Result<Option<Found>, AllocError>
    requires { program_in ledger.now unit ≡ None }
    ensures free { IfOk result (λ found. IsLinked ledger.now reads.now → AreSettled ledger.now reads.now settled.now → is_some found ≡ are_free ledger.now reads.now (chained ledger.now reads.now unit)) }
    ensures marks { IfOk result (λ found. IfSome found (λ f. AreMarks f.marks f.ids)) }
{
    let mut ids = Items::new(alloc);
    let mut marks = no_marks(alloc);
    visit_near(ledger, reads, settled, &mut ids, &mut marks, unit)?;
    let mut at: usize = 0;
    'search: loop {
        let Some(next) = item_at(ids.as_slice(), at) else {
            return Ok(Some(Found { ids, marks }));
        };
        if !is_free(&reads.released, program_in(ledger, next)) {
            return Ok(None);
        }
        visit_near(ledger, reads, settled, &mut ids, &mut marks, next)?;
        at += 1;
    }
}
