//! Where a program goes on behind a commit or a failure.

ghost use Rattle.std.specs.Prelude.{◌≡◌, ◌<◌, ◌^◌, IfOk, IfSome, option_map};
ghost use Rattle.salt_ast.specs.Paths as paths;
ghost use Rattle.salt_cont.specs.Moves.{LeadOn, move_on, next_from, parts_named, position_meant, with_place};

use crate::ways::{at_number, parts_named, retries, way_on_commit, way_on_failure};
use salt_ast::PartDef;
use salt_bytes::Move;
use salt_program::Catalogue;
use salt_values::{Cont, Row, TryCopy};
use std::alloc::{AllocError, Global};

/// Where a program stands.
#[derive(Clone, Copy)]
pub struct Place {
    /// The part, where the first is 1.
    pub part: u64,
    /// How often it may still fail and be tried again.
    pub tries: u8,
}

/// Where a program of these parts is that comes to one by a way.
fn place_at(parts: &[PartDef], part: u64) -> Place
    ensures { position_meant result ≡ paths.position_at parts.now part }
{
    let tries = retries(at_number(parts, part));
    Place { part, tries }
}

fn next_on_commit(parts: &[PartDef], number: u32) -> Option<Place>
    ensures { option_map position_meant result ≡ paths.next_on_commit parts.now number }
{
    let part = at_number(parts, number as u64)?;
    let way = way_on_commit(parts.len(), number, part)?;
    Some(place_at(parts, way))
}

fn next_on_branch(parts: &[PartDef], number: u32) -> Option<Place>
    ensures { option_map position_meant result ≡ paths.next_on_branch parts.now number }
{
    let part = at_number(parts, number as u64)?;
    let way = way_on_failure(part)?;
    Some(place_at(parts, way))
}

fn next_on_failure(parts: &[PartDef], number: u32, tries: u8) -> Option<Place>
    requires { LeadOn parts.now }
    ensures place { option_map position_meant result ≡ paths.next_on_failure parts.now number tries }
    ensures small { IfSome result (λ place. place.part < 2 ^ 32) }
{
    if tries == 0 {
        return next_on_branch(parts, number);
    }
    Some(Place {
        part: number as u64,
        tries: tries - 1,
    })
}

fn next_from(parts: &[PartDef], cont: &Cont, failed: bool) -> Option<Place>
    requires { LeadOn parts.now }
    ensures place { option_map position_meant result ≡ next_from parts.now cont.now failed }
    ensures small { IfSome result (λ place. place.part < 2 ^ 32) }
{
    if failed {
        next_on_failure(parts, cont.next, cont.tries)
    } else {
        next_on_commit(parts, cont.next)
    }
}

/// The continuation at another place, with these variables.
fn continued(alloc: Global, cont: &Cont, vars: &Row, place: Place) -> Result<Cont, AllocError>
    requires { place.part < 2 ^ 32 }
    ensures { IfOk result (λ made. made ≡ with_place cont.now vars.now (position_meant place)) }
{
    Ok(Cont {
        base: cont.base,
        accepted: cont.accepted,
        program: cont.program.copy(alloc)?,
        args: cont.args.copy(alloc)?,
        vars: vars.copy(alloc)?,
        next: place.part as u32,
        tries: place.tries,
    })
}

/// What a decided end of a program's part does to its continuation, by the path that the program in the catalogue declares.
/// Behind a commit it goes on with these variables by the part's way, and behind a failure with those that it has, at the
/// same part with one try fewer, or by the branch where no try is left. A part to which a way leads has as many tries as are
/// declared for it. At the end the program finishes; a program that is not there has no parts. An `Err` is want of memory.
pub fn advance(
    alloc: Global,
    catalogue: &Catalogue,
    cont: &Cont,
    vars: &Row,
    failed: bool,
) -> Result<Move, AllocError>
    requires { LeadOn (parts_named catalogue.now cont.now.program) }
    ensures { IfOk result (λ made. made ≡ move_on catalogue.now cont.now vars.now failed) }
{
    let parts = parts_named(catalogue, &cont.program);
    let vars = if failed { &cont.vars } else { vars };
    match next_from(parts, cont, failed) {
        Some(place) => Ok(Move::Continue(continued(alloc, cont, vars, place)?)),
        None => Ok(Move::Finish(cont.base)),
    }
}
