//! How many statements of a program may still run.

ghost use Rattle.std.specs.Prelude.{◌≡◌, ◌<◌, ◌≤◌, ◌+◌, ◌*◌, ◌^◌, Option, Some, drop, length, max, ℕ, suc};
ghost use Rattle.salt_ast.specs.Paths as paths;
ghost use Rattle.salt_cont.specs.Moves.{parts_named, standing};
ghost use Rattle.salt_cont.specs.Rests.{AreFew, rest_told};
ghost use Rattle.salt_values.specs.declared.limits.TheConstants.{PARTS_MOST, STATEMENTS_MOST};

use crate::ways::{at_number, parts_named, retries, way_on_commit, way_on_failure};
use salt_ast::PartDef;
use salt_program::Catalogue;
use salt_values::Cont;
use salt_values::limits::PARTS_MOST;

/// The rests of the parts, in order; 0 where none is known.
type Rests = [u64; PARTS_MOST];

/// The rest behind a way.
fn rest_told(rests: &Rests, way: Option<u64>) -> u64
    ensures { result ≡ rest_told rests.now way }
{
    match way {
        Some(number) => at_number(rests, number).copied().unwrap_or(0),
        None => 0,
    }
}

/// The rest from a part on with so many tries left. Each try may run its statements, and behind the last the greater rest is left.
fn part_rest(count: usize, number: u32, part: &PartDef, tries: u8, rests: &Rests) -> u64
    requires block { length part.now.block ≤ STATEMENTS_MOST }
    requires small { (way : Option ℕ) → rest_told rests.now way < 2 ^ 32 }
    ensures { result ≡ length part.now.block * (tries + 1)
        + max (rest_told rests.now (paths.way_on_commit count number part.now.then)) (rest_told rests.now (paths.way_on_failure part.now.on_failure)) }
{
    let behind_commit = rest_told(rests, way_on_commit(count, number, part));
    let behind_failure = rest_told(rests, way_on_failure(part));
    part.block.len() as u64 * (tries as u64 + 1) + behind_commit.max(behind_failure)
}

/// The rests of the parts behind the first so many, from the last on.
fn rests_behind(parts: &[PartDef], number: u32) -> Rests
    requires few { AreFew parts.now }
    requires within { number ≤ length parts.now }
    ensures told { (way : Option ℕ) → rest_told result way
        ≡ paths.rest_among (paths.rests (length parts.now) (suc number) (drop number parts.now)) way }
    ensures small { (way : Option ℕ) → rest_told result way < 2 ^ 32 }
{
    let mut rests = [0; PARTS_MOST];
    let mut at = parts.len();
    while at > number as usize {
        at -= 1;
        let part = &parts[at];
        rests[at] = part_rest(
            parts.len(),
            at as u32 + 1,
            part,
            retries(Some(part)),
            &rests,
        );
    }
    rests
}

/// How many statements may still run of a program that goes on here, at most, by the path that the program in the catalogue
/// declares: those of its part, and the greater number behind the part's commit and its failure. 0 where no such part is there.
pub fn rest(catalogue: &Catalogue, cont: &Cont) -> u64
    requires { AreFew (parts_named catalogue.now cont.now.program) }
    ensures { result ≡ paths.rest_of (parts_named catalogue.now cont.now.program) (Some (standing cont.now)) }
{
    let parts = parts_named(catalogue, &cont.program);
    match at_number(parts, cont.next as u64) {
        Some(part) => {
            let rests = rests_behind(parts, cont.next);
            part_rest(parts.len(), cont.next, part, cont.tries, &rests)
        }
        None => 0,
    }
}
