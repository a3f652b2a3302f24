//! The parts of a program, and the ways between them.

ghost use Rattle.std.specs.Prelude.{◌≡◌, ◌<◌, ◌^◌};
ghost use Rattle.std.specs.Option.{option_copied};
ghost use Rattle.salt_ast.specs.Paths as paths;
ghost use Rattle.salt_cont.specs.Moves.{parts_named};
ghost use Rattle.salt_model.specs.Kept.{parts_of};
ghost use Rattle.salt_program.specs.Refusals.{parts_in};

use salt_ast::{Body, Next, PartDef, ProgramDef};
use salt_program::Catalogue;
use salt_values::Name;

/// The parts of a program: none where it is one ACID unit.
pub fn parts_of(def: &ProgramDef) -> &[PartDef]
    ensures parts { result.now ≡ parts_of def.now }
    ensures body { result.now ≡ parts_in def.now.body }
{
    match &def.body {
        Body::Acid(_) => &[],
        Body::Base(parts) => parts.as_slice(),
    }
}

/// The parts of the program of this name: none where no program has it, or the program has none.
pub fn parts_named<'a>(catalogue: &'a Catalogue, name: &Name) -> &'a [PartDef]
    ensures { result.now ≡ parts_named catalogue.now name.now }
{
    match catalogue.find(name) {
        Some(def) => parts_of(def),
        None => &[],
    }
}

/// What stands at this place, counted from 1.
pub fn at_number<T>(items: &[T], number: u64) -> Option<&T>
    ensures { option_copied result ≡ paths.at_number number items.now }
{
    if number == 0 {
        return None;
    }
    items.get((number - 1) as usize)
}

/// How often a part is tried again.
pub fn retries(part: Option<&PartDef>) -> u8
    ensures { result ≡ paths.retries (option_copied part.entry) }
{
    match part {
        Some(part) => part.retry.unwrap_or(0),
        None => 0,
    }
}

fn part_of_next(next: Next) -> Option<u64>
    ensures { result ≡ paths.part_of_next next }
{
    match next {
        Next::Part(number) => Some(number),
        Next::End => None,
    }
}

/// The way of the part of this number, of so many parts, behind its commit.
pub fn way_on_commit(count: usize, number: u32, part: &PartDef) -> Option<u64>
    ensures { result ≡ paths.way_on_commit count number part.now.then }
{
    match part.then {
        Some(next) => part_of_next(next),
        None if (number as usize) < count => Some(number as u64 + 1),
        None => None,
    }
}

/// The way behind a failure.
pub fn way_on_failure(part: &PartDef) -> Option<u64>
    ensures { result ≡ paths.way_on_failure part.now.on_failure }
{
    part_of_next(part.on_failure?)
}
