//! The statements of programs and of their parts.

ghost use Rattle.salt_model.specs.Kept.{block_of_call, block_of_part};
ghost use Rattle.salt_model.specs.Refusals.{is_base_program};
ghost use Rattle.std.specs.Option.{option_copied};
ghost use Rattle.std.specs.Prelude.{◌≡◌};

use salt_ast::{Body, ProgramDef, Shared, Statement};
use salt_cont::{at_number, parts_of};

/// The statements of a program that is one ACID unit; a BASE program has none of its own.
pub fn block_of_call(def: &ProgramDef) -> &[Shared<Statement>]
    ensures { result.now ≡ block_of_call def.now }
{
    match &def.body {
        Body::Acid(block) => block.as_slice(),
        Body::Base(_) => &[],
    }
}

/// Whether there is a program, and it is a BASE program.
pub fn is_base_program(def: Option<&ProgramDef>) -> bool
    ensures { result ≡ is_base_program (option_copied def.entry) }
{
    match def {
        Some(def) => def.is_base(),
        None => false,
    }
}

/// The statements of a part, where the first is 1; there are none of a part that is not there.
pub fn block_of_part(def: &ProgramDef, number: u32) -> &[Shared<Statement>]
    ensures { result.now ≡ block_of_part def.now number }
{
    match at_number(parts_of(def), number as u64) {
        Some(part) => part.block.as_slice(),
        None => &[],
    }
}
