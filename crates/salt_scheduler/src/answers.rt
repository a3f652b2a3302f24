//! The errors of definitions, as refusals.

ghost use Rattle.salt_scheduler.specs.Refusals.{told_by_definition, told_by_schema};
ghost use Rattle.salt_program.specs.Refusals as program;
ghost use Rattle.salt_program.specs.declared.error.DefineErr.{DefineErr};
ghost use Rattle.salt_schema.specs.Refusals as schema;
ghost use Rattle.salt_schema.specs.declared.error.SchemaErr.{SchemaErr};
ghost use Rattle.std.specs.Prelude.{IfOk, Option, option_and_then, ◌≡◌};

use salt_ast::LimitName;
use salt_model::Refusal;
use salt_program::DefineErr;
use salt_schema::SchemaErr;
use std::alloc::AllocError;

/// The refusal by what a schema answers.
pub fn refusal_by_schema(answer: Result<(), SchemaErr>) -> Result<Option<Refusal>, AllocError>
    ensures { IfOk result (λ refusal. (refused : Option SchemaErr) → schema.IsAnswer refused answer → refusal ≡ option_and_then told_by_schema refused) }
{
    match answer {
        Ok(()) => Ok(None),
        Err(SchemaErr::Tables) => Ok(Some(Refusal::Limit(LimitName::Tables))),
        Err(SchemaErr::Unknown(name)) => Ok(Some(Refusal::Unknown(name))),
        Err(SchemaErr::Exists(name)) => Ok(Some(Refusal::Exists(name))),
        Err(SchemaErr::Mistyped) => Ok(Some(Refusal::Mistyped)),
        Err(SchemaErr::Memory) => Err(AllocError),
    }
}

/// The refusal by what a catalogue answers.
pub fn refusal_by_definition(answer: Result<(), DefineErr>) -> Result<Option<Refusal>, AllocError>
    ensures { IfOk result (λ refusal. (refused : Option DefineErr) → program.IsAnswer refused answer → refusal ≡ option_and_then told_by_definition refused) }
{
    match answer {
        Ok(()) => Ok(None),
        Err(DefineErr::Programs) => Ok(Some(Refusal::Limit(LimitName::Programs))),
        Err(DefineErr::Unknown(name)) => Ok(Some(Refusal::Unknown(name))),
        Err(DefineErr::Exists(name)) => Ok(Some(Refusal::Exists(name))),
        Err(DefineErr::Mistyped) => Ok(Some(Refusal::Mistyped)),
        Err(DefineErr::NoBranch(part)) => Ok(Some(Refusal::Branch(part))),
        Err(DefineErr::Backward(part)) => Ok(Some(Refusal::Branch(part))),
        Err(DefineErr::Memory) => Err(AllocError),
    }
}
