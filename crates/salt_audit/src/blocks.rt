//! The statements that a unit has to do.

ghost use Rattle.salt_audit.specs.Telling.{block_by};
ghost use Rattle.salt_model.specs.Kept.{block_of_call, block_of_part};
ghost use Rattle.salt_model.specs.declared.events.UnitKind.TheVariants.{Later};
ghost use Rattle.std.specs.Prelude.{IfOk, ◌≡◌};

use crate::conts::cont_named;
use salt_ast::{Body, ProgramDef, Statements};
use salt_cont::{at_number, parts_of};
use salt_model::UnitKind;
use salt_program::Catalogue;
use salt_values::{Cont, Id, TryCopy};
use std::alloc::{AllocError, Global};

/// The statements of a program that is one ACID unit; a BASE program has none of its own.
fn block_of_call(alloc: Global, def: &ProgramDef) -> Result<Statements, AllocError>
    ensures { IfOk result (λ block. block ≡ block_of_call def.now) }
{
    match &def.body {
        Body::Acid(block) => block.copy(alloc),
        Body::Base(_) => Ok(Statements::new(alloc)),
    }
}

/// The statements of a part, where the first is 1; there are none of a part that is not there.
fn block_of_part(alloc: Global, def: &ProgramDef, number: u32) -> Result<Statements, AllocError>
    ensures { IfOk result (λ block. block ≡ block_of_part def.now number) }
{
    match at_number(parts_of(def), number as u64) {
        Some(part) => part.block.copy(alloc),
        None => Ok(Statements::new(alloc)),
    }
}

fn block_next(
    alloc: Global,
    catalogue: &Catalogue,
    conts: &[Cont],
    base: Id,
    part: u32,
) -> Result<Option<Statements>, AllocError>
    ensures { IfOk result (λ block. block ≡ block_by catalogue.now conts.now (Later base part)) }
{
    let Some(cont) = cont_named(conts, base) else {
        return Ok(None);
    };
    let Some(def) = catalogue.find(&cont.program) else {
        return Ok(None);
    };
    Ok(Some(block_of_part(alloc, def, part)?))
}

/// The statements of a unit's program or part, by what is defined and where programs go on; a unit of a session has none.
pub fn block(
    alloc: Global,
    catalogue: &Catalogue,
    conts: &[Cont],
    kind: &UnitKind,
) -> Result<Option<Statements>, AllocError>
    ensures { IfOk result (λ block. block ≡ block_by catalogue.now conts.now kind.now) }
{
    match kind {
        UnitKind::Acid { .. } => Ok(None),
        UnitKind::Call { program, .. } => match catalogue.find(program) {
            Some(def) => Ok(Some(block_of_call(alloc, def)?)),
            None => Ok(None),
        },
        UnitKind::First { program, .. } => match catalogue.find(program) {
            Some(def) => Ok(Some(block_of_part(alloc, def, 1)?)),
            None => Ok(None),
        },
        UnitKind::Later { base, part } => block_next(alloc, catalogue, conts, *base, *part),
    }
}
