//! The variables with which units begin, and those with which programs go on.

ghost use Rattle.salt_ast.specs.ProgramJudgement.{program_named};
ghost use Rattle.salt_audit.specs.Standing.{cont_named};
ghost use Rattle.salt_verdict.specs.Goings.{values_named};
ghost use Rattle.salt_verdict.specs.Variables.{vars_begun, vars_called, vars_going};
ghost use Rattle.std.specs.Option.{option_copied};
ghost use Rattle.std.specs.Prelude.{IfOk, ◌≡◌};

use salt_books::{values_kept, vars_at_call, vars_at_cont};
use salt_model::{Binding, UnitKind, Vars};
use salt_program::Catalogue;
use salt_values::{Cont, Id, Name, Row, is_same_id};
use sqlite_items::Items;
use std::alloc::{AllocError, Global};

/// The continuation of a program.
pub fn cont_named(conts: &[Cont], base: Id) -> Option<&Cont>
    ensures { option_copied result ≡ cont_named base conts.now }
{
    conts.iter().find(|cont| is_same_id(base, cont.base))
}

fn vars_called(
    alloc: Global,
    catalogue: &Catalogue,
    program: &Name,
    args: &Row,
) -> Result<Vars, AllocError>
    ensures { IfOk result (λ vars. vars ≡ vars_called args.now (program_named catalogue.now program.now)) }
{
    match catalogue.find(program) {
        Some(def) => vars_at_call(alloc, def, args),
        None => Ok(Items::new(alloc)),
    }
}

fn vars_going(
    alloc: Global,
    catalogue: &Catalogue,
    conts: &[Cont],
    base: Id,
) -> Result<Vars, AllocError>
    ensures { IfOk result (λ vars. vars ≡ vars_going catalogue.now (cont_named base conts.now)) }
{
    let Some(cont) = cont_named(conts, base) else {
        return Ok(Items::new(alloc));
    };
    match catalogue.find(&cont.program) {
        Some(def) => vars_at_cont(alloc, def, cont),
        None => Ok(Items::new(alloc)),
    }
}

/// The variables with which a unit of this kind begins.
pub fn vars_begun(
    alloc: Global,
    catalogue: &Catalogue,
    conts: &[Cont],
    kind: &UnitKind,
) -> Result<Vars, AllocError>
    ensures { IfOk result (λ vars. vars ≡ vars_begun catalogue.now conts.now kind.now) }
{
    match kind {
        UnitKind::Acid { .. } => Ok(Items::new(alloc)),
        UnitKind::Call { program, args, .. } => vars_called(alloc, catalogue, program, args),
        UnitKind::First { program, args, .. } => vars_called(alloc, catalogue, program, args),
        UnitKind::Later { base, .. } => vars_going(alloc, catalogue, conts, *base),
    }
}

/// What a program keeps of a unit's variables; nothing, where it is not there.
pub fn values_named(
    alloc: Global,
    catalogue: &Catalogue,
    program: &Name,
    vars: &[Binding],
) -> Result<Row, AllocError>
    ensures { IfOk result (λ values. values ≡ values_named vars.now (program_named catalogue.now program.now)) }
{
    match catalogue.find(program) {
        Some(def) => values_kept(alloc, def, vars),
        None => Ok(Items::new(alloc)),
    }
}
