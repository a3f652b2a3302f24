//! What is refused of programs.

ghost use Rattle.std.specs.Prelude.{◌≡◌, ◌<◌, ◌++◌, ◌^◌, [], length, option_map};
ghost use Rattle.std.specs.Bool.{then_some};
ghost use Rattle.std.specs.Option.{option_copied, option_or};
ghost use Rattle.salt_ast.specs.Judgement.{doubled_name, field_names, first_fault};
ghost use Rattle.salt_ast.specs.ProgramJudgement as judged;
ghost use Rattle.salt_schema.specs.Refusals.{fault_meant};
ghost use Rattle.salt_program.specs.Refusals.{IsAnswer, branch_meant, fault_error, parts_in, program_refusal};

use crate::branches::{BranchFault, branch_fault};
use crate::catalogue::Catalogue;
use crate::error::DefineErr;
use crate::statements::{doubled_in_body, is_typed_body, unknown_in_body};
use salt_ast::ProgramDef;
use salt_schema::{Bindings, Fault, Schema, doubled_in, first_fault, first_of};
use salt_values::limits::PROGRAMS_MOST;
use salt_values::{Name, TryCopy};
use std::alloc::Global;

/// The first parameter or variable that has the name of an earlier one.
fn doubled_in_fields(def: &ProgramDef) -> Option<&Name>
    ensures { option_copied result ≡ doubled_name [] (field_names (def.now.params ++ def.now.vars)) }
{
    let params = doubled_in(&[], def.params.as_slice());
    let vars = doubled_in(def.params.as_slice(), def.vars.as_slice());
    first_of(params, vars)
}

/// The name of a program where there is one of it.
fn defined_before<'a>(catalogue: &Catalogue, def: &'a ProgramDef) -> Option<&'a Name>
    ensures { option_copied result ≡ then_some (judged.is_program catalogue.now def.now.name) def.now.name }
{
    match catalogue.find(&def.name) {
        Some(_) => Some(&def.name),
        None => None,
    }
}

fn doubled_in_program<'a>(catalogue: &Catalogue, def: &'a ProgramDef) -> Option<&'a Name>
    ensures { option_copied result ≡ judged.doubled_in_program catalogue.now def.now }
{
    let before = defined_before(catalogue, def);
    let fields = doubled_in_fields(def);
    let columns = doubled_in_body(&def.body);
    first_of(before, first_of(fields, columns))
}

/// What is refused of a program's names and types.
fn text_fault<'a>(schema: &Schema, catalogue: &Catalogue, def: &'a ProgramDef) -> Option<Fault<'a>>
    ensures { option_map fault_meant result ≡ first_fault (judged.unknown_in_program schema.now def.now)
        (judged.doubled_in_program catalogue.now def.now) (judged.is_typed_program schema.now def.now) }
{
    let bindings = Bindings {
        params: def.params.as_slice(),
        vars: def.vars.as_slice(),
    };
    first_fault(
        unknown_in_body(schema, &bindings, &def.body),
        doubled_in_program(catalogue, def),
        is_typed_body(schema, &bindings, &def.body),
    )
}

/// The answer by a fault of names or types, and else by one of the branches. `Memory` where there is none for a name.
fn answer(
    alloc: Global,
    fault: Option<Fault<'_>>,
    branch: Option<BranchFault>,
) -> Result<(), DefineErr>
    ensures { IsAnswer (option_map fault_error (option_or (option_map judged.in_text (option_map fault_meant fault.entry))
        (option_map judged.in_branches (option_map branch_meant branch)))) result }
{
    match fault {
        Some(Fault::Unknown(name)) => Err(DefineErr::Unknown(name.copy(alloc)?)),
        Some(Fault::Exists(name)) => Err(DefineErr::Exists(name.copy(alloc)?)),
        Some(Fault::Mistyped) => Err(DefineErr::Mistyped),
        None => match branch {
            Some(BranchFault::NoBranch(part)) => Err(DefineErr::NoBranch(part)),
            Some(BranchFault::Backward(part)) => Err(DefineErr::Backward(part)),
            None => Ok(()),
        },
    }
}

impl Catalogue {
    /// Whether a program can be defined, which changes nothing: each refusal as `define` gives it, in this order. `Programs` where there
    /// are as many as there may be; `Unknown` with the first name in its statements that is not known; `Exists` with the program's
    /// name, where there is one of it, with the first parameter or variable that has an earlier one's name, or with the first column
    /// that a statement changes twice; `Mistyped` where a statement's types are wrong; `NoBranch` or `Backward` with the least part
    /// whose ways are wrong, `NoBranch` before `Backward`. `Memory` is want of it.
    pub fn judge(&self, schema: &Schema, def: &ProgramDef) -> Result<(), DefineErr>
        requires parts { length (parts_in def.now.body) < 2 ^ 32 }
        ensures { IsAnswer (program_refusal schema.now self.now def.now) result }
    {
        if PROGRAMS_MOST <= self.count() {
            return Err(DefineErr::Programs);
        }
        let fault = text_fault(schema, self, def);
        answer(self.allocator(), fault, branch_fault(&def.body))
    }
}
