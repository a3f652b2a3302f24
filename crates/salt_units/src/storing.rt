//! What an answer stores in a variable.

ghost use Rattle.std.specs.List.{position_from};
ghost use Rattle.std.specs.Prelude.{◌≡◌, IfOk};
ghost use Rattle.salt_exprs.specs.Names.{is_named};
ghost use Rattle.salt_model.specs.Statements.{set_var};
ghost use Rattle.salt_units.specs.Acting.{stored_by, stored_in, vars_with};

use salt_ast::{Statement, same_bytes};
use salt_model::{Answer, Binding, Vars};
use salt_values::{Name, TryCopy};
use sqlite_items::Items;
use std::alloc::{AllocError, Global};

/// An answer's value, for the variable of this name.
fn stored_in(alloc: Global, var: &Name, answer: &Answer) -> Result<Option<Binding>, AllocError>
    ensures { IfOk result (λ stored. stored ≡ stored_in var.now answer.now) }
{
    let Answer::Stored(value) = answer else {
        return Ok(None);
    };
    Ok(Some(Binding {
        name: Items::from_slice(alloc, var.as_slice())?,
        value: value.copy(alloc)?,
    }))
}

/// What the answer of a statement stores in a variable, and the variable's name.
pub fn stored_by(
    alloc: Global,
    statement: &Statement,
    answer: &Answer,
) -> Result<Option<Binding>, AllocError>
    ensures { IfOk result (λ stored. stored ≡ stored_by statement.now answer.now) }
{
    match statement {
        Statement::SelectInto { var, .. } => stored_in(alloc, var, answer),
        Statement::Insert { .. } => Ok(None),
        Statement::Select { .. } => Ok(None),
        Statement::Update { .. } => Ok(None),
        Statement::Delete { .. } => Ok(None),
        Statement::Ensure(_) => Ok(None),
    }
}

fn position_of(vars: &[Binding], name: &[u8]) -> Option<usize>
    ensures { result ≡ position_from (is_named name.now) 0 vars.now }
{
    vars.iter()
        .position(|binding| same_bytes(name, binding.name.as_slice()))
}

/// Sets the first variable of a name; without one it leaves them.
fn set_var(vars: &mut Vars, binding: Binding)
    ensures { vars.new ≡ set_var binding.name binding.value vars.old }
{
    if let Some(at) = position_of(vars.as_slice(), binding.name.as_slice()) {
        vars.set(at, binding);
    }
}

/// Sets the variable that an answer is stored in, if there is one.
pub fn store(vars: &mut Vars, stored: Option<Binding>)
    ensures { vars.new ≡ vars_with stored vars.old }
{
    if let Some(binding) = stored {
        set_var(vars, binding);
    }
}
