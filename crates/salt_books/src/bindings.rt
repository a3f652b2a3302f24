//! Parameters and variables with their values.

ghost use Rattle.salt_ast.specs.declared.trees.Field.{Field};
ghost use Rattle.salt_model.specs.Eval.{named_values};
ghost use Rattle.salt_model.specs.Kept.{values_kept, vars_at_call, vars_at_cont, zero_of, zeros};
ghost use Rattle.salt_model.specs.declared.vars.Binding.{Binding};
ghost use Rattle.std.specs.Prelude.{IfOk, OnOk, drop, map, ◌++◌, ◌≡◌};

use salt_ast::{ColType, Field, ProgramDef};
use salt_model::{Binding, Vars};
use salt_values::{Cont, Row, Text, TryCopy, Value};
use sqlite_items::Items;
use std::alloc::{AllocError, Global};

/// Adds fields with their values, as many as there are of both.
fn name_values(
    alloc: Global,
    vars: &mut Vars,
    fields: &[Field],
    values: &[Value],
) -> Result<(), AllocError>
    ensures { OnOk result (vars.new ≡ vars.old ++ named_values fields.now values.now) }
{
    let mut at = 0;
    while at < fields.len() && at < values.len() {
        vars.push(Binding {
            name: fields[at].name.copy(alloc)?,
            value: values[at].copy(alloc)?,
        })?;
        at += 1;
    }
    Ok(())
}

/// What a variable of a type has before anything is stored in it: 0, or the empty text.
fn zero_of(alloc: Global, kind: ColType) -> Result<Value, AllocError>
    ensures { IfOk result (λ value. value ≡ zero_of kind) }
{
    match kind {
        ColType::Int => Ok(Value::Int(0)),
        ColType::Text => match Text::new(alloc, &[]) {
            Ok(text) => Ok(Value::Text(text)),
            Err(_) => Err(AllocError),
        },
    }
}

fn zeros(alloc: Global, fields: &[Field]) -> Result<Row, AllocError>
    ensures { IfOk result (λ row. row ≡ zeros fields.now) }
{
    let mut row = Items::new(alloc);
    for field in fields {
        row.push(zero_of(alloc, field.kind)?)?;
    }
    Ok(row)
}

/// A program's parameters with the arguments of a call, and its variables, each 0 or the empty text.
pub fn vars_at_call(alloc: Global, def: &ProgramDef, args: &Row) -> Result<Vars, AllocError>
    ensures { IfOk result (λ vars. vars ≡ vars_at_call def.now args.now) }
{
    let mut vars = Items::new(alloc);
    let values = zeros(alloc, def.vars.as_slice())?;
    name_values(alloc, &mut vars, def.params.as_slice(), args.as_slice())?;
    name_values(alloc, &mut vars, def.vars.as_slice(), values.as_slice())?;
    Ok(vars)
}

/// A program's parameters and variables where it goes on.
pub fn vars_at_cont(alloc: Global, def: &ProgramDef, cont: &Cont) -> Result<Vars, AllocError>
    ensures { IfOk result (λ vars. vars ≡ vars_at_cont def.now cont.now) }
{
    let mut vars = Items::new(alloc);
    name_values(
        alloc,
        &mut vars,
        def.params.as_slice(),
        cont.args.as_slice(),
    )?;
    name_values(alloc, &mut vars, def.vars.as_slice(), cont.vars.as_slice())?;
    Ok(vars)
}

/// The bindings behind the first so many.
fn behind(vars: &[Binding], count: usize) -> &[Binding]
    ensures { result.now ≡ drop count vars.now }
{
    if count < vars.len() {
        &vars[count..]
    } else {
        &[]
    }
}

fn values_of(alloc: Global, vars: &[Binding]) -> Result<Row, AllocError>
    ensures { IfOk result (λ row. row ≡ map (λ (b : Binding). b.value) vars.now) }
{
    let mut row = Items::new(alloc);
    for binding in vars {
        row.push(binding.value.copy(alloc)?)?;
    }
    Ok(row)
}

/// The values of a program's variables, its arguments aside.
pub fn values_kept(alloc: Global, def: &ProgramDef, vars: &[Binding]) -> Result<Row, AllocError>
    ensures { IfOk result (λ row. row ≡ values_kept def.now vars.now) }
{
    values_of(alloc, behind(vars, def.params.len()))
}
