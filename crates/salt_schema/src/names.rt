//! Names in expressions, and the first that is not known or comes twice.

ghost use Rattle.std.specs.Prelude.{◌≡◌, ◌||◌, [], map};
ghost use Rattle.std.specs.Option.{option_copied, option_or};
ghost use Rattle.salt_ast.specs.Judgement.{doubled_name, field_named, unknown_in_expr, unknown_name};
ghost use Rattle.salt_ast.specs.Words.{first_in, is_among};
ghost use Rattle.salt_ast.specs.TokenSpelling.{same_bytes};
ghost use Rattle.salt_schema.specs.Names.{variables};

use crate::named::Named;
use salt_ast::{Expr, Field, Scope, same_bytes};
use salt_values::Name;

/// The parameters and variables that expressions may name.
#[derive(Clone, Copy)]
pub struct Bindings<'a> {
    /// The parameters, which stand before the variables.
    pub params: &'a [Field],
    /// The variables.
    pub vars: &'a [Field],
}

impl<'a> Bindings<'a> {
    /// Those of a scope.
    pub fn of(scope: &'a Scope) -> Bindings<'a>
        ensures params { result.params.now ≡ scope.now.params }
        ensures vars { result.vars.now ≡ scope.now.vars }
    {
        Bindings {
            params: scope.params.as_slice(),
            vars: scope.vars.as_slice(),
        }
    }

    /// No parameters and no variables.
    pub fn none() -> Bindings<'a>
        ensures params { result.params.now ≡ [] }
        ensures vars { result.vars.now ≡ [] }
    {
        Bindings {
            params: &[],
            vars: &[],
        }
    }
}

/// Whether two names are one.
pub fn is_same_name(a: &Name, b: &Name) -> bool
    ensures { result ≡ same_bytes a.now b.now }
{
    same_bytes(a.as_slice(), b.as_slice())
}

/// The first field of this name.
pub fn field_named<'a>(fields: &'a [Field], name: &Name) -> Option<&'a Field>
    ensures { option_copied result ≡ field_named fields.now name.now }
{
    for field in fields {
        if is_same_name(name, &field.name) {
            return Some(field);
        }
    }
    None
}

/// The parameter or variable of this name.
pub fn variable_named<'a>(bindings: &Bindings<'a>, name: &Name) -> Option<&'a Field>
    ensures { option_copied result ≡ field_named (variables bindings.now) name.now }
{
    match field_named(bindings.params, name) {
        Some(field) => Some(field),
        None => field_named(bindings.vars, name),
    }
}

/// The name, unless it is that of a field.
pub fn unknown_name<'a>(fields: &[Field], name: &'a Name) -> Option<&'a Name>
    ensures { option_copied result ≡ unknown_name fields.now name.now }
{
    match field_named(fields, name) {
        Some(_) => None,
        None => Some(name),
    }
}

/// The name, unless it is that of a parameter or variable.
pub fn unknown_variable<'a>(bindings: &Bindings<'_>, name: &'a Name) -> Option<&'a Name>
    ensures { option_copied result ≡ unknown_name (variables bindings.now) name.now }
{
    match variable_named(bindings, name) {
        Some(_) => None,
        None => Some(name),
    }
}

/// The first of two, if it is there.
pub fn first_of<'a>(first: Option<&'a Name>, second: Option<&'a Name>) -> Option<&'a Name>
    ensures { option_copied result ≡ option_or (option_copied first.entry) (option_copied second.entry) }
{
    match first {
        Some(name) => Some(name),
        None => second,
    }
}

/// The first name in an expression that is not known, where it may name these columns, parameters and variables.
pub fn unknown_in<'a>(
    columns: &[Field],
    bindings: &Bindings<'_>,
    expr: &'a Expr,
) -> Option<&'a Name>
    ensures { option_copied result ≡ unknown_in_expr columns.now (variables bindings.now) expr.now }
{
    match expr {
        Expr::Lit(_) => None,
        Expr::Column(name) => unknown_name(columns, name),
        Expr::Variable(name) => unknown_variable(bindings, name),
        Expr::Not(operand) => unknown_in(columns, bindings, operand.get()),
        Expr::IsNull { of, .. } => unknown_in(columns, bindings, of.get()),
        Expr::Binary { left, right, .. } => {
            let left = unknown_in(columns, bindings, left.get());
            let right = unknown_in(columns, bindings, right.get());
            first_of(left, right)
        }
    }
}

/// The first name in expressions that is not known.
pub fn unknown_among<'a>(
    columns: &[Field],
    bindings: &Bindings<'_>,
    exprs: &'a [Expr],
) -> Option<&'a Name>
    ensures { option_copied result ≡ first_in (unknown_in_expr columns.now (variables bindings.now)) exprs.now }
{
    for expr in exprs {
        if let Some(name) = unknown_in(columns, bindings, expr) {
            return Some(name);
        }
    }
    None
}

fn is_among<T: Named>(name: &Name, items: &[T]) -> bool
    ensures { result ≡ is_among name.now (map T.name items.now) }
{
    for item in items {
        if is_same_name(name, item.name()) {
            return true;
        }
    }
    false
}

/// Whether one of these, or of those before them, has the name.
fn is_seen<T: Named>(name: &Name, before: &[T], items: &[T]) -> bool
    ensures { result ≡ (is_among name.now (map T.name before.now) || is_among name.now (map T.name items.now)) }
{
    is_among(name, before) || is_among(name, items)
}

/// The first name that an earlier one of these has, or one of those before them.
pub fn doubled_in<'a, T: Named>(before: &[T], items: &'a [T]) -> Option<&'a Name>
    ensures { option_copied result ≡ doubled_name (map T.name before.now) (map T.name items.now) }
{
    for (at, item) in items.iter().enumerate() {
        let name = item.name();
        if is_seen(name, before, &items[..at]) {
            return Some(name);
        }
    }
    None
}
