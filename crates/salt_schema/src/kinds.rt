//! What expressions give.

ghost use Rattle.std.specs.Prelude.{◌≡◌, option_and_then, option_map};
ghost use Rattle.std.specs.Bool.{then_some};
ghost use Rattle.salt_ast.specs.Judgement as judged;
ghost use Rattle.salt_values.specs.Value.{is_null};
ghost use Rattle.salt_schema.specs.Names.{variables};
ghost use Rattle.salt_schema.specs.Kinds.{kind_meant};

use crate::names::{Bindings, field_named, variable_named};
use salt_ast::{ColType, Expr, Field, Op};
use salt_values::{Name, Value};

/// What an expression gives.
#[derive(Clone, Copy, Debug, PartialEq, Eq)]
pub enum Kind {
    /// A value of this type.
    Value(ColType),
    /// A truth value.
    Truth,
}

fn is_same_type(a: ColType, b: ColType) -> bool
    ensures { result ≡ judged.is_same_type a b }
{
    match (a, b) {
        (ColType::Int, ColType::Int) => true,
        (ColType::Text, ColType::Text) => true,
        (ColType::Int, ColType::Text) => false,
        (ColType::Text, ColType::Int) => false,
    }
}

fn is_same_kind(a: Kind, b: Kind) -> bool
    ensures { result ≡ judged.is_same_kind (kind_meant a) (kind_meant b) }
{
    match (a, b) {
        (Kind::Value(a), Kind::Value(b)) => is_same_type(a, b),
        (Kind::Truth, Kind::Truth) => true,
        (Kind::Value(_), Kind::Truth) => false,
        (Kind::Truth, Kind::Value(_)) => false,
    }
}

/// Whether this is what is given.
pub fn is_of_kind(kind: Kind, given: Option<Kind>) -> bool
    ensures { result ≡ judged.is_of_kind (kind_meant kind) (option_map kind_meant given) }
{
    match given {
        Some(given) => is_same_kind(kind, given),
        None => false,
    }
}

fn is_value(given: Option<Kind>) -> bool
    ensures { result ≡ judged.is_value (option_map kind_meant given) }
{
    match given {
        Some(Kind::Value(_)) => true,
        Some(Kind::Truth) => false,
        None => false,
    }
}

/// Whether both are there and are one type.
pub fn same_types(a: Option<ColType>, b: Option<ColType>) -> bool
    ensures { result ≡ judged.same_types a b }
{
    match (a, b) {
        (Some(a), Some(b)) => is_same_type(a, b),
        (None, _) => false,
        (Some(_), None) => false,
    }
}

/// What a comparison gives.
fn comparison_kind(left: Kind, right: Kind) -> Option<Kind>
    ensures { option_map kind_meant result ≡ judged.comparison_kind (kind_meant left) (kind_meant right) }
{
    match (left, right) {
        (Kind::Value(a), Kind::Value(b)) => {
            if is_same_type(a, b) {
                Some(Kind::Truth)
            } else {
                None
            }
        }
        (Kind::Value(_), Kind::Truth) => None,
        (Kind::Truth, _) => None,
    }
}

/// What an operation gives that takes and gives one kind.
fn closed_kind(kind: Kind, left: Kind, right: Kind) -> Option<Kind>
    ensures { option_map kind_meant result ≡ judged.closed_kind (kind_meant kind) (kind_meant left) (kind_meant right) }
{
    if is_same_kind(kind, left) && is_same_kind(kind, right) {
        Some(kind)
    } else {
        None
    }
}

fn operation_kind(op: Op, left: Kind, right: Kind) -> Option<Kind>
    ensures { option_map kind_meant result ≡ judged.operation_kind op (kind_meant left) (kind_meant right) }
{
    match op {
        Op::Or => closed_kind(Kind::Truth, left, right),
        Op::And => closed_kind(Kind::Truth, left, right),
        Op::Equal => comparison_kind(left, right),
        Op::Unequal => comparison_kind(left, right),
        Op::Less => comparison_kind(left, right),
        Op::AtMost => comparison_kind(left, right),
        Op::Greater => comparison_kind(left, right),
        Op::AtLeast => comparison_kind(left, right),
        Op::Add => closed_kind(Kind::Value(ColType::Int), left, right),
        Op::Sub => closed_kind(Kind::Value(ColType::Int), left, right),
        Op::Join => closed_kind(Kind::Value(ColType::Text), left, right),
        Op::Mul => closed_kind(Kind::Value(ColType::Int), left, right),
    }
}

/// The type of a value. NULL has none.
pub fn value_type(value: &Value) -> Option<ColType>
    ensures { result ≡ judged.value_type value.now }
{
    match value {
        Value::Int(_) => Some(ColType::Int),
        Value::Text(_) => Some(ColType::Text),
        Value::Null => None,
    }
}

fn value_kind(given: Option<ColType>) -> Option<Kind>
    ensures { option_map kind_meant result ≡ option_map judged.values given }
{
    match given {
        Some(kind) => Some(Kind::Value(kind)),
        None => None,
    }
}

/// The type of the field of this name.
pub fn type_named(fields: &[Field], name: &Name) -> Option<ColType>
    ensures { result ≡ judged.type_named fields.now name.now }
{
    match field_named(fields, name) {
        Some(field) => Some(field.kind),
        None => None,
    }
}

/// The type of the parameter or variable of this name.
fn variable_type(bindings: &Bindings<'_>, name: &Name) -> Option<ColType>
    ensures { result ≡ judged.type_named (variables bindings.now) name.now }
{
    match variable_named(bindings, name) {
        Some(field) => Some(field.kind),
        None => None,
    }
}

/// A truth value, if the test holds.
fn truth_if(holds: bool) -> Option<Kind>
    ensures { option_map kind_meant result ≡ then_some holds judged.truths }
{
    if holds { Some(Kind::Truth) } else { None }
}

/// What an operation gives on what its operands give.
fn kind_of_both(op: Op, left: Option<Kind>, right: Option<Kind>) -> Option<Kind>
    ensures { option_map kind_meant result
        ≡ option_and_then (λ k. option_and_then (judged.operation_kind op k) (option_map kind_meant right)) (option_map kind_meant left) }
{
    match (left, right) {
        (Some(left), Some(right)) => operation_kind(op, left, right),
        (None, _) => None,
        (Some(_), None) => None,
    }
}

/// What an expression gives over these columns, parameters and variables: nothing where its types are wrong.
pub fn kind_of(columns: &[Field], bindings: &Bindings<'_>, expr: &Expr) -> Option<Kind>
    ensures { option_map kind_meant result ≡ judged.expr_kind columns.now (variables bindings.now) expr.now }
{
    match expr {
        Expr::Lit(value) => value_kind(value_type(value)),
        Expr::Column(name) => value_kind(type_named(columns, name)),
        Expr::Variable(name) => value_kind(variable_type(bindings, name)),
        Expr::Not(operand) => {
            let given = kind_of(columns, bindings, operand.get());
            truth_if(is_of_kind(Kind::Truth, given))
        }
        Expr::IsNull { of, .. } => {
            let given = kind_of(columns, bindings, of.get());
            truth_if(is_value(given))
        }
        Expr::Binary { op, left, right } => {
            let left = kind_of(columns, bindings, left.get());
            let right = kind_of(columns, bindings, right.get());
            kind_of_both(*op, left, right)
        }
    }
}

/// Whether an expression gives a truth value.
pub fn gives_truth(columns: &[Field], bindings: &Bindings<'_>, expr: &Expr) -> bool
    ensures { result ≡ judged.gives_truth columns.now (variables bindings.now) expr.now }
{
    is_of_kind(Kind::Truth, kind_of(columns, bindings, expr))
}

/// Whether an expression gives a value of the type, if there is one.
pub fn gives_type(
    columns: &[Field],
    bindings: &Bindings<'_>,
    kind: Option<ColType>,
    expr: &Expr,
) -> bool
    ensures { result ≡ judged.gives_type columns.now (variables bindings.now) kind expr.now }
{
    match kind {
        Some(kind) => is_of_kind(Kind::Value(kind), kind_of(columns, bindings, expr)),
        None => false,
    }
}

/// Whether the column of this name may hold NULL.
pub fn is_nullable(columns: &[Field], name: &Name) -> bool
    ensures { result ≡ judged.is_nullable columns.now name.now }
{
    match field_named(columns, name) {
        Some(field) => field.nullable,
        None => false,
    }
}

fn is_null(value: &Value) -> bool
    ensures { result ≡ is_null value.now }
{
    match value {
        Value::Null => true,
        Value::Int(_) => false,
        Value::Text(_) => false,
    }
}

/// Whether an expression is `null` or names a column that may hold it.
fn may_be_null(columns: &[Field], expr: &Expr) -> bool
    ensures { result ≡ judged.may_be_null columns.now expr.now }
{
    match expr {
        Expr::Lit(value) => is_null(value),
        Expr::Column(name) => is_nullable(columns, name),
        Expr::Variable(_) => false,
        Expr::Not(operand) => may_be_null(columns, operand.get()),
        Expr::IsNull { of, .. } => may_be_null(columns, of.get()),
        Expr::Binary { left, right, .. } => {
            let left = may_be_null(columns, left.get());
            let right = may_be_null(columns, right.get());
            left || right
        }
    }
}

fn is_null_literal(expr: &Expr) -> bool
    ensures { result ≡ judged.is_null_literal expr.now }
{
    match expr {
        Expr::Lit(value) => is_null(value),
        Expr::Column(_) => false,
        Expr::Variable(_) => false,
        Expr::Not(_) => false,
        Expr::IsNull { .. } => false,
        Expr::Binary { .. } => false,
    }
}

/// Whether a field takes what an expression gives: a value of its type, or NULL where it may hold it.
pub fn takes(columns: &[Field], bindings: &Bindings<'_>, field: &Field, expr: &Expr) -> bool
    ensures { result ≡ judged.takes columns.now (variables bindings.now) field.now expr.now }
{
    let fits = field.nullable || !may_be_null(columns, expr);
    let typed = is_null_literal(expr) || gives_type(columns, bindings, Some(field.kind), expr);
    fits && typed
}
