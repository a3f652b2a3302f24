//! Operations on two operands.

ghost use Rattle.std.specs.Prelude.{◌≡◌, ◌+ℤ◌, ◌-ℤ◌, ◌*ℤ◌, ◌++◌, Ok, false};
ghost use Rattle.salt_model.specs.Eval.{Gives, int_or_overflow, joined, of_null, of_values, text_or_too_long, with_value};
ghost use Rattle.salt_values.specs.Value.{is_null};
ghost use Rattle.salt_exprs.specs.Operands.{TellsMeaning, datum_of, is_decided, operated, truth_meant};
ghost use Rattle.salt_ast.specs.declared.trees.Op.TheVariants.{Add, Join, Mul, Sub};

use crate::error::EvalErr;
use crate::operand::{Operand, is_null, mistyped, told};
use crate::truth::Truth;
use salt_ast::Op;
use salt_model::Cause;
use salt_values::{Text, TextErr, Value};
use std::alloc::Global;

fn sum<'r>(left: i64, right: i64) -> Result<Operand<'r>, EvalErr>
    ensures { TellsMeaning datum_of (int_or_overflow (left +ℤ right)) result }
{
    match left.checked_add(right) {
        Some(number) => Ok(Operand::Made(Value::Int(number))),
        None => Err(EvalErr::Cause(Cause::Overflow)),
    }
}

fn difference<'r>(left: i64, right: i64) -> Result<Operand<'r>, EvalErr>
    ensures { TellsMeaning datum_of (int_or_overflow (left -ℤ right)) result }
{
    match left.checked_sub(right) {
        Some(number) => Ok(Operand::Made(Value::Int(number))),
        None => Err(EvalErr::Cause(Cause::Overflow)),
    }
}

fn product<'r>(left: i64, right: i64) -> Result<Operand<'r>, EvalErr>
    ensures { TellsMeaning datum_of (int_or_overflow (left *ℤ right)) result }
{
    match left.checked_mul(right) {
        Some(number) => Ok(Operand::Made(Value::Int(number))),
        None => Err(EvalErr::Cause(Cause::Overflow)),
    }
}

/// Two texts, one behind the other: `TooLong` where they are more than a text holds.
fn joined_texts<'r>(alloc: Global, left: &Text, right: &Text) -> Result<Operand<'r>, EvalErr>
    ensures { TellsMeaning datum_of (text_or_too_long (left.now ++ right.now)) result }
{
    let mut bytes = Vec::new(alloc);
    bytes.extend_from_slice(left.as_bytes())?;
    bytes.extend_from_slice(right.as_bytes())?;
    match Text::new(alloc, bytes.as_slice()) {
        Ok(text) => Ok(Operand::Made(Value::Text(text))),
        Err(TextErr::NotText) => Err(EvalErr::Cause(Cause::TooLong)),
        Err(TextErr::Memory) => Err(EvalErr::Memory),
    }
}

fn added<'r>(left: &Value, right: &Value) -> Result<Operand<'r>, EvalErr>
    ensures { TellsMeaning datum_of (of_values Add left.now right.now) result }
{
    match (left, right) {
        (Value::Int(left), Value::Int(right)) => sum(*left, *right),
        (Value::Int(_), Value::Text(_)) => Ok(mistyped()),
        (Value::Int(_), Value::Null) => Ok(mistyped()),
        (Value::Text(_), _) => Ok(mistyped()),
        (Value::Null, _) => Ok(mistyped()),
    }
}

fn subtracted<'r>(left: &Value, right: &Value) -> Result<Operand<'r>, EvalErr>
    ensures { TellsMeaning datum_of (of_values Sub left.now right.now) result }
{
    match (left, right) {
        (Value::Int(left), Value::Int(right)) => difference(*left, *right),
        (Value::Int(_), Value::Text(_)) => Ok(mistyped()),
        (Value::Int(_), Value::Null) => Ok(mistyped()),
        (Value::Text(_), _) => Ok(mistyped()),
        (Value::Null, _) => Ok(mistyped()),
    }
}

fn multiplied<'r>(left: &Value, right: &Value) -> Result<Operand<'r>, EvalErr>
    ensures { TellsMeaning datum_of (of_values Mul left.now right.now) result }
{
    match (left, right) {
        (Value::Int(left), Value::Int(right)) => product(*left, *right),
        (Value::Int(_), Value::Text(_)) => Ok(mistyped()),
        (Value::Int(_), Value::Null) => Ok(mistyped()),
        (Value::Text(_), _) => Ok(mistyped()),
        (Value::Null, _) => Ok(mistyped()),
    }
}

fn joined_values<'r>(alloc: Global, left: &Value, right: &Value) -> Result<Operand<'r>, EvalErr>
    ensures { TellsMeaning datum_of (of_values Join left.now right.now) result }
{
    match (left, right) {
        (Value::Text(left), Value::Text(right)) => joined_texts(alloc, left, right),
        (Value::Text(_), Value::Int(_)) => Ok(mistyped()),
        (Value::Text(_), Value::Null) => Ok(mistyped()),
        (Value::Int(_), _) => Ok(mistyped()),
        (Value::Null, _) => Ok(mistyped()),
    }
}

/// An operation on two values that are not NULL.
fn of_values<'r>(alloc: Global, op: Op, left: &Value, right: &Value) -> Result<Operand<'r>, EvalErr>
    ensures { TellsMeaning datum_of (of_values op left.now right.now) result }
{
    match op {
        Op::Equal => Ok(told(left == right)),
        Op::Unequal => Ok(told(left != right)),
        Op::Less => Ok(told(left < right)),
        Op::AtMost => Ok(told(left <= right)),
        Op::Greater => Ok(told(right < left)),
        Op::AtLeast => Ok(told(right <= left)),
        Op::Add => added(left, right),
        Op::Sub => subtracted(left, right),
        Op::Mul => multiplied(left, right),
        Op::Join => joined_values(alloc, left, right),
        Op::And => Ok(mistyped()),
        Op::Or => Ok(mistyped()),
    }
}

/// An operation of which a side is NULL: a comparison is unknown, and the others give NULL.
fn of_null<'r>(op: Op) -> Operand<'r>
    ensures { Ok (datum_of result) ≡ of_null op }
{
    match op {
        Op::Equal => Operand::Holds(Truth::Unknown),
        Op::Unequal => Operand::Holds(Truth::Unknown),
        Op::Less => Operand::Holds(Truth::Unknown),
        Op::AtMost => Operand::Holds(Truth::Unknown),
        Op::Greater => Operand::Holds(Truth::Unknown),
        Op::AtLeast => Operand::Holds(Truth::Unknown),
        Op::Add => Operand::Made(Value::Null),
        Op::Sub => Operand::Made(Value::Null),
        Op::Mul => Operand::Made(Value::Null),
        Op::Join => Operand::Made(Value::Null),
        Op::And => mistyped(),
        Op::Or => mistyped(),
    }
}

fn of_both<'r>(alloc: Global, op: Op, left: &Value, right: &Value) -> Result<Operand<'r>, EvalErr>
    ensures { TellsMeaning datum_of (with_value op left.now (Gives right.now)) result }
{
    if is_null(left) || is_null(right) {
        Ok(of_null(op))
    } else {
        of_values(alloc, op, left, right)
    }
}

fn with_value<'r>(
    alloc: Global,
    op: Op,
    left: &Value,
    right: &Operand<'_>,
) -> Result<Operand<'r>, EvalErr>
    ensures { TellsMeaning datum_of (with_value op left.now (datum_of right.now)) result }
{
    match right {
        Operand::Lent(right) => of_both(alloc, op, left, right),
        Operand::Made(right) => of_both(alloc, op, left, right),
        Operand::Holds(_) => Ok(mistyped()),
    }
}

fn of_truths<'r>(op: Op, left: Truth, right: Truth) -> Operand<'r>
    ensures { Ok (datum_of result) ≡ joined op (truth_meant left) (datum_of (Operand.Holds right)) }
{
    match op {
        Op::And => Operand::Holds(left.and(right)),
        Op::Or => Operand::Holds(left.or(right)),
        Op::Equal => mistyped(),
        Op::Unequal => mistyped(),
        Op::Less => mistyped(),
        Op::AtMost => mistyped(),
        Op::Greater => mistyped(),
        Op::AtLeast => mistyped(),
        Op::Add => mistyped(),
        Op::Sub => mistyped(),
        Op::Mul => mistyped(),
        Op::Join => mistyped(),
    }
}

fn with_truth<'r>(op: Op, left: Truth, right: &Operand<'_>) -> Operand<'r>
    ensures { Ok (datum_of result) ≡ joined op (truth_meant left) (datum_of right.now) }
{
    match right {
        Operand::Holds(right) => of_truths(op, left, *right),
        Operand::Lent(_) => mistyped(),
        Operand::Made(_) => mistyped(),
    }
}

/// Whether the left side alone decides: a false one of `and`, and a true one of `or`.
pub fn is_decided(op: Op, left: &Operand<'_>) -> bool
    ensures { result ≡ is_decided op (datum_of left.now) }
{
    match (op, left) {
        (Op::And, Operand::Holds(left)) => left.is_no(),
        (Op::Or, Operand::Holds(left)) => left.is_yes(),
        (Op::And, Operand::Lent(_)) => false,
        (Op::And, Operand::Made(_)) => false,
        (Op::Or, Operand::Lent(_)) => false,
        (Op::Or, Operand::Made(_)) => false,
        (Op::Equal, _) => false,
        (Op::Unequal, _) => false,
        (Op::Less, _) => false,
        (Op::AtMost, _) => false,
        (Op::Greater, _) => false,
        (Op::AtLeast, _) => false,
        (Op::Add, _) => false,
        (Op::Sub, _) => false,
        (Op::Mul, _) => false,
        (Op::Join, _) => false,
    }
}

/// An operation on what both sides gave, where the left one did not decide.
pub fn operate<'r>(
    alloc: Global,
    op: Op,
    left: &Operand<'_>,
    right: &Operand<'_>,
) -> Result<Operand<'r>, EvalErr>
    ensures { TellsMeaning datum_of (operated op (datum_of left.now) (datum_of right.now)) result }
{
    match left {
        Operand::Lent(left) => with_value(alloc, op, left, right),
        Operand::Made(left) => with_value(alloc, op, left, right),
        Operand::Holds(left) => Ok(with_truth(op, *left, right)),
    }
}
