//! What a part of an expression gives to the operation that it stands under.

ghost use Rattle.std.specs.Prelude.{◌≡◌, Ok, slice_get};
ghost use Rattle.salt_model.specs.Eval.{Gives, Holds, known, mistyped, negated, null_tested, yes_or_no};
ghost use Rattle.salt_exprs.specs.Operands.{datum_of};
ghost use Rattle.salt_values.specs.Value.{is_null};

use crate::truth::Truth;
use salt_values::Value;
use sqlite_items::at;

/// A value that stands in a row, in the expression or in a variable, a value made by an operation, or a truth value.
#[derive(Drop)]
pub enum Operand<'r> {
    Lent(&'r Value),
    Made(Value),
    Holds(Truth),
}

/// What the definitions take for an operation on operands of a wrong kind, and for a name that is not known: the number 0.
/// An expression that was judged has neither.
pub fn mistyped<'r>() -> Operand<'r>
    ensures { Ok (datum_of result) ≡ mistyped }
{
    Operand::Made(Value::Int(0))
}

/// The value of the column of this number in a row; what is mistyped where the row ends before it.
pub fn in_column(row: &[Value], number: usize) -> Operand<'_>
    ensures { Ok (datum_of result) ≡ known (slice_get row.now number) }
{
    match at(row, number) {
        Some(value) => Operand::Lent(value),
        None => mistyped(),
    }
}

/// Yes or no.
pub fn told<'r>(yes: bool) -> Operand<'r>
    ensures { datum_of result ≡ Holds (yes_or_no yes) }
{
    Operand::Holds(Truth::of(yes))
}

/// Whether a value is NULL.
pub fn is_null(value: &Value) -> bool
    ensures { result ≡ is_null value.now }
{
    match value {
        Value::Int(_) => false,
        Value::Text(_) => false,
        Value::Null => true,
    }
}

/// What `not` gives.
pub fn negated<'r>(operand: &Operand<'_>) -> Operand<'r>
    ensures { Ok (datum_of result) ≡ negated (datum_of operand.now) }
{
    match operand {
        Operand::Holds(truth) => Operand::Holds(truth.opposite()),
        Operand::Lent(_) => mistyped(),
        Operand::Made(_) => mistyped(),
    }
}

fn null_test<'r>(is_negated: bool, value: &Value) -> Operand<'r>
    ensures { Ok (datum_of result) ≡ null_tested is_negated (Gives value.now) }
{
    if is_negated {
        told(!is_null(value))
    } else {
        told(is_null(value))
    }
}

/// What `is null` gives, or, where it is negated, `is not null`.
pub fn null_tested<'r>(is_negated: bool, operand: &Operand<'_>) -> Operand<'r>
    ensures { Ok (datum_of result) ≡ null_tested is_negated (datum_of operand.now) }
{
    match operand {
        Operand::Holds(_) => mistyped(),
        Operand::Lent(value) => null_test(is_negated, value),
        Operand::Made(value) => null_test(is_negated, value),
    }
}
