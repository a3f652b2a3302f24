//! Whether two answers are one.

ghost use Rattle.std.specs.Prelude.{◌≡◌};
ghost use Rattle.salt_audit.specs.Laws as law;
ghost use Rattle.salt_audit.specs.Replaying.{is_amiss};
ghost use Rattle.salt_model.specs.Honest.{cause_among, cause_in};
ghost use Rattle.salt_model.specs.Statements.{has_failed};
ghost use Rattle.salt_values.specs.Value.{is_same_value};

use salt_model::{Answer, Cause, End, Event};
use salt_values::{Row, Value};

fn is_same_cause(left: Cause, right: Cause) -> bool
    ensures { result ≡ law.is_same_cause left right }
{
    match left {
        Cause::Duplicate => matches!(right, Cause::Duplicate),
        Cause::Check => matches!(right, Cause::Check),
        Cause::Missing => matches!(right, Cause::Missing),
        Cause::Ensure => matches!(right, Cause::Ensure),
        Cause::Overflow => matches!(right, Cause::Overflow),
        Cause::TooLong => matches!(right, Cause::TooLong),
    }
}

fn is_same_value(left: &Value, right: &Value) -> bool
    ensures { result ≡ is_same_value left.now right.now }
{
    *left == *right
}

fn is_same_row(left: &[Value], right: &[Value]) -> bool
    ensures { result ≡ law.same_all is_same_value left.now right.now }
{
    let mut mine = left;
    let mut theirs = right;
    while !mine.is_empty() {
        let [first, more @ ..] = mine else {
            break;
        };
        let [other, others @ ..] = theirs else {
            return false;
        };
        if !is_same_value(first, other) {
            return false;
        }
        mine = more;
        theirs = others;
    }
    theirs.is_empty()
}

fn are_same_rows(left: &[Row], right: &[Row]) -> bool
    ensures { result ≡ law.same_all (law.same_all is_same_value) left.now right.now }
{
    let mut mine = left;
    let mut theirs = right;
    while !mine.is_empty() {
        let [first, more @ ..] = mine else {
            break;
        };
        let [other, others @ ..] = theirs else {
            return false;
        };
        if !is_same_row(first.as_slice(), other.as_slice()) {
            return false;
        }
        mine = more;
        theirs = others;
    }
    theirs.is_empty()
}

fn is_same_cell(left: &Option<Value>, right: &Option<Value>) -> bool
    ensures { result ≡ law.is_same_cell left.now right.now }
{
    match (left, right) {
        (None, None) => true,
        (Some(value), Some(other)) => is_same_value(value, other),
        (None, Some(_)) => false,
        (Some(_), None) => false,
    }
}

/// Whether two answers are one.
pub fn is_same_answer(left: &Answer, right: &Answer) -> bool
    ensures { result ≡ law.is_same_answer left.now right.now }
{
    match left {
        Answer::Count(count) => match right {
            Answer::Count(other) => *count == *other,
            _ => false,
        },
        Answer::Rows(rows) => match right {
            Answer::Rows(others) => are_same_rows(rows.as_slice(), others.as_slice()),
            _ => false,
        },
        Answer::Cell(cell) => match right {
            Answer::Cell(other) => is_same_cell(cell, other),
            _ => false,
        },
        Answer::Stored(value) => match right {
            Answer::Stored(other) => is_same_value(value, other),
            _ => false,
        },
        Answer::Held => matches!(right, Answer::Held),
        Answer::Failed(cause) => match right {
            Answer::Failed(other) => is_same_cause(*cause, *other),
            _ => false,
        },
    }
}

/// Whether a statement that answers so has failed.
pub fn has_failed(answer: &Answer) -> bool
    ensures { result ≡ has_failed answer.now }
{
    match answer {
        Answer::Failed(_cause) => true,
        _ => false,
    }
}

fn cause_in(answer: &Answer) -> Option<Cause>
    ensures { result ≡ cause_in answer.now }
{
    match answer {
        Answer::Failed(cause) => Some(*cause),
        _ => None,
    }
}

/// The cause of the first answer that failed.
fn cause_among(answers: &[Answer]) -> Option<Cause>
    ensures { result ≡ cause_among answers.now }
{
    let mut left = answers;
    while !left.is_empty() {
        let [first, rest @ ..] = left else {
            break;
        };
        if let Some(cause) = cause_in(first) {
            return Some(cause);
        }
        left = rest;
    }
    None
}

/// Whether a unit may end so where a statement failed by this cause, or none did.
fn fits_end(end: &End, cause: Option<Cause>) -> bool
    ensures { result ≡ law.fits_end end.now cause }
{
    match end {
        End::Committed(_number) => cause.is_none(),
        End::Failed(told) => match cause {
            Some(cause) => is_same_cause(*told, cause),
            None => false,
        },
        End::Branched(_number, told) => match cause {
            Some(cause) => is_same_cause(*told, cause),
            None => false,
        },
        End::Cut => true,
        End::RolledBack => cause.is_none(),
        End::Victim => cause.is_none(),
    }
}

/// Whether the event is amiss behind these answers of its unit: something else than its end follows one that failed, or an end
/// does not fit them.
pub fn is_amiss(event: &Event, answers: &[Answer]) -> bool
    ensures { result ≡ is_amiss event.now answers.now }
{
    match event {
        Event::Did { .. } => cause_among(answers).is_some(),
        Event::Ended { unit: _unit, end } => !fits_end(end, cause_among(answers)),
        _ => false,
    }
}
