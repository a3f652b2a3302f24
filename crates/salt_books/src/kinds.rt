//! Whose unit one is, and why one has failed.

ghost use Rattle.salt_model.specs.Honest.{cause_in};
ghost use Rattle.salt_model.specs.Locks.{family_of};
ghost use Rattle.salt_model.specs.Units.{program_begun, program_of_kind};
ghost use Rattle.std.specs.Prelude.{Some, ◌≡◌};

use salt_model::{Answer, Cause, Family, UnitKind};
use salt_values::Id;

/// The program of a unit of this kind.
pub fn program_of(kind: &UnitKind) -> Option<Id>
    ensures { result ≡ program_of_kind kind.now }
{
    match kind {
        UnitKind::Acid { .. } => None,
        UnitKind::Call { .. } => None,
        UnitKind::First { base, .. } => Some(*base),
        UnitKind::Later { base, .. } => Some(*base),
    }
}

/// The program that a unit of this kind begins.
pub fn program_begun(kind: &UnitKind) -> Option<Id>
    ensures { result ≡ program_begun kind.now }
{
    match kind {
        UnitKind::Acid { .. } => None,
        UnitKind::Call { .. } => None,
        UnitKind::First { base, .. } => Some(*base),
        UnitKind::Later { .. } => None,
    }
}

/// The family of locks that a unit of this kind takes.
pub fn family_of(kind: &UnitKind) -> Family
    ensures { result ≡ family_of (Some kind.now) }
{
    match kind {
        UnitKind::Acid { .. } => Family::Acid,
        UnitKind::Call { .. } => Family::Acid,
        UnitKind::First { .. } => Family::Alkaline,
        UnitKind::Later { .. } => Family::Alkaline,
    }
}

/// Why an answer is a failure.
pub fn cause_of(answer: &Answer) -> Option<Cause>
    ensures { result ≡ cause_in answer.now }
{
    match answer {
        Answer::Failed(cause) => Some(*cause),
        _ => None,
    }
}
