//! What follows an event of an opening.

ghost use Rattle.salt_drain.specs.Follows.{behind_commit};
ghost use Rattle.std.specs.Prelude.{◌≡◌};

use salt_model::{Cause, UnitKind};
use salt_values::Id;

/// What follows the event at hand, before the opening goes on to cuts and to other programs.
#[derive(Clone, Copy, Debug, PartialEq, Eq)]
pub enum Behind {
    /// Nothing.
    Nothing,
    /// The unit, which has begun, does its next statement.
    Turn(Id),
    /// The unit, which has done a statement, ends by the cause of its failure or behind its last statement, or does the next one.
    Done { unit: Id, failed: Option<Cause> },
    /// The program is accepted.
    Accept(Id),
    /// The program finishes, if nothing of it is left to do.
    Finish(Id),
}

/// What follows where a unit of this kind has committed.
pub fn behind_commit(kind: &UnitKind) -> Behind
    ensures { result ≡ behind_commit kind.now }
{
    match kind {
        UnitKind::Acid { .. } => Behind::Nothing,
        UnitKind::Call { .. } => Behind::Nothing,
        UnitKind::First { base, .. } => Behind::Accept(*base),
        UnitKind::Later { base, .. } => Behind::Finish(*base),
    }
}
