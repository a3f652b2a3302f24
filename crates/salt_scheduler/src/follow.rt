//! What follows an event in its turn.

ghost use Rattle.std.specs.Prelude.{◌≡◌};
ghost use Rattle.salt_scheduler.specs.Follows.{behind_commit, is_acid, opens_alone};

use salt_ast::{Act, Line};
use salt_model::{Cause, UnitKind};
use salt_values::Id;

/// What follows the event at hand in its turn, before anything settles.
#[derive(Clone, Copy, Debug, PartialEq, Eq)]
pub enum Follow {
    /// Nothing.
    Nothing,
    /// The unit, which has begun, takes a turn.
    Turn(Id),
    /// The unit, which has done a statement, ends by the cause of its failure or behind its last statement.
    Done { unit: Id, failed: Option<Cause> },
    /// The program is accepted.
    Accept(Id),
    /// The program finishes, if nothing of it is left to do.
    Finish(Id),
    /// The programs are released that are due now that this one is finished.
    Release(Id),
}

/// Whether a unit of this kind is a session's without a program.
fn is_acid(kind: &UnitKind) -> bool
    ensures { result ≡ is_acid kind.now }
{
    match kind {
        UnitKind::Acid { .. } => true,
        _ => false,
    }
}

/// Whether a line lets a unit of this kind begin without a turn: its own, and not that of a program which goes on behind the line.
pub fn opens_alone(line: &Line, kind: &UnitKind) -> bool
    ensures { result ≡ opens_alone line.now kind.now }
{
    match line {
        Line::Session { act, .. } => match act {
            Act::Begin => is_acid(kind),
            _ => false,
        },
        _ => false,
    }
}

/// What follows where a unit of this kind has committed.
pub fn behind_commit(kind: &UnitKind) -> Follow
    ensures { result ≡ behind_commit kind.now }
{
    match kind {
        UnitKind::Acid { .. } => Follow::Nothing,
        UnitKind::Call { .. } => Follow::Nothing,
        UnitKind::First { base, .. } => Follow::Accept(*base),
        UnitKind::Later { base, .. } => Follow::Finish(*base),
    }
}
