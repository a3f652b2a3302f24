//! Why a statement is not done.

ghost use Rattle.std.specs.Prelude.{◌≡◌};
ghost use Rattle.salt_eval.specs.Scans.{statement_err};
ghost use Rattle.salt_eval.specs.declared.error.StatementErr.TheVariants.{Cause, View};
ghost use Rattle.salt_eval.specs.declared.view.ViewErr.TheVariants.{Memory};

use crate::view::ViewErr;
use salt_exprs::EvalErr;
use salt_model::Cause;
use std::alloc::AllocError;

/// Why a statement is not done.
#[derive(Clone, Copy, Debug, PartialEq, Eq)]
pub enum StatementErr {
    /// The first cause met: the statement fails.
    Cause(Cause),
    /// The rows are not shown, or memory ran out.
    View(ViewErr),
}

impl From<Cause> for StatementErr {
    ghost from_gives = { λ c e. e ≡ Cause c };

    fn from(cause: Cause) -> Self {
        StatementErr::Cause(cause)
    }
}

impl From<ViewErr> for StatementErr {
    ghost from_gives = { λ v e. e ≡ View v };

    fn from(err: ViewErr) -> Self {
        StatementErr::View(err)
    }
}

impl From<AllocError> for StatementErr {
    ghost from_gives = { λ _ e. e ≡ View Memory };

    fn from(_: AllocError) -> Self {
        StatementErr::View(ViewErr::Memory)
    }
}

impl From<EvalErr> for StatementErr {
    ghost from_gives = { λ r e. e ≡ statement_err r };

    fn from(err: EvalErr) -> Self {
        match err {
            EvalErr::Cause(cause) => StatementErr::Cause(cause),
            EvalErr::Memory => StatementErr::View(ViewErr::Memory),
        }
    }
}
