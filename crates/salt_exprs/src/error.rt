//! Why an expression gives nothing.

ghost use Rattle.std.specs.Prelude.{◌≡◌};
ghost use Rattle.salt_exprs.specs.declared.error.EvalErr.TheVariants.{Memory};

use salt_model::Cause;
use std::alloc::AllocError;

/// Why an expression gives nothing.
#[derive(Clone, Copy, Debug, PartialEq, Eq)]
pub enum EvalErr {
    /// The first cause met, from left to right.
    Cause(Cause),
    /// Memory ran out.
    Memory,
}

impl From<AllocError> for EvalErr {
    ghost from_gives = { λ _ e. e ≡ Memory };

    fn from(_e: AllocError) -> EvalErr {
        EvalErr::Memory
    }
}
