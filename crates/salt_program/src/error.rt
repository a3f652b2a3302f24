//! Why a program is refused.

ghost use Rattle.std.specs.Prelude.{◌≡◌};
ghost use Rattle.salt_program.specs.declared.error.DefineErr.TheVariants.{Memory};

use salt_values::Name;
use std::alloc::AllocError;

/// Why a program is refused. Parts are numbered from 1.
#[derive(Debug, Drop)]
pub enum DefineErr {
    /// There are as many programs as there may be.
    Programs,
    /// Nothing of this name is known there.
    Unknown(Name),
    /// The name stands there, or is kept, already.
    Exists(Name),
    /// A type is wrong.
    Mistyped,
    /// This part, which is not the first, says nothing of its failure.
    NoBranch(u32),
    /// A way of this part leads to no later part and not to the end, or the first part has a way for its failure.
    Backward(u32),
    /// Memory ran out.
    Memory,
}

impl From<AllocError> for DefineErr {
    ghost from_gives = { λ _ e. e ≡ Memory };

    fn from(_e: AllocError) -> DefineErr {
        DefineErr::Memory
    }
}
