//! Why bytes are no tokens.

ghost use Rattle.std.specs.Prelude.{◌≡◌};
ghost use Rattle.salt_ast.specs.declared.error.ScanErr.TheVariants.{Memory};

use std::alloc::{AllocError, AllocFailed};

/// Why bytes give no tokens.
#[derive(Clone, Copy, Debug, PartialEq, Eq)]
pub enum ScanErr {
    /// Memory ran out.
    Memory,
    /// The bytes are no row of tokens.
    Syntax,
}

impl From<AllocError> for ScanErr {
    ghost from_gives = { λ _ e. e ≡ Memory };

    fn from(_e: AllocError) -> ScanErr {
        ScanErr::Memory
    }
}

impl<T: Drop> From<AllocFailed<T>> for ScanErr {
    ghost from_gives = { λ _ e. e ≡ Memory };

    fn from(_e: AllocFailed<T>) -> ScanErr {
        ScanErr::Memory
    }
}
