//! Why a text gives no tree.

ghost use Rattle.std.specs.Prelude.{◌≡◌};
ghost use Rattle.salt_parse.specs.Answers.{parse_err};
ghost use Rattle.salt_parse.specs.declared.error.ParseErr.TheVariants.{Memory};

use salt_ast::{LimitName, ScanErr};
use std::alloc::{AllocError, AllocFailed};

/// Why a text gives no tree.
#[derive(Clone, Copy, Debug, PartialEq, Eq)]
pub enum ParseErr {
    /// Memory ran out.
    Memory,
    /// The text spells nothing of the grammar.
    Syntax,
    /// The text spells something that there may be only so much of, and this limit is the first that it passes.
    Limit(LimitName),
}

impl From<AllocError> for ParseErr {
    ghost from_gives = { λ _ e. e ≡ Memory };

    fn from(_e: AllocError) -> ParseErr {
        ParseErr::Memory
    }
}

impl<T: Drop> From<AllocFailed<T>> for ParseErr {
    ghost from_gives = { λ _ e. e ≡ Memory };

    fn from(_e: AllocFailed<T>) -> ParseErr {
        ParseErr::Memory
    }
}

impl From<ScanErr> for ParseErr {
    ghost from_gives = { λ s e. e ≡ parse_err s };

    fn from(e: ScanErr) -> ParseErr {
        match e {
            ScanErr::Memory => ParseErr::Memory,
            ScanErr::Syntax => ParseErr::Syntax,
        }
    }
}
