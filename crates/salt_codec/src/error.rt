//! Why nothing is read.

ghost use Rattle.salt_codec.specs.declared.error.TakeErr.TheVariants.{Memory, Misspelled};
ghost use Rattle.salt_codec.specs.Taking.{take_err_of};
ghost use Rattle.std.specs.Prelude.{◌≡◌};

use salt_values::TextErr;
use std::alloc::{AllocError, AllocFailed};

/// Why bytes give no row.
#[derive(Clone, Copy, Debug, PartialEq, Eq)]
pub enum RowErr {
    /// No row is spelled at their front.
    NotRow,
    /// Memory ran out.
    Memory,
}

/// Why a thing is not taken from the front of bytes.
#[derive(Clone, Copy, Debug, PartialEq, Eq)]
pub enum TakeErr {
    /// No such thing is spelled there.
    Misspelled,
    /// Memory ran out.
    Memory,
}

impl From<AllocError> for TakeErr {
    ghost from_gives = { λ _ e. e ≡ Memory };

    fn from(_e: AllocError) -> TakeErr {
        TakeErr::Memory
    }
}

impl<T: Drop> From<AllocFailed<T>> for TakeErr {
    ghost from_gives = { λ _ e. e ≡ Memory };

    fn from(_e: AllocFailed<T>) -> TakeErr {
        TakeErr::Memory
    }
}

impl From<TextErr> for TakeErr {
    ghost from_gives = { λ e f. f ≡ take_err_of e };

    fn from(e: TextErr) -> TakeErr {
        match e {
            TextErr::NotText => TakeErr::Misspelled,
            TextErr::Memory => TakeErr::Memory,
        }
    }
}
