//! Why what is kept is not opened.

ghost use Rattle.salt_found.specs.Errors.{recover_err_of_cont};
ghost use Rattle.salt_found.specs.declared.error.ContErr.TheVariants as cont;
ghost use Rattle.salt_found.specs.declared.error.RecoverErr.TheVariants.{Memory};
ghost use Rattle.std.specs.Prelude.{◌≡◌};

use std::alloc::AllocError;

/// Why continuations are not opened.
#[derive(Clone, Copy, Debug, PartialEq, Eq)]
pub enum ContErr {
    /// The continuations of the header or the moves behind it are none that these definitions, boots and decisions have.
    NotMove,
    /// Memory ran out.
    Memory,
}

impl From<AllocError> for ContErr {
    ghost from_gives = { λ _ e. e ≡ cont.Memory };

    fn from(_e: AllocError) -> ContErr {
        ContErr::Memory
    }
}

/// Why what a coordinator's log keeps is not recovered.
#[derive(Clone, Copy, Debug, PartialEq, Eq)]
pub enum RecoverErr {
    /// The log's definitions or continuations are none that were written here: a text is the canonical one of no definition or of one
    /// that is refused under those before it, or the continuations are none that the programs have.
    NotSalt,
    /// Memory ran out.
    Memory,
}

impl From<AllocError> for RecoverErr {
    ghost from_gives = { λ _ e. e ≡ Memory };

    fn from(_e: AllocError) -> RecoverErr {
        RecoverErr::Memory
    }
}

impl From<ContErr> for RecoverErr {
    ghost from_gives = { λ e f. f ≡ recover_err_of_cont e };

    fn from(e: ContErr) -> RecoverErr {
        match e {
            ContErr::NotMove => RecoverErr::NotSalt,
            ContErr::Memory => RecoverErr::Memory,
        }
    }
}
