//! Why rows of a page are not listed.

ghost use Rattle.salt_directory.specs.declared.error.ListErr.TheVariants.{Memory};
ghost use Rattle.std.specs.Prelude.{◌≡◌};

use std::alloc::AllocError;

/// Why rows of a page are not listed.
#[derive(Clone, Copy, Debug, PartialEq, Eq)]
pub enum ListErr {
    /// Two rows stand at one place.
    Twins,
    /// A row is not sound.
    Unsound,
    /// Memory ran out.
    Memory,
}

impl From<AllocError> for ListErr {
    ghost from_gives = { λ _ e. e ≡ Memory };

    fn from(_: AllocError) -> Self {
        ListErr::Memory
    }
}
