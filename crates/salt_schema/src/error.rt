//! Why a table or a statement is refused.

ghost use Rattle.std.specs.Prelude.{◌≡◌};
ghost use Rattle.salt_schema.specs.declared.error.SchemaErr.TheVariants.{Memory};

use salt_values::Name;
use std::alloc::AllocError;

/// Why a table or a statement is refused.
#[derive(Debug, Drop)]
pub enum SchemaErr {
    /// There are as many tables as there may be.
    Tables,
    /// Nothing of this name is known there.
    Unknown(Name),
    /// The name stands there, or is kept, already.
    Exists(Name),
    /// A type is wrong.
    Mistyped,
    /// Memory ran out.
    Memory,
}

impl From<AllocError> for SchemaErr {
    ghost from_gives = { λ _ e. e ≡ Memory };

    fn from(_e: AllocError) -> SchemaErr {
        SchemaErr::Memory
    }
}
