//! Whose locks go at once.

ghost use Rattle.law_states.specs.KeptLocks.{is_base_among};
ghost use Rattle.salt_locks.specs.Leaving.{is_leaving};
ghost use Rattle.std.specs.Prelude.{◌≡◌};

use crate::owners::is_same_owner;
use salt_model::Owner;
use salt_values::Id;
use std::collections::BTreeSet;

/// Whose locks go: an owner's, or those of programs.
#[derive(Drop)]
pub enum Leaving<'a> {
    One(Owner),
    Programs(&'a BTreeSet<Id>),
}

/// Whether an owner is one of these programs.
fn is_base_among(bases: &BTreeSet<Id>, owner: Owner) -> bool
    ensures { result ≡ is_base_among bases.now.keys owner }
{
    match owner {
        Owner::Unit(_) => false,
        Owner::Base(base) => bases.contains(&base),
    }
}

impl<'a> Leaving<'a> {
    /// Whether an owner's locks go.
    pub fn has(&self, owner: Owner) -> bool
        ensures { result ≡ is_leaving self.now owner }
    {
        match self {
            Leaving::One(one) => is_same_owner(*one, owner),
            Leaving::Programs(bases) => is_base_among(bases, owner),
        }
    }
}
