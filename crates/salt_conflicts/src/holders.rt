//! Owners whose locks hold up the units that wait.

ghost use Rattle.law_states.specs.Members.{In};
ghost use Rattle.salt_conflicts.specs.Holders.{is_among};
ghost use Rattle.salt_model.specs.declared.events.Owner.{Owner};
ghost use Rattle.std.specs.Prelude.{OnOk, not, ◌&&◌, ◌≡◌};

use salt_locks::is_same_owner;
use salt_model::Owner;
use std::alloc::AllocError;

/// Whether an owner is one of these.
fn is_among(owners: &[Owner], owner: Owner) -> bool
    ensures { result ≡ is_among owner owners.now }
{
    owners.iter().any(|other| is_same_owner(owner, *other))
}

/// Notes an owner, if it is not one of them.
pub fn note(owners: &mut Vec<Owner>, owner: Owner) -> Result<(), AllocError>
    ensures noted { OnOk result (In owner owners.new.items) }
    ensures others { OnOk result ((o : Owner) → In o owners.old.items → In o owners.new.items) }
{
    if is_among(owners, owner) {
        return Ok(());
    }
    owners.push(owner)?;
    Ok(())
}

/// Whether it is still known that all who wait are held up by locks of these owners, where those of this one go, or become another's.
pub fn holds_without(held: bool, owners: &[Owner], owner: Owner) -> bool
    ensures { result ≡ (held && not (is_among owner owners.now)) }
{
    held && !is_among(owners, owner)
}
