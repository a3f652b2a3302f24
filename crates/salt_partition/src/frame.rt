//! The entry of a unit, spelled into the frame that it is appended from.

ghost use Rattle.salt_bytes.specs.Changes.{are_in_order};
ghost use Rattle.salt_bytes.specs.Partition.{prepared_in, spell_prepared};
ghost use Rattle.salt_bytes.specs.Spellable.{Every};
ghost use Rattle.salt_codec.specs.Entries.{HasRow, CanBePut};
ghost use Rattle.salt_gatelog.specs.Log.{payload_in};
ghost use Rattle.salt_partition.specs.Partitions.{prepared};
ghost use Rattle.std.specs.Prelude.{Bool, IfOk, OnOk, Some, length, true, ◌≡◌, ◌≤◌};

use salt_codec::with_prepared;
use salt_gatelog::new_frame;
use salt_values::{Change, Id};
use std::alloc::{AllocError, Global};

/// A guess at how many bytes a change takes.
const ROOM_OF_CHANGE: usize = 40;

/// The entry of a unit whose rows have 1 to 16 values, which is read again where its changes may stand in a log.
pub fn prepared_frame(alloc: Global, unit: Id, changes: &[Change]) -> Result<Vec<u8>, AllocError>
    requires { Every HasRow changes.now }
    ensures payload { IfOk result (λ made. payload_in made.items ≡ spell_prepared (prepared unit changes.now)) }
    ensures front { IfOk result (λ made. 8 ≤ length made.items) }
    ensures read { OnOk result ((nulls : Bool) → Every (CanBePut nulls) changes.now → are_in_order changes.now ≡ true
        → prepared_in nulls (spell_prepared (prepared unit changes.now)) ≡ Some (prepared unit changes.now)) }
{
    let room = changes.len().saturating_mul(ROOM_OF_CHANGE);
    let frame = new_frame(alloc, room.saturating_add(25))?;
    with_prepared(frame, unit, changes)
}
