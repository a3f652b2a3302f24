//! The entries of a coordinator's log, spelled into the frames that they are written from.

ghost use Rattle.salt_bytes.specs.Coordinator.{Boots, Decides, Defines, spell_entry};
ghost use Rattle.salt_gatelog.specs.Log.{payload_in};
ghost use Rattle.std.specs.Prelude.{IfOk, length, ◌≡◌, ◌≤◌};

use salt_codec::put::{with_byte, with_id, with_text, with_u64};
use salt_gatelog::new_frame;
use salt_values::Id;
use std::alloc::{AllocError, Global};

/// The boot of this number.
pub fn boot_frame(alloc: Global, boot: u64) -> Result<Vec<u8>, AllocError>
    ensures payload { IfOk result (λ made. payload_in made.items ≡ spell_entry (Boots boot)) }
    ensures front { IfOk result (λ made. 8 ≤ length made.items) }
{
    let out = new_frame(alloc, 9)?;
    let out = with_byte(out, 1)?;
    with_u64(out, boot)
}

/// A definition, and the number of its decision.
pub fn definition_frame(alloc: Global, number: u64, text: &[u8]) -> Result<Vec<u8>, AllocError>
    ensures payload { IfOk result (λ made. payload_in made.items ≡ spell_entry (Defines (record { number = number; text = text.now }))) }
    ensures front { IfOk result (λ made. 8 ≤ length made.items) }
{
    let out = new_frame(alloc, text.len().saturating_add(17))?;
    let out = with_byte(out, 2)?;
    let out = with_u64(out, number)?;
    with_text(out, text)
}

/// A unit is decided: the bits of the partitions that have its changes, and its move.
pub fn decision_frame(
    alloc: Global,
    number: u64,
    unit: Id,
    parts: u8,
    mv: &[u8],
) -> Result<Vec<u8>, AllocError>
    ensures payload { IfOk result (λ made. payload_in made.items ≡ spell_entry (Decides (record { number = number; unit = unit; mask = parts; move = mv.now }))) }
    ensures front { IfOk result (λ made. 8 ≤ length made.items) }
{
    let out = new_frame(alloc, mv.len().saturating_add(34))?;
    let out = with_byte(out, 3)?;
    let out = with_u64(out, number)?;
    let out = with_id(out, unit)?;
    let out = with_byte(out, parts)?;
    with_text(out, mv)
}
