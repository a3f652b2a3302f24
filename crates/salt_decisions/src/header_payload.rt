//! The header of a coordinator's log, as the bytes that are appended. Its format is 3, whatever the one before had.

ghost use Rattle.salt_bytes.specs.Conts.{spell_cont};
ghost use Rattle.salt_bytes.specs.Coordinator.{is_number_of_parts, spell_header, spell_kind, spell_numbered};
ghost use Rattle.salt_bytes.specs.Numbers.{spell_64, spell_counted};
ghost use Rattle.salt_bytes.specs.Spellable.{AreSpellableValues, Every, IsSpellableCont, IsSpellableHeader, IsSpellableNumbered};
ghost use Rattle.salt_bytes.specs.Values.{spell_values};
ghost use Rattle.salt_decisions.specs.Header.{mark, numbered_of};
ghost use Rattle.salt_decisions.specs.HeaderPayload.{header_with};
ghost use Rattle.salt_decisions.specs.declared.header_payload.TheConstants.{FORMAT};
ghost use Rattle.salt_place.specs.declared.placement.PlaceKind.{PlaceKind};
ghost use Rattle.std.specs.Prelude.{IfOk, OnOk, [], length, map, nat_le, true, ◌++◌, ◌∷◌, ◌≡◌};
ghost use Rattle.std.specs.List.{flat_map};

use crate::header::{Definition, MARK};
use salt_codec::put::{with_byte, with_bytes, with_id, with_text, with_u32, with_u64, with_values};
use salt_place::{PlaceKind, Shape};
use salt_values::{Cont, Name, Row};
use std::alloc::{AllocError, Global};

/// The format of each header that is written.
pub const FORMAT: u8 = 3;

/// A guess at how many bytes a header takes.
const ROOM_OF_HEADER: usize = 256;

/// A length in one byte. A greater one has no spelling, which is told as want of memory: no name or list that was read has one.
fn with_length(out: Vec<u8>, length: usize) -> Result<Vec<u8>, AllocError>
    ensures { IfOk result (λ made. made.items ≡ out.items ++ length ∷ []) }
{
    match u8::try_from(length) {
        Ok(byte) => with_byte(out, byte),
        Err(_) => Err(AllocError),
    }
}

fn with_name(out: Vec<u8>, name: &Name) -> Result<Vec<u8>, AllocError>
    ensures { IfOk result (λ made. made.items ≡ out.items ++ length name.now ∷ name.now) }
{
    let out = with_length(out, name.len())?;
    with_bytes(out, name.as_slice())
}

fn with_list(out: Vec<u8>, values: &Row) -> Result<Vec<u8>, AllocError>
    ensures put { IfOk result (λ made. made.items ≡ out.items ++ spell_values values.now) }
    ensures spellable { OnOk result (AreSpellableValues true values.now) }
{
    let out = with_length(out, values.len())?;
    with_values(out, values.as_slice())
}

fn with_cont(out: Vec<u8>, cont: &Cont) -> Result<Vec<u8>, AllocError>
    ensures put { IfOk result (λ made. made.items ≡ out.items ++ spell_cont FORMAT cont.now) }
    ensures spellable { OnOk result (IsSpellableCont FORMAT cont.now) }
{
    let out = with_id(out, cont.base)?;
    let out = with_u64(out, cont.accepted)?;
    let out = with_name(out, &cont.program)?;
    let out = with_list(out, &cont.args)?;
    let out = with_list(out, &cont.vars)?;
    let out = with_u32(out, cont.next)?;
    with_byte(out, cont.tries)
}

fn with_each_cont(mut out: Vec<u8>, conts: &[Cont]) -> Result<Vec<u8>, AllocError>
    ensures put { IfOk result (λ made. made.items ≡ out.items ++ flat_map (spell_cont FORMAT) conts.now) }
    ensures spellable { OnOk result (Every (IsSpellableCont FORMAT) conts.now) }
{
    for cont in conts {
        out = with_cont(out, cont)?;
    }
    Ok(out)
}

fn with_definition(out: Vec<u8>, definition: &Definition) -> Result<Vec<u8>, AllocError>
    ensures put { IfOk result (λ made. made.items ≡ out.items ++ spell_numbered (numbered_of definition.now)) }
    ensures spellable { OnOk result (IsSpellableNumbered (numbered_of definition.now)) }
{
    let out = with_u64(out, definition.number)?;
    with_text(out, definition.text.as_slice())
}

fn with_each_definition(mut out: Vec<u8>, definitions: &[Definition]) -> Result<Vec<u8>, AllocError>
    ensures put { IfOk result (λ made. made.items ≡ out.items ++ flat_map spell_numbered (map numbered_of definitions.now)) }
    ensures spellable { OnOk result (Every IsSpellableNumbered (map numbered_of definitions.now)) }
{
    for definition in definitions {
        out = with_definition(out, definition)?;
    }
    Ok(out)
}

fn with_kind(out: Vec<u8>, kind: PlaceKind) -> Result<Vec<u8>, AllocError>
    ensures { IfOk result (λ made. made.items ≡ out.items ++ spell_kind kind) }
{
    match kind {
        PlaceKind::Remainder => with_byte(out, 0),
        PlaceKind::Bands => with_byte(out, 1),
    }
}

/// The beginning of a header, up to its shape.
fn with_front(out: Vec<u8>, generation: u64, shape: Shape) -> Result<Vec<u8>, AllocError>
    ensures { IfOk result (λ made. made.items ≡ out.items ++ (mark ++ (FORMAT ∷ spell_64 generation ++ (shape.parts ∷ spell_kind shape.kind)))) }
{
    let out = with_bytes(out, &MARK)?;
    let out = with_byte(out, FORMAT)?;
    let out = with_u64(out, generation)?;
    let out = with_byte(out, shape.parts)?;
    with_kind(out, shape.kind)
}

/// Definitions and continuations, each behind their number.
fn with_lists(
    out: Vec<u8>,
    definitions: &[Definition],
    conts: &[Cont],
) -> Result<Vec<u8>, AllocError>
    ensures put { IfOk result (λ made. made.items ≡ out.items ++ (spell_counted spell_numbered (map numbered_of definitions.now) ++ spell_counted (spell_cont FORMAT) conts.now)) }
    ensures definitions { OnOk result (Every IsSpellableNumbered (map numbered_of definitions.now)) }
    ensures conts { OnOk result (Every (IsSpellableCont FORMAT) conts.now) }
{
    let out = with_u64(out, definitions.len() as u64)?;
    let out = with_each_definition(out, definitions)?;
    let out = with_u64(out, conts.len() as u64)?;
    with_each_cont(out, conts)
}

/// A header of format 3, which is read again where its generation and its parts are at least 1.
pub fn header_payload(
    alloc: Global,
    generation: u64,
    shape: Shape,
    boot: u64,
    decisions: u64,
    definitions: &[Definition],
    conts: &[Cont],
) -> Result<Vec<u8>, AllocError>
    ensures put { IfOk result (λ made. made.items ≡ spell_header (header_with generation shape boot decisions definitions.now conts.now)) }
    ensures spellable { nat_le 1 generation ≡ true → is_number_of_parts shape.parts ≡ true → OnOk result (IsSpellableHeader (header_with generation shape boot decisions definitions.now conts.now)) }
{
    let room = Vec::with_capacity(alloc, ROOM_OF_HEADER)?;
    let out = with_front(room, generation, shape)?;
    let out = with_u64(out, boot)?;
    let out = with_u64(out, decisions)?;
    with_lists(out, definitions, conts)
}
