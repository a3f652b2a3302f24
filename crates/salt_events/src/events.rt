//! The line of an event.

ghost use Rattle.std.specs.Prelude.{◌≡◌, IfOk, option_map};
ghost use Rattle.salt_model.specs.declared.events.Event.TheVariants as event;
ghost use Rattle.salt_events.specs.Lines.{event_in};
ghost use Rattle.salt_events.specs.Reading.{base_line_in, defined_in, definition_event, did_in, end_in, kind_in, opened_in, plain_line_in, unit_line_in};

use crate::definitions::is_definition;
use crate::fronts::{behind, id, number};
use crate::lists::{bases, owners, stops};
use crate::parts::{end, kind, whole_number};
use crate::refusals::refusal;
use crate::statements::{answer, before_arrow, behind_arrow, statement};
use salt_ast::{Shared, same_bytes};
use salt_model::{Event, Why};
use salt_values::Id;
use sqlite_items::Items;
use std::alloc::{AllocError, Global};

fn began(alloc: Global, unit: Id, bytes: &[u8]) -> Result<Option<Event>, AllocError>
    ensures { IfOk result (λ r. r ≡ option_map (λ k. event.Began unit k) (kind_in bytes.now)) }
{
    let Some(kind) = kind(alloc, bytes)? else {
        return Ok(None);
    };
    Ok(Some(Event::Began { unit, kind }))
}

fn ended(unit: Id, bytes: &[u8]) -> Option<Event>
    ensures { result ≡ option_map (λ e. event.Ended unit e) (end_in bytes.now) }
{
    let end = end(bytes)?;
    Some(Event::Ended { unit, end })
}

fn did(alloc: Global, unit: Id, bytes: &[u8]) -> Result<Option<Event>, AllocError>
    ensures { IfOk result (λ r. r ≡ did_in unit bytes.now) }
{
    let rest = behind_arrow(bytes);
    let Some(text) = before_arrow(bytes, rest) else {
        return Ok(None);
    };
    let Some(statement) = statement(alloc, text)? else {
        return Ok(None);
    };
    let Some(rest) = behind(b" ", rest) else {
        return Ok(None);
    };
    let Some(answer) = answer(alloc, rest)? else {
        return Ok(None);
    };
    Ok(Some(Event::Did {
        unit,
        statement: Shared::new(alloc, statement)?,
        answer,
    }))
}

fn unit_line(alloc: Global, unit: Id, bytes: &[u8]) -> Result<Option<Event>, AllocError>
    ensures { IfOk result (λ r. r ≡ unit_line_in unit bytes.now) }
{
    if let Some(rest) = behind(b" began ", bytes) {
        return began(alloc, unit, rest);
    }
    if let Some(rest) = behind(b" did ", bytes) {
        return did(alloc, unit, rest);
    }
    if let Some(rest) = behind(b" waits", bytes) {
        let Some(owners) = owners(alloc, rest)? else {
            return Ok(None);
        };
        return Ok(Some(Event::Waits { unit, owners }));
    }
    Ok(ended(unit, bytes))
}

fn base_line(base: Id, bytes: &[u8]) -> Option<Event>
    ensures { result ≡ base_line_in base bytes.now }
{
    if same_bytes(bytes, b" accepted") {
        return Some(Event::Accepted(base));
    }
    if same_bytes(bytes, b" finished") {
        return Some(Event::Finished(base));
    }
    None
}

fn opened(bytes: &[u8]) -> Option<Event>
    ensures { result ≡ opened_in bytes.now }
{
    let (boot, rest) = number(bytes)?;
    let rest = behind(b" ", rest)?;
    let decisions = whole_number(rest)?;
    Some(Event::Opened { boot, decisions })
}

fn definition(alloc: Global, number: u64, text: &[u8]) -> Result<Option<Event>, AllocError>
    ensures { IfOk result (λ r. r ≡ definition_event number text.now) }
{
    if !is_definition(alloc, text)? {
        return Ok(None);
    }
    let text = Items::from_slice(alloc, text)?;
    Ok(Some(Event::Defined { number, text }))
}

fn defined(alloc: Global, bytes: &[u8]) -> Result<Option<Event>, AllocError>
    ensures { IfOk result (λ r. r ≡ defined_in bytes.now) }
{
    let Some((number, rest)) = number(bytes) else {
        return Ok(None);
    };
    let Some(text) = behind(b" ", rest) else {
        return Ok(None);
    };
    definition(alloc, number, text)
}

fn plain_line(bytes: &[u8]) -> Option<Event>
    ensures { result ≡ plain_line_in bytes.now }
{
    if same_bytes(bytes, b"ready") {
        return Some(Event::Ready);
    }
    if same_bytes(bytes, b"down stopped") {
        return Some(Event::Down(Why::Stopped));
    }
    if same_bytes(bytes, b"down fault") {
        return Some(Event::Down(Why::Fault));
    }
    None
}

/// The event whose line the bytes are, without the LF that ends it.
pub fn read_event(alloc: Global, line: &[u8]) -> Result<Option<Event>, AllocError>
    ensures { IfOk result (λ r. r ≡ event_in line.now) }
{
    if let Some(rest) = behind(b"u", line) {
        let Some((unit, rest)) = id(rest) else {
            return Ok(None);
        };
        return unit_line(alloc, unit, rest);
    }
    if let Some(rest) = behind(b"b", line) {
        let Some((base, rest)) = id(rest) else {
            return Ok(None);
        };
        return Ok(base_line(base, rest));
    }
    if let Some(rest) = behind(b"opened ", line) {
        return Ok(opened(rest));
    }
    if let Some(rest) = behind(b"defined ", line) {
        return defined(alloc, rest);
    }
    if let Some(rest) = behind(b"refused ", line) {
        let Some(refusal) = refusal(alloc, rest)? else {
            return Ok(None);
        };
        return Ok(Some(Event::Refused(refusal)));
    }
    if let Some(rest) = behind(b"released", line) {
        let Some(bases) = bases(alloc, rest)? else {
            return Ok(None);
        };
        return Ok(Some(Event::Released(bases)));
    }
    if let Some(rest) = behind(b"early", line) {
        let Some(bases) = bases(alloc, rest)? else {
            return Ok(None);
        };
        return Ok(Some(Event::Early(bases)));
    }
    if let Some(rest) = behind(b"armed", line) {
        let Some(stops) = stops(alloc, rest)? else {
            return Ok(None);
        };
        return Ok(Some(Event::Armed(stops)));
    }
    Ok(plain_line(line))
}
