//! The parts of an event's line, each whole.

ghost use Rattle.std.specs.Prelude.{◌≡◌, IfOk, MatchOption, None, Some};
ghost use Rattle.salt_events.specs.Reading.{branched_in, call_in, cause_in, end_in, first_in, kind_in, later_in, number_in, part_in, of_session, plain_end_in, session_at, session_kind_in};

use crate::fronts::{behind, id, number};
use crate::names::name;
use crate::values::row;
use salt_ast::same_bytes;
use salt_model::{Cause, End, UnitKind};
use salt_values::{Name, Row};
use sqlite_items::Items;
use std::alloc::{AllocError, Global};

/// The number that the bytes are.
pub fn whole_number(bytes: &[u8]) -> Option<u64>
    ensures { result ≡ number_in bytes.now }
{
    let (number, rest) = number(bytes)?;
    if rest.is_empty() { Some(number) } else { None }
}

/// Why a statement fails.
pub fn cause(bytes: &[u8]) -> Option<Cause>
    ensures { result ≡ cause_in bytes.now }
{
    if same_bytes(bytes, b"duplicate") {
        return Some(Cause::Duplicate);
    }
    if same_bytes(bytes, b"check") {
        return Some(Cause::Check);
    }
    if same_bytes(bytes, b"missing") {
        return Some(Cause::Missing);
    }
    if same_bytes(bytes, b"ensure") {
        return Some(Cause::Ensure);
    }
    if same_bytes(bytes, b"overflow") {
        return Some(Cause::Overflow);
    }
    if same_bytes(bytes, b"toolong") {
        return Some(Cause::TooLong);
    }
    None
}

fn branched(bytes: &[u8]) -> Option<End>
    ensures { result ≡ branched_in bytes.now }
{
    let (number, rest) = number(bytes)?;
    let rest = behind(b" ", rest)?;
    let cause = cause(rest)?;
    Some(End::Branched(number, cause))
}

fn plain_end(bytes: &[u8]) -> Option<End>
    ensures { result ≡ plain_end_in bytes.now }
{
    if same_bytes(bytes, b" rolled back") {
        return Some(End::RolledBack);
    }
    if same_bytes(bytes, b" victim") {
        return Some(End::Victim);
    }
    if same_bytes(bytes, b" cut") {
        return Some(End::Cut);
    }
    None
}

/// How a unit ends.
pub fn end(bytes: &[u8]) -> Option<End>
    ensures { result ≡ end_in bytes.now }
{
    if let Some(rest) = behind(b" committed ", bytes) {
        let number = whole_number(rest)?;
        return Some(End::Committed(number));
    }
    if let Some(rest) = behind(b" failed ", bytes) {
        let cause = cause(rest)?;
        return Some(End::Failed(cause));
    }
    if let Some(rest) = behind(b" branched ", bytes) {
        return branched(rest);
    }
    plain_end(bytes)
}

/// A program's name and arguments.
fn call(alloc: Global, bytes: &[u8]) -> Result<Option<(Name, Row)>, AllocError>
    ensures { IfOk result (λ r. r ≡ call_in bytes.now) }
{
    let Some((name, rest)) = name(bytes) else {
        return Ok(None);
    };
    let Some((args, rest)) = row(alloc, rest)? else {
        return Ok(None);
    };
    if !rest.is_empty() {
        return Ok(None);
    }
    let name = Items::from_slice(alloc, name)?;
    Ok(Some((name, args)))
}

fn first(alloc: Global, session: u8, bytes: &[u8]) -> Result<Option<UnitKind>, AllocError>
    ensures { IfOk result (λ r. r ≡ first_in session bytes.now) }
{
    let Some((base, rest)) = id(bytes) else {
        return Ok(None);
    };
    let Some(rest) = behind(b" part 1 of ", rest) else {
        return Ok(None);
    };
    let Some((program, args)) = call(alloc, rest)? else {
        return Ok(None);
    };
    Ok(Some(UnitKind::First {
        session,
        base,
        program,
        args,
    }))
}

/// Whose unit it is, behind the session.
fn of_session(alloc: Global, session: u8, bytes: &[u8]) -> Result<Option<UnitKind>, AllocError>
    ensures { IfOk result (λ r. r ≡ of_session session bytes.now) }
{
    if bytes.is_empty() {
        return Ok(Some(UnitKind::Acid { session }));
    }
    if let Some(rest) = behind(b" call ", bytes) {
        let Some((program, args)) = call(alloc, rest)? else {
            return Ok(None);
        };
        return Ok(Some(UnitKind::Call {
            session,
            program,
            args,
        }));
    }
    let Some(rest) = behind(b" b", bytes) else {
        return Ok(None);
    };
    first(alloc, session, rest)
}

fn session(bytes: &[u8]) -> Option<(u8, &[u8])>
    ensures { MatchOption result (session_at bytes.now ≡ None) (λ r. session_at bytes.now ≡ Some (r.0, r.1.now)) }
{
    let (number, rest) = number(bytes)?;
    let session = u8::try_from(number).ok()?;
    Some((session, rest))
}

fn session_kind(alloc: Global, bytes: &[u8]) -> Result<Option<UnitKind>, AllocError>
    ensures { IfOk result (λ r. r ≡ session_kind_in bytes.now) }
{
    let Some((session, rest)) = session(bytes) else {
        return Ok(None);
    };
    of_session(alloc, session, rest)
}

/// The number of a part.
pub fn part(bytes: &[u8]) -> Option<u32>
    ensures { result ≡ part_in bytes.now }
{
    let number = whole_number(bytes)?;
    u32::try_from(number).ok()
}

fn later(bytes: &[u8]) -> Option<UnitKind>
    ensures { result ≡ later_in bytes.now }
{
    let (base, rest) = id(bytes)?;
    let rest = behind(b" part ", rest)?;
    let part = part(rest)?;
    Some(UnitKind::Later { base, part })
}

/// Whose unit it is.
pub fn kind(alloc: Global, bytes: &[u8]) -> Result<Option<UnitKind>, AllocError>
    ensures { IfOk result (λ r. r ≡ kind_in bytes.now) }
{
    if let Some(rest) = behind(b"@", bytes) {
        return session_kind(alloc, rest);
    }
    let Some(rest) = behind(b"b", bytes) else {
        return Ok(None);
    };
    Ok(later(rest))
}
