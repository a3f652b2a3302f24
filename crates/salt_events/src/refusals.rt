//! Refusals, by their texts.

ghost use Rattle.std.specs.Prelude.{◌≡◌, IfOk, is_some, option_map};
ghost use Rattle.salt_ast.specs.Limits.{limit_word};
ghost use Rattle.salt_ast.specs.TokenSpelling.{same_bytes};
ghost use Rattle.salt_model.specs.declared.events.Refusal.TheVariants as refused;
ghost use Rattle.salt_events.specs.Refusing.{base_in, branch_in, branch_of, exists_in, id_in, limit_in, name_in, plain_refusal_in, refusal_in, unknown_in};

use crate::fronts::{behind, id};
use crate::names::name;
use crate::parts::whole_number;
use salt_ast::{LimitName, same_bytes};
use salt_model::Refusal;
use salt_values::limits::PARTS_MOST;
use sqlite_items::Items;
use std::alloc::{AllocError, Global};

const LIMITS: [LimitName; 20] = [
    LimitName::Session,
    LimitName::Name,
    LimitName::Number,
    LimitName::Text,
    LimitName::Tables,
    LimitName::Columns,
    LimitName::Checks,
    LimitName::Programs,
    LimitName::Parts,
    LimitName::Retry,
    LimitName::Statements,
    LimitName::Parameters,
    LimitName::Variables,
    LimitName::Depth,
    LimitName::Crash,
    LimitName::Pick,
    LimitName::Pairs,
    LimitName::Net,
    LimitName::Act,
    LimitName::Bases,
];

fn has_word(limit: LimitName, bytes: &[u8]) -> bool
    ensures { result ≡ same_bytes bytes.now (limit_word limit) }
{
    same_bytes(bytes, limit.word())
}

/// The limit that has this word.
fn limit(bytes: &[u8]) -> Option<LimitName>
    ensures { result ≡ limit_in bytes.now }
{
    LIMITS.iter().copied().find(|limit| has_word(*limit, bytes))
}

fn is_name(bytes: &[u8]) -> bool
    ensures { result ≡ is_some (name_in bytes.now) }
{
    match name(bytes) {
        Some((_name, rest)) => rest.is_empty(),
        None => false,
    }
}

fn is_id(bytes: &[u8]) -> bool
    ensures { result ≡ is_some (id_in bytes.now) }
{
    match id(bytes) {
        Some((_id, rest)) => rest.is_empty(),
        None => false,
    }
}

fn is_base(bytes: &[u8]) -> bool
    ensures { result ≡ is_some (base_in bytes.now) }
{
    match behind(b"b", bytes) {
        Some(rest) => is_id(rest),
        None => false,
    }
}

fn unknown(alloc: Global, bytes: &[u8]) -> Result<Option<Refusal>, AllocError>
    ensures { IfOk result (λ r. r ≡ unknown_in bytes.now) }
{
    if !(is_name(bytes) || is_base(bytes)) {
        return Ok(None);
    }
    let name = Items::from_slice(alloc, bytes)?;
    Ok(Some(Refusal::Unknown(name)))
}

fn exists(alloc: Global, bytes: &[u8]) -> Result<Option<Refusal>, AllocError>
    ensures { IfOk result (λ r. r ≡ exists_in bytes.now) }
{
    if !is_name(bytes) {
        return Ok(None);
    }
    let name = Items::from_slice(alloc, bytes)?;
    Ok(Some(Refusal::Exists(name)))
}

fn branch_numbered(part: u64) -> Option<Refusal>
    ensures { result ≡ branch_of part }
{
    if part < 1 || (PARTS_MOST as u64) < part {
        return None;
    }
    Some(Refusal::Branch(part as u32))
}

fn branch(bytes: &[u8]) -> Option<Refusal>
    ensures { result ≡ branch_in bytes.now }
{
    let part = whole_number(bytes)?;
    branch_numbered(part)
}

fn plain_refusal(bytes: &[u8]) -> Option<Refusal>
    ensures { result ≡ plain_refusal_in bytes.now }
{
    if same_bytes(bytes, b"1 long") {
        return Some(Refusal::Long);
    }
    if same_bytes(bytes, b"2 byte") {
        return Some(Refusal::Byte);
    }
    if same_bytes(bytes, b"3 syntax") {
        return Some(Refusal::Syntax);
    }
    if same_bytes(bytes, b"7 type") {
        return Some(Refusal::Mistyped);
    }
    if same_bytes(bytes, b"9 state") {
        return Some(Refusal::State);
    }
    if same_bytes(bytes, b"10 busy") {
        return Some(Refusal::Busy);
    }
    None
}

fn of_limit(bytes: &[u8]) -> Option<Refusal>
    ensures { result ≡ option_map refused.Limit (limit_in bytes.now) }
{
    let limit = limit(bytes)?;
    Some(Refusal::Limit(limit))
}

/// Why a line is refused.
pub fn refusal(alloc: Global, bytes: &[u8]) -> Result<Option<Refusal>, AllocError>
    ensures { IfOk result (λ r. r ≡ refusal_in bytes.now) }
{
    if let Some(rest) = behind(b"4 limit ", bytes) {
        return Ok(of_limit(rest));
    }
    if let Some(rest) = behind(b"5 unknown ", bytes) {
        return unknown(alloc, rest);
    }
    if let Some(rest) = behind(b"6 exists ", bytes) {
        return exists(alloc, rest);
    }
    if let Some(rest) = behind(b"8 branch ", bytes) {
        return Ok(branch(rest));
    }
    Ok(plain_refusal(bytes))
}
