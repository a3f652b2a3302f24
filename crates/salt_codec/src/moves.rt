//! Moves as bytes, under the format of the coordinator's header that they stand behind.

ghost use Rattle.salt_bytes.specs.Conts.{move_in, spell_cont, spell_move, spell_tries, take_cont, take_move, take_tries};
ghost use Rattle.salt_bytes.specs.Formats.{has_nulls, has_tries};
ghost use Rattle.salt_bytes.specs.Taking.{take_byte, take_bytes, then_take};
ghost use Rattle.salt_bytes.specs.Values.{spell_values, take_values};
ghost use Rattle.salt_codec.specs.Moves.{IsShort, IsShortMove, take_place, take_standing};
ghost use Rattle.salt_codec.specs.Taking.{TakesSame};
ghost use Rattle.std.specs.Prelude.{IfOk, length, ◌++◌, ◌<◌, ◌∷◌, ◌≡◌};

use crate::error::TakeErr;
use crate::put::{with_byte, with_bytes, with_id, with_u32, with_u64, with_values};
use crate::take::{take_byte, take_bytes, take_id, take_u32, take_u64, take_values};
use salt_bytes::Move;
use salt_values::{Cont, Id, Name, Row};
use sqlite_items::Items;
use std::alloc::{AllocError, Global};

/// A guess at how many bytes a move takes: that of a program that goes on with three arguments takes some 70.
const ROOM_OF_MOVE: usize = 128;

/// Whether NULL is spelled under this format.
pub fn has_nulls(format: u8) -> bool
    ensures { result ≡ has_nulls format }
{
    2 <= format
}

/// Whether a continuation ends with its tries under this format.
fn has_tries(format: u8) -> bool
    ensures { result ≡ has_tries format }
{
    format == 3
}

fn with_name(out: Vec<u8>, name: &Name) -> Result<Vec<u8>, AllocError>
    requires { length name.now < 256 }
    ensures { IfOk result (λ made. made.items ≡ out.items ++ length name.now ∷ name.now) }
{
    let out = with_byte(out, name.len() as u8)?;
    with_bytes(out, name.as_slice())
}

fn with_list(out: Vec<u8>, values: &Row) -> Result<Vec<u8>, AllocError>
    requires { length values.now < 256 }
    ensures { IfOk result (λ made. made.items ≡ out.items ++ spell_values values.now) }
{
    let out = with_byte(out, values.len() as u8)?;
    with_values(out, values.as_slice())
}

fn with_tries(out: Vec<u8>, format: u8, tries: u8) -> Result<Vec<u8>, AllocError>
    ensures { IfOk result (λ made. made.items ≡ out.items ++ spell_tries (has_tries format) tries) }
{
    if has_tries(format) {
        return with_byte(out, tries);
    }
    Ok(out)
}

fn with_cont(out: Vec<u8>, format: u8, cont: &Cont) -> Result<Vec<u8>, AllocError>
    requires { IsShort cont.now }
    ensures { IfOk result (λ made. made.items ≡ out.items ++ spell_cont format cont.now) }
{
    let out = with_id(out, cont.base)?;
    let out = with_u64(out, cont.accepted)?;
    let out = with_name(out, &cont.program)?;
    let out = with_list(out, &cont.args)?;
    let out = with_list(out, &cont.vars)?;
    let out = with_u32(out, cont.next)?;
    with_tries(out, format, cont.tries)
}

fn with_move(out: Vec<u8>, format: u8, made: &Move) -> Result<Vec<u8>, AllocError>
    requires { IsShortMove made.now }
    ensures { IfOk result (λ spelled. spelled.items ≡ out.items ++ spell_move format made.now) }
{
    match made {
        Move::Plain => with_byte(out, 0),
        Move::Continue(cont) => {
            let out = with_byte(out, 1)?;
            with_cont(out, format, cont)
        }
        Move::Finish(base) => {
            let out = with_byte(out, 2)?;
            with_id(out, *base)
        }
    }
}

/// The spelling of a move, whose name has at most 255 bytes, and each of its lists at most 255 values.
pub fn spelled_move(alloc: Global, format: u8, made: &Move) -> Result<Vec<u8>, AllocError>
    requires { IsShortMove made.now }
    ensures { IfOk result (λ spelled. spelled.items ≡ spell_move format made.now) }
{
    let room = Vec::with_capacity(alloc, ROOM_OF_MOVE)?;
    let spelled = with_move(room, format, made)?;
    Ok(spelled)
}

fn take_name(alloc: Global, bytes: &[u8]) -> Result<(Name, &[u8]), TakeErr>
    ensures { TakesSame result (then_take take_byte take_bytes bytes.now) }
{
    let (count, rest) = take_byte(bytes)?;
    let (name, rest) = take_bytes(rest, count as usize)?;
    Ok((Items::from_slice(alloc, name)?, rest))
}

fn take_list(alloc: Global, format: u8, bytes: &[u8]) -> Result<(Row, &[u8]), TakeErr>
    ensures { TakesSame result (take_values (has_nulls format) bytes.now) }
{
    let (count, rest) = take_byte(bytes)?;
    take_values(alloc, has_nulls(format), count, rest)
}

fn take_tries(format: u8, bytes: &[u8]) -> Result<(u8, &[u8]), TakeErr>
    ensures { TakesSame result (take_tries (has_tries format) bytes.now) }
{
    if has_tries(format) {
        return take_byte(bytes);
    }
    Ok((0, bytes))
}

/// The end of a continuation, behind its values.
fn take_place(
    format: u8,
    base: Id,
    accepted: u64,
    program: Name,
    args: Row,
    vars: Row,
    bytes: &[u8],
) -> Result<(Cont, &[u8]), TakeErr>
    ensures { TakesSame result (take_place format base accepted program args vars bytes.now) }
{
    let (next, rest) = take_u32(bytes)?;
    let (tries, rest) = take_tries(format, rest)?;
    let cont = Cont {
        base,
        accepted,
        program,
        args,
        vars,
        next,
        tries,
    };
    Ok((cont, rest))
}

/// The rest of a continuation, behind the program's name.
fn take_standing(
    alloc: Global,
    format: u8,
    base: Id,
    accepted: u64,
    program: Name,
    bytes: &[u8],
) -> Result<(Cont, &[u8]), TakeErr>
    ensures { TakesSame result (take_standing format base accepted program bytes.now) }
{
    let (args, rest) = take_list(alloc, format, bytes)?;
    let (vars, rest) = take_list(alloc, format, rest)?;
    take_place(format, base, accepted, program, args, vars, rest)
}

/// The continuation at the front of bytes, under the format of the header that it stands behind.
pub fn take_cont(alloc: Global, format: u8, bytes: &[u8]) -> Result<(Cont, &[u8]), TakeErr>
    ensures { TakesSame result (take_cont format bytes.now) }
{
    let (base, rest) = take_id(bytes)?;
    let (accepted, rest) = take_u64(rest)?;
    let (program, rest) = take_name(alloc, rest)?;
    take_standing(alloc, format, base, accepted, program, rest)
}

fn take_move_from(alloc: Global, format: u8, bytes: &[u8]) -> Result<(Move, &[u8]), TakeErr>
    ensures { TakesSame result (take_move format bytes.now) }
{
    let (kind, rest) = take_byte(bytes)?;
    match kind {
        0 => Ok((Move::Plain, rest)),
        1 => {
            let (cont, rest) = take_cont(alloc, format, rest)?;
            Ok((Move::Continue(cont), rest))
        }
        2 => {
            let (base, rest) = take_id(rest)?;
            Ok((Move::Finish(base), rest))
        }
        _ => Err(TakeErr::Misspelled),
    }
}

/// The move that these bytes are; `None` exactly where they are the spelling of none.
pub fn take_move(alloc: Global, format: u8, bytes: &[u8]) -> Result<Option<Move>, AllocError>
    ensures { IfOk result (λ found. found ≡ move_in format bytes.now) }
{
    match take_move_from(alloc, format, bytes) {
        Ok((made, [])) => Ok(Some(made)),
        Ok((_made, [_, ..])) => Ok(None),
        Err(TakeErr::Misspelled) => Ok(None),
        Err(TakeErr::Memory) => Err(AllocError),
    }
}
