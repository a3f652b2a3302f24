//! What a line is told, in words: its tree, printed from a copy, or its refusal.

use salt_ast::{Act, Line, print_program, print_statement, print_table};
use salt_model::Refusal;
use salt_script::{ReadErr, read_line};
use salt_values::{TryCopy, Value};
use std::alloc::{AllocError, Global};

fn add_number(alloc: Global, out: &mut Vec<u8>, number: u64) -> Result<(), AllocError> {
    let text = format!(in alloc; "{number}")?;
    out.extend_from_slice(text.as_bytes())
}

fn add_text(out: &mut Vec<u8>, text: &[u8]) -> Result<(), AllocError> {
    out.extend_from_slice(b"'")?;
    for byte in text {
        if *byte == b'\'' {
            out.push(b'\'')?;
        }
        out.push(*byte)?;
    }
    out.extend_from_slice(b"'")
}

fn add_value(alloc: Global, out: &mut Vec<u8>, value: &Value) -> Result<(), AllocError> {
    match value {
        Value::Int(number) => {
            let text = format!(in alloc; "{number}")?;
            out.extend_from_slice(text.as_bytes())
        }
        Value::Text(text) => add_text(out, text.as_bytes()),
        Value::Null => out.extend_from_slice(b"null"),
    }
}

fn add_values(alloc: Global, out: &mut Vec<u8>, values: &[Value]) -> Result<(), AllocError> {
    let mut before: &[u8] = b"(";
    for value in values {
        out.extend_from_slice(before)?;
        add_value(alloc, out, value)?;
        before = b", ";
    }
    if values.is_empty() {
        out.extend_from_slice(before)?;
    }
    out.extend_from_slice(b")")
}

fn add_act(alloc: Global, out: &mut Vec<u8>, act: &Act) -> Result<(), AllocError> {
    match act {
        Act::Begin => out.extend_from_slice(b" begin"),
        Act::Commit => out.extend_from_slice(b" commit"),
        Act::Rollback => out.extend_from_slice(b" rollback"),
        Act::Step => out.extend_from_slice(b" step"),
        Act::Call { program, args } => {
            out.extend_from_slice(b" call ")?;
            out.extend_from_slice(program.as_slice())?;
            out.push(b' ')?;
            add_values(alloc, out, args.as_slice())
        }
        Act::Do(statement) => {
            out.extend_from_slice(b" do ")?;
            print_statement(out, statement.copy(alloc)?.get())
        }
    }
}

fn add_pairs(alloc: Global, out: &mut Vec<u8>, pairs: &[(u64, u8)]) -> Result<(), AllocError> {
    for (first, second) in pairs {
        out.push(b' ')?;
        add_number(alloc, out, *first)?;
        out.push(b' ')?;
        add_number(alloc, out, u64::from(*second))?;
    }
    Ok(())
}

fn add_line(alloc: Global, out: &mut Vec<u8>, line: &Line) -> Result<(), AllocError> {
    match line {
        Line::Nothing => out.extend_from_slice(b"nothing"),
        Line::Table(def) => {
            out.extend_from_slice(b"table ")?;
            print_table(out, &def.copy(alloc)?)
        }
        Line::Program(def) => {
            out.extend_from_slice(b"program ")?;
            print_program(out, &def.copy(alloc)?)
        }
        Line::Session { session, act } => {
            out.push(b'@')?;
            add_number(alloc, out, u64::from(*session))?;
            add_act(alloc, out, act)
        }
        Line::Go(base) => {
            out.extend_from_slice(b"go ")?;
            add_number(alloc, out, base.boot)?;
            out.push(b'.')?;
            add_number(alloc, out, base.seq)
        }
        Line::GoAll => out.extend_from_slice(b"go all"),
        Line::ShowLocks => out.extend_from_slice(b"show locks"),
        Line::ShowBases => out.extend_from_slice(b"show bases"),
        Line::Crash(stops) => {
            out.extend_from_slice(b"crash")?;
            add_pairs(alloc, out, stops.as_slice())
        }
        Line::Net(twists) => {
            out.extend_from_slice(b"net")?;
            add_pairs(alloc, out, twists.as_slice())
        }
    }
}

fn add_refusal(out: &mut Vec<u8>, refusal: &Refusal) -> Result<(), AllocError> {
    match refusal {
        Refusal::Long => out.extend_from_slice(b"refused 1 long"),
        Refusal::Byte => out.extend_from_slice(b"refused 2 byte"),
        Refusal::Syntax => out.extend_from_slice(b"refused 3 syntax"),
        Refusal::Limit(limit) => {
            out.extend_from_slice(b"refused 4 limit ")?;
            out.extend_from_slice(limit.word())
        }
        _ => out.extend_from_slice(b"refused for another cause"),
    }
}

/// What a line is told, in words.
pub fn shown(alloc: Global, text: &[u8]) -> Result<Vec<u8>, AllocError> {
    let mut out = Vec::new(alloc);
    match &read_line(alloc, text) {
        Ok(line) => add_line(alloc, &mut out, line)?,
        Err(ReadErr::Refused(refusal)) => add_refusal(&mut out, refusal)?,
        Err(ReadErr::Memory) => return Err(AllocError),
    }
    Ok(out)
}
