//! Makes locks, programs that read from each other, or waiting units, and calls what the measure times, again and again.
//!
//! Standard input has one line: what to do, how many there are, and how often it is done.
#![tactic(auto)]

mod locks;
mod programs;
mod waits;

use crate::programs::Shape;
use salt_io::{LineErr, Lines, StdSource};
use std::alloc::{AllocError, Global};
use std::process::ExitCode;

/// The most of a kind, and the most often that they are asked.
const COUNT_MOST: u32 = 10_000_000;

/// Why nothing was measured.
#[derive(Clone, Copy, Debug, PartialEq, Eq)]
enum BenchErr {
    /// The line can't be read.
    Unread,
    Memory,
}

impl From<AllocError> for BenchErr {
    fn from(_e: AllocError) -> BenchErr {
        BenchErr::Memory
    }
}

impl From<LineErr> for BenchErr {
    fn from(_e: LineErr) -> BenchErr {
        BenchErr::Unread
    }
}

/// The last two numbers of a line, at most so large.
fn numbers(line: &[u8]) -> (u32, u32) {
    let mut first: u32 = 0;
    let mut second: u32 = 0;
    for byte in line {
        if *byte == b' ' {
            first = second;
            second = 0;
        } else {
            let digit = u32::from(byte.saturating_sub(b'0'));
            second = second.saturating_mul(10).saturating_add(digit);
        }
    }
    (first.min(COUNT_MOST), second.min(COUNT_MOST))
}

/// Which programs a line asks for.
fn shape_of(line: &[u8]) -> Option<Shape> {
    if line.starts_with(b"chain ") {
        return Some(Shape::Chain);
    }
    if line.starts_with(b"star ") {
        return Some(Shape::Star);
    }
    if line.starts_with(b"hot ") {
        return Some(Shape::Hot);
    }
    if line.starts_with(b"late ") {
        return Some(Shape::Late);
    }
    None
}

/// Does what a line says; how many locks there are after all, programs were released, or victims found.
fn done(alloc: Global, line: &[u8]) -> Result<u64, BenchErr> {
    let (many, times) = numbers(line);
    let greater = i64::from(many).saturating_add(1);
    if line.starts_with(b"one least ") {
        return Ok(locks::taken_one(alloc, many, times, 0)?);
    }
    if line.starts_with(b"one greatest ") {
        return Ok(locks::taken_one(alloc, many, times, greater)?);
    }
    if line.starts_with(b"many least ") {
        return Ok(locks::taken_many(alloc, many, times, 0, -1)?);
    }
    if line.starts_with(b"many greatest ") {
        return Ok(locks::taken_many(alloc, many, times, greater, 1)?);
    }
    if let Some(shape) = shape_of(line) {
        return Ok(programs::released(alloc, many, times, shape)?);
    }
    if line.starts_with(b"next ") {
        return Ok(waits::found(alloc, many, times, waits::Edges::Next)?);
    }
    if line.starts_with(b"later ") {
        return Ok(waits::found(alloc, many, times, waits::Edges::Later)?);
    }
    if line.starts_with(b"circle ") {
        return Ok(waits::found(alloc, many, times, waits::Edges::Round)?);
    }
    Err(BenchErr::Unread)
}

fn main(rt: HostRuntime) -> ExitCode {
    let alloc = rt.alloc();
    let mut source = StdSource::new(rt.reader());
    let mut line = Vec::new(alloc);
    let mut lines = Lines::new();
    let Ok(_) = lines.next_line(&mut source, &mut line) else {
        return ExitCode::FAILURE;
    };
    let Ok(count) = done(alloc, &line) else {
        return ExitCode::FAILURE;
    };
    match rt.println(format_args!("{count}")) {
        Ok(()) => ExitCode::SUCCESS,
        Err(_) => ExitCode::FAILURE,
    }
}
