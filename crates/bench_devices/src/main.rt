//! Appends to logs, opens one, and opens and reads a partition, again and again: what the measure of devices times.
//!
//! Standard input has what is done (`append`, `open`, `rows` or `get`), and on a line of its own how many entries or rows there are and how
//! often it is done. What is appended before, to be opened, is part of the time.
#![tactic(auto)]

mod logs;
mod part;

use logs::{appended, opened};
use part::{gotten, read};
use salt_io::{Lines, Source, StdSource};
use std::alloc::Global;
use std::process::ExitCode;

/// The most entries, and the most often that a thing is done.
const COUNT_MOST: u32 = 10_000_000;

/// The two numbers of a line, at most so large.
fn numbers(line: &[u8]) -> (u32, u32) {
    let mut first: u32 = 0;
    let mut second: u32 = 0;
    for byte in line {
        if *byte == b' ' {
            first = second;
            second = 0;
        } else {
            let digit = u32::from(byte.saturating_sub(b'0'));
            second = second.saturating_mul(10).saturating_add(digit);
        }
    }
    (first.min(COUNT_MOST), second.min(COUNT_MOST))
}

/// How many entries or rows were met; `None` where a call failed, or nothing of this name is done.
fn measured(alloc: Global, what: &[u8], count: u32, times: u32) -> Option<u64> {
    match what {
        b"append" => appended(alloc, count, times).ok(),
        b"open" => opened(alloc, count, times).ok(),
        b"rows" => read(alloc, count, times).ok(),
        b"get" => gotten(alloc, count, times).ok(),
        _ => None,
    }
}

/// Reads what is to be done, and does it.
fn told<S: Source>(alloc: Global, source: &mut S) -> Option<u64> {
    let mut lines = Lines::new();
    let mut what = Vec::new(alloc);
    let mut sizes = Vec::new(alloc);
    lines.next_line(source, &mut what).ok()?;
    lines.next_line(source, &mut sizes).ok()?;
    let (count, times) = numbers(&sizes);
    measured(alloc, &what, count, times)
}

fn main(rt: HostRuntime) -> ExitCode {
    let mut source = StdSource::new(rt.reader());
    let Some(met) = told(rt.alloc(), &mut source) else {
        return ExitCode::FAILURE;
    };
    match rt.println(format_args!("{met}")) {
        Ok(()) => ExitCode::SUCCESS,
        Err(_) => ExitCode::FAILURE,
    }
}
