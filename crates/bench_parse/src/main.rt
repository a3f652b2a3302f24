//! Reads a statement or a program from each line of standard input, and tells how many there were: what the measure of the parser times.
#![tactic(auto)]

use salt_io::{LineErr, Lines, Next, Source, StdSource};
use salt_parse::{ParseErr, read_program, read_statement};
use std::alloc::Global;
use std::process::ExitCode;

/// The most lines of a script: each takes a byte.
const LINES_MOST: u32 = 16_777_216;

/// Reads a program where the line begins so, and else a statement.
fn read(alloc: Global, line: &[u8]) -> Result<(), ParseErr> {
    if line.starts_with(b"program ") {
        let _program = read_program(alloc, line)?;
    } else {
        let _statement = read_statement(alloc, line)?;
    }
    Ok(())
}

/// How many lines are a statement or a program, pass a limit, or spell nothing.
#[derive(Clone, Copy, Debug, PartialEq, Eq)]
struct Counts {
    read: u64,
    limited: u64,
    refused: u64,
}

impl Counts {
    /// Counts a line.
    fn add(&mut self, alloc: Global, line: &[u8]) -> Result<(), LineErr> {
        let count = match read(alloc, line) {
            Ok(()) => &mut self.read,
            Err(ParseErr::Limit(_)) => &mut self.limited,
            Err(ParseErr::Syntax) => &mut self.refused,
            Err(ParseErr::Memory) => return Err(LineErr::Memory),
        };
        *count = count.saturating_add(1);
        Ok(())
    }
}

/// Counts the lines of a source. A line that is too long counts as refused.
fn count<S: Source>(alloc: Global, source: &mut S) -> Result<Counts, LineErr> {
    let mut counts = Counts {
        read: 0,
        limited: 0,
        refused: 0,
    };
    let mut lines = Lines::new();
    let mut line = Vec::new(alloc);
    for _ in 0..LINES_MOST {
        match lines.next_line(source, &mut line)? {
            Next::Line => counts.add(alloc, &line)?,
            Next::TooLong => counts.add(alloc, b"")?,
            Next::End => break,
        }
    }
    Ok(counts)
}

fn main(rt: HostRuntime) -> ExitCode {
    let mut source = StdSource::new(rt.reader());
    match count(rt.alloc(), &mut source) {
        Ok(counts) => {
            let Counts {
                read,
                limited,
                refused,
            } = counts;
            match rt.println(format_args!("{read} read, {limited} limited, {refused} refused")) {
                Ok(()) => ExitCode::SUCCESS,
                Err(_) => ExitCode::FAILURE,
            }
        }
        Err(_) => ExitCode::FAILURE,
    }
}
