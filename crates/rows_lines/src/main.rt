//! Reads a table of lines from standard input, each with what it is to be told, and tells which of them are told otherwise, and how many are told so.
//!
//! The first byte of a row says how it is read. What stands behind the last `$` of a row is what its lines are to be told.
//!
//! | Row | What it asks |
//! |---|---|
//! | `=LINE$TOLD` | the line is told so |
//! | `12 PATTERN$TOLD` | the second, fourth and sixth piece between `^`s stand 12 times, in the line and in what it is told |
//! | `<PATTERN$TOLD` | they stand as often as a line of 65,536 bytes has room for, and blanks fill it |
//! | `?,one,two` | the items of the rows that follow; the byte behind the `?` stands between them |
//! | `#PATTERN$TOLD` | each item in the place of each `#`, in the line and in what it is told |
//! | `~LINE$a^b` | of the lines where one token between blanks is left out, doubled or exchanged with the next, these alone are of the grammar |
#![tactic(auto)]

mod patterns;
mod rows;
mod words;

use rows::Table;
use salt_io::{LineErr, Lines, Next, Source, StdSink, StdSource, write_whole};
use std::alloc::Global;
use std::io;
use std::process::ExitCode;

/// The most lines of a source: each takes a byte.
const LINES_MOST: u32 = 16_777_216;

/// Judges the rows of a source. A row that is too long counts as told otherwise.
fn judge<S: Source>(alloc: Global, source: &mut S) -> Result<Table, LineErr> {
    let mut table = Table::new(alloc);
    let mut lines = Lines::new();
    let mut line = Vec::new(alloc);
    for _ in 0..LINES_MOST {
        match lines.next_line(source, &mut line)? {
            Next::Line => table.row(&line)?,
            Next::TooLong => table.row(b"=too long$a row")?,
            Next::End => break,
        }
    }
    Ok(table)
}

fn main(rt: HostRuntime) -> ExitCode {
    let mut source = StdSource::new(rt.reader());
    let Ok(table) = judge(rt.alloc(), &mut source) else {
        return ExitCode::FAILURE;
    };
    let Ok(text) = table.text() else {
        return ExitCode::FAILURE;
    };
    let mut sink = StdSink::new(io::writer(&rt));
    match write_whole(&mut sink, &text) {
        Ok(()) => ExitCode::SUCCESS,
        Err(_) => ExitCode::FAILURE,
    }
}
