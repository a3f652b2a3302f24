//! Reads a table of expressions from standard input, each with what it is to give, and tells which of them give otherwise, and how many give
//! what their rows say.
//!
//! | Row | What it asks |
//! |---|---|
//! | `create table ..` | the table whose columns and checks the rows that follow have |
//! | `insert into t values (..)` | its row: the values of the expressions, which see the variables |
//! | `var x=EXPR` | a variable more, with its value |
//! | `update t set ..$GIVES` | the row that it makes of the table's row, where the checks are met |
//! | `EXPR$GIVES` | the value, or the truth value of a condition |
//! | `?EXPR$GIVES` | whether a filter keeps the row |
//! | `!EXPR$GIVES` | whether a condition outside rows holds |
//!
//! What stands behind the last `$` of a row is what it is to give: a value, `true`, `false`, `unknown`, a row, or a cause.
#![tactic(auto)]

mod rows;
mod words;

use rows::Table;
use salt_io::{LineErr, Lines, Next, Source, StdSink, StdSource, write_whole};
use std::alloc::Global;
use std::io;
use std::process::ExitCode;

/// The most lines of a source: each takes a byte.
const LINES_MOST: u32 = 16_777_216;

/// Judges the rows of a source. A row that is too long counts as one that gives otherwise.
fn judge<S: Source>(alloc: Global, source: &mut S) -> Result<Table, LineErr> {
    let mut table = Table::new(alloc);
    let mut lines = Lines::new();
    let mut line = Vec::new(alloc);
    for _ in 0..LINES_MOST {
        match lines.next_line(source, &mut line)? {
            Next::Line => table.row(&line)?,
            Next::TooLong => table.row(b"too long$a row")?,
            Next::End => break,
        }
    }
    Ok(table)
}

fn main(rt: HostRuntime) -> ExitCode {
    let mut source = StdSource::new(rt.reader());
    let Ok(table) = judge(rt.alloc(), &mut source) else {
        return ExitCode::FAILURE;
    };
    let Ok(text) = table.text() else {
        return ExitCode::FAILURE;
    };
    let mut sink = StdSink::new(io::writer(&rt));
    match write_whole(&mut sink, &text) {
        Ok(()) => ExitCode::SUCCESS,
        Err(_) => ExitCode::FAILURE,
    }
}
