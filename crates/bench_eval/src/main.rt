//! Goes over rows with a filter, again and again, and tells how many rows it kept: what the measure of expressions times.
//!
//! Standard input has a table, how many rows and how often they are gone over, and the filter, each on a line of its own. The filter's
//! names are found once.
#![tactic(auto)]

mod rows;

use rows::made;
use salt_ast::{Scan, Statement, TableDef};
use salt_exprs::{EvalErr, Resolved, passes, resolve_filter};
use salt_io::{LineErr, Lines, Source, StdSource};
use salt_parse::{read_statement, read_table};
use salt_values::Row;
use std::alloc::{AllocError, Global};
use std::process::ExitCode;

/// The most rows, and the most often that they are gone over.
const COUNT_MOST: u32 = 10_000_000;

/// Why nothing was measured.
#[derive(Clone, Copy, Debug, PartialEq, Eq)]
enum BenchErr {
    /// A line can't be read.
    Unread,
    Memory,
}

impl From<AllocError> for BenchErr {
    fn from(_e: AllocError) -> BenchErr {
        BenchErr::Memory
    }
}

impl From<LineErr> for BenchErr {
    fn from(_e: LineErr) -> BenchErr {
        BenchErr::Unread
    }
}

/// What a filter made of rows.
#[derive(Clone, Copy, Debug, PartialEq, Eq)]
struct Counts {
    kept: u64,
    left_out: u64,
    causes: u64,
}

impl Counts {
    /// Counts each row once.
    fn go_over(
        &mut self,
        alloc: Global,
        filter: &Option<Resolved<'_>>,
        rows: &[Row],
    ) -> Result<(), AllocError> {
        for row in rows {
            let count = match passes(alloc, filter, row) {
                Ok(true) => &mut self.kept,
                Ok(false) => &mut self.left_out,
                Err(EvalErr::Cause(_)) => &mut self.causes,
                Err(EvalErr::Memory) => return Err(AllocError),
            };
            *count = count.saturating_add(1);
        }
        Ok(())
    }
}

/// The two numbers of a line, at most so large.
fn numbers(line: &[u8]) -> (u32, u32) {
    let mut first: u32 = 0;
    let mut second: u32 = 0;
    for byte in line {
        if *byte == b' ' {
            first = second;
            second = 0;
        } else {
            let digit = u32::from(byte.saturating_sub(b'0'));
            second = second.saturating_mul(10).saturating_add(digit);
        }
    }
    (first.min(COUNT_MOST), second.min(COUNT_MOST))
}

/// Goes over the rows so often, with the filter of a statement.
fn counted(
    alloc: Global,
    def: &TableDef,
    rows: &[Row],
    times: u32,
    statement: &Statement,
) -> Result<Counts, BenchErr> {
    let Statement::Select {
        scan: Scan { filter, .. },
        ..
    } = statement
    else {
        return Err(BenchErr::Unread);
    };
    let mut counts = Counts {
        kept: 0,
        left_out: 0,
        causes: 0,
    };
    let resolved = resolve_filter(alloc, def.columns.as_slice(), &[], filter)?;
    for _ in 0..times {
        counts.go_over(alloc, &resolved, rows)?;
    }
    Ok(counts)
}

/// Reads the lines of a source, and goes over the rows.
fn measure<S: Source>(alloc: Global, source: &mut S) -> Result<Counts, BenchErr> {
    let mut lines = Lines::new();
    let mut line = Vec::new(alloc);
    let _table = lines.next_line(source, &mut line)?;
    let Ok(def) = read_table(alloc, &line) else {
        return Err(BenchErr::Unread);
    };
    let _sizes = lines.next_line(source, &mut line)?;
    let (many, times) = numbers(&line);
    let rows = made(alloc, def.columns.as_slice(), many)?;
    let _filter = lines.next_line(source, &mut line)?;
    let Ok(statement) = read_statement(alloc, &line) else {
        return Err(BenchErr::Unread);
    };
    counted(alloc, &def, &rows, times, &statement)
}

fn main(rt: HostRuntime) -> ExitCode {
    let mut source = StdSource::new(rt.reader());
    let Ok(counts) = measure(rt.alloc(), &mut source) else {
        return ExitCode::FAILURE;
    };
    let Counts {
        kept,
        left_out,
        causes,
    } = counts;
    match rt.println(format_args!("{kept} kept, {left_out} left out, {causes} causes")) {
        Ok(()) => ExitCode::SUCCESS,
        Err(_) => ExitCode::FAILURE,
    }
}
