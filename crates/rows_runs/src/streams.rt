//! Scripts that are cut, and reads and writes that fail.

use crate::devices::{Devices, ROOM, told_of};
use crate::outcome::Outcome;
use crate::tables::Table;
use salt_io::{MemSink, MemSource};
use salt_run::Status;
use std::alloc::{AllocError, Global};

/// The most bytes of a line.
const LINE: usize = 65_536;

/// How many lines of so many bytes, with their ends, are as long as a script may be.
const LINES: usize = 256;

/// What a run tells before its first line.
const OPENED: &[u8] = b"opened 1 0\nready\n";

/// How many writes the first script's story is: one for what the opening tells, and one for what each of four lines does.
const WRITES: u64 = 5;

/// A line, what it tells, and each of its fronts that is another line, by its length, with what that tells. Any other front is none.
#[derive(Clone, Copy)]
struct Line {
    text: &'static str,
    tells: &'static str,
    fronts: &'static [(usize, &'static str)],
}

const ALL_ROWS: &str =
    "u1.2 began @1\nu1.2 did select * from t -> rows (5, -3)\nu1.2 committed 3\n";

/// A table, a row, and a row that is there already.
const FIRST: &[Line] = &[
    Line {
        text: "create table t (id int key, v int)",
        tells: "defined 1 create table t (id int key, v int)\n",
        fronts: &[],
    },
    Line {
        text: "@1 insert into t values (5, -3)",
        tells: "u1.1 began @1\nu1.1 did insert into t values (5, -3) -> count 1\nu1.1 committed 2\n",
        fronts: &[],
    },
    Line {
        text: "@1 select * from t where key = 5",
        tells: "u1.2 began @1\nu1.2 did select * from t where key = 5 -> rows (5, -3)\nu1.2 committed 3\n",
        fronts: &[
            (18, ALL_ROWS),
            (19, ALL_ROWS),
            (26, "refused 5 unknown k\n"),
            (27, "refused 5 unknown ke\n"),
        ],
    },
    Line {
        text: "@1 insert into t values (5, 0)",
        tells: "u1.3 began @1\nu1.3 did insert into t values (5, 0) -> failed duplicate\nu1.3 failed duplicate\n",
        fronts: &[],
    },
];

/// A BASE program of two parts, which is called, and finished by a turn.
const BASE: &[Line] = &[
    Line {
        text: "create table t (id int key)",
        tells: "defined 1 create table t (id int key)\n",
        fronts: &[],
    },
    Line {
        text: "program p() base part { insert into t values (1) } part { delete from t } on failure end end",
        tells: "defined 2 program p() base part { insert into t values (1) } part { delete from t } on failure end end\n",
        fronts: &[],
    },
    Line {
        text: "@1 call p()",
        tells: "u1.1 began @1 b1.1 part 1 of p()\nu1.1 did insert into t values (1) -> count 1\nu1.1 committed 3\nb1.1 accepted\n",
        fronts: &[],
    },
    Line {
        text: "go all",
        tells: "u1.2 began b1.1 part 2\nu1.2 did delete from t -> count 1\nu1.2 committed 4\nb1.1 finished\nreleased b1.1\n",
        fronts: &[],
    },
];

const SCRIPTS: [&[Line]; 2] = [FIRST, BASE];

impl Line {
    /// What the first bytes of the line tell, as a line of their own.
    fn told_by(&self, bytes: usize) -> &'static str {
        if bytes == 0 {
            return "";
        }
        if bytes == self.text.len() {
            return self.tells;
        }
        for front in self.fronts {
            if front.0 == bytes {
                return front.1;
            }
        }
        "refused 3 syntax\n"
    }
}

/// Lines, with their ends, and what they tell.
#[derive(Drop)]
struct Script {
    text: Vec<u8>,
    story: Vec<u8>,
}

impl Script {
    /// No lines.
    fn new(alloc: Global) -> Result<Script, AllocError> {
        Ok(Script {
            text: Vec::new(alloc),
            story: Vec::from_slice(alloc, OPENED)?,
        })
    }

    fn add(&mut self, line: &Line) -> Result<(), AllocError> {
        self.text.extend_from_slice(line.text.as_bytes())?;
        self.text.push(b'\n')?;
        self.story.extend_from_slice(line.tells.as_bytes())
    }
}

fn script_of(alloc: Global, lines: &[Line]) -> Result<Script, AllocError> {
    let mut script = Script::new(alloc)?;
    for line in lines {
        script.add(line)?;
    }
    Ok(script)
}

fn joined(alloc: Global, front: &[u8], rest: &[u8]) -> Result<Vec<u8>, AllocError> {
    let mut joined = Vec::from_slice(alloc, front)?;
    joined.extend_from_slice(rest)?;
    Ok(joined)
}

/// A run over new devices.
fn over_new(
    alloc: Global,
    source: &mut MemSource,
    sink: &mut MemSink,
) -> Result<Outcome, AllocError> {
    let mut devices = Devices::new(alloc)?;
    devices.run_between(alloc, &["run"], source, sink)
}

/// A source that gives the bytes one by one, and whose n-th read fails, or none for 0.
fn by_bytes(alloc: Global, script: &[u8], failing: u64) -> Result<MemSource, AllocError> {
    let mut source = MemSource::new(alloc, script)?;
    source.give_at_most(1);
    source.fail_call(failing)?;
    Ok(source)
}

/// A sink whose n-th write fails.
fn failing_sink(alloc: Global, failing: u64) -> Result<MemSink, AllocError> {
    let mut sink = MemSink::new(alloc, ROOM)?;
    sink.fail_call(failing)?;
    Ok(sink)
}

/// A run whose source gives the bytes one by one, and whose n-th read fails, or none for 0.
fn read_by_bytes(alloc: Global, script: &[u8], failing: u64) -> Result<Outcome, AllocError> {
    let mut source = by_bytes(alloc, script, failing)?;
    let mut sink = MemSink::new(alloc, ROOM)?;
    over_new(alloc, &mut source, &mut sink)
}

/// A run of whose writes the n-th fails.
fn written_but(alloc: Global, script: &[u8], failing: u64) -> Result<Outcome, AllocError> {
    let mut source = MemSource::new(alloc, script)?;
    let mut sink = failing_sink(alloc, failing)?;
    over_new(alloc, &mut source, &mut sink)
}

/// So many bytes of a line end a script, without an LF behind them: they do what a line of them does.
fn ends_in_line(
    alloc: Global,
    before: &Script,
    line: &Line,
    bytes: usize,
) -> Result<bool, AllocError> {
    let front = line.text.as_bytes().get(..bytes).unwrap_or_default();
    let script = joined(alloc, &before.text, front)?;
    let story = joined(alloc, &before.story, line.told_by(bytes).as_bytes())?;
    Ok(told_of(alloc, &script)?.is_told(Status::Done, &story))
}

/// A line behind others is cut behind each of its bytes, and before the first.
fn cut_line(
    alloc: Global,
    table: &mut Table,
    before: &Script,
    line: &Line,
) -> Result<(), AllocError> {
    for bytes in 0..=line.text.len() {
        table.add(ends_in_line(alloc, before, line, bytes)?);
    }
    Ok(())
}

/// A script is cut in each of its lines.
fn cut_script(alloc: Global, table: &mut Table, lines: &[Line]) -> Result<(), AllocError> {
    let mut before = Script::new(alloc)?;
    for line in lines {
        cut_line(alloc, table, &before, line)?;
        before.add(line)?;
    }
    Ok(())
}

/// The scripts are cut behind each of their bytes but the last.
pub fn cut_scripts(alloc: Global) -> Result<Table, AllocError> {
    let mut table = Table::new();
    for lines in SCRIPTS {
        cut_script(alloc, &mut table, lines)?;
    }
    Ok(table)
}

/// Each read fails in turn that gives a byte of a line, or its end: the lines before it are done.
fn reads_in_line(
    alloc: Global,
    table: &mut Table,
    script: &[u8],
    before: &Script,
    line: &Line,
) -> Result<(), AllocError> {
    for bytes in 0..=line.text.len() {
        let read = (before.text.len() as u64).saturating_add(bytes as u64);
        let outcome = read_by_bytes(alloc, script, read.saturating_add(1))?;
        table.add(outcome.is_told(Status::ReadFault, &before.story));
    }
    Ok(())
}

/// Each read of a script fails in turn, where each gives a byte; and none does.
fn reads_of_script(alloc: Global, table: &mut Table, lines: &[Line]) -> Result<(), AllocError> {
    let script = script_of(alloc, lines)?;
    let mut before = Script::new(alloc)?;
    for line in lines {
        reads_in_line(alloc, table, &script.text, &before, line)?;
        before.add(line)?;
    }
    let outcome = read_by_bytes(alloc, &script.text, 0)?;
    table.add(outcome.is_told(Status::Done, &script.story));
    Ok(())
}

/// Each read of the scripts fails in turn.
pub fn reads_that_fail(alloc: Global) -> Result<Table, AllocError> {
    let mut table = Table::new();
    for lines in SCRIPTS {
        reads_of_script(alloc, &mut table, lines)?;
    }
    Ok(table)
}

/// Each write of the sink fails in turn, and at last none: what was written is a front of what is to be, and at last that.
pub fn writes_that_fail(alloc: Global) -> Result<Table, AllocError> {
    let mut table = Table::new();
    let script = script_of(alloc, FIRST)?;
    for call in 1..=WRITES {
        let outcome = written_but(alloc, &script.text, call)?;
        let is_shorter = outcome.text().len() < script.story.len();
        table.add(
            outcome.is(Status::WriteFault)
                && is_shorter
                && script.story.starts_with(outcome.text()),
        );
    }
    let outcome = written_but(alloc, &script.text, WRITES + 1)?;
    table.add(outcome.is_told(Status::Done, &script.story));
    Ok(table)
}

/// A line that does nothing, of so many bytes, with its end.
fn line_of(alloc: Global, bytes: usize) -> Result<Vec<u8>, AllocError> {
    let mut line = Vec::from_slice(alloc, b"--")?;
    for _ in 2..bytes {
        line.push(b'x')?;
    }
    line.push(b'\n')?;
    Ok(line)
}

/// A line of as many bytes as one may have, and of one more.
pub fn longest_lines(alloc: Global) -> Result<Table, AllocError> {
    let mut table = Table::new();
    let cases: [(usize, &[u8]); 2] = [
        (LINE, OPENED),
        (LINE + 1, b"opened 1 0\nready\nrefused 1 long\n"),
    ];
    for (bytes, story) in cases {
        let script = line_of(alloc, bytes)?;
        table.add(told_of(alloc, &script)?.is_told(Status::Done, story));
    }
    Ok(table)
}

/// So many lines of as many bytes as one may have, with their ends.
fn long_script(alloc: Global, lines: usize) -> Result<Vec<u8>, AllocError> {
    let line = line_of(alloc, LINE - 1)?;
    let mut script = Vec::new(alloc);
    for _ in 0..lines {
        script.extend_from_slice(&line)?;
    }
    Ok(script)
}

/// As many bytes as a script may have, and one more.
pub fn most_bytes(alloc: Global) -> Result<Table, AllocError> {
    let mut table = Table::new();
    let mut script = long_script(alloc, LINES)?;
    table.add(told_of(alloc, &script)?.is_told(Status::Done, OPENED));
    script.push(b'\n')?;
    let outcome = told_of(alloc, &script)?;
    table.add(outcome.is_told(Status::ScriptTooLong, OPENED));
    Ok(table)
}
