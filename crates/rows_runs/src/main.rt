//! Runs scripts over devices in memory, and tells which of them end otherwise than they must.
//!
//! First the scripts of standard input, each with the story that it is to tell: which of them tell another one, and how many tell theirs.
//!
//! | Row | What it is |
//! |---|---|
//! | `> LINE` | a line of the script |
//! | `< LINE` | a line of its story |
//! | `+ early`, `+ bands` | the script is run with `--early`, with `--place=bands` |
//! | nothing | the script's end; it is run |
//! | `=` | the script's end; all that follow begin with it, and their stories with its story |
//! | `/` | the script's end; those that follow begin with nothing |
//!
//! How many of those stories are audited yes stands behind them. Then runs by words, audits of transcripts, and runs over devices that are foreign, full or changed: what each tells. Then runs of which calls stop or fail, one after
//! another, or streams are cut: of each table how many of its runs end as they must.
#![tactic(auto)]

mod audits;
mod bytes_turned;
mod cases;
mod devices;
mod full_logs;
mod older;
mod open_database;
mod open_programs;
mod others;
mod outcome;
mod stops_behind;
mod streams;
mod tables;
mod words;

use audits::audits;
use bytes_turned::{cut_devices, turned_bytes};
use cases::Cases;
use full_logs::full_logs;
use older::{older_fails, older_stops};
use open_programs::open_programs;
use others::by_devices;
use salt_io::{LineErr, Lines, Next, Source, StdSink, StdSource, write_whole};
use std::alloc::{AllocError, Global};
use std::io;
use std::process::ExitCode;
use stops_behind::{
    RETRIES, retries_fail, retries_fail_on, retries_read_fails, stop_in_retries, stops_in_boots,
    three_stops,
};
use streams::{cut_scripts, longest_lines, most_bytes, reads_that_fail, writes_that_fail};
use tables::{
    EARLY, EARLY_BACK, IN_DOUBT, LATE, Table, Way, all_writes_fail, one_read_fails, one_stop,
    one_write_fails, stop_at_first, two_stops,
};
use words::{by_words, statuses};

/// The most lines of a source: each takes a byte.
const LINES_MOST: u32 = 16_777_216;

/// The tables of runs that stop or fail.
#[derive(Clone, Copy)]
enum Hostile {
    OneStop,
    TwoStops,
    StopAtFirst,
    OneWriteFails,
    OneReadFails,
    AllWritesFail,
}

impl Hostile {
    fn name(self) -> &'static str {
        match self {
            Hostile::OneStop => "a stop",
            Hostile::TwoStops => "a stop in the opening behind another",
            Hostile::StopAtFirst => "a stop in the first opening",
            Hostile::OneWriteFails => "a write that fails",
            Hostile::OneReadFails => "a read that fails",
            Hostile::AllWritesFail => "writes that fail from one on",
        }
    }

    fn table(self, alloc: Global, way: Way) -> Result<Table, AllocError> {
        match self {
            Hostile::OneStop => one_stop(alloc, way),
            Hostile::TwoStops => two_stops(alloc, way),
            Hostile::StopAtFirst => stop_at_first(alloc, way),
            Hostile::OneWriteFails => one_write_fails(alloc, way),
            Hostile::OneReadFails => one_read_fails(alloc, way),
            Hostile::AllWritesFail => all_writes_fail(alloc, way),
        }
    }
}

/// The tables of stops behind each other, and of scripts that retry.
#[derive(Clone, Copy)]
enum Behind {
    StopsInBoots,
    ThreeStops,
    StopInRetries,
    TwoStopsInRetries,
    ThreeStopsInRetries,
    RetriesFail,
    RetriesFailOn,
    RetriesReadFails,
}

impl Behind {
    fn name(self) -> &'static str {
        match self {
            Behind::StopsInBoots => "a stop, and another in the boot behind it",
            Behind::ThreeStops => "a stop, and two in the boots behind it",
            Behind::StopInRetries => "a stop in a script that retries",
            Behind::TwoStopsInRetries => {
                "a stop in the opening behind another in a script that retries"
            }
            Behind::ThreeStopsInRetries => {
                "a stop in a script that retries, and two in the boots behind it"
            }
            Behind::RetriesFail => "a write that fails in a script that retries",
            Behind::RetriesFailOn => "writes that fail from one on in a script that retries",
            Behind::RetriesReadFails => "a read that fails in a script that retries",
        }
    }

    fn table(self, alloc: Global) -> Result<Table, AllocError> {
        match self {
            Behind::StopsInBoots => stops_in_boots(alloc),
            Behind::ThreeStops => three_stops(alloc, LATE),
            Behind::StopInRetries => stop_in_retries(alloc),
            Behind::TwoStopsInRetries => two_stops(alloc, RETRIES),
            Behind::ThreeStopsInRetries => three_stops(alloc, RETRIES),
            Behind::RetriesFail => retries_fail(alloc),
            Behind::RetriesFailOn => retries_fail_on(alloc),
            Behind::RetriesReadFails => retries_read_fails(alloc),
        }
    }
}

/// The tables of a database of formats 1, and of streams.
#[derive(Clone, Copy)]
enum Further {
    OlderStops,
    OlderFails,
    CutScripts,
    ReadsThatFail,
    WritesThatFail,
    LongestLines,
    MostBytes,
}

impl Further {
    fn name(self) -> &'static str {
        match self {
            Further::OlderStops => "where a database of formats 1 is opened: a stop",
            Further::OlderFails => "where a database of formats 1 is opened: a write that fails",
            Further::CutScripts => "a script that is cut",
            Further::ReadsThatFail => "a read of the script that fails",
            Further::WritesThatFail => "a write of the output that fails",
            Further::LongestLines => "lines of the most bytes",
            Further::MostBytes => "scripts of the most bytes",
        }
    }

    fn table(self, alloc: Global) -> Result<Table, AllocError> {
        match self {
            Further::OlderStops => older_stops(alloc),
            Further::OlderFails => older_fails(alloc),
            Further::CutScripts => cut_scripts(alloc),
            Further::ReadsThatFail => reads_that_fail(alloc),
            Further::WritesThatFail => writes_that_fail(alloc),
            Further::LongestLines => longest_lines(alloc),
            Further::MostBytes => most_bytes(alloc),
        }
    }
}

/// What is told.
#[derive(Clone, Copy)]
enum Part {
    Stories,
    Statuses,
    Words,
    Audits,
    Devices,
    TurnedBytes,
    CutDevices,
    Hostile(Hostile, Way),
    Behind(Behind),
    Further(Further),
    OpenPrograms,
    FullLogs,
}

const PARTS: [Part; 41] = [
    Part::Stories,
    Part::Statuses,
    Part::Words,
    Part::Audits,
    Part::Devices,
    Part::TurnedBytes,
    Part::CutDevices,
    Part::Behind(Behind::StopsInBoots),
    Part::Behind(Behind::ThreeStops),
    Part::Behind(Behind::StopInRetries),
    Part::Behind(Behind::TwoStopsInRetries),
    Part::Behind(Behind::ThreeStopsInRetries),
    Part::Behind(Behind::RetriesFail),
    Part::Behind(Behind::RetriesFailOn),
    Part::Behind(Behind::RetriesReadFails),
    Part::Hostile(Hostile::OneStop, LATE),
    Part::Hostile(Hostile::TwoStops, LATE),
    Part::Hostile(Hostile::StopAtFirst, LATE),
    Part::Hostile(Hostile::OneWriteFails, LATE),
    Part::Hostile(Hostile::OneReadFails, LATE),
    Part::Hostile(Hostile::AllWritesFail, LATE),
    Part::Hostile(Hostile::OneStop, EARLY),
    Part::Hostile(Hostile::TwoStops, EARLY),
    Part::Hostile(Hostile::OneStop, EARLY_BACK),
    Part::Hostile(Hostile::TwoStops, EARLY_BACK),
    Part::Hostile(Hostile::StopAtFirst, EARLY),
    Part::Hostile(Hostile::OneWriteFails, EARLY),
    Part::Hostile(Hostile::OneReadFails, EARLY),
    Part::Hostile(Hostile::AllWritesFail, EARLY),
    Part::Hostile(Hostile::OneWriteFails, IN_DOUBT),
    Part::Hostile(Hostile::OneReadFails, IN_DOUBT),
    Part::Hostile(Hostile::AllWritesFail, IN_DOUBT),
    Part::Further(Further::OlderStops),
    Part::Further(Further::OlderFails),
    Part::OpenPrograms,
    Part::Further(Further::CutScripts),
    Part::Further(Further::ReadsThatFail),
    Part::Further(Further::WritesThatFail),
    Part::Further(Further::LongestLines),
    Part::Further(Further::MostBytes),
    Part::FullLogs,
];

/// Runs the scripts of a source. A row that is too long counts as a line of a story that is told otherwise.
fn judge<S: Source>(alloc: Global, source: &mut S) -> Result<Cases, LineErr> {
    let mut cases = Cases::new(alloc);
    let mut lines = Lines::new();
    let mut line = Vec::new(alloc);
    for _ in 0..LINES_MOST {
        match lines.next_line(source, &mut line)? {
            Next::Line => cases.row(&line)?,
            Next::TooLong => cases.row(b"< too long")?,
            Next::End => break,
        }
    }
    cases.end()?;
    Ok(cases)
}

/// What became of the scripts of standard input.
fn stories(rt: &HostRuntime) -> Result<Vec<u8>, AllocError> {
    let mut source = StdSource::new(rt.reader());
    match judge(rt.alloc(), &mut source) {
        Ok(cases) => cases.text(),
        Err(_) => Err(AllocError),
    }
}

/// The line that tells of a table.
fn line_of(
    alloc: Global,
    way: &str,
    name: &str,
    table: Result<Table, AllocError>,
) -> Result<Vec<u8>, AllocError> {
    let Table { runs, right } = table?;
    Ok(format!(in alloc; "{way}{name}: {right} of {runs}\n")?.into_bytes())
}

/// The lines of a part.
fn lines_of(rt: &HostRuntime, part: Part) -> Result<Vec<u8>, AllocError> {
    let alloc = rt.alloc();
    match part {
        Part::Stories => stories(rt),
        Part::Statuses => statuses(alloc),
        Part::Words => by_words(alloc),
        Part::Audits => audits(alloc),
        Part::Devices => by_devices(alloc),
        Part::TurnedBytes => turned_bytes(alloc),
        Part::CutDevices => cut_devices(alloc),
        Part::Behind(behind) => line_of(alloc, "", behind.name(), behind.table(alloc)),
        Part::Hostile(hostile, way) => line_of(
            alloc,
            way.name,
            hostile.name(),
            hostile.table(alloc, way),
        ),
        Part::Further(further) => line_of(alloc, "", further.name(), further.table(alloc)),
        Part::OpenPrograms => open_programs(alloc),
        Part::FullLogs => full_logs(alloc),
    }
}

/// Writes the lines of each part. Whether all were had, and written.
fn tell(rt: &HostRuntime) -> bool {
    let mut sink = StdSink::new(io::writer(rt));
    for part in PARTS {
        let Ok(lines) = lines_of(rt, part) else {
            return false;
        };
        if write_whole(&mut sink, &lines).is_err() {
            return false;
        }
    }
    true
}

fn main(rt: HostRuntime) -> ExitCode {
    if tell(&rt) {
        ExitCode::SUCCESS
    } else {
        ExitCode::FAILURE
    }
}
