//! Tables of runs that stop or fail at one call after another, each with what must come of it.

ghost use Rattle.std.specs.Prelude.{◌≤◌};

use crate::devices::{Devices, Failing, ROOM};
use crate::outcome::Outcome;
use salt_run::Status;
use std::alloc::{AllocError, Global};

/// Two accounts, and a program that moves an amount from one to another.
const ACCOUNTS: &str = "create table acct (id int key, bal int, check bal >= 0 and bal <= 1000)
program transfer(a int, b int, amt int) base \\
 part { update acct set bal = bal - :amt where key = :a } \\
 part { update acct set bal = bal + :amt where key = :b } then end on failure go 3 \\
 part { update acct set bal = bal + :amt where key = :a } on failure end end
@1 insert into acct values (1, 100)
@1 insert into acct values (2, 50)
";

const TRANSFERS: &str = "@1 call transfer(1, 2, 30)
@2 call transfer(2, 1, 10)
go all
go all
@1 select sum(bal) from acct
";

/// A program that is accepted, and finished.
const TRANSFER: &str = "@1 call transfer(1, 2, 30)
go all
";

/// Accounts of which one has room for no more, and a program that tries its second part twice.
const FULL_ACCOUNTS: &str = "create table acct (id int key, bal int, check bal >= 0 and bal <= 1000)
program transfer(a int, b int, amt int) base \\
 part { update acct set bal = bal - :amt where key = :a } \\
 part { update acct set bal = bal + :amt where key = :b } then end on failure retry 1 then go 3 \\
 part { update acct set bal = bal + :amt where key = :a } on failure end end
@1 insert into acct values (1, 100)
@1 insert into acct values (2, 50)
@1 insert into acct values (3, 990)
";

const TRANSFERS_BACK: &str = "@1 call transfer(1, 3, 30)
@2 call transfer(2, 3, 10)
go all
go all
go all
@1 select sum(bal) from acct
";

const SUM: &str = "@1 select sum(bal) from acct\n";

pub const ROWS: &str = "@1 select * from acct\n";

const SUM_KEPT: &[u8] = b"-> value 150\n";

pub const STOPPED: &[u8] = b"down stopped\n";

/// The words by which the runs of a table are called, and the lines that end their scripts.
#[derive(Clone, Copy)]
pub struct Way {
    /// In front of a table's name.
    pub name: &'static str,
    pub words: &'static [&'static str],
    /// A line in front of a transfer, which arms what befalls messages, or none.
    pub armed: &'static str,
    pub last: &'static str,
    pub stopped: Stopped,
}

/// What is stopped: lines before and behind the one that arms stops, the sum that is kept, and how many calls come behind that line.
#[derive(Clone, Copy)]
pub struct Stopped {
    pub before: &'static str,
    pub behind: &'static str,
    pub sum: &'static [u8],
    pub calls: u64,
}

/// Transfers that come to their ends.
const THERE: Stopped = Stopped {
    before: ACCOUNTS,
    behind: TRANSFERS,
    sum: SUM_KEPT,
    calls: 36,
};

/// Transfers whose second part fails twice, so that the third gives back.
const BACK: Stopped = Stopped {
    before: FULL_ACCOUNTS,
    behind: TRANSFERS_BACK,
    sum: b"-> value 1140\n",
    calls: 44,
};

/// Lines behind which programs have turns.
pub const TURNS: &str = "show bases
show bases
show bases
show bases
show bases
show bases
show bases
show bases
";

/// Openings finish what was accepted.
pub const LATE: Way = Way {
    name: "",
    words: &["run"],
    armed: "",
    last: "",
    stopped: THERE,
};

/// Openings end early, and each line behind one gives a turn.
pub const EARLY: Way = Way {
    name: "where openings end early: ",
    words: &["run", "--early"],
    armed: "",
    last: TURNS,
    stopped: THERE,
};

/// The same, and programs try again and branch.
pub const EARLY_BACK: Way = Way {
    name: "where openings end early and programs branch: ",
    words: &["run", "--early"],
    armed: "",
    last: TURNS,
    stopped: BACK,
};

/// A partition starts again while it is in doubt whether a unit commits, before its vote comes.
pub const IN_DOUBT: Way = Way {
    name: "where a partition starts again in doubt: ",
    words: &["run", "--net"],
    armed: "net 2 2\n",
    last: "",
    stopped: THERE,
};

impl Way {
    /// Runs a script over these devices, started again, and then the lines that end it.
    fn run(
        self,
        alloc: Global,
        devices: &mut Devices,
        script: &str,
    ) -> Result<Outcome, AllocError> {
        let last = self.last;
        let script = format!(in alloc; "{script}{last}")?;
        devices.run_within(alloc, ROOM, self.words, script.as_bytes())
    }
}

/// How many runs a table has, and how many of them end as they must.
#[derive(Clone, Copy)]
pub struct Table {
    pub runs: u64,
    pub right: u64,
}

impl Table {
    pub fn new() -> Table {
        Table { runs: 0, right: 0 }
    }

    pub fn add(&mut self, is_right: bool) {
        self.runs = self.runs.saturating_add(1);
        if is_right {
            self.right = self.right.saturating_add(1);
        }
    }
}

/// The run ends well, stops so often, and nothing of the accounts is lost.
fn stops_well(outcome: &Outcome, stops: u64, sum: &[u8]) -> bool {
    outcome.is(Status::Done) && outcome.count(STOPPED) == stops && outcome.count(sum) == 1
}

/// A script with transfers, in which a line arms this stop behind others.
pub fn ends_well(
    alloc: Global,
    way: Way,
    others: &str,
    call: u64,
    pick: u64,
    stops: u64,
) -> Result<bool, AllocError> {
    let Stopped {
        before,
        behind,
        sum,
        ..
    } = way.stopped;
    let script = format!(in alloc; "{before}crash {others}{call} {pick}\n{behind}")?;
    let mut devices = Devices::new(alloc)?;
    let outcome = way.run(alloc, &mut devices, script.as_str())?;
    Ok(stops_well(&outcome, stops, sum))
}

/// A stop with each pick.
pub fn each_pick(
    alloc: Global,
    way: Way,
    table: &mut Table,
    others: &str,
    call: u64,
    stops: u64,
) -> Result<(), AllocError> {
    for pick in 0..5 {
        table.add(ends_well(alloc, way, others, call, pick, stops)?);
    }
    Ok(())
}

/// A stop at each of the calls behind the line that arms it, and at one that does not come any more.
pub fn one_stop(alloc: Global, way: Way) -> Result<Table, AllocError> {
    let mut table = Table::new();
    let last = way.stopped.calls;
    for call in 1..last.saturating_add(2) {
        let stops = if call <= last { 1 } else { 0 };
        each_pick(alloc, way, &mut table, "", call, stops)?;
    }
    Ok(table)
}

/// A stop, and another within the opening behind it or what that finishes.
pub fn two_stops(alloc: Global, way: Way) -> Result<Table, AllocError> {
    let mut table = Table::new();
    for call in 1..21 {
        each_pick(alloc, way, &mut table, "16 1 ", call, 2)?;
    }
    Ok(table)
}

/// A first opening that stops is told, and the next one is ready.
fn opens_well(alloc: Global, way: Way, call: u64, pick: u8) -> Result<bool, AllocError>
    requires { pick ≤ 4 }
{
    let mut devices = Devices::new(alloc)?;
    devices.arm(call, pick)?;
    let outcome = devices.run_within(alloc, ROOM, way.words, b"")?;
    let text = outcome.text();
    Ok(
        outcome.is(Status::Done)
            && text.starts_with(b"down stopped\nopened ")
            && text.ends_with(b" 0\nready\n")
            && outcome.count(STOPPED) == 1,
    )
}

/// A stop in the first opening, armed before the run.
pub fn stop_at_first(alloc: Global, way: Way) -> Result<Table, AllocError> {
    let mut table = Table::new();
    for call in 1..29 {
        for pick in 0..5 {
            table.add(opens_well(alloc, way, call, pick)?);
        }
    }
    Ok(table)
}

fn failing_devices(alloc: Global, failing: Failing) -> Result<Devices, AllocError> {
    let mut devices = Devices::new(alloc)?;
    devices.fail(failing)?;
    Ok(devices)
}

/// The rows that a run gives last, or nothing, where it gives none.
fn rows_of(outcome: &Outcome) -> &[u8] {
    outcome.last_behind(b"did select * from acct -> ")
}

/// A call fails: the run ends well or fails in an opening. Where it ends well, a second run over its devices gives the rows that the first
/// has given.
pub fn fails_well(
    alloc: Global,
    way: Way,
    script: &str,
    failing: Failing,
) -> Result<bool, AllocError> {
    let mut devices = failing_devices(alloc, failing)?;
    let first = way.run(alloc, &mut devices, script)?;
    if first.is(Status::DiskFault) {
        return Ok(true);
    }
    let second = way.run(alloc, &mut devices.copied(alloc)?, ROWS)?;
    Ok(first.is(Status::Done) && second.is(Status::Done) && rows_of(&second) == rows_of(&first))
}

/// Each write or sync fails in turn.
pub fn one_write_fails(alloc: Global, way: Way) -> Result<Table, AllocError> {
    let armed = way.armed;
    let script = format!(in alloc; "{ACCOUNTS}{armed}{TRANSFER}{ROWS}")?;
    let mut table = Table::new();
    for call in 1..81 {
        table.add(fails_well(alloc, way, script.as_str(), Failing::Write(call))?);
    }
    Ok(table)
}

/// Each read fails in turn.
pub fn one_read_fails(alloc: Global, way: Way) -> Result<Table, AllocError> {
    let armed = way.armed;
    let script = format!(in alloc; "{ACCOUNTS}{armed}{TRANSFER}{ROWS}")?;
    let mut table = Table::new();
    for call in 1..41 {
        table.add(fails_well(alloc, way, script.as_str(), Failing::Read(call))?);
    }
    Ok(table)
}

/// All writes fail from one on: what was told to be accepted is finished by a second run.
pub fn keeps_accepted(
    alloc: Global,
    way: Way,
    script: &str,
    call: u64,
) -> Result<bool, AllocError> {
    let mut devices = failing_devices(alloc, Failing::From(call))?;
    let first = way.run(alloc, &mut devices, script)?;
    let second = way.run(alloc, &mut devices.copied(alloc)?, SUM)?;
    let may_end = first.is(Status::Done) || first.is(Status::DiskFault);
    let is_kept = first.count(b"b1.1 accepted\n") == 0 || second.count(way.stopped.sum) == 1;
    Ok(may_end && second.is(Status::Done) && is_kept)
}

/// From each write or sync on all fail.
pub fn all_writes_fail(alloc: Global, way: Way) -> Result<Table, AllocError> {
    let armed = way.armed;
    let script = format!(in alloc; "{ACCOUNTS}{armed}{TRANSFER}")?;
    let mut table = Table::new();
    for call in 1..81 {
        table.add(keeps_accepted(alloc, way, script.as_str(), call)?);
    }
    Ok(table)
}
