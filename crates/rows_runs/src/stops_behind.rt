//! Tables of stops behind each other, and of runs that retry.

use crate::devices::Failing;
use crate::tables::{
    LATE, ROWS, Stopped, Table, Way, each_pick, ends_well, fails_well, keeps_accepted,
};
use std::alloc::{AllocError, Global};

/// A transfer of which the second part always fails, is tried twice more, and is taken back. A unit of a part makes 8 calls, a failure 4, and a
/// sum 4.
const RETRIED: Stopped = Stopped {
    before: "create table acct (id int key, bal int, check bal >= 0 and bal <= 1000)
program transfer(a int, b int, amt int) base \\
 part { update acct set bal = bal - :amt where key = :a } \\
 part { update acct set bal = bal + :amt where key = :b } then end on failure retry 2 then go 3 \\
 part { update acct set bal = bal + :amt where key = :a } on failure end end
@1 insert into acct values (1, 900)
@1 insert into acct values (2, 950)
",
    behind: "@1 call transfer(1, 2, 100)
go all
go all
go all
go all
@1 select sum(bal) from acct
",
    sum: b"-> value 1850\n",
    calls: 32,
};

pub const RETRIES: Way = Way {
    name: "",
    words: &["run"],
    armed: "",
    last: "",
    stopped: RETRIED,
};

/// How many calls all that is written before them makes: a first opening 28, two definitions 8, and two rows 16.
const RETRIED_START: u64 = 52;

/// More reads than its script makes.
const RETRIED_READS: u64 = 41;

/// How many calls a boot makes: an entry of the coordinator's log.
const BOOT_CALLS: u64 = 4;

/// A stop at each of the calls of a script that retries, and at one that does not come any more.
pub fn stop_in_retries(alloc: Global) -> Result<Table, AllocError> {
    let mut table = Table::new();
    for call in 1..RETRIED.calls + 2 {
        let stops = if call <= RETRIED.calls { 1 } else { 0 };
        each_pick(alloc, RETRIES, &mut table, "", call, stops)?;
    }
    Ok(table)
}

/// Its lines, and this one behind them.
fn retried_script(alloc: Global, line: &str) -> Result<String, AllocError> {
    let Stopped { before, behind, .. } = RETRIED;
    format!(in alloc; "{before}{behind}{line}")
}

/// Each write or sync of a script that retries fails in turn.
pub fn retries_fail(alloc: Global) -> Result<Table, AllocError> {
    let script = retried_script(alloc, ROWS)?;
    let mut table = Table::new();
    for call in 1..RETRIED_START + RETRIED.calls + 1 {
        table.add(fails_well(alloc, RETRIES, script.as_str(), Failing::Write(call))?);
    }
    Ok(table)
}

/// From each write or sync on of a script that retries all fail.
pub fn retries_fail_on(alloc: Global) -> Result<Table, AllocError> {
    let script = retried_script(alloc, "")?;
    let mut table = Table::new();
    for call in 1..RETRIED_START + RETRIED.calls + 1 {
        table.add(keeps_accepted(alloc, RETRIES, script.as_str(), call)?);
    }
    Ok(table)
}

/// Each read of a script that retries fails in turn.
pub fn retries_read_fails(alloc: Global) -> Result<Table, AllocError> {
    let script = retried_script(alloc, ROWS)?;
    let mut table = Table::new();
    for call in 1..RETRIED_READS {
        table.add(fails_well(alloc, RETRIES, script.as_str(), Failing::Read(call))?);
    }
    Ok(table)
}

/// A stop at this call, and one at each of the boot behind it.
fn stops_in_boot(alloc: Global, table: &mut Table, call: u64) -> Result<(), AllocError> {
    let others = format!(in alloc; "{call} {} ", call % 5)?;
    for second in 1..BOOT_CALLS + 1 {
        let is_well = ends_well(alloc, LATE, others.as_str(), second, second, 2)?;
        table.add(is_well);
    }
    Ok(())
}

/// A stop at each call, and one in the boot behind it.
pub fn stops_in_boots(alloc: Global) -> Result<Table, AllocError> {
    let mut table = Table::new();
    for call in 1..LATE.stopped.calls + 1 {
        stops_in_boot(alloc, &mut table, call)?;
    }
    Ok(table)
}

/// A stop at this call, one in the boot behind it, and one in the boot behind that.
fn stops_in_two_boots(
    alloc: Global,
    way: Way,
    table: &mut Table,
    call: u64,
) -> Result<(), AllocError> {
    for second in 1..BOOT_CALLS + 1 {
        let others = format!(in alloc; "{call} {} {second} {second} ", call % 5)?;
        let third = BOOT_CALLS + 1 - second;
        let is_well = ends_well(alloc, way, others.as_str(), third, second - 1, 3)?;
        table.add(is_well);
    }
    Ok(())
}

/// A stop at each call, and one in each of the two boots behind it.
pub fn three_stops(alloc: Global, way: Way) -> Result<Table, AllocError> {
    let mut table = Table::new();
    let last = way.stopped.calls;
    for call in 1..last.saturating_add(1) {
        stops_in_two_boots(alloc, way, &mut table, call)?;
    }
    Ok(table)
}
