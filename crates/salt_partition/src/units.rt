//! The entries of a partition's log, read from its device.

ghost use Rattle.salt_bytes.specs.Partition.{partition_header_in, prepared_in};
ghost use Rattle.salt_bytes.specs.Spellable.{Every};
ghost use Rattle.salt_disk.specs.Disks.{HasCause, KeepsAll, OnlyFails, UnlessDown};
ghost use Rattle.salt_codec.specs.Entries.{header_of, prepared_of};
ghost use Rattle.salt_gatelog.specs.Entry.{HasMoved};
ghost use Rattle.salt_gatelog.specs.Log.{IsLog, count_of};
ghost use Rattle.salt_partition.specs.Contents.{ArePut, NamesSides, SpellsUnit, units_of};
ghost use Rattle.salt_stands.specs.PartitionLog.{gathered};
ghost use Rattle.std.specs.Prelude.{IfOk, IfSome, IsTrue, List, Some, [], drop, option_map, slice_get, ℕ, ◌<◌, ◌≡◌, option_and_then};
ghost use Rattle.std.specs.Result.{result_err};

use salt_codec::{Header, PreparedUnit, read_header, read_prepared};
use salt_disk::{DiskErr, Disks};
use salt_gatelog::{GateLog, rejected};
use std::alloc::Global;

/// The header that entry 0 spells; `None` where it spells none.
pub fn header_at<D: Disks>(
    alloc: Global,
    disks: &mut D,
    log: &mut GateLog,
) -> Result<Option<Header>, DiskErr>
    requires log { (entries : List (List ℕ)) × IsLog (D.view disks.old) log.old entries }
    requires some { 0 < count_of log.old }
    ensures header { IfOk result (λ found. (entries : List (List ℕ)) → IsLog (D.view disks.old) log.old entries → IsTrue (D.view disks.old).told
        → option_map header_of found ≡ option_and_then partition_header_in (slice_get entries 0)) }
    ensures sides { IfOk result (λ found. IfSome found (λ header. NamesSides (header_of header))) }
    ensures log { (entries : List (List ℕ)) → IsLog (D.view disks.old) log.old entries → UnlessDown (result_err result) (IsLog (D.view disks.new) log.new entries) }
    ensures same { HasMoved log.old log.new }
    ensures kept { KeepsAll (D.view disks.old) (D.view disks.new) (result_err result) }
    ensures cause { HasCause (D.view disks.old) (D.view disks.new) (result_err result) }
    ensures answers { OnlyFails (result_err result) }
{
    let mut bytes = Vec::new(alloc);
    log.entry(alloc, disks, 0, &mut bytes)?;
    Ok(read_header(alloc, &bytes)?)
}

/// The prepared unit that entry `i`, counted from 0, spells; `None` where it spells none.
pub fn unit_at<D: Disks>(
    alloc: Global,
    disks: &mut D,
    log: &mut GateLog,
    nulls: bool,
    i: u64,
) -> Result<Option<PreparedUnit>, DiskErr>
    requires log { (entries : List (List ℕ)) × IsLog (D.view disks.old) log.old entries }
    requires below { i < count_of log.old }
    ensures unit { IfOk result (λ found. (entries : List (List ℕ)) → IsLog (D.view disks.old) log.old entries → IsTrue (D.view disks.old).told
        → option_map prepared_of found ≡ option_and_then (prepared_in nulls) (slice_get entries i)) }
    ensures put { IfOk result (λ found. IfSome found (λ unit. ArePut (prepared_of unit))) }
    ensures log { (entries : List (List ℕ)) → IsLog (D.view disks.old) log.old entries → UnlessDown (result_err result) (IsLog (D.view disks.new) log.new entries) }
    ensures same { HasMoved log.old log.new }
    ensures kept { KeepsAll (D.view disks.old) (D.view disks.new) (result_err result) }
    ensures cause { HasCause (D.view disks.old) (D.view disks.new) (result_err result) }
    ensures answers { OnlyFails (result_err result) }
{
    let mut bytes = Vec::new(alloc);
    log.entry(alloc, disks, i, &mut bytes)?;
    Ok(read_prepared(alloc, nulls, &bytes)?)
}

/// The prepared unit that entry `i` spells, which spells one. Disks that give other bytes have failed.
pub fn unit_told<D: Disks>(
    alloc: Global,
    disks: &mut D,
    log: &mut GateLog,
    nulls: bool,
    i: u64,
) -> Result<PreparedUnit, DiskErr>
    requires log { (entries : List (List ℕ)) × IsLog (D.view disks.old) log.old entries }
    requires below { i < count_of log.old }
    requires spelled { IsTrue (D.view disks.old).told → SpellsUnit (D.view disks.old) log.old nulls i }
    ensures unit { IfOk result (λ unit. (entries : List (List ℕ)) → IsLog (D.view disks.old) log.old entries → IsTrue (D.view disks.old).told
        → Some (prepared_of unit) ≡ option_and_then (prepared_in nulls) (slice_get entries i)) }
    ensures log { (entries : List (List ℕ)) → IsLog (D.view disks.old) log.old entries → UnlessDown (result_err result) (IsLog (D.view disks.new) log.new entries) }
    ensures same { HasMoved log.old log.new }
    ensures kept { KeepsAll (D.view disks.old) (D.view disks.new) (result_err result) }
    ensures cause { HasCause (D.view disks.old) (D.view disks.new) (result_err result) }
    ensures answers { OnlyFails (result_err result) }
{
    match unit_at(alloc, disks, log, nulls, i)? {
        Some(unit) => Ok(unit),
        None => Err(rejected(disks)),
    }
}

/// The units that the entries behind the first one spell, in order; `None` where one of them spells none.
pub fn read_units<D: Disks>(
    alloc: Global,
    disks: &mut D,
    log: &mut GateLog,
    nulls: bool,
) -> Result<Option<Vec<PreparedUnit>>, DiskErr>
    requires { (entries : List (List ℕ)) × IsLog (D.view disks.old) log.old entries }
    ensures units { IfOk result (λ found. (entries : List (List ℕ)) → IsLog (D.view disks.old) log.old entries → IsTrue (D.view disks.old).told
        → option_map (λ units. units_of units.items) found ≡ gathered nulls (Some []) (drop 1 entries)) }
    ensures put { IfOk result (λ found. IfSome found (λ units. Every ArePut (units_of units.items))) }
    ensures log { (entries : List (List ℕ)) → IsLog (D.view disks.old) log.old entries → UnlessDown (result_err result) (IsLog (D.view disks.new) log.new entries) }
    ensures same { HasMoved log.old log.new }
    ensures kept { KeepsAll (D.view disks.old) (D.view disks.new) (result_err result) }
    ensures cause { HasCause (D.view disks.old) (D.view disks.new) (result_err result) }
    ensures answers { OnlyFails (result_err result) }
{
    let mut units = Vec::new(alloc);
    for i in 1..log.count() {
        match unit_at(alloc, disks, log, nulls, i)? {
            Some(unit) => units.push(unit)?,
            None => return Ok(None),
        }
    }
    Ok(Some(units))
}
