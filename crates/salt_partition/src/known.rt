//! What is known of a log by the coordinator's boot and the units that are decided.

ghost use Rattle.salt_values.specs.Id.{has_id};
ghost use Rattle.salt_partition.specs.Contents.{log_of, units_of};
ghost use Rattle.salt_stands.specs.OpenedPart.{is_known_log, is_of_boot};
ghost use Rattle.salt_stands.specs.Partition.{are_there};
ghost use Rattle.salt_stands.specs.Pieces.{is_prepared_in};
ghost use Rattle.salt_values.specs.Id.{is_same_id};
ghost use Rattle.std.specs.List.{list_all};
ghost use Rattle.std.specs.Prelude.{IfOk, nat_le, ◌≡◌};

use crate::contents::ReadLog;
use crate::sets::{is_in, prepared_set};
use salt_codec::PreparedUnit;
use salt_values::Id;
use std::alloc::{AllocError, Global};
use std::collections::BTreeSet;

/// Whether two names are one.
pub fn is_same(a: Id, b: Id) -> bool
    ensures { result ≡ is_same_id a b }
{
    a == b
}

fn all_in(set: &BTreeSet<Id>, ids: &[Id]) -> bool
    ensures { result ≡ list_all (λ id. has_id id set.now.keys) ids.now }
{
    ids.iter().all(|id| is_in(set, *id))
}

fn are_prepared(alloc: Global, ids: &[Id], units: &[PreparedUnit]) -> Result<bool, AllocError>
    ensures { IfOk result (λ all. all ≡ list_all (λ id. is_prepared_in id (units_of units.now)) ids.now) }
{
    let set = prepared_set(alloc, units)?;
    Ok(all_in(&set, ids))
}

fn all_of_boot(boot: u64, units: &[PreparedUnit]) -> bool
    ensures { result ≡ list_all (λ prepared. nat_le prepared.unit.boot boot) units.now }
{
    units.iter().all(|prepared| prepared.unit.boot <= boot)
}

fn are_of_boot(boot: u64, units: &[PreparedUnit]) -> bool
    ensures { result ≡ list_all (is_of_boot boot) (units_of units.now) }
{
    all_of_boot(boot, units)
}

/// Whether each decided unit is prepared, or may have been taken into pages by a checkpoint.
fn are_there(alloc: Global, decided: &[Id], log: &ReadLog) -> Result<bool, AllocError>
    ensures { IfOk result (λ there. there ≡ are_there decided.now (log_of log.now)) }
{
    if 1 < log.header.generation {
        return Ok(true);
    }
    are_prepared(alloc, decided, log.units.as_slice())
}

/// Whether a log can be the partition's under a coordinator of this boot that has decided these units.
pub fn is_known_log(
    alloc: Global,
    boot: u64,
    decided: &[Id],
    log: &ReadLog,
) -> Result<bool, AllocError>
    ensures { IfOk result (λ known. known ≡ is_known_log boot decided.now (log_of log.now)) }
{
    let there = are_there(alloc, decided, log)?;
    Ok(there && are_of_boot(boot, log.units.as_slice()))
}
