//! The coordinator's pair of logs, and which of them counts.

ghost use Rattle.salt_bytes.specs.Generations.{later_of, pair_of};
ghost use Rattle.salt_decisions.specs.Pair.{HasPair, contents, generation_of, pair_in};
ghost use Rattle.salt_disk.specs.Disks.{HasCause, IsSettled, KeepsAll, OnlyFails};
ghost use Rattle.std.specs.Prelude.{IfOk, ◌<◌, ◌≡◌};
ghost use Rattle.std.specs.Result.{result_err};

use crate::read::{Content, ReadLog, read_device};
use crate::which::Which;
use salt_disk::{DiskErr, Disks};
use salt_gatelog::follows;
use std::alloc::Global;

/// What the pair is.
#[derive(Drop)]
pub enum LogPair {
    BothBlank,
    /// This log counts.
    Counts(Which, ReadLog),
    /// The pair's fault counts against this log.
    Faulty(Which),
}

/// Which of two logs counts, by their generations.
fn later(a: ReadLog, b: ReadLog) -> LogPair
    ensures { pair_in result ≡ later_of generation_of a b }
{
    if follows(a.generation, b.generation) {
        return LogPair::Counts(Which::B, b);
    }
    if follows(b.generation, a.generation) {
        return LogPair::Counts(Which::A, a);
    }
    LogPair::Faulty(Which::B)
}

/// What the pair is, by what its devices hold.
fn choose(a: Content, b: Content) -> LogPair
    ensures { pair_in result ≡ pair_of generation_of (contents a) (contents b) }
{
    match (a, b) {
        (Content::Outside, _) => LogPair::Faulty(Which::A),
        (_, Content::Outside) => LogPair::Faulty(Which::B),
        (Content::Blank, Content::Blank) => LogPair::BothBlank,
        (Content::Blank, Content::Log(b)) => LogPair::Counts(Which::B, b),
        (Content::Log(a), Content::Blank) => LogPair::Counts(Which::A, a),
        (Content::Log(a), Content::Log(b)) => later(a, b),
    }
}

/// What the coordinator's pair is, on whose devices nothing is pending. It writes nothing.
pub fn read_pair<D: Disks>(alloc: Global, disks: &mut D) -> Result<LogPair, DiskErr>
    requires known { 1 < (D.view disks.old).count }
    requires settled_a { IsSettled (D.view disks.old) 0 }
    requires settled_b { IsSettled (D.view disks.old) 1 }
    ensures pair { IfOk result (λ pair. HasPair (D.view disks.new) (pair_in pair)) }
    ensures kept { KeepsAll (D.view disks.old) (D.view disks.new) (result_err result) }
    ensures cause { HasCause (D.view disks.old) (D.view disks.new) (result_err result) }
    ensures answers { OnlyFails (result_err result) }
{
    let a = read_device(alloc, disks, 0)?;
    let b = read_device(alloc, disks, 1)?;
    Ok(choose(a, b))
}
