//! The coordinator's log is opened, or begun.

ghost use Rattle.salt_gatelog.specs.declared.unopened.OpenErr.{OpenErr};
ghost use Rattle.salt_bytes.specs.Generations.{BothBlank, LogA};
ghost use Rattle.salt_decisions.specs.Decisions.{HoldsLog, IsDecisions};
ghost use Rattle.salt_gatelog.specs.Answers.{open_disk_err};
ghost use Rattle.salt_decisions.specs.Kept.{IsKept};
ghost use Rattle.salt_decisions.specs.Opened.{FullAtFirst, IsBlankImage, IsFirstImage, IsOpened, OpenFails, Peeks, begun, first_payload};
ghost use Rattle.salt_decisions.specs.Read.{IsOf};
ghost use Rattle.salt_decisions.specs.Which.{which_in};
ghost use Rattle.salt_disk.specs.Disks.{EachImage, HasCause, IsSettled, KeepsAll, KeepsBut, OnlyFails};
ghost use Rattle.salt_disk.specs.declared.disks.DiskErr.TheVariants.{Full};
ghost use Rattle.salt_gatelog.specs.Pair.{pair_err};
ghost use Rattle.salt_stands.specs.Coordinator.{coordinator_pair, device_of};
ghost use Rattle.salt_stands.specs.CoordinatorLog.{CoordinatorLog};
ghost use Rattle.salt_stands.specs.LogDevices.{IsCoordinatorLog};
ghost use Rattle.salt_stands.specs.Stands.{are_spent, is_same_kind, is_same_shape, logs_of};
ghost use Rattle.salt_place.specs.Placement.{IsParts};
ghost use Rattle.salt_place.specs.declared.placement.Shape.{Shape};
ghost use Rattle.std.specs.Prelude.{Err, IfErr, IfOk, IfSome, IsTrue, Some, [], ℕ, ◌<◌, ◌≡◌};
ghost use Rattle.std.specs.Result.{result_err};

use crate::decisions::Decisions;
use crate::going::going_behind;
use crate::header_payload::{FORMAT, header_payload};
use crate::kept::{Kept, texts_of};
use crate::pair::{LogPair, read_pair};
use crate::read::ReadLog;
use crate::said::Said;
use crate::which::Which;
use salt_disk::{DiskErr, Disks};
use salt_gatelog::{OpenErr, PairErr, create};
use salt_place::{PlaceKind, Shape};
use sqlite_items::Items;
use std::alloc::{AllocError, Global};

/// What a log that was read keeps.
fn kept_of(alloc: Global, which: Which, log: ReadLog) -> Result<Kept, AllocError>
    ensures keeps { (l : CoordinatorLog) → IsOf log l → IfOk result (λ kept. IsKept kept l) }
    ensures device { IfOk result (λ kept. kept.device ≡ device_of 0 (which_in which)) }
{
    let ReadLog {
        gate: _gate,
        format,
        generation: _,
        shape: _,
        conts,
        said,
    } = log;
    let Said {
        boot,
        decisions,
        definitions,
        decided,
        masks,
        moves,
    } = said;
    Ok(Kept {
        boot,
        decisions,
        definitions: texts_of(alloc, definitions.as_slice())?,
        decided,
        masks,
        moves,
        conts,
        format,
        device: which.device(),
    })
}

/// What the coordinator's log keeps, and its shape; nothing exactly where both of its devices are blank. `NotSalt` exactly where
/// the pair is neither blank nor has a log that counts. It writes nothing. Nothing is pending on the two devices.
pub fn peek<D: Disks>(alloc: Global, disks: &mut D) -> Result<Option<(Shape, Kept)>, PairErr>
    requires known { 1 < (D.view disks.old).count }
    requires settled_a { IsSettled (D.view disks.old) 0 }
    requires settled_b { IsSettled (D.view disks.old) 1 }
    ensures answer { IsTrue (D.view disks.old).told → Peeks result (coordinator_pair (logs_of (D.view disks.old).bytes)) }
    ensures keeps { IfOk result (λ found. IfSome found (λ peeked. (log : CoordinatorLog) × IsKept peeked.1 log)) }
    ensures kept { KeepsAll (D.view disks.old) (D.view disks.new) (pair_err result) }
    ensures cause { HasCause (D.view disks.old) (D.view disks.new) (pair_err result) }
    ensures answers { OnlyFails (pair_err result) }
{
    match read_pair(alloc, disks)? {
        LogPair::BothBlank => Ok(None),
        LogPair::Counts(which, log) => {
            let shape = log.shape;
            Ok(Some((shape, kept_of(alloc, which, log)?)))
        }
        LogPair::Faulty(which) => Err(PairErr::NotSalt(which.device())),
    }
}

/// What a log that was read keeps, and the log itself, with the continuations that its moves leave open.
fn opened(alloc: Global, which: Which, log: ReadLog) -> Result<(Decisions, Kept), AllocError>
    requires parts { IsParts log.shape.parts }
    ensures holds { (l : CoordinatorLog) → IsOf log l → IfOk result (λ made. HoldsLog made.0 l × IsKept made.1 l) }
    ensures same { IfOk result (λ made. (made.0.which ≡ which_in which) × (made.0.gate ≡ log.gate)) }
    ensures device { IfOk result (λ made. made.1.device ≡ device_of 0 (which_in which)) }
{
    let ReadLog {
        gate,
        format,
        generation,
        shape,
        conts,
        said,
    } = log;
    let Said {
        boot,
        decisions,
        definitions,
        decided,
        masks,
        moves,
    } = said;
    let texts = texts_of(alloc, definitions.as_slice())?;
    let going = going_behind(alloc, format, conts.as_slice(), moves.as_slice())?;
    let counting = Decisions {
        which,
        gate,
        format,
        generation,
        shape,
        boot,
        decisions,
        definitions,
        conts: going,
    };
    let kept = Kept {
        boot,
        decisions,
        definitions: texts,
        decided,
        masks,
        moves,
        conts,
        format,
        device: which.device(),
    };
    Ok((counting, kept))
}

/// What a new log keeps.
fn nothing_kept(alloc: Global) -> Kept
    ensures keeps { (shape : Shape) → IsKept result (begun shape) }
    ensures device { result.device ≡ 0 }
{
    Kept {
        boot: 0,
        decisions: 0,
        definitions: Items::new(alloc),
        decided: Items::new(alloc),
        masks: Items::new(alloc),
        moves: Items::new(alloc),
        conts: Items::new(alloc),
        format: FORMAT,
        device: 0,
    }
}

/// Begins the coordinator's log on its blank devices: log B is made blank, then log A, and the first header is appended there.
fn begin<D: Disks>(alloc: Global, disks: &mut D, shape: Shape) -> Result<Decisions, DiskErr>
    requires known { 1 < (D.view disks.old).count }
    requires settled_a { IsSettled (D.view disks.old) 0 }
    requires settled_b { IsSettled (D.view disks.old) 1 }
    requires blank { IsTrue (D.view disks.old).told → coordinator_pair (logs_of (D.view disks.old).bytes) ≡ BothBlank }
    requires parts { IsParts shape.parts }
    ensures ok { IfOk result (λ made. IsDecisions (D.view disks.new) made LogA (begun shape)) }
    ensures images_a { EachImage (D.view disks.new) 0 (IsFirstImage shape) }
    ensures images_b { EachImage (D.view disks.new) 1 IsBlankImage }
    ensures others { KeepsBut IsCoordinatorLog (D.view disks.old) (D.view disks.new) (result_err result) }
    ensures cause { HasCause (D.view disks.old) (D.view disks.new) (result_err result) }
    ensures full { IsTrue (D.view disks.old).told → FullAtFirst (D.view disks.new) (first_payload shape) (result_err result) }
    ensures blank { (dev : ℕ) → result ≡ Err (Full dev) → IsTrue (D.view disks.old).told → coordinator_pair (logs_of (D.view disks.new).bytes) ≡ BothBlank }
{
    let payload = header_payload(alloc, 1, shape, 0, 0, &[], &[])?;
    let _other = create(disks, 1)?;
    let mut gate = create(disks, 0)?;
    gate.append(alloc, disks, &payload)?;
    Ok(Decisions {
        which: Which::A,
        gate,
        format: FORMAT,
        generation: 1,
        shape,
        boot: 0,
        decisions: 0,
        definitions: Items::new(alloc),
        conts: Items::new(alloc),
    })
}

fn is_same_kind(left: PlaceKind, right: PlaceKind) -> bool
    ensures { result ≡ is_same_kind left right }
{
    match (left, right) {
        (PlaceKind::Remainder, PlaceKind::Remainder) => true,
        (PlaceKind::Bands, PlaceKind::Bands) => true,
        (PlaceKind::Remainder, PlaceKind::Bands) => false,
        (PlaceKind::Bands, PlaceKind::Remainder) => false,
    }
}

fn is_same_shape(left: Shape, right: Shape) -> bool
    ensures { result ≡ is_same_shape left right }
{
    left.parts == right.parts && is_same_kind(left.kind, right.kind)
}

/// Whether boots or decisions have come to 2^63.
pub fn are_spent(boot: u64, decisions: u64) -> bool
    ensures { result ≡ are_spent boot decisions }
{
    1 << 63 <= boot || 1 << 63 <= decisions
}

/// Opens the log of the coordinator that counts, and gives what it keeps. Blank devices are made a new one's, of the shape that
/// is asked for, up to its header. `NotSalt`, `OtherShape` and `NumbersSpent` come in this order, each exactly where it is so.
/// On devices that are not blank it writes nothing. Nothing is pending on the two devices.
pub fn open_decisions<D: Disks>(
    alloc: Global,
    disks: &mut D,
    shape: Shape,
) -> Result<(Decisions, Kept), OpenErr>
    requires known { 1 < (D.view disks.old).count }
    requires settled_a { IsSettled (D.view disks.old) 0 }
    requires settled_b { IsSettled (D.view disks.old) 1 }
    requires parts { IsParts shape.parts }
    ensures ok { IfOk result (λ made. IsOpened (D.view disks.old) (D.view disks.new) shape made.0 made.1) }
    ensures err { IsTrue (D.view disks.old).told → IfErr result (OpenFails shape (coordinator_pair (logs_of (D.view disks.old).bytes))) }
    ensures kept { IsTrue (D.view disks.old).told → ¬ (coordinator_pair (logs_of (D.view disks.old).bytes) ≡ BothBlank) → KeepsAll (D.view disks.old) (D.view disks.new) (open_disk_err result) }
    ensures images_a { coordinator_pair (logs_of (D.view disks.old).bytes) ≡ BothBlank → EachImage (D.view disks.new) 0 (IsFirstImage shape) }
    ensures images_b { coordinator_pair (logs_of (D.view disks.old).bytes) ≡ BothBlank → EachImage (D.view disks.new) 1 IsBlankImage }
    ensures others { KeepsBut IsCoordinatorLog (D.view disks.old) (D.view disks.new) (open_disk_err result) }
    ensures cause { HasCause (D.view disks.old) (D.view disks.new) (open_disk_err result) }
    ensures full { IsTrue (D.view disks.old).told → FullAtFirst (D.view disks.new) (first_payload shape) (open_disk_err result) }
    ensures blank { (dev : ℕ) → result ≡ Err (OpenErr.Full dev) → IsTrue (D.view disks.old).told → coordinator_pair (logs_of (D.view disks.new).bytes) ≡ BothBlank }
{
    match read_pair(alloc, disks)? {
        LogPair::BothBlank => {
            let made = begin(alloc, disks, shape)?;
            Ok((made, nothing_kept(alloc)))
        }
        LogPair::Counts(which, log) => {
            if !is_same_shape(log.shape, shape) {
                return Err(OpenErr::OtherShape {
                    kept: log.shape,
                    asked: shape,
                });
            }
            let (boot, decisions) = (log.said.boot, log.said.decisions);
            if are_spent(boot, decisions) {
                return Err(OpenErr::NumbersSpent { boot, decisions });
            }
            Ok(opened(alloc, which, log)?)
        }
        LogPair::Faulty(which) => Err(OpenErr::NotSalt(which.device())),
    }
}
