//! The verdict on the transcript that a source gives.

ghost use Rattle.salt_io.specs.Streams.{Rose};
ghost use Rattle.salt_audit.specs.Transcripts.{IsVerdict};
ghost use Rattle.salt_audit.specs.declared.verdict.Verdict.{Verdict};
ghost use Rattle.salt_transcript.specs.declared.source.AuditErr.TheVariants.{Memory, ReadFault};
ghost use Rattle.salt_cont.specs.Catalogues.{AllLeadOn};
ghost use Rattle.salt_transcript.specs.Reading.{HasCome};
ghost use Rattle.salt_transcript.specs.Stopping.{IsTooLong};
ghost use Rattle.std.specs.Prelude.{Err, IfOk, IfSome, OnOk, [], ◌≡◌, ◌≢◌, ◌≤◌};

use crate::pieces::Pieces;
use salt_audit::{Verdict, one_verdict};
use salt_eval::ViewErr;
use salt_io::{IoFailed, Source};
use std::alloc::{AllocError, Global};

/// How many bytes a transcript may have: 64 MiB.
pub const TRANSCRIPT_MOST: usize = 67_108_864;

/// Why there is no verdict.
#[derive(Clone, Copy, Debug, PartialEq, Eq)]
pub enum AuditErr {
    /// The source failed.
    ReadFault,
    /// The transcript has more than 67,108,864 bytes.
    TooLong,
    /// No memory was left.
    Memory,
}

impl From<IoFailed> for AuditErr {
    ghost from_gives = { λ _ e. e ≡ ReadFault };

    fn from(_: IoFailed) -> Self {
        AuditErr::ReadFault
    }
}

impl From<AllocError> for AuditErr {
    ghost from_gives = { λ _ e. e ≡ Memory };

    fn from(_: AllocError) -> Self {
        AuditErr::Memory
    }
}

impl From<ViewErr> for AuditErr {
    ghost from_gives = { λ _ e. e ≡ Memory };

    fn from(_: ViewErr) -> Self {
        AuditErr::Memory
    }
}

/// Reads on where nothing came yet, up to the verdict.
fn read_on<S: Source>(
    alloc: Global,
    source: &mut S,
    pieces: &mut Pieces,
) -> Result<Verdict, AuditErr>
    requires come { HasCome pieces.old [] }
    requires leads { AllLeadOn pieces.old.reader.judge.ledger.state.catalogue }
    ensures verdict { IfOk result (λ verdict. IfSome (S.left source.old) (λ bytes. IsVerdict bytes verdict)) }
    ensures only { IfOk result (λ verdict. IfSome (S.left source.old) (λ bytes. (other : Verdict) → IsVerdict bytes other → other ≡ verdict)) }
    ensures within { OnOk result (IfSome (S.left source.old) (λ bytes. IsTooLong bytes → ⊥)) }
    ensures long { result ≡ Err AuditErr.TooLong → IfSome (S.left source.old) IsTooLong }
    ensures fault { result ≡ Err AuditErr.ReadFault → Rose (S.faults source.old) (S.faults source.new) }
    ensures no_fault { result ≢ Err AuditErr.ReadFault → S.faults source.new ≡ S.faults source.old }
    ensures later { S.faults source.old ≤ S.faults source.new }
{
    one_verdict();
    let mut room = TRANSCRIPT_MOST;
    let mut buffer = [0u8; 4096];
    'reads: loop {
        let count = source.read(&mut buffer)?;
        if count == 0 {
            return Ok(pieces.ended()?);
        }
        let within = count.min(room);
        if let Some(verdict) = pieces.next(alloc, &buffer[..within])? {
            return Ok(verdict);
        }
        if within < count {
            return Err(AuditErr::TooLong);
        }
        room -= count;
    }
}

/// The verdict on the transcript that a source gives. It is found as the lines come, and the first ends the reading. It is `ReadFault` exactly where the source failed,
/// and `TooLong` where no verdict is found within the most bytes that a transcript may have, and more come.
pub fn audit<S: Source>(alloc: Global, source: &mut S) -> Result<Verdict, AuditErr>
    ensures verdict { IfOk result (λ verdict. IfSome (S.left source.old) (λ bytes. IsVerdict bytes verdict)) }
    ensures only { IfOk result (λ verdict. IfSome (S.left source.old) (λ bytes. (other : Verdict) → IsVerdict bytes other → other ≡ verdict)) }
    ensures within { OnOk result (IfSome (S.left source.old) (λ bytes. IsTooLong bytes → ⊥)) }
    ensures long { result ≡ Err AuditErr.TooLong → IfSome (S.left source.old) IsTooLong }
    ensures fault { result ≡ Err AuditErr.ReadFault → Rose (S.faults source.old) (S.faults source.new) }
    ensures no_fault { result ≢ Err AuditErr.ReadFault → S.faults source.new ≡ S.faults source.old }
    ensures later { S.faults source.old ≤ S.faults source.new }
{
    let mut pieces = Pieces::new(alloc);
    read_on(alloc, source, &mut pieces)
}
