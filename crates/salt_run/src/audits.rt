//! The word `audit`: a transcript is judged, and no database is opened.

ghost use Rattle.salt_audit.specs.declared.verdict.Verdict.{Verdict};
ghost use Rattle.salt_promise.specs.Given.{stream};
ghost use Rattle.salt_run.specs.Auditing.{AuditsTranscript, IsVerdictTold, line_telling, status_telling};
ghost use Rattle.std.specs.Prelude.{IfOk, ◌≡◌};

use salt_audit::Verdict;
use salt_io::{Sink, Source, write_whole};
use salt_promise::Status;
use salt_transcript::{AuditErr, audit, print_verdict};
use std::alloc::{AllocError, Global};

/// The line that tells a verdict.
fn line_telling(alloc: Global, verdict: Verdict) -> Result<Vec<u8>, AllocError>
    ensures { IfOk result (λ line. line.items ≡ line_telling verdict) }
{
    let mut line = Vec::new(alloc);
    print_verdict(&mut line, verdict)?;
    line.push(b'\n')?;
    Ok(line)
}

fn status_telling(verdict: Verdict) -> Status
    ensures { result ≡ status_telling verdict }
{
    match verdict {
        Verdict::Yes { .. } => Status::Done,
        Verdict::Broken { .. } => Status::Broken,
        Verdict::NotText { .. } => Status::Unread,
        Verdict::Unformed { .. } => Status::Unread,
    }
}

/// Writes the line of a verdict.
fn tell<K: Sink>(alloc: Global, sink: &mut K, verdict: Verdict) -> Status
    ensures { IsVerdictTold verdict result (stream (K.held sink.old) (K.faults sink.old)) (stream (K.held sink.new) (K.faults sink.new)) }
{
    let Ok(line) = line_telling(alloc, verdict) else {
        return Status::Memory;
    };
    match write_whole(sink, line.as_slice()) {
        Ok(()) => status_telling(verdict),
        Err(_) => Status::WriteFault,
    }
}

/// Judges the transcript of the source, and writes the verdict's line to the sink.
pub fn run_audit<S: Source, K: Sink>(alloc: Global, source: &mut S, sink: &mut K) -> Status
    ensures { AuditsTranscript result (stream (S.left source.old) (S.faults source.old)) (stream (S.left source.new) (S.faults source.new))
        (stream (K.held sink.old) (K.faults sink.old)) (stream (K.held sink.new) (K.faults sink.new)) }
{
    match audit(alloc, source) {
        Ok(verdict) => tell(alloc, sink, verdict),
        Err(AuditErr::Memory) => Status::Memory,
        Err(AuditErr::ReadFault) => Status::ReadFault,
        Err(AuditErr::TooLong) => Status::TranscriptTooLong,
    }
}
