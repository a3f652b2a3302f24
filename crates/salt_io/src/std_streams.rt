//! Sources and sinks over std's readers and writers.
ghost use Rattle.std.specs.Prelude.{◌≡◌, ◌<◌, ◌≤◌, length, IfSome, None};

use crate::{IoFailed, Sink, Source};
use std::io::{ErrorKind, Read, Write};
use std::marker::Model;

/// How often a call that was interrupted is tried again.
const RETRIES: u32 = 16;

/// A source of the bytes of a reader. It does not tell them.
///
/// A read that is interrupted is tried again up to 16 times, and then counts as a fault, as every
/// other error does.
#[derive(Drop)]
pub struct StdSource<R> {
    reader: R,
    faults: u64,
}

// Contracts see the count of faults.
impl<R> Model for StdSource<R> {
    ghost use Rattle.std.specs.Prelude.{ℕ};

    ghost Value = { ℕ };

    ghost view = { λ source. source.faults };
}

impl<R: Read> StdSource<R> {
    /// A source over this reader, with no fault.
    pub fn new(reader: R) -> Self
        ensures { result ≡ 0 }
    {
        StdSource { reader, faults: 0 }
    }
}

impl<R: Read> Source for StdSource<R> {
    ghost left = { λ _. None };

    ghost faults = { λ faults. faults };

    fn read(&mut self, buf: &mut [u8]) -> Result<usize, IoFailed> {
        if let Some(n) = read_some(&mut self.reader, buf) {
            return Ok(n);
        }
        self.faults = self.faults.saturating_add(1);
        Err(IoFailed)
    }
}

/// A sink of bytes into a writer, which is flushed after each write. It does not tell them.
///
/// A call that is interrupted is tried again up to 16 times, and then counts as a fault, as every
/// other error does, and a writer that takes nothing.
#[derive(Drop)]
pub struct StdSink<W> {
    writer: W,
    faults: u64,
}

// Contracts see the count of faults.
impl<W> Model for StdSink<W> {
    ghost use Rattle.std.specs.Prelude.{ℕ};

    ghost Value = { ℕ };

    ghost view = { λ sink. sink.faults };
}

impl<W: Write> StdSink<W> {
    /// A sink over this writer, with no fault.
    pub fn new(writer: W) -> Self
        ensures { result ≡ 0 }
    {
        StdSink { writer, faults: 0 }
    }
}

impl<W: Write> Sink for StdSink<W> {
    ghost held = { λ _. None };

    ghost faults = { λ faults. faults };

    fn write(&mut self, bytes: &[u8]) -> Result<usize, IoFailed> {
        if let Some(n) = write_some(&mut self.writer, bytes) {
            if flush(&mut self.writer) {
                return Ok(n);
            }
        }
        self.faults = self.faults.saturating_add(1);
        Err(IoFailed)
    }
}

/// Reads once, over interruptions; `None` where the read fails.
fn read_some<R: Read>(reader: &mut R, buf: &mut [u8]) -> Option<usize>
    ensures { IfSome result (λ n. n ≤ length buf.new) }
{
    for _ in 0..=RETRIES {
        match reader.read(buf) {
            Ok(n) => return Some(n),
            Err(error) => {
                if !matches!(error.kind(), ErrorKind::Interrupted) {
                    return None;
                }
            }
        }
    }
    None
}

/// Writes once, over interruptions; `None` where the write fails, or takes none of the bytes.
fn write_some<W: Write>(writer: &mut W, bytes: &[u8]) -> Option<usize>
    ensures within { IfSome result (λ n. n ≤ length bytes.now) }
    ensures some { IfSome result (λ n. 0 < length bytes.now → 0 < n) }
{
    for _ in 0..=RETRIES {
        match writer.write(bytes) {
            Ok(n) => {
                return if n > 0 || bytes.is_empty() {
                    Some(n)
                } else {
                    None
                };
            }
            Err(error) => {
                if !matches!(error.kind(), ErrorKind::Interrupted) {
                    return None;
                }
            }
        }
    }
    None
}

/// Flushes, over interruptions, and gives whether the flush succeeded.
fn flush<W: Write>(writer: &mut W) -> bool {
    for _ in 0..=RETRIES {
        match writer.flush() {
            Ok(()) => return true,
            Err(error) => {
                if !matches!(error.kind(), ErrorKind::Interrupted) {
                    return false;
                }
            }
        }
    }
    false
}
