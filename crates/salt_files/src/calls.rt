//! Calls on an open file. One that is interrupted is tried again up to 16 times, and then has failed, as with every other error.
ghost use Rattle.std.specs.Prelude.{◌≡◌, ◌<◌, IfOk, OnOk, length, take};
ghost use Rattle.std.specs.Io.{ReadsAtMost, WritesAtMost};
ghost use Rattle.std.specs.Io.KnownBytes.{Appends, Consumes, IsAtEnd};
ghost use Rattle.std.specs.Io.Seek.{MovesTo};
ghost use Rattle.salt_files.specs.declared.calls.FileErr.TheVariants.{Memory};

use crate::holding::TryHold;
use std::alloc::AllocError;
use std::fs::OpenFile;
use std::io::{self, ErrorKind, Read, Seek, SeekFrom, Write};

/// How often a call that was interrupted is tried again.
pub(crate) const RETRIES: u32 = 16;

/// Why a file has not done what it was asked to.
#[derive(Clone, Copy, Debug, PartialEq, Eq)]
pub(crate) enum FileErr {
    /// A call of the system failed.
    Failed,
    /// No memory was left, and nothing has changed.
    Memory,
}

impl From<AllocError> for FileErr {
    ghost from_gives = { λ _ e. e ≡ Memory };

    fn from(_: AllocError) -> Self {
        FileErr::Memory
    }
}

fn read_some<F: Read>(file: &mut F, buf: &mut [u8]) -> Result<usize, FileErr>
    ensures bound { ReadsAtMost result buf.new }
    ensures bytes { IfOk result (λ n. Consumes (F.remaining file.old) (F.remaining file.new) (take n buf.new)) }
    ensures end { IfOk result (λ n. n ≡ 0 → 0 < length buf.new → IsAtEnd (F.remaining file.new)) }
{
    for _ in 0..=RETRIES {
        match file.read(buf) {
            Ok(n) => return Ok(n),
            Err(error) => {
                if !matches!(error.kind(), ErrorKind::Interrupted) {
                    return Err(FileErr::Failed);
                }
            }
        }
    }
    Err(FileErr::Failed)
}

/// Puts the next bytes at the start of `buf`, and gives how many: fewer than `buf` holds only at the end.
pub(crate) fn read_full<F: Read>(file: &mut F, buf: &mut [u8]) -> Result<usize, FileErr>
    ensures bound { ReadsAtMost result buf.new }
    ensures bytes { IfOk result (λ n. Consumes (F.remaining file.old) (F.remaining file.new) (take n buf.new)) }
    ensures end { IfOk result (λ n. n < length buf.new → IsAtEnd (F.remaining file.new)) }
{
    let mut count = 0;
    while count < buf.len() {
        let n = read_some(file, &mut buf[count..])?;
        if n == 0 {
            return Ok(count);
        }
        count += n;
    }
    Ok(count)
}

fn write_some<F: Write>(file: &mut F, bytes: &[u8]) -> Result<usize, FileErr>
    ensures bound { WritesAtMost result bytes.now }
    ensures some { IfOk result (λ n. 0 < length bytes.now → 0 < n) }
    ensures bytes { IfOk result (λ n. Appends (F.contents file.old) (F.contents file.new) (take n bytes.now)) }
{
    for _ in 0..=RETRIES {
        match file.write(bytes) {
            Ok(n) => {
                return if n > 0 || bytes.is_empty() {
                    Ok(n)
                } else {
                    Err(FileErr::Failed)
                };
            }
            Err(error) => {
                if !matches!(error.kind(), ErrorKind::Interrupted) {
                    return Err(FileErr::Failed);
                }
            }
        }
    }
    Err(FileErr::Failed)
}

/// Writes all of the bytes, in as many writes as it takes.
pub(crate) fn write_whole<F: Write>(file: &mut F, bytes: &[u8]) -> Result<(), FileErr>
    ensures { OnOk result (Appends (F.contents file.old) (F.contents file.new) bytes.now) }
{
    let mut done = 0;
    while done < bytes.len() {
        done += write_some(file, &bytes[done..])?;
    }
    Ok(())
}

/// The next read or write is at this place.
pub(crate) fn seek_to<F: Seek>(file: &mut F, at: u64) -> Result<(), FileErr>
    ensures { MovesTo (F.stream_position file.old) (F.stream_position file.new) at result }
{
    for _ in 0..=RETRIES {
        match file.seek(SeekFrom::Start(at)) {
            Ok(_) => return Ok(()),
            Err(error) => {
                if !matches!(error.kind(), ErrorKind::Interrupted) {
                    return Err(FileErr::Failed);
                }
            }
        }
    }
    Err(FileErr::Failed)
}

fn flush_and_sync<F: Write + OpenFile>(file: &mut F) -> io::Result<()> {
    file.flush()?;
    file.sync_all()
}

/// Makes what was written stable, and the length.
pub(crate) fn sync_file<F: Write + OpenFile>(file: &mut F) -> Result<(), FileErr> {
    for _ in 0..=RETRIES {
        match flush_and_sync(file) {
            Ok(()) => return Ok(()),
            Err(error) => {
                if !matches!(error.kind(), ErrorKind::Interrupted) {
                    return Err(FileErr::Failed);
                }
            }
        }
    }
    Err(FileErr::Failed)
}

/// Holds a file, where no other handle does.
pub(crate) fn hold_file<F: TryHold>(file: &F) -> Result<(), FileErr> {
    for _ in 0..=RETRIES {
        match file.try_hold() {
            Ok(()) => return Ok(()),
            Err(error) => {
                if !matches!(error.kind(), ErrorKind::Interrupted) {
                    return Err(FileErr::Failed);
                }
            }
        }
    }
    Err(FileErr::Failed)
}
