//! A runtime whose files are in memory, and do as they are told. A file that is opened anew is empty.
use salt_files::TryHold;
use std::alloc::{Allocator, Global};
use std::fs::{Metadata, OpenFile, OpenOptions};
use std::io::{self, Cursor, ErrorKind, Read, Seek, SeekFrom, Write};
use std::rt::Files;

/// What each file is told to do.
#[derive(Clone, Copy)]
pub struct Plan {
    /// How many bytes a read or a write takes at most.
    pub most: usize,
    /// How often each of these is interrupted before it is done.
    pub interruptions: u32,
    /// Whether a file that was read or written can be synced.
    pub can_sync: bool,
    /// Whether it can be held.
    pub can_hold: bool,
}

#[derive(Drop)]
pub struct FakeFiles {
    pub alloc: Global,
    pub plan: Plan,
}

#[derive(Drop)]
pub struct FakeFile {
    bytes: Cursor<Vec<u8>>,
    plan: Plan,
    interrupted: u32,
    is_used: bool,
}

impl FakeFile {
    fn use_once(&mut self) -> io::Result<()> {
        self.is_used = true;
        if self.interrupted >= self.plan.interruptions {
            self.interrupted = 0;
            return Ok(());
        }
        self.interrupted += 1;
        Err(ErrorKind::Interrupted.into())
    }
}

impl Read for FakeFile {
    fn read(&mut self, buf: &mut [u8]) -> io::Result<usize> {
        self.use_once()?;
        let most = self.plan.most.min(buf.len());
        self.bytes.read(&mut buf[..most])
    }
}

impl Write for FakeFile {
    fn write(&mut self, bytes: &[u8]) -> io::Result<usize> {
        self.use_once()?;
        let most = self.plan.most.min(bytes.len());
        self.bytes.write(&bytes[..most])
    }

    fn flush(&mut self) -> io::Result<()> {
        Ok(())
    }
}

impl Seek for FakeFile {
    fn seek(&mut self, to: SeekFrom) -> io::Result<u64> {
        self.bytes.seek(to)
    }
}

fn unsupported<T>() -> io::Result<T> {
    Err(ErrorKind::Unsupported.into())
}

impl OpenFile for FakeFile {
    fn metadata(&self) -> io::Result<Metadata> {
        unsupported()
    }

    fn set_len(&self, _size: u64) -> io::Result<()> {
        unsupported()
    }

    fn sync_all(&self) -> io::Result<()> {
        if self.is_used && !self.plan.can_sync {
            return unsupported();
        }
        Ok(())
    }

    fn sync_data(&self) -> io::Result<()> {
        unsupported()
    }
}

impl TryHold for FakeFile {
    fn try_hold(&self) -> io::Result<()> {
        if self.plan.can_hold {
            Ok(())
        } else {
            unsupported()
        }
    }
}

impl Alloc for FakeFiles {
    type A = Global;

    fn alloc(&self) -> Global {
        self.alloc
    }
}

impl Files for FakeFiles {
    type File = FakeFile;

    type Dir = FakeFile;

    fn open_file(&self, how: &OpenOptions, _path: &str) -> io::Result<FakeFile> {
        how.check()?;
        Ok(FakeFile {
            bytes: Cursor::new(Vec::new(self.alloc)),
            plan: self.plan,
            interrupted: 0,
            is_used: false,
        })
    }

    fn open_dir(&self, _path: &str) -> io::Result<FakeFile> {
        unsupported()
    }

    fn metadata(&self, _path: &str) -> io::Result<Metadata> {
        unsupported()
    }

    fn symlink_metadata(&self, _path: &str) -> io::Result<Metadata> {
        unsupported()
    }

    fn copy(&self, _from: &str, _to: &str) -> io::Result<u64> {
        unsupported()
    }

    fn rename(&self, _from: &str, _to: &str) -> io::Result<()> {
        unsupported()
    }

    fn remove_file(&self, _path: &str) -> io::Result<()> {
        unsupported()
    }

    fn create_dir(&self, _path: &str) -> io::Result<()> {
        unsupported()
    }

    fn remove_dir(&self, _path: &str) -> io::Result<()> {
        unsupported()
    }

    fn remove_dir_all<B: Allocator>(&self, _alloc: B, _path: &str) -> io::Result<()> {
        unsupported()
    }
}
