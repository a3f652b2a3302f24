//! Disks in memory that write down each write and each sync.

ghost use Rattle.salt_disk.specs.MemDisks.{AreNew, HasBytes, seen};
ghost use Rattle.std.specs.Prelude.{IfOk, OnErr, OnOk, ◌<◌, ◌≡◌};

use salt_disk::{DiskErr, Disks, MemDisks};
use std::alloc::{AllocError, Global};

const DIGITS: [u8; 16] = *b"0123456789abcdef";

/// Devices in memory, and what was asked of them, a line for each call. Reads are not written down.
#[derive(Drop)]
pub struct Recorder {
    alloc: Global,
    pub disks: MemDisks,
    lines: String,
    // want of memory has left a line out
    is_lost: bool,
}

impl Recorder {
    /// This many empty devices, each of which may reach a length of `limit`.
    pub fn new(alloc: Global, devices: u32, limit: u64) -> Result<Recorder, AllocError>
        ensures { IfOk result (λ made. AreNew (seen made.disks) devices limit) }
    {
        Ok(Recorder {
            alloc,
            disks: MemDisks::new(alloc, devices, limit)?,
            lines: String::new(alloc),
            is_lost: false,
        })
    }

    /// Gives a device these bytes. Without memory nothing changes.
    pub fn set_bytes(&mut self, dev: u32, bytes: &[u8]) -> Result<(), AllocError>
        requires { dev < (seen self.old.disks).count }
        ensures ok { OnOk result (HasBytes (seen self.old.disks) (seen self.new.disks) dev bytes.now) }
        ensures err { OnErr result (self.new.disks ≡ self.old.disks) }
    {
        self.disks.set_bytes(dev, bytes)
    }

    /// The lines so far; `None` where one is left out.
    pub fn lines(&self) -> Option<&str> {
        if self.is_lost {
            return None;
        }
        Some(self.lines.as_str())
    }

    /// Begins the calls of a step, under its name.
    pub fn begin(&mut self, step: &str)
        ensures { self.new.disks ≡ self.old.disks }
    {
        let line = step_line(self.alloc, step);
        self.put(line);
    }

    fn put(&mut self, line: Result<String, AllocError>)
        ensures { self.new.disks ≡ self.old.disks }
    {
        let is_put = match line {
            Ok(line) => self.lines.push_str(line.as_str()).is_ok(),
            Err(_) => false,
        };
        if !is_put {
            self.is_lost = true;
        }
    }
}

fn step_line(alloc: Global, step: &str) -> Result<String, AllocError> {
    format!(in alloc; "{step}\n")
}

fn write_line(alloc: Global, dev: u32, at: u64, bytes: &[u8]) -> Result<String, AllocError> {
    let mut digits = String::new(alloc);
    for byte in bytes {
        digits.push(char::from(DIGITS[(*byte / 16) as usize]))?;
        digits.push(char::from(DIGITS[(*byte % 16) as usize]))?;
    }
    let count = bytes.len();
    format!(in alloc; "  write {count} at {at} of device {dev}: {digits}\n")
}

fn sync_line(alloc: Global, dev: u32) -> Result<String, AllocError> {
    format!(in alloc; "  sync device {dev}\n")
}

impl Disks for Recorder {
    ghost use Rattle.salt_disk.specs.MemDisks.{seen};

    ghost view = { λ r. seen r.disks };

    fn read(&mut self, dev: u32, at: u64, buf: &mut [u8]) -> Result<usize, DiskErr> {
        self.disks.read(dev, at, buf)
    }

    fn write_at(&mut self, dev: u32, at: u64, bytes: &[u8]) -> Result<(), DiskErr> {
        let line = write_line(self.alloc, dev, at, bytes);
        self.put(line);
        self.disks.write_at(dev, at, bytes)
    }

    fn sync(&mut self, dev: u32) -> Result<(), DiskErr> {
        let line = sync_line(self.alloc, dev);
        self.put(line);
        self.disks.sync(dev)
    }

    fn restart(&mut self) {
        self.disks.restart();
    }

    fn is_told(&self) -> bool {
        self.disks.is_told()
    }

    fn can_stop(&self) -> bool {
        self.disks.can_stop()
    }

    fn arm(&mut self, calls: u64, pick: u8) -> Result<(), AllocError> {
        self.disks.arm(calls, pick)
    }

    // No caller can meet what the trait requires, since the bytes are told.
    fn reject(&mut self)
        ensures { self.new ≡ self.old }
    {}
}
