//! Files that one open handle at a time has for itself.
use std::fs::File;
use std::io;

/// An open file that can be held: one handle of it at a time holds it, until that is closed, as it is where its process ends.
pub trait TryHold {
    /// Holds the file; fails where another handle does, and never waits.
    fn try_hold(&self) -> io::Result<()>;
}

impl TryHold for File {
    fn try_hold(&self) -> io::Result<()> {
        self.try_lock()?;
        Ok(())
    }
}
