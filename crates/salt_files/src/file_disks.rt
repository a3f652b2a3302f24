//! Devices that are the files of a folder.
ghost use Rattle.std.specs.Prelude.{◌≡◌, ◌<◌, ◌≤◌, IfOk, OnOk, length};
ghost use Rattle.std.specs.Result.{result_err};
ghost use Rattle.salt_disk.specs.Disks.{HasCause, OnlyFails};
ghost use Rattle.salt_files.specs.FileDisks.{untold};

use crate::calls::{FileErr, read_full, seek_to, sync_file, write_whole};
use crate::holding::TryHold;
use crate::opening::{hold_folder, open_device};
use salt_disk::{DiskErr, Disks};
use std::alloc::AllocError;
use std::marker::Model;
use std::rt::Files;

/// How many devices there are.
const DEVICES: usize = 26;

/// The length that each device may reach.
const LIMIT: u64 = 1 << 40;

/// 26 devices, each of them the file in a folder whose name is the device's number. They tell nothing of their bytes, and can't
/// be stopped.
///
/// A file is opened, and made where it is missing, when its device is first used; each device has at most one file open. Before the
/// first of them the folder is made where it is missing, and held for as long as the disks live, restarts included: while other
/// disks hold it, each call that would use a file fails, and has opened, read, written and made none. A call that is interrupted is
/// tried again up to 16 times, and then counts as a fault, as every other error does. What a file has past the limit is not the
/// device's.
#[derive(Drop)]
pub struct FileDisks<R: Files + AllocGlobal + Drop> {
    rt: R,
    folder: String,
    files: Vec<Option<R::File>>,
    held: Option<R::File>,
    faults: u64,
}

// Contracts see the folder's name and the count of faults.
impl<R: Files + AllocGlobal + Drop> Model for FileDisks<R> {
    ghost use Rattle.std.specs.Prelude.{◌≡◌, length, string_bytes};
    ghost use Rattle.salt_files.specs.FileDisks.{Folder};

    ghost Value = { Folder };

    ghost view = { λ disks. record { name = string_bytes disks.folder; faults = disks.faults } };

    ghost invariant = { λ disks. length disks.files.items ≡ 26 };
}

impl<R: Files + AllocGlobal + Drop> FileDisks<R>
where
    R::File: TryHold,
{
    /// The files of this folder, with no fault and none opened yet.
    pub fn new(rt: R, folder: &str) -> Result<FileDisks<R>, AllocError>
        ensures { IfOk result (λ disks. disks ≡ record { name = folder.now; faults = 0 }) }
    {
        let folder = folder.to_string(rt.alloc())?;
        let mut files = Vec::new(rt.alloc());
        for _device in 0..DEVICES {
            files.push(None)?;
        }
        Ok(FileDisks {
            rt,
            folder,
            files,
            held: None,
            faults: 0,
        })
    }

    /// The device's file, which is not kept open but here. After an error it is opened anew at its next use.
    fn take_file(&mut self, dev: u32) -> Result<R::File, FileErr>
        requires { dev < 26 }
        ensures { self.new ≡ self.old }
    {
        match self.files[dev as usize].take() {
            Some(file) => Ok(file),
            None => self.open_held(dev),
        }
    }

    /// Opens the device's file, in the folder that is held from here on.
    fn open_held(&mut self, dev: u32) -> Result<R::File, FileErr>
        ensures { self.new ≡ self.old }
    {
        let mut held = match self.held.take() {
            Some(held) => held,
            None => hold_folder(&self.rt, self.folder.as_str())?,
        };
        let answer = open_device(&self.rt, self.folder.as_str(), &mut held, dev);
        self.held = Some(held);
        answer
    }

    fn read_device(&mut self, dev: u32, at: u64, buf: &mut [u8]) -> Result<usize, FileErr>
        requires { dev < 26 }
        ensures within { IfOk result (λ n. n ≤ length buf.old) }
        ensures kept { self.new ≡ self.old }
    {
        let most = LIMIT.saturating_sub(at).min(buf.len() as u64) as usize;
        let mut file = self.take_file(dev)?;
        let mut count = 0;
        if most > 0 {
            seek_to(&mut file, at)?;
            count = read_full(&mut file, &mut buf[..most])?;
        }
        self.files[dev as usize] = Some(file);
        Ok(count)
    }

    fn write_device(&mut self, dev: u32, at: u64, bytes: &[u8]) -> Result<(), FileErr>
        requires { dev < 26 }
        ensures kept { self.new ≡ self.old }
    {
        let mut file = self.take_file(dev)?;
        seek_to(&mut file, at)?;
        write_whole(&mut file, bytes)?;
        self.files[dev as usize] = Some(file);
        Ok(())
    }

    fn sync_device(&mut self, dev: u32) -> Result<(), FileErr>
        requires { dev < 26 }
        ensures kept { self.new ≡ self.old }
    {
        let mut file = self.take_file(dev)?;
        sync_file(&mut file)?;
        self.files[dev as usize] = Some(file);
        Ok(())
    }

    /// Counts a fault where a call has failed.
    fn counted<T>(&mut self, answer: Result<T, FileErr>) -> Result<T, DiskErr>
        ensures same { IfOk result (λ value. answer ≡ Ok value) }
        ensures cause { HasCause (untold self.old) (untold self.new) (result_err result) }
        ensures answers { OnlyFails (result_err result) }
    {
        match answer {
            Ok(value) => Ok(value),
            Err(FileErr::Failed) => {
                self.faults = self.faults.saturating_add(1);
                Err(DiskErr::Failed)
            }
            Err(FileErr::Memory) => Err(DiskErr::Memory),
        }
    }
}

impl<R: Files + AllocGlobal + Drop> Disks for FileDisks<R>
where
    R::File: TryHold,
{
    ghost use Rattle.salt_files.specs.FileDisks.{untold};

    ghost view = { untold };

    fn read(&mut self, dev: u32, at: u64, buf: &mut [u8]) -> Result<usize, DiskErr> {
        let answer = self.read_device(dev, at, buf);
        self.counted(answer)
    }

    fn write_at(&mut self, dev: u32, at: u64, bytes: &[u8]) -> Result<(), DiskErr> {
        if at > LIMIT || bytes.len() as u64 > LIMIT - at {
            return Err(DiskErr::Full(dev));
        }
        let answer = self.write_device(dev, at, bytes);
        self.counted(answer)
    }

    fn sync(&mut self, dev: u32) -> Result<(), DiskErr> {
        let answer = self.sync_device(dev);
        self.counted(answer)
    }

    fn restart(&mut self) {
        for file in self.files.iter_mut() {
            *file = None;
        }
    }

    fn is_told(&self) -> bool {
        false
    }

    fn can_stop(&self) -> bool {
        false
    }

    // No caller can meet what the trait requires, since no stop can be armed.
    fn arm(&mut self, _calls: u64, _pick: u8) -> Result<(), AllocError>
        ensures { self.new ≡ self.old }
    {
        Ok(())
    }

    fn reject(&mut self) {
        self.faults = self.faults.saturating_add(1);
    }
}
