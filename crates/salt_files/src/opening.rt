//! A folder that is held, and made where it is missing, and the files that are opened in it.
use crate::calls::{FileErr, RETRIES, hold_file, sync_file};
use crate::holding::TryHold;
use std::fs::{self, OpenOptions};
use std::io::{self, ErrorKind};
use std::rt::Files;

/// Holds the folder, which is made where it is missing. A folder has a name: the empty one is none.
pub(crate) fn hold_folder<R: Files + AllocGlobal>(rt: &R, folder: &str) -> Result<R::File, FileErr>
where
    R::File: TryHold,
{
    if folder.is_empty() {
        return Err(FileErr::Failed);
    }
    let held = open_or_make(rt, folder)?;
    hold_file(&held)?;
    Ok(held)
}

/// Opens the file of a device in a folder that is held, and makes it where it is missing. What was left in it without a sync, by
/// this program or another, is stable then, and so is its name.
pub(crate) fn open_device<R: Files + AllocGlobal>(
    rt: &R,
    folder: &str,
    held: &mut R::File,
    dev: u32,
) -> Result<R::File, FileErr> {
    let path = format!(in rt.alloc(); "{folder}/{dev}")?;
    let mut options = OpenOptions::new();
    options.read(true).write(true).create(true);
    let mut file = open_file(rt, &options, path.as_str()).map_err(|_| FileErr::Failed)?;
    sync_file(&mut file)?;
    sync_file(held)?;
    Ok(file)
}

fn open_or_make<R: Files + AllocGlobal>(rt: &R, folder: &str) -> Result<R::File, FileErr> {
    // Behind the slash nothing but a folder is opened; to open a pipe would be to wait.
    let inside = format!(in rt.alloc(); "{folder}/.")?;
    match open_to_read(rt, inside.as_str()) {
        Ok(file) => Ok(file),
        Err(error) if error.kind() == ErrorKind::NotFound => {
            make_folder(rt, folder)?;
            open_to_read(rt, inside.as_str()).map_err(|_| FileErr::Failed)
        }
        Err(_) => Err(FileErr::Failed),
    }
}

fn open_to_read<R: Files>(rt: &R, path: &str) -> io::Result<R::File> {
    let mut options = OpenOptions::new();
    options.read(true);
    open_file(rt, &options, path)
}

/// Opens a file; the last error where that fails.
fn open_file<R: Files>(rt: &R, options: &OpenOptions, path: &str) -> io::Result<R::File> {
    let mut answer = options.open(rt, path);
    for _ in 0..RETRIES {
        match answer {
            Err(error) if error.kind() == ErrorKind::Interrupted => {
                answer = options.open(rt, path);
            }
            other => return other,
        }
    }
    answer
}

/// Makes the folder, in one that is there. Its name is stable then.
fn make_folder<R: Files + AllocGlobal>(rt: &R, folder: &str) -> Result<(), FileErr> {
    let parent = format!(in rt.alloc(); "{folder}/..")?;
    create_folder(rt, folder)?;
    match open_to_read(rt, parent.as_str()) {
        Ok(mut parent) => sync_file(&mut parent),
        Err(_) => Err(FileErr::Failed),
    }
}

fn create_folder<R: Files>(rt: &R, folder: &str) -> Result<(), FileErr> {
    for _ in 0..=RETRIES {
        match fs::create_dir(rt, folder) {
            Ok(()) => return Ok(()),
            Err(error) => {
                if !matches!(error.kind(), ErrorKind::Interrupted) {
                    return Err(FileErr::Failed);
                }
            }
        }
    }
    Err(FileErr::Failed)
}
