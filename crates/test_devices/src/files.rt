//! Devices in files that do as they are told.

use crate::fake_files::{FakeFiles, Plan};
use salt_disk::{DiskErr, Disks};
use salt_files::FileDisks;
use std::alloc::{AllocError, Global};

const PLAN: Plan = Plan {
    most: 2,
    interruptions: 16,
    can_sync: true,
    can_hold: true,
};

fn disks_under(alloc: Global, plan: Plan) -> Result<FileDisks<FakeFiles>, AllocError> {
    FileDisks::new(FakeFiles { alloc, plan }, "folder")
}

// A file that is opened anew is empty, so the last read shows that a restart opens it anew.
#[test]
fn bytes_are_read_back(rt: HostRuntime) -> Result<(), AllocError> {
    let mut disks = disks_under(rt.alloc(), PLAN)?;
    assert_eq!(rt; disks.write_at(25, 3, b"abcdefg"), Ok(()));
    assert_eq!(rt; disks.write_at(0, 0, b"z"), Ok(()));
    assert_eq!(rt; disks.sync(25), Ok(()));
    let mut few = [7; 3];
    assert_eq!(rt; disks.read(25, 4, &mut few), Ok(3));
    assert_eq!(rt; few, *b"bcd");
    let mut all = [7; 12];
    assert_eq!(rt; disks.read(25, 2, &mut all), Ok(8));
    assert_eq!(rt; all, *b"\0abcdefg\x07\x07\x07\x07");
    disks.restart();
    assert_eq!(rt; disks.read(25, 4, &mut few), Ok(0));
    Ok(())
}

#[test]
fn nothing_is_read_past_the_end(rt: HostRuntime) -> Result<(), AllocError> {
    let mut disks = disks_under(rt.alloc(), PLAN)?;
    assert_eq!(rt; disks.write_at(2, 0, b"abc"), Ok(()));
    for at in [3, 100, 1 << 40, u64::MAX] {
        assert_eq!(rt; disks.read(2, at, &mut [0; 2]), Ok(0));
    }
    Ok(())
}

// A call that is interrupted 17 times fails, a sync reaches the file, a write that is not taken fails, and so does each call while the folder can't
// be held. Behind each error the file is opened anew.
#[test]
fn calls_that_fail(rt: HostRuntime) -> Result<(), AllocError> {
    let fault = DiskErr::Failed;
    let interrupted = Plan {
        interruptions: 17,
        ..PLAN
    };
    let unstable = Plan {
        can_sync: false,
        ..PLAN
    };
    let unheld = Plan {
        can_hold: false,
        ..PLAN
    };
    for (plan, written, synced, read) in [
        (PLAN, Ok(()), Ok(()), Ok(1)),
        (interrupted, Err(fault), Ok(()), Err(fault)),
        (unstable, Ok(()), Err(fault), Ok(0)),
        (Plan { most: 0, ..PLAN }, Err(fault), Ok(()), Ok(0)),
        (unheld, Err(fault), Err(fault), Err(fault)),
    ] {
        let mut disks = disks_under(rt.alloc(), plan)?;
        assert_eq!(rt; disks.write_at(0, 0, b"a"), written);
        assert_eq!(rt; disks.sync(0), synced);
        assert_eq!(rt; disks.read(0, 0, &mut [0]), read);
    }
    Ok(())
}
