//! Disks in memory: what each pick leaves, and which calls stop or fail.

ghost use Rattle.std.specs.Prelude.{◌<◌, ◌≡◌};
ghost use Rattle.salt_disk.specs.MemDisks.{seen};

use salt_disk::{DiskErr, Disks, MemDisks};
use std::test::Fail;

/// Writes to the first device, where it is long enough for that.
fn write(disks: &mut MemDisks, at: u64, bytes: &[u8]) -> Result<(), DiskErr>
    requires { 0 < (seen disks.old).count }
    ensures { (seen disks.new).count ≡ (seen disks.old).count }
{
    if at > disks.bytes(0).len() as u64 {
        return Err(DiskErr::Memory);
    }
    disks.write_at(0, at, bytes)
}

#[test]
fn picks_are_made_by_the_table(rt: HostRuntime) -> Result<(), Fail> {
    let cases: [(u8, &[u8]); 5] = [
        (0, b"abcdefgh"),
        (1, b"aXYZefgPQR"),
        (2, b"aXcdefgP\0\0"),
        (3, b"a\x01\x01\x01efg\x01\x01\x01"),
        (4, b"a\xff\xff\xffefg\xff\xff\xff"),
    ];
    for (pick, want) in cases {
        let mut disks = MemDisks::new(rt.alloc(), 2, 100)?;
        disks.set_bytes(0, b"abcdefgh")?;
        disks.arm(3, pick)?;
        assert_eq!(rt; write(&mut disks, 1, b"XYZ"), Ok(()));
        assert_eq!(rt; write(&mut disks, 7, b"PQR"), Ok(()));
        assert_eq!(rt; disks.sync(1), Err(DiskErr::Stopped));
        assert_eq!(rt; disks.bytes(0), want);
        disks.restart();
        assert_eq!(rt; disks.bytes(0), want);
    }
    Ok(())
}

#[test]
fn writes_go_over_each_other(rt: HostRuntime) -> Result<(), Fail> {
    let cases: [(u8, &[u8]); 5] = [
        (0, b"abcdefgh"),
        (1, b"aXYPQRSTUV"),
        (2, b"aXYPQfgh\0\0"),
        (3, b"a\x01\x01\x01\x01\x01\x01\x01\x01\x01"),
        (4, b"a\xff\xff\xff\xff\xff\xff\xff\xff\xff"),
    ];
    for (pick, want) in cases {
        let mut disks = MemDisks::new(rt.alloc(), 1, 100)?;
        disks.set_bytes(0, b"abcdefgh")?;
        disks.arm(6, pick)?;
        assert_eq!(rt; write(&mut disks, 8, b"pq"), Ok(()));
        assert_eq!(rt; write(&mut disks, 1, b"XYZ"), Ok(()));
        assert_eq!(rt; write(&mut disks, 3, b"PQRSTUV"), Ok(()));
        assert_eq!(rt; write(&mut disks, 5, b""), Ok(()));
        assert_eq!(rt; write(&mut disks, 10, b""), Ok(()));
        assert_eq!(rt; disks.sync(0), Err(DiskErr::Stopped));
        assert_eq!(rt; disks.bytes(0), want);
    }
    Ok(())
}

// A write that is refused for its length is no call.
#[test]
fn writes_are_counted(rt: HostRuntime) -> Result<(), Fail> {
    let mut disks = MemDisks::new(rt.alloc(), 1, 4)?;
    disks.set_bytes(0, b"abcd")?;
    disks.fail_write(2)?;
    disks.fail_write(4)?;
    disks.fail_from(9);
    disks.arm(4, 1)?;
    disks.arm(2, 0)?;
    let wants = [
        Ok(()),
        Err(DiskErr::Failed),
        Ok(()),
        Err(DiskErr::Stopped),
        Ok(()),
        Err(DiskErr::Stopped),
        Ok(()),
        Ok(()),
        Err(DiskErr::Failed),
        Err(DiskErr::Failed),
    ];
    for want in wants {
        assert_eq!(rt; write(&mut disks, 3, b"xy"), Err(DiskErr::Full(0)));
        assert_eq!(rt; write(&mut disks, 0, b"wxyz"), want);
    }
    assert_eq!(rt; disks.bytes(0), b"wxyz".as_slice());
    Ok(())
}

#[test]
fn reads_are_counted(rt: HostRuntime) -> Result<(), Fail> {
    let mut disks = MemDisks::new(rt.alloc(), 1, 8)?;
    disks.set_bytes(0, b"abcde")?;
    disks.fail_read(2)?;
    let mut buf = [7; 3];
    assert_eq!(rt; disks.read(0, 1, &mut buf), Ok(3));
    assert_eq!(rt; disks.read(0, 0, &mut buf), Err(DiskErr::Failed));
    assert_eq!(rt; buf, *b"bcd");
    assert_eq!(rt; disks.read(0, 4, &mut buf), Ok(1));
    assert_eq!(rt; buf, *b"ecd");
    Ok(())
}
