ghost use Rattle.salt_disk.specs.Disks.{IsSettled};
ghost use Rattle.std.specs.Prelude.{◌<◌};

use salt_decisions::{OpenErr, open_decisions};
use salt_disk::{Disks, MemDisks};
use salt_place::{PlaceKind, Shape};
use salt_values::Id;
use std::alloc::Global;
use std::test::Fail;

const SHAPE: Shape = Shape {
    parts: 2,
    kind: PlaceKind::Bands,
};

/// A boot, a definition and a decision, behind what was there.
fn fill<D: Disks>(alloc: Global, disks: &mut D) -> Result<u64, OpenErr>
    requires known { 1 < (D.view disks.old).count }
    requires settled_a { IsSettled (D.view disks.old) 0 }
    requires settled_b { IsSettled (D.view disks.old) 1 }
{
    let (mut log, _kept) = open_decisions(alloc, disks, SHAPE)?;
    log.boot(alloc, disks)?;
    log.define(alloc, disks, b"create table t (id int key)")?;
    log.decide(alloc, disks, Id { boot: 1, seq: 1 }, 3, &[0])?;
    Ok(log.last_decision())
}

#[test]
fn numbers_go_on(rt: HostRuntime) -> Result<(), Fail> {
    let alloc = rt.alloc();
    let mut disks = MemDisks::new(alloc, 2, 10_000)?;
    match fill(alloc, &mut disks) {
        Ok(last) => assert_eq!(rt; last, 2),
        Err(_) => assert!(rt; false),
    }
    Ok(())
}
