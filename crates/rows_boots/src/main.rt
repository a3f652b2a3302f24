//! Tells for each write and sync of a boot, and for each image that a stop may leave there, how many boots an opening finds behind it.
#![tactic(auto)]

ghost use Rattle.salt_place.specs.Placement.{IsParts, place_of};
ghost use Rattle.std.specs.Prelude.{◌≡◌, ◌≤◌};

mod boots;

use boots::boots_kept;
use salt_devices::Devices;
use salt_disk::MemDisks;
use salt_place::{PlaceKind, Placement, Shape, place_of};
use salt_storage::OpenErr;
use salt_values::Key;
use std::alloc::Global;
use std::io;

const SHAPE: Shape = Shape {
    parts: 2,
    kind: PlaceKind::Remainder,
};

/// Of a new database on devices in memory.
fn boots_behind(alloc: Global, calls: u64, pick: u8) -> Result<u64, OpenErr>
    requires { pick ≤ 4 }
{
    let place = Placement::new(
        |kind: PlaceKind, key: &Key, parts: u32| -> u32
            requires { IsParts parts }
            ensures { result ≡ place_of kind key.now parts }
        { place_of(kind, key, parts) },
    );
    let mut disks = MemDisks::new(alloc, 8, 1000)?;
    let mut devices = Devices::new(alloc, SHAPE, false);
    boots_kept(&mut devices, &mut disks, &place, calls, pick)
}

fn main(rt: HostRuntime) -> io::Result<()> {
    let alloc = rt.alloc();
    for pick in 0..5 {
        for calls in 1..6 {
            match boots_behind(alloc, calls, pick) {
                Ok(boots) => println!(rt; "image {pick} of call {calls}: {boots}")?,
                Err(e) => println!(rt; "image {pick} of call {calls}: {e:?}")?,
            }
        }
    }
    Ok(())
}
