//! A page is read from its side.

ghost use Rattle.salt_checkpoint.specs.Sides.{side_bytes};
ghost use Rattle.salt_disk.specs.Disks.{HasCause, KeepsAll, OnlyFails};
ghost use Rattle.salt_pool.specs.Errors.{HasPage, SpellsNone, pool_disk_err};
ghost use Rattle.salt_pool.specs.declared.error.PoolErr.TheVariants.{NotPage, PoolFull};
ghost use Rattle.std.specs.Prelude.{Err, IfOk, IsTrue, ◌<◌, ◌≡◌, ◌≢◌, ◌≤◌};

use crate::codec::PageCodec;
use crate::error::PoolErr;
use crate::flush::PAGE;
use salt_disk::Disks;
use std::alloc::Global;

/// The page on a side.
pub fn page_on<P: Drop, C: PageCodec<P>, D: Disks>(
    alloc: Global,
    disks: &mut D,
    codec: &C,
    dev: u32,
    page: u32,
    side: u8,
) -> Result<P, PoolErr>
    requires known { dev < (D.view disks.old).count }
    requires side { side ≤ 1 }
    ensures page { IfOk result (λ p. IsTrue (D.view disks.old).told → HasPage (C.page_in codec.now) (side_bytes ((D.view disks.old).bytes dev) page side) p) }
    ensures not_page { result ≡ Err NotPage → IsTrue (D.view disks.old).told → SpellsNone (C.page_in codec.now) (side_bytes ((D.view disks.old).bytes dev) page side) }
    ensures room { result ≢ Err PoolFull }
    ensures kept { KeepsAll (D.view disks.old) (D.view disks.new) (pool_disk_err result) }
    ensures cause { HasCause (D.view disks.old) (D.view disks.new) (pool_disk_err result) }
    ensures answers { OnlyFails (pool_disk_err result) }
{
    let mut bytes = [0; PAGE];
    let at = (2 * u64::from(page) + u64::from(side)) * 8192;
    let n = disks.read(dev, at, &mut bytes)?;
    if n < PAGE {
        return Err(PoolErr::NotPage);
    }
    match codec.read(alloc, &bytes)? {
        Some(read) => Ok(read),
        None => Err(PoolErr::NotPage),
    }
}
