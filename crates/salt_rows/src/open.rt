//! A store is opened on pages that a header names.

ghost use Rattle.salt_bytes.specs.Spellable.{Every};
ghost use Rattle.salt_directory.specs.Listing.{AreNoPages, AreSound, AreUnsound};
ghost use Rattle.salt_disk.specs.Disks.{HasCause, KeepsAll, OnlyFails};
ghost use Rattle.salt_model.specs.Tables.{Tables};
ghost use Rattle.salt_pool.specs.Pools.{IsPool, codec_of, dirty_of, frames_of, length_of};
ghost use Rattle.salt_rows.specs.Errors.{rows_disk_err};
ghost use Rattle.salt_rows.specs.Sides.{sides_up_to};
ghost use Rattle.salt_rows.specs.Stores.{HaveRows, IsRowStore, IsSide, device_of, sides_of};
ghost use Rattle.salt_rows.specs.declared.error.RowsErr.TheVariants.{NotPage, NotRow};
ghost use Rattle.salt_stands.specs.Partition.{page_at};
ghost use Rattle.std.specs.Prelude.{Err, IfOk, IsTrue, None, OnOk, Some, [], length, true, ◌*◌, ◌<◌, ◌^◌, ◌≡◌, ◌≢◌, ◌≤◌};
ghost use Rattle.std.specs.Result.{result_err};

use crate::error::RowsErr;
use crate::store::RowStore;
use salt_directory::{Directory, RowJudge, Space, list_page};
use salt_disk::{DiskErr, Disks};
use salt_gatelog::rejected;
use salt_pages::{Page, read_page};
use salt_pool::{PageSpelling, Pool};
use salt_values::copies;
use std::alloc::{AllocError, Global};

/// How many bytes a page takes.
const PAGE: usize = 8192;

/// How many sides of pages the longest device has.
const MOST_SIDES: u64 = 1 << 51;

/// The page on a side, NULL only where it is spelled.
fn page_on<D: Disks>(
    alloc: Global,
    disks: &mut D,
    dev: u32,
    nulls: bool,
    page: u32,
    side: u8,
) -> Result<Page, RowsErr>
    requires known { dev < (D.view disks.old).count }
    requires side { side ≤ 1 }
    ensures page { IfOk result (λ rows. IsTrue (D.view disks.old).told → page_at nulls ((D.view disks.old).bytes dev) page side ≡ Some rows) }
    ensures not_page { result ≡ Err NotPage → IsTrue (D.view disks.old).told → page_at nulls ((D.view disks.old).bytes dev) page side ≡ None }
    ensures unjudged { result ≢ Err NotRow }
    ensures kept { KeepsAll (D.view disks.old) (D.view disks.new) (rows_disk_err result) }
    ensures cause { HasCause (D.view disks.old) (D.view disks.new) (rows_disk_err result) }
    ensures answers { OnlyFails (rows_disk_err result) }
{
    let mut bytes = [0; PAGE];
    let at = (2 * u64::from(page) + u64::from(side)) * 8192;
    let n = disks.read(dev, at, &mut bytes)?;
    if n < PAGE {
        return Err(RowsErr::NotPage);
    }
    match read_page(alloc, nulls, &bytes)? {
        Some(read) => Ok(read),
        None => Err(RowsErr::NotPage),
    }
}

/// How long the device is, from this side on, which ends at most there: a page's bytes are read, one after another.
fn length_from<D: Disks>(disks: &mut D, dev: u32, sides: u64) -> Result<u64, DiskErr>
    requires known { dev < (D.view disks.old).count }
    requires within { sides ≤ 2 ^ 33 }
    requires end { IsTrue (D.view disks.old).told → sides * 8192 ≤ length ((D.view disks.old).bytes dev) }
    ensures length { IfOk result (λ n. IsTrue (D.view disks.old).told → n ≡ length ((D.view disks.old).bytes dev)) }
    ensures least { IfOk result (λ n. sides * 8192 ≤ n) }
    ensures kept { KeepsAll (D.view disks.old) (D.view disks.new) (result_err result) }
    ensures cause { HasCause (D.view disks.old) (D.view disks.new) (result_err result) }
    ensures answers { OnlyFails (result_err result) }
{
    let mut bytes = [0; PAGE];
    for side in sides..MOST_SIDES {
        let n = disks.read(dev, side * 8192, &mut bytes)?;
        if n < PAGE {
            return Ok(side * 8192 + n as u64);
        }
    }
    // no device is that long
    Err(rejected(disks))
}

/// How many sides there are up to that of the last page.
fn sides_up_to(sides: &[u8]) -> u64
    requires { length sides.now < 2 ^ 32 }
    ensures { result ≡ sides_up_to sides.now }
{
    match sides.len() {
        0 => 0,
        count => 2 * (count as u64 - 1) + u64::from(sides[count - 1]) + 1,
    }
}

/// A store of pages that stand on these sides, of which none is in memory.
fn store_on(
    alloc: Global,
    dev: u32,
    len: u64,
    sides: &[u8],
    directory: Directory,
    space: Space,
) -> Result<RowStore, AllocError>
    ensures frames { IfOk result (λ x. (frames_of x.pool ≡ []) × (dirty_of x.pool ≡ [])) }
    ensures device { IfOk result (λ x. (codec_of x.pool ≡ record { nulls = true }) × (device_of x ≡ dev) × (length_of x.pool ≡ len)) }
    ensures pool { IfOk result (λ x. IsPool x.pool) }
    ensures rows { IfOk result (λ x. (x.named ≡ sides.now) × (x.sides.items ≡ sides.now) × (x.directory ≡ directory) × (x.space ≡ space)) }
{
    let pool = Pool::new(alloc, PageSpelling { nulls: true }, dev, len)?;
    Ok(RowStore {
        alloc,
        pool,
        named: copies(alloc, sides)?,
        sides: Vec::from_slice(alloc, sides)?,
        directory,
        space,
    })
}

/// Opens the rows that stand on these sides of a device's pages, as a header names them; NULL is read only where it is spelled. The judge
/// is asked of each row, and nothing is written. `NotPage` only where one of these sides spells no page, or two rows stand at one place;
/// `NotRow` only where one of them spells no page, or has a row that is not sound.
pub fn open_rows<D: Disks, J: RowJudge>(
    alloc: Global,
    disks: &mut D,
    dev: u32,
    nulls: bool,
    sides: &[u8],
    judge: &J,
) -> Result<RowStore, RowsErr>
    requires known { dev < (D.view disks.old).count }
    requires sides { Every IsSide sides.now }
    requires few { length sides.now < 2 ^ 32 }
    requires judge { J.can_judge judge.now }
    ensures opened { IfOk result (λ x. (t : Tables) × IsRowStore (D.view disks.new) x dev sides.now t × (IsTrue (D.view disks.old).told → HaveRows nulls ((D.view disks.old).bytes dev) sides.now t)) }
    ensures sides { IfOk result (λ x. sides_of x ≡ sides.now) }
    ensures judged { OnOk result (IsTrue (D.view disks.old).told → AreSound (J.sound judge.now) nulls ((D.view disks.old).bytes dev) sides.now) }
    ensures not_page { result ≡ Err NotPage → IsTrue (D.view disks.old).told → AreNoPages nulls ((D.view disks.old).bytes dev) sides.now }
    ensures not_row { result ≡ Err NotRow → IsTrue (D.view disks.old).told → AreUnsound (J.sound judge.now) nulls ((D.view disks.old).bytes dev) sides.now }
    ensures kept { KeepsAll (D.view disks.old) (D.view disks.new) (rows_disk_err result) }
    ensures cause { HasCause (D.view disks.old) (D.view disks.new) (rows_disk_err result) }
    ensures answers { OnlyFails (rows_disk_err result) }
{
    let mut directory = Directory::new(alloc);
    let mut space = Space::new(alloc);
    for number in 0..sides.len() {
        let page = page_on(alloc, disks, dev, nulls, number as u32, sides[number])?;
        list_page(alloc, &mut directory, number as u32, &page, judge)?;
        space.push(page.free() as u16)?;
    }
    let len = length_from(disks, dev, sides_up_to(sides))?;
    Ok(store_on(alloc, dev, len, sides, directory, space)?)
}
