//! Dirty pages are written.

ghost use Rattle.salt_bytes.specs.Page.{page_length};
ghost use Rattle.salt_checkpoint.specs.Sides.{all_written, side_bytes};
ghost use Rattle.salt_disk.specs.Disks.{FullExactly, FullOnly, HasCause, IfNothingDone, IsUnchanged, KeepsOthers, Tears, UnlessDown};
ghost use Rattle.salt_pool.specs.Dirtied.{AreSides, IsRisingFrom};
ghost use Rattle.salt_pool.specs.Flushing.{AreFramed, AreNear, AreOnSides, AreSpelledBack, IsLeftBy, IsSpelledBack, KeepsSides};
ghost use Rattle.salt_pool.specs.Flushing.{bytes_in, end_of, length_behind, length_with, place_of, writes_of, writes_one, zeros_before};
ghost use Rattle.std.specs.Map.{lookup};
ghost use Rattle.std.specs.Prelude.{IsTrue, OnOk, [], ◌∷◌, is_some, length, max, nat_eq, true, ℕ, ◌+◌, ◌<◌, ◌≡◌, ◌≤◌};
ghost use Rattle.std.specs.Result.{result_err};

use crate::codec::PageCodec;
use crate::places::Dirty;
use lru::LruCache;
use salt_disk::{DiskErr, Disks};

/// How many bytes a page takes.
pub const PAGE: usize = 8192;

/// The place of a side of a page.
pub fn place_of(d: Dirty) -> u64
    requires { d.side ≤ 1 }
    ensures { result ≡ place_of d }
{
    (2 * u64::from(d.page) + u64::from(d.side)) * 8192
}

/// How long a device of this length is with the page on its side.
fn length_with(len: u64, d: Dirty) -> u64
    requires { d.side ≤ 1 }
    ensures { result ≡ length_with len d }
{
    len.max(place_of(d) + 8192)
}

/// One write.
fn put<D: Disks>(disks: &mut D, dev: u32, at: u64, bytes: &[u8]) -> Result<(), DiskErr>
    requires known { dev < (D.view disks.old).count }
    requires place { IsTrue (D.view disks.old).told → at ≤ length ((D.view disks.old).bytes dev) }
    ensures bytes { OnOk result (IsTrue (D.view disks.old).told → (D.view disks.new).bytes dev ≡ all_written (record { at = at; bytes = bytes.now } ∷ []) ((D.view disks.old).bytes dev)) }
    ensures nothing { IfNothingDone (result_err result) (IsUnchanged (D.view disks.old) (D.view disks.new) dev) }
    ensures images { Tears (D.view disks.old) (D.view disks.new) dev at (length bytes.now) }
    ensures others { KeepsOthers dev (D.view disks.old) (D.view disks.new) (result_err result) }
    ensures cause { HasCause (D.view disks.old) (D.view disks.new) (result_err result) }
    ensures full { FullExactly dev ((D.view disks.old).limit dev) (at + length bytes.now) (result_err result) }
{
    disks.write_at(dev, at, bytes)
}

/// Zeros from the device's end up to a place, where it ends below; at most one page of them.
fn zeros_up_to<D: Disks>(disks: &mut D, dev: u32, len: &mut u64, at: u64) -> Result<(), DiskErr>
    requires known { dev < (D.view disks.old).count }
    requires length { IsTrue (D.view disks.old).told → len.old ≡ length ((D.view disks.old).bytes dev) }
    requires near { at ≤ len.old + page_length }
    ensures bytes { OnOk result (IsTrue (D.view disks.old).told → (D.view disks.new).bytes dev ≡ all_written (zeros_before len.old at) ((D.view disks.old).bytes dev)) }
    ensures length { OnOk result (len.new ≡ max len.old at) }
    ensures later { len.old ≤ len.new }
    ensures left { UnlessDown (result_err result) (IsLeftBy len.old [] (D.view disks.old) (D.view disks.new) dev len.new) }
    ensures images { KeepsSides len.old [] (D.view disks.old) (D.view disks.new) dev }
    ensures others { KeepsOthers dev (D.view disks.old) (D.view disks.new) (result_err result) }
    ensures cause { HasCause (D.view disks.old) (D.view disks.new) (result_err result) }
    ensures full { FullOnly dev ((D.view disks.old).limit dev) at (result_err result) }
{
    let end = *len;
    if end < at {
        let zeros = [0; PAGE];
        let count = (at - end) as usize;
        put(disks, dev, end, &zeros[..count])?;
        *len = at;
    }
    Ok(())
}

/// One page, on its side; the buffer is for its bytes.
fn write_one<P, C: PageCodec<P>, D: Disks>(
    disks: &mut D,
    dev: u32,
    codec: &C,
    frames: &LruCache<u32, P>,
    dirty: Dirty,
    len: &mut u64,
    buffer: &mut [u8; PAGE],
) -> Result<(), DiskErr>
    requires known { dev < (D.view disks.old).count }
    requires length { IsTrue (D.view disks.old).told → len.old ≡ length ((D.view disks.old).bytes dev) }
    requires side { dirty.side ≤ 1 }
    requires near { place_of dirty ≤ len.old + page_length }
    requires framed { is_some (lookup (nat_eq dirty.page) frames.now.entries) ≡ true }
    ensures bytes { OnOk result (IsTrue (D.view disks.old).told → (D.view disks.new).bytes dev ≡ all_written (writes_one (bytes_in (C.spelled codec.now) frames.now.entries) dirty len.old) ((D.view disks.old).bytes dev)) }
    ensures stands { OnOk result (IsTrue (D.view disks.old).told → side_bytes ((D.view disks.new).bytes dev) dirty.page dirty.side ≡ bytes_in (C.spelled codec.now) frames.now.entries dirty.page) }
    ensures page { OnOk result (IsSpelledBack (C.spelled codec.now) (C.spelled_in codec.now) (lookup (nat_eq dirty.page) frames.now.entries)) }
    ensures length { OnOk result (len.new ≡ length_with len.old dirty) }
    ensures later { len.old ≤ len.new }
    ensures left { UnlessDown (result_err result) (IsLeftBy len.old (dirty ∷ []) (D.view disks.old) (D.view disks.new) dev len.new) }
    ensures images { KeepsSides len.old (dirty ∷ []) (D.view disks.old) (D.view disks.new) dev }
    ensures others { KeepsOthers dev (D.view disks.old) (D.view disks.new) (result_err result) }
    ensures cause { HasCause (D.view disks.old) (D.view disks.new) (result_err result) }
    ensures full { FullOnly dev ((D.view disks.old).limit dev) (place_of dirty + page_length) (result_err result) }
    ensures fits { OnOk result (place_of dirty + page_length ≤ (D.view disks.old).limit dev) }
{
    let Some(page) = frames.peek(&dirty.page) else {
        unreachable!()
    };
    codec.write(page, buffer);
    let at = place_of(dirty);
    let end = length_with(*len, dirty);
    zeros_up_to(disks, dev, len, at)?;
    put(disks, dev, at, buffer)?;
    *len = end;
    Ok(())
}

/// Dirty pages, one after another, each by way of the buffer.
pub fn write_dirty<P, C: PageCodec<P>, D: Disks>(
    disks: &mut D,
    dev: u32,
    codec: &C,
    frames: &LruCache<u32, P>,
    dirty: &[Dirty],
    len: &mut u64,
    buffer: &mut [u8; PAGE],
) -> Result<(), DiskErr>
    requires known { dev < (D.view disks.old).count }
    requires length { IsTrue (D.view disks.old).told → len.old ≡ length ((D.view disks.old).bytes dev) }
    requires sides { AreSides dirty.now }
    requires rising { (low : ℕ) × IsRisingFrom low dirty.now }
    requires near { AreNear len.old dirty.now }
    requires framed { AreFramed frames.now.entries dirty.now }
    ensures bytes { OnOk result (IsTrue (D.view disks.old).told → (D.view disks.new).bytes dev ≡ all_written (writes_of (bytes_in (C.spelled codec.now) frames.now.entries) dirty.now len.old) ((D.view disks.old).bytes dev)) }
    ensures stand { OnOk result (IsTrue (D.view disks.old).told → AreOnSides (C.spelled codec.now) frames.now.entries dirty.now ((D.view disks.new).bytes dev)) }
    ensures pages { OnOk result (AreSpelledBack (C.spelled codec.now) (C.spelled_in codec.now) frames.now.entries dirty.now) }
    ensures length { OnOk result (len.new ≡ length_behind len.old dirty.now) }
    ensures later { len.old ≤ len.new }
    ensures left { UnlessDown (result_err result) (IsLeftBy len.old dirty.now (D.view disks.old) (D.view disks.new) dev len.new) }
    ensures images { KeepsSides len.old dirty.now (D.view disks.old) (D.view disks.new) dev }
    ensures others { KeepsOthers dev (D.view disks.old) (D.view disks.new) (result_err result) }
    ensures cause { HasCause (D.view disks.old) (D.view disks.new) (result_err result) }
    ensures full { FullOnly dev ((D.view disks.old).limit dev) (end_of dirty.now) (result_err result) }
    ensures fits { OnOk result (end_of dirty.now ≤ (D.view disks.old).limit dev) }
{
    match dirty {
        [] => Ok(()),
        [first, rest @ ..] => {
            write_one(disks, dev, codec, frames, *first, len, buffer)?;
            write_dirty(disks, dev, codec, frames, rest, len, buffer)
        }
    }
}
