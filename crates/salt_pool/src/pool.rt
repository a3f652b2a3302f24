//! Frames, and the pages that are in them.

ghost use Rattle.salt_checkpoint.specs.Sides.{all_written, side_bytes};
ghost use Rattle.salt_disk.specs.Disks.{FullOnly, HasCause, KeepsAll, KeepsOthers, OnlyFails, UnlessDown};
ghost use Rattle.salt_disk.specs.declared.disks.DiskErr.TheVariants.{Memory};
ghost use Rattle.salt_pool.specs.Errors.{IsShown, SpellsNone, pool_disk_err};
ghost use Rattle.salt_pool.specs.Flushing.{AreOnSides, AreSpelledBack, IsLeftBy, KeepsSides, end_of};
ghost use Rattle.salt_pool.specs.Frames.{frame_count, last_clean, victim};
ghost use Rattle.salt_pool.specs.Pools.{IsFlushable, IsPool, codec_of, device_of, dirty_of, flushed, flushes, frame_of, length_of, with_dirty, with_frame, with_length, with_page, without_frame};
ghost use Rattle.salt_pool.specs.contracts.pool.Pool.{the_row};
ghost use Rattle.salt_pool.specs.declared.error.PoolErr.TheVariants.{Disk, NotPage, PoolFull};
ghost use Rattle.std.specs.Borrow.{LendsIf, LendsSoOk, sem};
ghost use Rattle.std.specs.Option.{option_copied_mut};
ghost use Rattle.std.specs.Prelude.{Err, IfErr, IfOk, IsTrue, None, OnErr, OnOk, Some, [], is_some, length, true, ◌-◌, ◌<◌, ◌↔◌, ◌==◌, ◌≡◌, ◌≤◌, ◌⊎◌};
ghost use Rattle.std.specs.Result.{result_err};

use crate::codec::PageCodec;
use crate::error::PoolErr;
use crate::flush::{PAGE, write_dirty};
use crate::places::{Dirty, FRAMES, is_among, put_dirty};
use crate::reading::page_on;
use arrayvec::ArrayVec;
use lru::LruCache;
use salt_disk::{DiskErr, Disks};
use std::alloc::{AllocError, AllocFailed, Global};
use std::num::NonZeroUsize;

/// Frames for the pages of a device: at most 64, of which each may be dirty, that is to be written to a side of its page.
#[derive(Drop)]
pub struct Pool<P, C: PageCodec<P>> {
    pub(crate) codec: C,
    pub(crate) dev: u32,
    // how long the device is
    pub(crate) len: u64,
    // the cache has room for one more, so that a page is put in before another gives way
    pub(crate) frames: LruCache<u32, P>,
    // in order of pages
    pub(crate) dirty: ArrayVec<Dirty, FRAMES>,
}

impl<P: Drop, C: PageCodec<P>> Pool<P, C> {
    /// No frames, for a device of this length.
    pub fn new(alloc: Global, codec: C, dev: u32, len: u64) -> Result<Pool<P, C>, AllocError>
    where
        C: Drop,
        ensures frames { IfOk result (λ x. (x.frames.entries ≡ []) × (dirty_of x ≡ [])) }
        ensures device { IfOk result (λ x. (codec_of x ≡ codec) × (device_of x ≡ dev) × (length_of x ≡ len)) }
        ensures pool { IfOk result (λ x. IsPool x) }
    {
        let Some(cap) = NonZeroUsize::new(FRAMES + 1) else {
            unreachable!()
        };
        let frames = LruCache::new(alloc, cap)?;
        Ok(Pool {
            codec,
            dev,
            len,
            frames,
            dirty: ArrayVec::new(),
        })
    }

    /// Whether all frames are dirty: then no other page gets one.
    pub fn is_full(&self) -> bool
        ensures { result ≡ (length (dirty_of self.now) == frame_count) }
    {
        self.dirty.is_full()
    }

    /// How many pages more may be dirty.
    pub fn room(&self) -> usize
        ensures { result ≡ frame_count - length (dirty_of self.now) }
    {
        FRAMES - self.dirty.len()
    }

    /// The page, in its frame, for reading and writing. Where it has none it is read from this side, and the least recently used
    /// clean frame gives way. `PoolFull` comes before any call, exactly where it has no frame and 64 are dirty; `NotPage` only
    /// where it has none and none is read of the side's bytes. An error leaves the pool as it was, and each device.
    pub fn frame<D: Disks>(
        &mut self,
        alloc: Global,
        disks: &mut D,
        page: u32,
        side: u8,
    ) -> Result<&mut P, PoolErr>
        requires known { device_of self.old < (D.view disks.old).count }
        requires side { side ≤ 1 }
        requires pool { IsPool self.old }
        ensures* writes_back { sem 𝓛 (LendsSoOk (the_row P.row C.row) P.row self.entry result (λ n w. (n ≡ with_frame self.old page w) × IsPool n) (λ n. n ≡ self.old)) }
        ensures value { IfOk result (λ shown. IsShown (D.view disks.old).told (C.page_in (codec_of self.old)) (side_bytes ((D.view disks.old).bytes (device_of self.old)) page side) (frame_of self.old page) shown.now) }
        ensures full { result_err result ≡ Some PoolFull ↔ (frame_of self.old page ≡ None) × (length (dirty_of self.old) ≡ frame_count) }
        ensures not_page { result_err result ≡ Some NotPage → (frame_of self.old page ≡ None) × (IsTrue (D.view disks.old).told → SpellsNone (C.page_in (codec_of self.old)) (side_bytes ((D.view disks.old).bytes (device_of self.old)) page side)) }
        ensures no_call { (is_some (frame_of self.old page) ≡ true) ⊎ (length (dirty_of self.old) ≡ frame_count) → disks.new ≡ disks.old }
        ensures kept { KeepsAll (D.view disks.old) (D.view disks.new) (pool_disk_err result) }
        ensures cause { HasCause (D.view disks.old) (D.view disks.new) (pool_disk_err result) }
        ensures answers { OnlyFails (pool_disk_err result) }
    {
        self.load(alloc, disks, page, side)?;
        match self.page_mut(page) {
            Some(lent) => Ok(lent),
            None => unreachable!(),
        }
    }

    /// The page gets a frame, where it has none.
    fn load<D: Disks>(
        &mut self,
        alloc: Global,
        disks: &mut D,
        page: u32,
        side: u8,
    ) -> Result<(), PoolErr>
        requires known { device_of self.old < (D.view disks.old).count }
        requires side { side ≤ 1 }
        requires pool { IsPool self.old }
        ensures has { OnOk result (is_some (frame_of self.new page) ≡ true) }
        ensures ready { OnOk result ((w : _) → with_page self.new page w ≡ with_frame self.old page w) }
        ensures pool { OnOk result ((w : _) → IsPool (with_frame self.old page w)) }
        ensures value { OnOk result ((w : _) → frame_of self.new page ≡ Some w → IsShown (D.view disks.old).told (C.page_in (codec_of self.old)) (side_bytes ((D.view disks.old).bytes (device_of self.old)) page side) (frame_of self.old page) w) }
        ensures err { OnErr result (self.new ≡ self.old) }
        ensures full { result_err result ≡ Some PoolFull ↔ (frame_of self.old page ≡ None) × (length (dirty_of self.old) ≡ frame_count) }
        ensures not_page { result_err result ≡ Some NotPage → (frame_of self.old page ≡ None) × (IsTrue (D.view disks.old).told → SpellsNone (C.page_in (codec_of self.old)) (side_bytes ((D.view disks.old).bytes (device_of self.old)) page side)) }
        ensures no_call { (is_some (frame_of self.old page) ≡ true) ⊎ (length (dirty_of self.old) ≡ frame_count) → disks.new ≡ disks.old }
        ensures kept { KeepsAll (D.view disks.old) (D.view disks.new) (pool_disk_err result) }
        ensures cause { HasCause (D.view disks.old) (D.view disks.new) (pool_disk_err result) }
        ensures answers { OnlyFails (pool_disk_err result) }
    {
        if self.frames.contains(&page) {
            return Ok(());
        }
        if self.dirty.is_full() {
            return Err(PoolErr::PoolFull);
        }
        let read = page_on(alloc, disks, &self.codec, self.dev, page, side)?;
        self.put_in(page, read)?;
        Ok(())
    }

    /// The page in a frame.
    fn page_mut(&mut self, page: u32) -> Option<&mut P>
        ensures* writes_back { sem 𝓛 (LendsIf (the_row P.row C.row) P.row self.entry result (with_page self.old page) self.old) }
        ensures value { option_copied_mut result ≡ frame_of self.old page }
    {
        self.frames.get_mut(&page)
    }

    /// A page that has no frame gets one. Fewer than 64 are dirty. An error leaves the pool as it was.
    fn put_in(&mut self, page: u32, value: P) -> Result<(), AllocFailed<(u32, P)>>
        requires absent { frame_of self.old page ≡ None }
        requires room { length (dirty_of self.old) < frame_count }
        requires pool { IsPool self.old }
        ensures ok { OnOk result (self.new ≡ with_frame self.old page value) }
        ensures pool { OnOk result ((w : _) → IsPool (with_frame self.old page w)) }
        ensures err { OnErr result (self.new ≡ self.old) }
    {
        let victim = self.victim();
        self.frames.put(page, value)?;
        self.take_frame(victim);
        Ok(())
    }

    /// Takes the frame of this page away, where it is one.
    fn take_frame(&mut self, page: Option<u32>)
        ensures { self.new ≡ without_frame self.old page }
    {
        if let Some(page) = page {
            let _evicted = self.frames.pop(&page);
        }
    }

    /// The page whose frame is taken for another page: none while there are fewer than 64.
    fn victim(&self) -> Option<u32>
        ensures { result ≡ victim (dirty_of self.now) self.now.frames.entries }
    {
        if self.frames.len() < FRAMES {
            return None;
        }
        last_clean_of(&mut self.frames.iter(), self.dirty.as_slice())
    }

    /// A new page, which no header lists, gets a frame with this in it, dirty to side 0. `PoolFull` exactly where 64 are dirty;
    /// an error leaves the pool as it was.
    pub fn fresh(&mut self, page: u32, value: P) -> Result<(), PoolErr>
        requires absent { frame_of self.old page ≡ None }
        requires pool { IsPool self.old }
        ensures ok { OnOk result (self.new ≡ with_dirty (with_frame self.old page value) (record { page = page; side = 0 })) }
        ensures full { result ≡ Err PoolFull ↔ (length (dirty_of self.old) ≡ frame_count) }
        ensures answers { IfErr result (λ e. (e ≡ PoolFull) ⊎ (e ≡ Disk Memory)) }
        ensures err { OnErr result (self.new ≡ self.old) }
        ensures pool { IsPool self.new }
    {
        if self.dirty.is_full() {
            return Err(PoolErr::PoolFull);
        }
        self.put_in(page, value)?;
        self.dirty(page, 0);
        Ok(())
    }

    /// A page that has a frame is to be written to this side.
    pub fn dirty(&mut self, page: u32, side: u8)
        requires frame { is_some (frame_of self.old page) ≡ true }
        requires side { side ≤ 1 }
        requires pool { IsPool self.old }
        ensures dirty { self.new ≡ with_dirty self.old (record { page = page; side = side }) }
        ensures pool { IsPool self.new }
    {
        put_dirty(&mut self.dirty, Dirty { page, side });
    }

    /// Writes each dirty page to its side, in order of pages, and zeros before one where the device ends below; then no page is dirty.
    /// Nothing is made stable. Whatever it answers, each image of the device is one from before, but for sides to which a dirty page
    /// goes. `Full` comes exactly where a dirty page would end past the device's limit; pages below it may be written then. Behind
    /// `Full` and `Memory` the same pages are dirty, other sides read as before, and the pool can be flushed again.
    pub fn flush<D: Disks>(&mut self, disks: &mut D) -> Result<(), DiskErr>
        requires known { device_of self.old < (D.view disks.old).count }
        requires pool { IsPool self.old }
        requires ready { IsFlushable (D.view disks.old) self.old }
        ensures ok { OnOk result (self.new ≡ flushed self.old) }
        ensures err { OnErr result (self.new ≡ with_length self.old (length_of self.new)) }
        ensures pool { IsPool self.new }
        ensures ready { UnlessDown (result_err result) (IsFlushable (D.view disks.new) self.new) }
        ensures bytes { OnOk result (IsTrue (D.view disks.old).told → (D.view disks.new).bytes (device_of self.old) ≡ all_written (flushes (C.spelled (codec_of self.old)) self.old) ((D.view disks.old).bytes (device_of self.old))) }
        ensures stand { OnOk result (IsTrue (D.view disks.old).told → AreOnSides (C.spelled (codec_of self.old)) self.old.frames.entries (dirty_of self.old) ((D.view disks.new).bytes (device_of self.old))) }
        ensures pages { OnOk result (AreSpelledBack (C.spelled (codec_of self.old)) (C.spelled_in (codec_of self.old)) self.old.frames.entries (dirty_of self.old)) }
        ensures left { UnlessDown (result_err result) (IsLeftBy (length_of self.old) (dirty_of self.old) (D.view disks.old) (D.view disks.new) (device_of self.old) (length_of self.new)) }
        ensures images { KeepsSides (length_of self.old) (dirty_of self.old) (D.view disks.old) (D.view disks.new) (device_of self.old) }
        ensures others { KeepsOthers (device_of self.old) (D.view disks.old) (D.view disks.new) (result_err result) }
        ensures cause { HasCause (D.view disks.old) (D.view disks.new) (result_err result) }
        ensures full { FullOnly (device_of self.old) ((D.view disks.old).limit (device_of self.old)) (end_of (dirty_of self.old)) (result_err result) }
        ensures fits { OnOk result (end_of (dirty_of self.old) ≤ (D.view disks.old).limit (device_of self.old)) }
    {
        let mut buffer = [0; PAGE];
        write_dirty(
            disks,
            self.dev,
            &self.codec,
            &self.frames,
            self.dirty.as_slice(),
            &mut self.len,
            &mut buffer,
        )?;
        self.dirty.clear();
        Ok(())
    }
}

/// The page of the last of these frames that is not dirty.
fn last_clean_of<P>(frames: &mut lru::Iter<'_, u32, P>, dirty: &[Dirty]) -> Option<u32>
    ensures { result ≡ last_clean dirty.now frames.old }
{
    let (page, _frame) = frames.next_back()?;
    if is_among(dirty, *page) {
        last_clean_of(frames, dirty)
    } else {
        Some(*page)
    }
}
