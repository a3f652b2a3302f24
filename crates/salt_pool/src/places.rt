//! Dirty pages in the order of their numbers.

ghost use Rattle.salt_pool.specs.Dirtied.{IsRisingFrom, is_dirty, put_dirty};
ghost use Rattle.salt_pool.specs.Frames.{frame_count};
ghost use Rattle.std.specs.Prelude.{false, length, ◌<◌, ◌≡◌, ◌≤◌};

use arrayvec::ArrayVec;

/// How many frames there are.
pub const FRAMES: usize = 64;

/// A page that is to be written, and to which side.
#[derive(Clone, Copy, Debug, Default)]
pub struct Dirty {
    pub(crate) page: u32,
    pub(crate) side: u8,
}

/// Whether a page is among these.
pub fn is_among(dirty: &[Dirty], page: u32) -> bool
    ensures { result ≡ is_dirty dirty.now page }
{
    dirty.iter().any(|d| d.page == page)
}

/// Puts a page at its place among dirty ones; one that is among them goes to this side then.
pub fn put_dirty(dirty: &mut ArrayVec<Dirty, FRAMES>, added: Dirty)
    requires rising { IsRisingFrom 0 dirty.old.items }
    requires room { is_dirty dirty.old.items added.page ≡ false → length dirty.old.items < frame_count }
    ensures { dirty.new.items ≡ put_dirty added dirty.old.items }
{
    let found = dirty
        .as_slice()
        .binary_search_by_key(&added.page, |d| d.page);
    match found {
        Ok(at) => dirty[at] = added,
        Err(at) => dirty.insert(at, added),
    }
}
