//! The store of a partition's rows.

ghost use Rattle.salt_rows.specs.Sides.{spare_side};
ghost use Rattle.salt_rows.specs.Stores.{IsSide, page_count, sides_of, with_named};
ghost use Rattle.salt_bytes.specs.Spellable.{Every};
ghost use Rattle.std.specs.Prelude.{◌≡◌, ◌≤◌};

use salt_directory::{Directory, Space};
use salt_pages::Page;
use salt_pool::{PageSpelling, Pool};
use sqlite_items::Items;
use std::alloc::Global;

/// The rows of a partition, on the pages of its device. In memory are the page of each row, the free bytes of each page, and at most 64
/// pages.
#[derive(Drop)]
pub struct RowStore {
    pub(crate) alloc: Global,
    pub(crate) pool: Pool<Page, PageSpelling>,
    // the sides that the header names, of the pages that it lists
    pub(crate) named: Items<u8>,
    // the side that each page was written to last, or is to be written to
    pub(crate) sides: Vec<u8>,
    pub(crate) directory: Directory,
    pub(crate) space: Space,
}

impl RowStore {
    /// The side of each page now.
    pub fn sides(&self) -> &[u8]
        ensures { result.now ≡ sides_of self.now }
    {
        self.sides.as_slice()
    }

    /// How many pages there are.
    pub fn page_count(&self) -> usize
        ensures { result ≡ page_count self.now }
    {
        self.sides.as_slice().len()
    }

    /// The side to which a page may be written: the one that the header does not name, and 0 where it does not list the page.
    pub(crate) fn spare_side(&self, page: u32) -> u8
        requires { Every IsSide self.now.named }
        ensures is { result ≡ spare_side self.now.named page }
        ensures low { result ≤ 1 }
    {
        let named = self.named.as_slice();
        if (page as usize) < named.len() {
            1 - named[page as usize]
        } else {
            0
        }
    }

    /// The header names these sides from now on: those of the pages now, where nothing is to be written.
    pub fn named_as(&mut self, sides: Items<u8>)
        ensures { self.new ≡ with_named self.old sides }
    {
        self.named = sides;
    }
}
