//! Pages of rows, as they are spelled.

ghost use Rattle.salt_bytes.specs.Page.{rows_in_page, spell_page};
ghost use Rattle.std.specs.Prelude.{true};

use crate::codec::PageCodec;
use salt_pages::{Page, read_page};
use std::alloc::{AllocError, Global};

/// Pages of rows, with or without NULL as they are read. They are spelled the same either way.
#[derive(Clone, Copy, Debug)]
pub struct PageSpelling {
    /// Whether NULL is read.
    pub nulls: bool,
}

impl PageCodec<Page> for PageSpelling {
    ghost page_in = { λ s. rows_in_page s.nulls };

    ghost spelled_in = { λ s. rows_in_page true };

    ghost spelled = { λ s. spell_page };

    fn read(&self, alloc: Global, bytes: &[u8]) -> Result<Option<Page>, AllocError> {
        read_page(alloc, self.nulls, bytes)
    }

    fn write(&self, page: &Page, out: &mut [u8]) {
        page.write(out);
    }
}
