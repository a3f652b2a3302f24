//! How pages are spelled.

ghost use Rattle.salt_bytes.specs.Page.{page_length};
ghost use Rattle.std.specs.Prelude.{IfOk, List, Option, Some, length, ℕ, ◌≡◌};

use std::alloc::{AllocError, Global};

/// A spelling of pages, each in 8,192 bytes.
pub trait PageCodec<P> {
    /// The page that is read of bytes.
    ghost page_in: { Self → List ℕ → Option P };

    /// The page that these bytes spell, also where `read` takes fewer of them.
    ghost spelled_in: { Self → List ℕ → Option P };

    /// The bytes of a page.
    ghost spelled: { Self → P → List ℕ };

    /// The page that the bytes spell, `None` exactly where none is read of them.
    fn read(&self, alloc: Global, bytes: &[u8]) -> Result<Option<P>, AllocError>
        requires { length bytes.now ≡ page_length }
        ensures { IfOk result (λ found. found ≡ page_in self.now bytes.now) };

    /// Fills 8,192 bytes with the page's. They spell this page.
    fn write(&self, page: &P, out: &mut [u8])
        requires { length out.old ≡ page_length }
        ensures bytes { out.new ≡ spelled self.now page.now }
        ensures page { spelled_in self.now out.new ≡ Some page.now }
        ensures length { length out.new ≡ page_length };
}
