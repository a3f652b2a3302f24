//! What the writes to a device since the last sync have covered.
ghost use Rattle.std.specs.Prelude.{[], IsSome, OnErr, OnOk, ℕ, ◌++◌, ◌<◌, ◌≡◌, ◌≤◌, ◌∷◌, slice_index};
ghost use Rattle.salt_disk.specs.Marks.{place_mark};

use std::alloc::{AllocError, Global};
use std::marker::Model;

/// The places from `at` to `end`, which a write has covered. What stood there before it, up to the end that the device had
/// then, stands from `from` to `till` among the bytes that are kept. So an append keeps no byte.
#[derive(Clone, Copy, Debug)]
struct Span {
    at: usize,
    end: usize,
    from: usize,
    till: usize,
}

/// What each write has covered, the earliest first. What they have written over is kept in one buffer, each write's bytes
/// behind those of the one before. The buffer keeps its room where it is emptied, so that later writes take no memory.
#[derive(Debug, Drop)]
pub struct Covers {
    spans: Vec<Span>,
    was: Vec<u8>,
}

impl Model for Covers {
    ghost use Rattle.std.specs.Prelude.{List};
    ghost use Rattle.salt_disk.specs.Marks.{Cover};
    ghost use Rattle.salt_disk.specs.Spans.{AreKept, covers_at};

    ghost Value = { List Cover };

    ghost view = { λ c. covers_at c.was.items c.spans.items };

    ghost invariant = { λ c. AreKept c.was.items c.spans.items };
}

impl Covers {
    /// No write has covered a place.
    pub fn new(alloc: Global) -> Covers
        ensures { result ≡ [] }
    {
        Covers {
            spans: Vec::new(alloc),
            was: Vec::new(alloc),
        }
    }

    /// One more write, which has covered the places from `at` to `end`, where these bytes stood. Without memory nothing changes.
    pub fn push(&mut self, at: usize, end: usize, was: &[u8]) -> Result<(), AllocError>
        ensures ok { OnOk result (self.new ≡ self.old ++ record { at = at; end = end; was = was.now } ∷ []) }
        ensures err { OnErr result (self.new ≡ self.old) }
    {
        self.spans.reserve(1)?;
        let from = self.was.len();
        self.was.extend_from_slice(was)?;
        let till = self.was.len();
        self.spans.push_reserved(Span {
            at,
            end,
            from,
            till,
        });
        Ok(())
    }

    /// From here on no place is covered.
    pub fn clear(&mut self)
        ensures { self.new ≡ [] }
    {
        self.spans.clear();
        self.was.clear();
    }

    /// The byte at the last sync, where a write has covered the place since: it stood there before the first that did.
    pub fn mark_of(&self, place: usize) -> Option<u8>
        ensures { result ≡ place_mark self.now place }
    {
        for span in &self.spans {
            if span.at <= place && place < span.end {
                return Some(byte_of(&self.was[span.from..span.till], place - span.at));
            }
        }
        None
    }

    /// The first of the places that are covered, and the end of the last, among `len` places.
    pub fn bounds(&self, len: usize) -> (usize, usize)
        ensures within { result.1 ≤ len }
        ensures first { (i : ℕ) → IsSome (place_mark self.now i) → result.0 ≤ i }
        ensures last { (i : ℕ) → i < len → IsSome (place_mark self.now i) → i < result.1 }
    {
        let mut first = usize::MAX;
        let mut last = 0;
        for span in &self.spans {
            first = first.min(span.at);
            last = last.max(span.end);
        }
        (first, last.min(len))
    }
}

fn byte_of(bytes: &[u8], place: usize) -> u8
    ensures { result ≡ slice_index bytes.now place }
{
    bytes.get(place).copied().unwrap_or(0)
}
