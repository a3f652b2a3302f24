//! The free bytes of pages, and which page has so many.

ghost use Rattle.salt_directory.specs.Space.{AreMost, AreMostBut, HasRoom, may_grow, most_from};
ghost use Rattle.std.specs.Prelude.{OnErr, OnOk, [], get_or, length, slice_set, ◌+◌, ◌++◌, ◌<◌, ◌^◌, ◌∷◌, ◌≡◌};

use std::alloc::{AllocError, Global};
use std::marker::Model;

/// The number that stands for a page, 0 behind the last one.
fn on_page(numbers: &[u16], page: usize) -> u16
    ensures { result ≡ get_or numbers.now page 0 }
{
    if page < numbers.len() {
        numbers[page]
    } else {
        0
    }
}

/// The most free bytes on a page and on those below it.
fn most_from(free: &[u16], most: &[u16], page: usize) -> u16
    requires { page < 2 ^ 32 }
    ensures { result ≡ most_from free.now most.now page }
{
    let left = on_page(most, 2 * page + 1);
    let right = on_page(most, 2 * page + 2);
    on_page(free, page).max(left.max(right))
}

/// Mends what stands for a page, and then for those above it, as far up as it changes.
fn mend(free: &[u16], most: &mut [u16], page: usize)
    requires few { length free.now < 2 ^ 32 }
    requires within { page < length free.now }
    requires others { AreMostBut page free.now most.old }
    ensures { AreMost free.now most.new }
{
    let mut at = page;
    let mut greatest = most_from(free, most, at);
    while at > 0 && most[at] != greatest {
        most[at] = greatest;
        at = (at - 1) / 2;
        greatest = most_from(free, most, at);
    }
    most[at] = greatest;
}

/// The free bytes of each page. Contracts see the list of them.
#[derive(Drop)]
pub struct Space {
    free: Vec<u16>,
    // for each page the most free bytes on it and on those below it: below a page n stand 2 n + 1 and 2 n + 2
    most: Vec<u16>,
    // the free bytes of all pages
    total: u64,
}

impl Model for Space {
    ghost use Rattle.std.specs.Prelude.{List, ℕ};
    ghost use Rattle.salt_directory.specs.Space.{AreMost, IsFew, IsSumOf};

    ghost Value = { List ℕ };

    ghost view = { λ s. s.free.items };

    ghost invariant = { λ s. AreMost s.free.items s.most.items × IsFew s.free.items × IsSumOf s.free.items s.total };
}

impl Space {
    /// No pages.
    pub fn new(alloc: Global) -> Space
        ensures { result ≡ [] }
    {
        Space {
            free: Vec::new(alloc),
            most: Vec::new(alloc),
            total: 0,
        }
    }

    /// The free bytes of a page.
    pub fn free_on(&self, page: u32) -> u16
        requires { page < length self.now }
        ensures { result ≡ get_or self.now page 0 }
    {
        self.free[page as usize]
    }

    /// A new page, behind the others, with so many free bytes. There are fewer than 2^32 - 1.
    pub fn push(&mut self, free: u16) -> Result<(), AllocError>
        requires { length self.old + 1 < 2 ^ 32 }
        ensures ok { OnOk result (self.new ≡ self.old ++ free ∷ []) }
    {
        let page = self.free.as_slice().len();
        self.most.reserve(1)?;
        self.free.push(free)?;
        self.most.push(0)?;
        mend(&self.free, &mut self.most, page);
        self.total += u64::from(free);
        Ok(())
    }

    /// A page has so many free bytes now. An error leaves them as they were.
    pub fn set(&mut self, page: u32, free: u16) -> Result<(), AllocError>
        requires { page < length self.old }
        ensures ok { OnOk result (self.new ≡ slice_set self.old page free) }
        ensures err { OnErr result (self.new ≡ self.old) }
    {
        let before = self.free[page as usize];
        self.free[page as usize] = free;
        mend(&self.free, &mut self.most, page as usize);
        self.total = self.total + u64::from(free) - u64::from(before);
        Ok(())
    }

    /// Whether the rows fill half of the pages: of each page 4,076 bytes at least are used on the whole.
    pub fn may_grow(&self) -> bool
        ensures { result ≡ may_grow self.now }
    {
        let count = self.free.as_slice().len() as u64;
        self.total <= count * 4114
    }

    /// A page with at least so many free bytes.
    pub fn with_room(&self, needed: u16) -> Option<u32>
        ensures { HasRoom self.now needed result }
    {
        if self.most.is_empty() || self.most[0] < needed {
            return None;
        }
        let mut at = 0;
        while self.free[at] < needed {
            let left = 2 * at + 1;
            at = if on_page(&self.most, left) >= needed {
                left
            } else {
                left + 1
            };
        }
        Some(at as u32)
    }
}
