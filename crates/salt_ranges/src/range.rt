//! Ranges of keys, both ends inside.

ghost use Rattle.std.specs.Prelude.{◌≡◌};
ghost use Rattle.salt_ranges.specs.Ranges.{ends_meet, has_key, is_above_low, is_below_high, is_range_empty, meets};

use salt_values::Key;

/// The keys from `lo` to `hi`, both inside; without an end there is none on that side.
/// The keys of one range are of one table, and so of one type.
pub struct KeyRange {
    pub lo: Option<Key>,
    pub hi: Option<Key>,
}

impl Drop for KeyRange {
    fn drop(self) {
        let KeyRange { lo: _lo, hi: _hi } = self;
    }
}

/// Whether the lower end is at most the upper one; an open end is no bound.
pub fn ends_meet(lo: &Option<Key>, hi: &Option<Key>) -> bool
    ensures { result ≡ ends_meet lo.now hi.now }
{
    match (lo, hi) {
        (Some(lo), Some(hi)) => lo <= hi,
        _ => true,
    }
}

/// Whether the lower end leaves the key inside.
pub fn is_above_low(lo: &Option<Key>, key: &Key) -> bool
    ensures { result ≡ is_above_low lo.now key.now }
{
    match lo {
        Some(lo) => lo <= key,
        None => true,
    }
}

/// Whether the upper end leaves the key inside.
fn is_below_high(hi: &Option<Key>, key: &Key) -> bool
    ensures { result ≡ is_below_high hi.now key.now }
{
    match hi {
        Some(hi) => key <= hi,
        None => true,
    }
}

impl KeyRange {
    /// Whether some keys are in both ranges: neither is empty, and the greater lower end is at most
    /// the lesser upper end.
    pub fn meets(&self, other: &KeyRange) -> bool
        ensures { result ≡ meets self.now other.now }
    {
        ends_meet(&self.lo, &self.hi)
            && ends_meet(&other.lo, &other.hi)
            && ends_meet(&self.lo, &other.hi)
            && ends_meet(&other.lo, &self.hi)
    }

    /// Whether the key is in the range, the ends included.
    pub fn has(&self, key: &Key) -> bool
        ensures { result ≡ has_key self.now key.now }
    {
        is_above_low(&self.lo, key) && is_below_high(&self.hi, key)
    }

    /// Whether the lower end is above the upper one, so that no key is in the range.
    pub fn is_empty(&self) -> bool
        ensures { result ≡ is_range_empty self.now }
    {
        !ends_meet(&self.lo, &self.hi)
    }
}
