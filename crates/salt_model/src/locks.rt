//! What statements reach, and the locks on it.

use crate::events::Owner;
use salt_ranges::KeyRange;

/// Whose lock it is: an ACID unit's, a BASE subtransaction's, or a BASE program's that is committed in part.
#[derive(Clone, Copy, Debug, PartialEq, Eq)]
pub enum Family {
    Acid,
    Alkaline,
    Saline,
}

/// Whether a statement reads its reach or may write there.
#[derive(Clone, Copy, Debug, PartialEq, Eq)]
pub enum Mode {
    Read,
    Write,
}

/// What a statement reaches: one range of one table, by the table's number.
#[derive(Drop)]
pub struct Reach {
    pub table: u16,
    pub range: KeyRange,
    pub mode: Mode,
}

/// A lock that is held, on a range of the table with the number.
pub struct Lock {
    pub owner: Owner,
    pub family: Family,
    pub mode: Mode,
    pub table: u16,
    pub range: KeyRange,
}

impl Drop for Lock {
    fn drop(self) {
        let Lock {
            owner: _owner,
            family: _family,
            mode: _mode,
            table: _table,
            range: _range,
        } = self;
    }
}
