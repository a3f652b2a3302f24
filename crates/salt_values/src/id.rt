//! Names of units and programs.

use sqlite_items::Items;

/// The name of a unit or of a BASE program: the boot in which it began, and its number in that boot, from 1.
#[derive(Clone, Copy, Debug, PartialEq, Eq, PartialOrd, Ord)]
pub struct Id {
    pub boot: u64,
    pub seq: u64,
}

/// Names of units or programs.
pub type Ids = Items<Id>;
