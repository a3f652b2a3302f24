//! What `show locks` and `show bases` show.

use crate::locks::Lock;
use salt_values::{Id, Name};
use sqlite_items::Items as List;

/// Where a BASE program stands.
#[derive(Clone, Copy, Debug, PartialEq, Eq)]
pub enum BaseAt {
    /// In its first part.
    First,
    /// This part is open, or comes next.
    Next(u32),
    Finished,
}

/// A lock, or a BASE program that is not released.
pub enum Item {
    Lock(Lock),
    Base { base: Id, program: Name, at: BaseAt },
}

impl Drop for Item {
    fn drop(self) {
        match self {
            Item::Lock(_lock) => {}
            Item::Base {
                base: _base,
                program: _program,
                at: _at,
            } => {}
        }
    }
}

/// What `show locks` or `show bases` tells, in the order in which it is told.
pub type Items = List<Item>;
