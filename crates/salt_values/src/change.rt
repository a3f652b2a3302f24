//! What a unit changes.

use crate::copy::TryCopy;
use crate::value::{Key, Row};
use sqlite_items::Items;
use std::alloc::{AllocError, Global};

/// What becomes of the row of a key: its new row, or its removal.
#[derive(Drop)]
pub struct Change {
    /// The table's number.
    pub table: u16,
    pub key: Key,
    pub row: Option<Row>,
}

impl TryCopy for Change {
    fn copy(&self, alloc: Global) -> Result<Change, AllocError> {
        Ok(Change {
            table: self.table,
            key: self.key.copy(alloc)?,
            row: self.row.copy(alloc)?,
        })
    }
}

/// Changes, one a place, in order of table and key where a unit commits them.
pub type Changes = Items<Change>;
