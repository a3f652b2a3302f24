//! What is known of who read from whom.

use salt_audit::Marks;
use salt_values::{Id, Ids, Key};
use sqlite_items::Items;
use std::collections::BTreeMap;

/// A place that commits have changed, and the unit that changed it last.
#[derive(Drop)]
pub struct Writing {
    pub unit: Id,
    pub table: u16,
    pub key: Key,
}

/// The units that are noted for a name: those from whom a unit has read, or those of a program.
#[derive(Drop)]
pub struct Sources {
    pub units: Ids,
}

/// An early opening: the programs that it named, and those that it found and did not name.
#[derive(Drop)]
pub struct Opening {
    pub named: Ids,
    pub passed: Ids,
}

/// What is known behind the events so far of who read from whom.
#[derive(Drop)]
pub struct Reads {
    /// The latest first.
    pub last: Vec<Writing>,
    pub sources: BTreeMap<Id, Sources>,
    /// The subtransactions of each program.
    pub parts: BTreeMap<Id, Sources>,
    /// The programs that are released.
    pub released: Marks,
    /// The latest first.
    pub openings: Items<Opening>,
}
