//! What is known of what statements done reached, and who met it.

use salt_model::Reach;
use salt_values::Id;
use sqlite_items::Items;
use std::collections::BTreeMap;

/// What a statement done reached, by its unit.
#[derive(Drop)]
pub struct Touch {
    pub unit: Id,
    pub reach: Reach,
}

/// An ACID unit's statement met what a part had done, of a program that was not released there.
#[derive(Drop)]
pub struct Met {
    pub acid: Id,
    pub part: Id,
}

/// How a unit has ended.
#[derive(Drop)]
pub struct Ending {
    pub committed: bool,
}

/// What is known behind the events so far of who met what.
#[derive(Drop)]
pub struct Meetings {
    /// Of the parts of programs that are not released, but for parts that are given up.
    pub taken: Vec<Touch>,
    /// The latest first.
    pub met: Items<Met>,
    pub endings: BTreeMap<Id, Ending>,
}
