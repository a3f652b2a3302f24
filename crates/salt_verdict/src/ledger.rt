//! What is known of a story so far for its laws.

use crate::rows::Rows;
use salt_ast::Statements;
use salt_audit::State;
use salt_model::{Answer, Vars};
use salt_values::{Id, Ids};
use sqlite_items::Items;
use std::collections::BTreeMap;

/// What a unit has done.
#[derive(Drop)]
pub struct Act {
    /// The variables with which it began.
    pub vars: Vars,
    pub done: Statements,
    /// As they were told.
    pub answers: Items<Answer>,
}

/// What open units have done, by their names.
pub type Acts = BTreeMap<Id, Act>;

/// What is known behind the events so far.
#[derive(Drop)]
pub struct Ledger {
    /// It has the programs that go on with their arguments and variables.
    pub state: State,
    /// The rows that the commits so far have made.
    pub rows: Rows,
    pub acts: Acts,
    /// The units, in the order in which they began.
    pub order: Ids,
    /// Those of them that are open.
    pub active: Vec<Id>,
}
