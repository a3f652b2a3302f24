//! What a story so far tells of the events that may come next.

use crate::names::Names;
use salt_ast::Statements;
use salt_model::UnitKind;
use salt_program::Catalogue;
use salt_schema::Schema;
use salt_values::{Conts, Id};
use std::collections::BTreeMap;

/// A unit that has begun.
pub struct Begun {
    pub name: Id,
    pub kind: UnitKind,
    pub is_open: bool,
    /// The statements that it has to do, as its program was when it began, while it is open; a session's own has none.
    pub block: Option<Statements>,
    /// How many it has done.
    pub done: u64,
}

impl Drop for Begun {
    fn drop(self) {
        let Begun {
            name: _name,
            kind: _kind,
            is_open: _is_open,
            block: _block,
            done: _done,
        } = self;
    }
}

/// Units by their names.
pub type Units = BTreeMap<Id, Begun>;

/// What is known behind the events so far.
#[derive(Drop)]
pub struct State {
    pub opened: bool,
    pub schema: Schema,
    pub catalogue: Catalogue,
    /// Where programs go on. Their arguments and variables are not judged.
    pub conts: Conts,
    pub units: Units,
    /// Programs of which a unit has begun.
    pub bases: Names,
    pub accepted: Names,
    pub finished: Names,
}
