//! The parameters and variables of a unit.

use salt_values::{Name, Value};
use sqlite_items::Items;

/// A parameter or a variable, and its value.
#[derive(Drop)]
pub struct Binding {
    pub name: Name,
    pub value: Value,
}

/// The parameters, and then the variables, in the order of the program.
pub type Vars = Items<Binding>;
