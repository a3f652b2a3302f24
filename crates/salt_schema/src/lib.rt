//! The tables defined, and what is refused of tables and statements under them.
#![tactic(auto)]

mod definitions;
mod error;
mod kinds;
mod named;
mod names;
mod refusal;
mod schema;
mod types;
mod unknown;

pub use definitions::Definitions;
pub use error::SchemaErr;
pub use kinds::{
    Kind, gives_truth, gives_type, is_of_kind, kind_of, same_types, takes, type_named, value_type,
};
pub use named::Named;
pub use names::{
    Bindings, doubled_in, field_named, first_of, unknown_among, unknown_in, unknown_name,
    unknown_variable, variable_named,
};
pub use refusal::{Fault, first_fault, statement_fault};
pub use schema::Schema;
pub use types::{is_typed_statement, is_typed_table};
pub use unknown::{
    columns_of, doubled_in_statement, doubled_in_table, unknown_in_statement, unknown_in_table,
};
