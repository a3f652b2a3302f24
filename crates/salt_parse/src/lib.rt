//! From bytes to the trees of statements, tables and programs.
#![tactic(auto)]

mod built;
mod error;
mod expr;
mod laws;
mod null;
mod parser;
mod program;
mod quoted;
mod read;
mod scan;
mod sealed;
mod statement;
mod symbols;
mod table;
mod token;
mod tree;

pub use error::ParseErr;
pub use laws::{
    one_program, one_statement, one_table, printable_symbols, row_program, row_statement, row_table,
};
pub use quoted::{content, content_len};
pub use read::{program_in, read_program, read_statement, read_table, statement_in, table_in};
pub use token::tokens;
