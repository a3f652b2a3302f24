//! The tokens of lines, the trees of tables, statements, programs and lines, which texts spell them, their canonical
//! texts, and what is refused of them.
#![tactic(auto)]

mod appender;
mod clauses;
mod copy;
mod error;
mod exprs;
mod keyword;
mod laws;
mod lexeme;
mod limit;
mod lines;
mod path_laws;
mod print;
mod printer;
mod program_copies;
mod program_texts;
mod programs;
mod rows;
mod same;
mod scanner;
mod shared;
mod sign;
mod token;
mod token_laws;
mod trees;
mod values;

pub use error::ScanErr;
pub use keyword::Keyword;
pub use laws::{canonical_program, canonical_statement, canonical_table};
pub use lexeme::{Lexeme, lexemes};
pub use limit::LimitName;
pub use lines::{Act, Line, Pairs};
pub use path_laws::{rest_of_a_part, ways_lead_on};
pub use print::{print_program, print_statement, print_table, send_statement, send_value};
pub use printer::{Canonical, Printer};
pub use programs::{Body, Next, PartDef, Parts, ProgramDef};
pub use same::same_bytes;
pub use scanner::{is_blank, scan};
pub use shared::Shared;
pub use sign::Sign;
pub use token::{Token, TokenKind, Tokens};
pub use token_laws::{keyword_spellings, one_row, quoted_text, sign_spellings, written_number};
pub use trees::{
    Bound, ColType, Expr, Exprs, Field, Fields, Op, Scan, Scope, Set, Sets, Statement, Statements,
    TableDef, What,
};
