//! Expressions whose names are found once, and what they give of each row.
#![tactic(auto)]

mod cells;
mod conditions;
mod error;
mod in_row;
mod names;
mod operand;
mod operations;
mod outside;
mod resolved;
mod sets;
mod truth;

pub use cells::Cells;
pub use conditions::{check, passes, resolve_filter};
pub use error::EvalErr;
pub use names::{cell, column_number};
pub use operand::{Operand, in_column};
pub use outside::{condition_outside, value_outside, values_outside};
pub use resolved::{Resolved, resolve};
pub use sets::row_after;
pub use truth::Truth;
