//! Stories with early openings: what ACID units don't see of the programs that these name, and the turns that lines give them.
//!
//! The definitions of the first two laws are salt_promise's (specs/EarlyOpenings.antt). Here stand:
//! - Least: whose turn it is, said without looking for it;
//! - EarlyRows: a story that is computed, and what is no such story.
#![tactic(auto)]

mod laws;

pub use laws::{held_back_is_hidden, turns_are_given, turns_are_of_the_least};
