//! A database: it is opened and served, over a storage.
//!
//! Closed it has an `Opening`, which finds what a storage holds, begins a boot and goes on with what programs have left; open it has a
//! `salt_engine::Engine`, which is made behind the opening's Ready or Early and does lines. `salt_drain` chooses in memory what comes next in
//! an opening.
#![tactic(auto)]

mod beginning;
mod database;
mod finding;
mod onward;
mod opening;
mod recovering;
mod reopening;

pub use database::Database;
pub use opening::Opening;
