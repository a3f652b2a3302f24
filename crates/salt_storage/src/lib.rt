//! What a database stands on: its rows are read there, and its decisions are made stable there.
#![tactic(auto)]

mod found;
mod halt;
mod storage;

pub use found::{Found, Numbers};
pub use halt::Halt;
pub use salt_gatelog::OpenErr;
pub use storage::Storage;
