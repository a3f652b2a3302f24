//! The coordinator's log: which boots, definitions and decided units there were, and where BASE programs go on. It stands on two
//! devices, of which one counts; a snapshot begins the other one anew.
#![tactic(auto)]

mod conts;
mod decisions;
mod entry;
mod going;
mod header;
mod header_payload;
mod kept;
mod moves;
mod open;
mod pair;
mod payload;
mod read;
mod said;
mod which;

pub use decisions::Decisions;
pub use header::Definition;
pub use header_payload::FORMAT;
pub use kept::{Kept, Texts};
pub use moves::apply_move;
pub use open::{are_spent, open_decisions, peek};
pub use salt_gatelog::OpenErr;
