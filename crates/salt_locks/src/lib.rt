//! The locks that are held: asking, taking, handing over and dropping them.
#![tactic(auto)]

mod alike;
mod clash;
mod clear;
mod copies;
mod drops;
mod laws;
mod leaving;
mod owners;
mod places;
mod salts;
mod spots;
mod table;
mod turns;

pub use clash::clashes;
pub use drops::FEW;
pub use laws::{clashes_fit, drops_fit, takes_fit, to_saline_fits, turns_fit};
pub use owners::is_same_owner;
pub use table::{LockTable, TakeErr};
pub use turns::TakenLock;
