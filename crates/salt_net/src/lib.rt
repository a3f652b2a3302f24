//! How a coordinator and its nodes come to one decision on a unit, by messages that may be lost, repeated or late.
#![tactic(auto)]

mod alone;
mod ballot;
mod book;
mod deeds;
mod kept;
mod kinds;
mod laws;
mod leader;
mod net;
mod nodes;
mod pace;
mod polls;
mod reaction;
mod waiting;

pub use alone::commit_alone;
pub use kinds::{Deed, Message, NetErr, NetEvent, NodeStatus};
pub use laws::{deeds_are_changes, every_commit_ends, every_net_is_agreed};
pub use net::Net;
pub use nodes::Nodes;
pub use pace::{Left, Messages};
pub use waiting::{Twist, Waiting};
