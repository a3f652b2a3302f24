//! Values, rows, names and numbers of units, as every layer sees them.
#![tactic(auto)]

mod change;
mod cont;
mod copy;
mod id;
mod ids;
pub mod limits;
mod steps;
mod text;
mod value;

pub use change::{Change, Changes};
pub use cont::{Cont, Conts};
pub use copy::{TryCopy, copies};
pub use id::{Id, Ids};
pub use ids::{
    both_in_order, drop_ids, has_id, in_order, insert_id, is_older, is_same_id, next_number,
};
pub use steps::Steps;
pub use text::{Text, TextErr};
pub use value::{Bytes, Key, Name, Names, Row, Rows, Value};
