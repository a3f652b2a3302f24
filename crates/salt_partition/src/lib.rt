//! One partition: its rows, and the units that are prepared in its log. The rows stand in memory, in one ordered map; no page is
//! read or written yet.
#![tactic(auto)]

mod compared;
mod contents;
mod copies;
mod create;
mod devices;
mod frame;
mod generations;
mod known;
mod open;
mod partition;
mod reopen;
mod rows;
mod sets;
mod units;

pub use contents::{LogContent, ReadLog, content_of};
pub use copies::changes_copied;
pub use create::create_partition;
pub use devices::{log_a, log_of, pages_of};
pub use frame::prepared_frame;
pub use generations::{Side, counting_log};
pub use known::is_known_log;
pub use open::{chosen_log, open_partition};
pub use partition::Partition;
pub use sets::{is_in, set_of};
pub use units::unit_told;
