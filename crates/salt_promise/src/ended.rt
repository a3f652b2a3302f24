//! What a run leaves.

use crate::status::Status;
use salt_model::{Flight, Story};
use salt_net::Net;

/// How a run ended, the story that it told, the decision that was in flight, and the net that its commits went over since its last
/// opening, where they go over messages and the run ended between two lines.
#[derive(Drop)]
pub struct Ended {
    pub status: Status,
    pub story: Story,
    pub flight: Option<Flight>,
    pub net: Option<Net>,
}
