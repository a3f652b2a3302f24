//! The laws judged at an event: who read from whom and who met whom, and the first law that is broken.
#![tactic(auto)]

mod judge;
mod laws;
mod meetings;
mod met;
mod readers;
mod reads;
mod salted;
mod search;
mod settled;
mod start;

pub use judge::{Judge, judge_event, nothing_judged};
pub use laws::{
    meeting_goes_on, reading_goes_on, salted_is_exact, settling_goes_on, whole_is_exact,
};
pub use meetings::{take_meetings, unwhole};
pub use met::{Ending, Meetings, Met, Touch};
pub use readers::take_reads;
pub use reads::{Opening, Reads, Sources, Writing};
pub use salted::unsalted;
pub use start::{no_meetings, no_reads};
