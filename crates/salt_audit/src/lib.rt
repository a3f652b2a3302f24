//! The judge of transcripts: what a transcript tells, whether it is formed, and which law it breaks.
#![tactic(auto)]

mod answers;
mod blocks;
mod conts;
mod definitions;
mod formed;
mod laws;
mod marks;
mod names;
mod replay;
mod rows;
mod start;
mod state;
mod telling;
mod units;
mod verdict;

pub use answers::{has_failed, is_amiss, is_same_answer};
pub use formed::{begun, is_formed};
pub use laws::{
    findings_grow, formed_events_name_tables, judging_is_exact, knowledge_goes_on, one_verdict,
    replaying_is_exact, sound_stories_name_tables, stories_agree,
};
pub use marks::{Marks, is_marked, mark, mark_all, no_marks};
pub use names::Names;
pub use replay::is_replay;
pub use rows::rows_of_bytes;
pub use start::nothing_known;
pub use state::{Begun, State, Units};
pub use telling::tell;
pub use verdict::{Law, Verdict};
