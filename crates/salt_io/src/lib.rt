//! Where bytes come from and go to: sources, sinks, and the lines of a script.
#![tactic(auto)]

mod buffer;
mod calls;
mod line_text;
mod lines;
mod memory;
mod std_streams;
mod streams;

pub use buffer::WriteBuffer;
pub use lines::{LineErr, Lines, Next, lines_join};
pub use memory::{MemSink, MemSource};
pub use std_streams::{StdSink, StdSource};
pub use streams::{IoFailed, Sink, Source, write_whole};
