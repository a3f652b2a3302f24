//! Bytes in memory, as a sink.

use salt_io::{IoFailed, Sink};

/// Appends what is written to bytes in memory; where memory runs out, that is a fault.
pub struct Appender {
    pub bytes: Vec<u8>,
    pub faults: u64,
}

impl Sink for Appender {
    ghost use Rattle.std.specs.Prelude.{Some};

    ghost held = { λ s. Some s.bytes.items };

    ghost faults = { λ s. s.faults };

    fn write(&mut self, bytes: &[u8]) -> Result<usize, IoFailed> {
        match self.bytes.extend_from_slice(bytes) {
            Ok(()) => Ok(bytes.len()),
            Err(_no_memory) => {
                self.faults = self.faults.saturating_add(1);
                Err(IoFailed)
            }
        }
    }
}
