//! Why bytes give no line.

use salt_model::Refusal;

/// Why bytes give no line.
#[derive(Drop)]
pub enum ReadErr {
    /// The line is refused for its text.
    Refused(Refusal),
    /// Memory ran out.
    Memory,
}
