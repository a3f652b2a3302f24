//! What partitions stand under.

use salt_values::Ids;

/// What a coordinator's log tells the partitions of its store.
#[derive(Drop)]
pub struct Ruling {
    /// The last boot, 0 before the first.
    pub boot: u64,
    /// The format of its header.
    pub format: u8,
    /// The units that are decided with each partition's bit, in order of partitions.
    pub decided: Vec<Ids>,
}
