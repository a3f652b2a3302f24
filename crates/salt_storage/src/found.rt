//! What an opening has found.

use salt_program::Catalogue;
use salt_schema::Schema;
use salt_values::Conts;

/// What an opening has found beside the rows.
#[derive(Drop)]
pub struct Found {
    pub schema: Schema,
    pub catalogue: Catalogue,
    /// Where the programs go on that are accepted and not finished, in the order in which they were accepted.
    pub conts: Conts,
    /// The last boot, 0 before the first.
    pub boot: u64,
    /// The number of the last decision, 0 before the first.
    pub decisions: u64,
}

/// The numbers that an opening has found.
#[derive(Clone, Copy, Debug, PartialEq, Eq)]
pub struct Numbers {
    /// The last boot.
    pub boot: u64,
    /// The number of the last decision, 0 before the first.
    pub decisions: u64,
}
