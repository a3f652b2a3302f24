//! What a decided unit does to the continuations.

use salt_values::{Cont, Id};

/// What a decided unit does to the continuations.
#[derive(Drop)]
pub enum Move {
    /// Nothing: the unit is of no BASE program.
    Plain,
    /// Its program goes on here.
    Continue(Cont),
    /// The program of this number ends.
    Finish(Id),
}
