//! Where BASE programs go on.

use crate::copy::TryCopy;
use crate::id::Id;
use crate::value::{Name, Row};
use sqlite_items::Items;
use std::alloc::{AllocError, Global};

/// Where a BASE program goes on that is accepted and not finished.
#[derive(Drop)]
pub struct Cont {
    pub base: Id,
    /// The number of the decision that accepted it.
    pub accepted: u64,
    pub program: Name,
    pub args: Row,
    /// The values of the program's variables.
    pub vars: Row,
    /// The part that comes next, where the first is 1.
    pub next: u32,
    /// How often that part may still fail and be tried again.
    pub tries: u8,
}

impl TryCopy for Cont {
    fn copy(&self, alloc: Global) -> Result<Cont, AllocError> {
        Ok(Cont {
            base: self.base,
            accepted: self.accepted,
            program: self.program.copy(alloc)?,
            args: self.args.copy(alloc)?,
            vars: self.vars.copy(alloc)?,
            next: self.next,
            tries: self.tries,
        })
    }
}

/// Continuations, in the order of acceptance.
pub type Conts = Items<Cont>;
