//! The calls of a source or a sink in memory.
ghost use Rattle.std.specs.Prelude.{◌≡◌, ◌≤◌, ◌&&◌, [], OnOk, OnErr, is_ok};
ghost use Rattle.salt_io.specs.Calls.{succeeds, after_call, with_failing};

use crate::IoFailed;
use std::alloc::{AllocError, Global};
use std::marker::Model;

/// How many calls were made and how many failed, and which are to fail.
#[derive(Debug, Drop)]
pub struct Calls {
    made: u64,
    failing: Vec<u64>,
    faults: u64,
}

impl Model for Calls {
    ghost use Rattle.salt_io.specs.Calls.{CallLog};

    ghost Value = { CallLog };

    ghost view = { λ c. record { made = c.made; failing = c.failing.items; faults = c.faults } };
}

impl Calls {
    /// No call was made, and none is to fail.
    pub fn new(alloc: Global) -> Self
        ensures { result ≡ record { made = 0; failing = []; faults = 0 } }
    {
        Calls {
            made: 0,
            failing: Vec::new(alloc),
            faults: 0,
        }
    }

    /// The call of this number, from 1, is to fail.
    pub fn fail(&mut self, call: u64) -> Result<(), AllocError>
        ensures ok { OnOk result (self.new ≡ with_failing self.old call) }
        ensures err { OnErr result (self.new ≡ self.old) }
    {
        self.failing.push(call)?;
        Ok(())
    }

    /// Counts a call, which fails if it is to, or cannot succeed.
    pub fn count(&mut self, is_possible: bool) -> Result<(), IoFailed>
        ensures answer { is_ok result ≡ (succeeds self.old && is_possible) }
        ensures counted { self.new ≡ after_call self.old (succeeds self.old && is_possible) }
        ensures later { self.old.faults ≤ self.new.faults }
    {
        self.made = self.made.saturating_add(1);
        if is_possible && !self.failing.contains(&self.made) {
            return Ok(());
        }
        self.faults = self.faults.saturating_add(1);
        Err(IoFailed)
    }
}
