//! The calls of disks in memory, and which of them are to fail.
ghost use Rattle.std.specs.Prelude.{◌≡◌, [], None, OnOk, OnErr};
ghost use Rattle.salt_disk.specs.Calls.{after_call, fails_next, with_failing, with_failing_from};

use std::alloc::{AllocError, Global};
use std::marker::Model;

/// How many calls were made, and which are to fail: some by their number from 1, and all from one on.
#[derive(Debug, Drop)]
pub struct Calls {
    made: u64,
    failing: Vec<u64>,
    failing_from: Option<u64>,
}

impl Model for Calls {
    ghost use Rattle.salt_disk.specs.Calls.{CallPlan};

    ghost Value = { CallPlan };

    ghost view = { λ c. record { made = c.made; failing = c.failing.items; failing_from = c.failing_from } };
}

impl Calls {
    /// No call was made, and none is to fail.
    pub fn new(alloc: Global) -> Self
        ensures { result ≡ record { made = 0; failing = []; failing_from = None } }
    {
        Calls {
            made: 0,
            failing: Vec::new(alloc),
            failing_from: None,
        }
    }

    /// The call of this number is to fail.
    pub fn fail(&mut self, call: u64) -> Result<(), AllocError>
        ensures ok { OnOk result (self.new ≡ with_failing self.old call) }
        ensures err { OnErr result (self.new ≡ self.old) }
    {
        self.failing.push(call)?;
        Ok(())
    }

    /// Each call from this number on is to fail.
    pub fn fail_from(&mut self, call: u64)
        ensures { self.new ≡ with_failing_from self.old call }
    {
        self.failing_from = Some(call);
    }

    /// Whether the next call is to fail.
    pub fn fails_next(&self) -> bool
        ensures { result ≡ fails_next self.now }
    {
        let call = self.made.saturating_add(1);
        self.failing_from.is_some_and(|from| from <= call) || self.failing.contains(&call)
    }

    /// Counts a call.
    pub fn count(&mut self)
        ensures { self.new ≡ after_call self.old }
    {
        self.made = self.made.saturating_add(1);
    }
}
