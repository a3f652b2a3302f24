//! What is kept of units, by their names.

ghost use Rattle.salt_net.specs.Kept.{IsAtHand};

use crate::kept::Kept;
use salt_values::Id;
use std::alloc::{AllocError, Global};
use std::collections::BTreeMap;

/// What is kept of each unit by its name. What was written last is at hand beside it, since a commit reads and writes one unit many times.
#[derive(Drop)]
pub struct Polls {
    pub by_name: BTreeMap<Id, Kept>,
    pub last: Option<(Id, Kept)>,
    ghost at_hand: { IsAtHand by_name last },
}

impl Polls {
    ghost use Rattle.salt_net.specs.Kept.{Writes};
    ghost use Rattle.salt_values.specs.Order.{id_cmp};
    ghost use Rattle.std.specs.BTreeMap.{IsEmpty, IsUnchanged, get};
    ghost use Rattle.std.specs.Prelude.{OnErr, OnOk, ◌≡◌};

    /// Nothing is kept.
    pub fn new(alloc: Global) -> Polls
        ensures { IsEmpty result.by_name }
    {
        Polls {
            by_name: BTreeMap::new(alloc),
            last: None,
        }
    }

    /// What is kept of a unit.
    pub fn get(&self, unit: Id) -> Option<Kept>
        ensures { result ≡ get id_cmp self.now.by_name unit }
    {
        if let Some((name, kept)) = self.last {
            if name == unit {
                return Some(kept);
            }
        }
        match self.by_name.get(&unit) {
            Some(kept) => Some(*kept),
            None => None,
        }
    }

    /// Keeps this of a unit.
    pub fn insert(&mut self, unit: Id, kept: &Kept) -> Result<(), AllocError>
        ensures ok { OnOk result (Writes self.old.by_name self.new.by_name unit kept.now) }
        ensures err { OnErr result (IsUnchanged self.old.by_name self.new.by_name) }
    {
        match self.by_name.insert(unit, *kept) {
            Ok(_) => {
                self.last = Some((unit, *kept));
                Ok(())
            }
            Err(_) => Err(AllocError),
        }
    }
}
