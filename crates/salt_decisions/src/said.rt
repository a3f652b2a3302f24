//! What a log says, entry by entry.

ghost use Rattle.salt_decisions.specs.Entry.{decision_of, entry_of};
ghost use Rattle.salt_decisions.specs.Header.{numbered_of};
ghost use Rattle.salt_decisions.specs.Said.{HasHeard, SaysTold};
ghost use Rattle.salt_bytes.specs.Coordinator.{Boots, Decides, Defines};
ghost use Rattle.salt_stands.specs.CoordinatorLog.{Told, tell};
ghost use Rattle.std.specs.Prelude.{IfOk, ◌+◌, ◌==◌, ◌≡◌};

use crate::entry::{Decided, Entry};
use crate::header::{Definition, Definitions};
use crate::kept::Texts;
use salt_values::{Bytes, Ids};
use std::alloc::AllocError;

/// What a log says up to some entry.
#[derive(Drop)]
pub struct Said {
    pub boot: u64,
    pub decisions: u64,
    pub definitions: Definitions,
    pub decided: Ids,
    pub masks: Bytes,
    pub moves: Texts,
}

/// Whether a number is the one behind another.
fn follows(number: u64, before: u64) -> bool
    ensures { result ≡ (number == before + 1) }
{
    before.checked_add(1) == Some(number)
}

impl Said {
    fn hear_boot(&mut self, boot: u64) -> bool
        ensures { (t : Told) → SaysTold self.old t → HasHeard result self.new (tell t (Boots boot)) }
    {
        if !follows(boot, self.boot) {
            return false;
        }
        self.boot = boot;
        true
    }

    fn hear_definition(&mut self, definition: Definition) -> Result<bool, AllocError>
        ensures { (t : Told) → SaysTold self.old t → IfOk result (λ fits. HasHeard fits self.new (tell t (Defines (numbered_of definition)))) }
    {
        if !follows(definition.number, self.decisions) {
            return Ok(false);
        }
        self.decisions = definition.number;
        self.definitions.push(definition)?;
        Ok(true)
    }

    fn hear_decision(&mut self, decided: Decided) -> Result<bool, AllocError>
        ensures { (t : Told) → SaysTold self.old t → IfOk result (λ fits. HasHeard fits self.new (tell t (Decides (decision_of decided)))) }
    {
        if !follows(decided.number, self.decisions) {
            return Ok(false);
        }
        let Decided {
            number,
            unit,
            parts,
            mv,
        } = decided;
        self.decisions = number;
        self.decided.push(unit)?;
        self.masks.push(parts)?;
        self.moves.push(mv)?;
        Ok(true)
    }

    /// Takes one more entry, where its number is the next; else it answers false.
    pub fn hear(&mut self, entry: Entry) -> Result<bool, AllocError>
        ensures { (t : Told) → SaysTold self.old t → IfOk result (λ fits. HasHeard fits self.new (tell t (entry_of entry))) }
    {
        match entry {
            Entry::Boots(boot) => Ok(self.hear_boot(boot)),
            Entry::Defines(definition) => self.hear_definition(definition),
            Entry::Decides(decided) => self.hear_decision(decided),
        }
    }
}
