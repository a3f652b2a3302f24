//! What is known before the first event.

ghost use Rattle.salt_audit.specs.Retelling.{retold};
ghost use Rattle.salt_judge.specs.Meetings.{HoldsMeetings, has_committed};
ghost use Rattle.salt_judge.specs.Reads.{HoldsReads, sources_in};
ghost use Rattle.salt_values.specs.declared.id.Id.{Id};
ghost use Rattle.std.specs.Prelude.{[], false, ◌≡◌};

use crate::met::{Ending, Meetings};
use crate::reads::{Reads, Sources};
use salt_audit::no_marks;
use salt_values::Id;
use sqlite_items::Items;
use std::alloc::Global;
use std::collections::BTreeMap;

fn no_sources(alloc: Global) -> BTreeMap<Id, Sources>
    ensures { (u : Id) → sources_in u result ≡ [] }
{
    BTreeMap::new(alloc)
}

/// Nothing is read before the first event.
pub fn no_reads(alloc: Global) -> Reads
    ensures { HoldsReads result (retold []) }
{
    Reads {
        last: Vec::new(alloc),
        sources: no_sources(alloc),
        parts: no_sources(alloc),
        released: no_marks(alloc),
        openings: Items::new(alloc),
    }
}

fn no_endings(alloc: Global) -> BTreeMap<Id, Ending>
    ensures { (u : Id) → has_committed result u ≡ false }
{
    BTreeMap::new(alloc)
}

/// Nobody has met anything before the first event.
pub fn no_meetings(alloc: Global) -> Meetings
    ensures { HoldsMeetings result (retold []) }
{
    Meetings {
        taken: Vec::new(alloc),
        met: Items::new(alloc),
        endings: no_endings(alloc),
    }
}
